// What stands right of a `=`.
ghost use Rattle.ae_tree.specs.Shown as shown;
ghost use Rattle.ae_tree.specs.Grammar as grammar;
ghost use Rattle.ae_tree.specs.Limits.{KeepsDepth, KeepsRight};
ghost use Rattle.ae_reading.specs.Reads.{Reads, itself, head, Always, Free, Is, Isnt};
ghost use Rattle.std.specs.Prelude.{◌≡◌};
ghost use Rattle.ae_statements.specs.Deciding as deciding;
ghost use Rattle.ae_statements.specs.Deciding.{IsCall, IsValue};
ghost use Rattle.ae_statements.specs.Productions as productions;
ghost use Rattle.ae_statements.specs.Productions.{with_semicolon};

use crate::calls::{called, invoke};
use crate::decide::{Decided, decide};
use crate::simple::ended_expression;
use ae_expressions::expression;
use ae_reading::{Fail, Why, expect_sign, expect_word, is_word_next, name, path, unexpected};
use ae_text::{Keyword, Sign, Spot};
use ae_tree::{Expr, Lexeme, Lexical, Path, Rhs};
use std::alloc::Global;

/// The failure, no earlier than at the token from which on this many are left.
fn no_earlier(fail: Fail, left: usize) -> Fail
    ensures { result ≡ deciding.no_earlier fail left }
{
    match fail {
        Fail::Refused(why, stop) => Fail::Refused(why, if stop < left { stop } else { left }),
        Fail::Memory => Fail::Memory,
    }
}

/// A right side that can only be an expression, which is decided where this many tokens are left.
///
/// An expression that is over its limit before it is known to be one stops where it is.
fn value<'a>(alloc: Global, ts: &'a [Lexeme], left: usize) -> Result<(Rhs, &'a [Lexeme]), Fail>
    requires { IsValue ts.now left }
    ensures { Reads shown.right_side (with_semicolon grammar.right_of_equals) KeepsRight Always ts.now result }
{
    let (e, rest) = match ended_expression(alloc, ts) {
        Ok(read) => read,
        Err(fail) => return Err(no_earlier(fail, left)),
    };
    Ok((Rhs::Expr(e), rest))
}

/// A right side that can only be a call.
fn call<'a>(alloc: Global, ts: &'a [Lexeme]) -> Result<(Rhs, &'a [Lexeme]), Fail>
    requires { IsCall ts.now }
    ensures { Reads shown.right_side (with_semicolon grammar.right_of_equals) KeepsRight Always ts.now result }
{
    let (path, rest) = path(alloc, ts)?;
    let ((groups, args), rest) = called(alloc, rest)?;
    Ok((Rhs::Call(invoke(path, groups, args)), rest))
}

/// A path with at least one step.
fn member<'a>(alloc: Global, ts: &'a [Lexeme]) -> Result<(Path, &'a [Lexeme]), Fail>
    ensures { Reads itself productions.member Free (Isnt (Lexical.Sign Sign.Dot)) ts.now result }
{
    let (path, rest) = path(alloc, ts)?;
    if path.steps.is_empty() {
        return unexpected(rest);
    }
    Ok((path, rest))
}

/// What a field holds, which is taken out of it.
fn taking<'a>(alloc: Global, ts: &'a [Lexeme]) -> Result<(Rhs, &'a [Lexeme]), Fail>
    requires { Is (Lexical.Word Keyword.Take) (head ts.now) }
    ensures { Reads shown.right_side (with_semicolon grammar.right_of_equals) KeepsRight Always ts.now result }
{
    let (at, rest) = expect_word(ts, Keyword::Take)?;
    let (path, rest) = member(alloc, rest)?;
    let (_, rest) = expect_sign(rest, Sign::Semicolon)?;
    Ok((Rhs::Take(path, at), rest))
}

/// How many numbers a new array has, in parentheses, and a semicolon.
fn length<'a>(alloc: Global, ts: &'a [Lexeme]) -> Result<(Expr, &'a [Lexeme]), Fail>
    ensures { Reads shown.expression (with_semicolon productions.sized) KeepsDepth Always ts.now result }
{
    let (_, rest) = expect_word(ts, Keyword::Ints)?;
    let (_, rest) = expect_sign(rest, Sign::OpenParen)?;
    let (e, rest) = expression(alloc, rest)?;
    let (_, rest) = expect_sign(rest, Sign::CloseParen)?;
    let (_, rest) = expect_sign(rest, Sign::Semicolon)?;
    Ok((e, rest))
}

/// A new array of zeros, behind `new`.
fn zeros<'a>(alloc: Global, ts: &'a [Lexeme], at: Spot) -> Result<(Rhs, &'a [Lexeme]), Fail>
    requires { Is (Lexical.Word Keyword.Ints) (head ts.now) }
    ensures { Reads shown.right_side (productions.made_side at) KeepsRight Always ts.now result }
{
    let (e, rest) = length(alloc, ts)?;
    Ok((Rhs::Ints(e, at), rest))
}

/// A new object, behind `new`.
fn object<'a>(alloc: Global, ts: &'a [Lexeme], at: Spot) -> Result<(Rhs, &'a [Lexeme]), Fail>
    requires { Is (Lexical.Word Keyword.Ints) (head ts.now) → ⊥ }
    ensures { Reads shown.right_side (productions.made_side at) KeepsRight Always ts.now result }
{
    let (class, rest) = name(ts)?;
    let ((groups, args), rest) = called(alloc, rest)?;
    Ok((Rhs::New(class, groups, args, at), rest))
}

/// A new array or object.
fn making<'a>(alloc: Global, ts: &'a [Lexeme]) -> Result<(Rhs, &'a [Lexeme]), Fail>
    requires { Is (Lexical.Word Keyword.New) (head ts.now) }
    ensures { Reads shown.right_side (with_semicolon grammar.right_of_equals) KeepsRight Always ts.now result }
{
    let (at, rest) = expect_word(ts, Keyword::New)?;
    if is_word_next(rest, Keyword::Ints) {
        zeros(alloc, rest, at)
    } else {
        object(alloc, rest, at)
    }
}

/// A right side and a semicolon.
pub(crate) fn right_side<'a>(alloc: Global, ts: &'a [Lexeme]) -> Result<(Rhs, &'a [Lexeme]), Fail>
    ensures { Reads shown.right_side (with_semicolon grammar.right_of_equals) KeepsRight Always ts.now result }
{
    if is_word_next(ts, Keyword::Take) {
        return taking(alloc, ts);
    }
    if is_word_next(ts, Keyword::New) {
        return making(alloc, ts);
    }
    match decide(ts) {
        Decided::Value(left) => value(alloc, ts, left),
        Decided::Call => call(alloc, ts),
        Decided::Neither(left) => Err(Fail::Refused(Why::Unexpected, left)),
    }
}
