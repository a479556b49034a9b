// Statements with no block and no path in front.
ghost use Rattle.std.specs.Prelude.{ℕ, MatchBool};
ghost use Rattle.ae_tree.specs.Shown as shown;
ghost use Rattle.ae_tree.specs.Grammar as grammar;
ghost use Rattle.ae_tree.specs.Limits.{KeepsDepth, KeepsRight};
ghost use Rattle.ae_reading.specs.Reads.{Reads, itself, Always, Free, Is, head};
ghost use Rattle.ae_statements.specs.Productions as productions;
ghost use Rattle.ae_statements.specs.Productions.{ReadsSimple, KeepsPrinted, IsText, with_semicolon};

use crate::values::right_side;
use ae_expressions::expression;
use ae_reading::{Fail, expect_sign, expect_word, name, next, type_, unexpected};
use ae_text::{Items, Keyword, Sign};
use ae_tree::{Expr, Lexeme, Lexical, NameAt, Rhs, Stmt, StmtKind};
use std::alloc::Global;

/// A name and a semicolon.
fn ended_name<'a>(ts: &'a [Lexeme]) -> Result<(NameAt, &'a [Lexeme]), Fail>
    ensures { Reads itself (with_semicolon grammar.name) Free Always ts.now result }
{
    let (x, rest) = name(ts)?;
    let (_, rest) = expect_sign(rest, Sign::Semicolon)?;
    Ok((x, rest))
}

/// An expression and a semicolon.
pub(crate) fn ended_expression<'a>(
    alloc: Global,
    ts: &'a [Lexeme],
) -> Result<(Expr, &'a [Lexeme]), Fail>
    ensures { Reads shown.expression (with_semicolon grammar.whole_expression) KeepsDepth Always ts.now result }
{
    let (e, rest) = expression(alloc, ts)?;
    let (_, rest) = expect_sign(rest, Sign::Semicolon)?;
    Ok((e, rest))
}

/// What a local gets, behind its name.
pub(crate) fn value<'a>(alloc: Global, ts: &'a [Lexeme]) -> Result<(Rhs, &'a [Lexeme]), Fail>
    ensures { Reads shown.right_side productions.local_value KeepsRight Always ts.now result }
{
    let (_, rest) = expect_sign(ts, Sign::Assign)?;
    right_side(alloc, rest)
}

/// A new local with its value.
pub(crate) fn declaration<'a>(alloc: Global, ts: &'a [Lexeme]) -> Result<(Stmt, &'a [Lexeme]), Fail>
    requires { Is (Lexical.Word Keyword.Let) (head ts.now) }
    ensures { ReadsSimple ts.now result }
{
    let (at, rest) = expect_word(ts, Keyword::Let)?;
    let (ty, rest) = type_(alloc, rest)?;
    let (x, rest) = name(rest)?;
    let (e, rest) = value(alloc, rest)?;
    let kind = StmtKind::Let(ty, x, e);
    Ok((Stmt { kind, at }, rest))
}

/// A new group.
pub(crate) fn group<'a>(ts: &'a [Lexeme]) -> Result<(Stmt, &'a [Lexeme]), Fail>
    requires { Is (Lexical.Word Keyword.Group) (head ts.now) }
    ensures { ReadsSimple ts.now result }
{
    let (at, rest) = expect_word(ts, Keyword::Group)?;
    let (x, rest) = ended_name(rest)?;
    let kind = StmtKind::Group(x);
    Ok((Stmt { kind, at }, rest))
}

/// A local that is frozen.
pub(crate) fn freezing<'a>(ts: &'a [Lexeme]) -> Result<(Stmt, &'a [Lexeme]), Fail>
    requires { Is (Lexical.Word Keyword.Freeze) (head ts.now) }
    ensures { ReadsSimple ts.now result }
{
    let (at, rest) = expect_word(ts, Keyword::Freeze)?;
    let (x, rest) = ended_name(rest)?;
    let kind = StmtKind::Freeze(x);
    Ok((Stmt { kind, at }, rest))
}

/// A local that is shared into a group.
pub(crate) fn sharing<'a>(ts: &'a [Lexeme]) -> Result<(Stmt, &'a [Lexeme]), Fail>
    requires { Is (Lexical.Word Keyword.Share) (head ts.now) }
    ensures { ReadsSimple ts.now result }
{
    let (at, rest) = expect_word(ts, Keyword::Share)?;
    let (x, rest) = name(rest)?;
    let (_, rest) = expect_word(rest, Keyword::Into)?;
    let (g, rest) = ended_name(rest)?;
    let kind = StmtKind::Share(x, g);
    Ok((Stmt { kind, at }, rest))
}

/// What is tested.
pub(crate) fn assertion<'a>(alloc: Global, ts: &'a [Lexeme]) -> Result<(Stmt, &'a [Lexeme]), Fail>
    requires { Is (Lexical.Word Keyword.Assert) (head ts.now) }
    ensures { ReadsSimple ts.now result }
{
    let (at, rest) = expect_word(ts, Keyword::Assert)?;
    let (e, rest) = ended_expression(alloc, rest)?;
    let kind = StmtKind::Assert(e);
    Ok((Stmt { kind, at }, rest))
}

fn is_text_next(ts: &[Lexeme]) -> bool
    ensures { MatchBool result (IsText (head ts.now)) (IsText (head ts.now) → ⊥) }
{
    match next(ts) {
        Some((first, _)) => matches!(&first.kind, Lexical::Text(_)),
        None => false,
    }
}

/// Takes any text.
fn text<'a>(alloc: Global, ts: &'a [Lexeme]) -> Result<(Items<u8>, &'a [Lexeme]), Fail>
    ensures { Reads itself productions.text Free Always ts.now result }
{
    let Some((first, rest)) = next(ts) else {
        return unexpected(ts);
    };
    match &first.kind {
        Lexical::Text(bytes) => Ok((Items::from_slice(alloc, bytes.as_slice())?, rest)),
        _ => unexpected(ts),
    }
}

fn printed_text<'a>(alloc: Global, ts: &'a [Lexeme]) -> Result<(StmtKind, &'a [Lexeme]), Fail>
    requires { IsText (head ts.now) }
    ensures { Reads shown.action productions.print_operand KeepsPrinted Always ts.now result }
{
    let (bytes, rest) = text(alloc, ts)?;
    let (_, rest) = expect_sign(rest, Sign::Semicolon)?;
    Ok((StmtKind::PrintText(bytes), rest))
}

/// What is printed: a text or an expression.
fn printed<'a>(alloc: Global, ts: &'a [Lexeme]) -> Result<(StmtKind, &'a [Lexeme]), Fail>
    ensures { Reads shown.action productions.print_operand KeepsPrinted Always ts.now result }
{
    if is_text_next(ts) {
        return printed_text(alloc, ts);
    }
    let (e, rest) = ended_expression(alloc, ts)?;
    Ok((StmtKind::PrintExpr(e), rest))
}

/// What is printed, with `print`.
pub(crate) fn printing<'a>(alloc: Global, ts: &'a [Lexeme]) -> Result<(Stmt, &'a [Lexeme]), Fail>
    requires { Is (Lexical.Word Keyword.Print) (head ts.now) }
    ensures { ReadsSimple ts.now result }
{
    let (at, rest) = expect_word(ts, Keyword::Print)?;
    let (kind, rest) = printed(alloc, rest)?;
    Ok((Stmt { kind, at }, rest))
}
