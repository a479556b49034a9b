// A statement with a block where no block may be opened.
ghost use Rattle.std.specs.Prelude.{ℕ};
ghost use Rattle.ae_tree.specs.Shown as shown;
ghost use Rattle.ae_tree.specs.Grammar as grammar;
ghost use Rattle.ae_reading.specs.Reads.{Reads, itself, Free, Always, Is, Isnt, head};
ghost use Rattle.ae_expressions.specs.Ends.{Ends};
ghost use Rattle.ae_statements.specs.Productions.{IsOpener, Opening};
ghost use Rattle.ae_statements.specs.Blocks.{KeepsCondition, IsTooDeep, condition, shown_condition, split_groups};
ghost use Rattle.ae_statements.specs.Blocks.{locked_group};

use ae_expressions::expression;
use ae_reading::{Fail, Why, expect_word, is_sign_next, is_word_next, name, names};
use ae_text::{Items, Keyword, Sign, Spot};
use ae_tree::{Expr, Lexeme, Lexical, Limit, NameAt};
use std::alloc::Global;

/// Why no block is opened where none may be.
fn opening(ts: &[Lexeme]) -> Why
    ensures { Opening ts.now result }
{
    if is_sign_next(ts, Sign::OpenBrace) {
        Why::Over(Limit::Levels)
    } else {
        Why::Unexpected
    }
}

/// A word and the expression behind it.
fn condition<'a>(
    alloc: Global,
    ts: &'a [Lexeme],
    word: Keyword,
) -> Result<((Spot, Expr), &'a [Lexeme]), Fail>
    ensures { Reads shown_condition (condition word) KeepsCondition (Ends 0) ts.now result }
{
    let (at, rest) = expect_word(ts, word)?;
    let (e, rest) = expression(alloc, rest)?;
    Ok(((at, e), rest))
}

/// `split` and the groups behind it.
fn split_groups<'a>(
    alloc: Global,
    ts: &'a [Lexeme],
) -> Result<((Spot, Items<NameAt>), &'a [Lexeme]), Fail>
    ensures { Reads itself split_groups Free (Isnt (Lexical.Sign Sign.Comma)) ts.now result }
{
    let (at, rest) = expect_word(ts, Keyword::Split)?;
    let (groups, rest) = names(alloc, rest)?;
    Ok(((at, groups), rest))
}

/// `atomic` and the group behind it.
fn locked_group<'a>(ts: &'a [Lexeme]) -> Result<((Spot, NameAt), &'a [Lexeme]), Fail>
    ensures { Reads itself locked_group Free Always ts.now result }
{
    let (at, rest) = expect_word(ts, Keyword::Atomic)?;
    let (group, rest) = name(rest)?;
    Ok(((at, group), rest))
}

/// A choice is refused: before its block, or where this is opened.
fn deep_choice(alloc: Global, ts: &[Lexeme]) -> Fail
    requires { Is (Lexical.Word Keyword.If) (head ts.now) }
    ensures { IsTooDeep ts.now result }
{
    let (_, rest) = match condition(alloc, ts, Keyword::If) {
        Ok(read) => read,
        Err(fail) => return fail,
    };
    Fail::Refused(opening(rest), rest.len())
}

/// A loop is refused: before its block, or where this is opened.
fn deep_repetition(alloc: Global, ts: &[Lexeme]) -> Fail
    requires { Is (Lexical.Word Keyword.While) (head ts.now) }
    ensures { IsTooDeep ts.now result }
{
    let (_, rest) = match condition(alloc, ts, Keyword::While) {
        Ok(read) => read,
        Err(fail) => return fail,
    };
    Fail::Refused(opening(rest), rest.len())
}

/// A split is refused: before its block, or where this is opened.
fn deep_splitting(alloc: Global, ts: &[Lexeme]) -> Fail
    requires { Is (Lexical.Word Keyword.Split) (head ts.now) }
    ensures { IsTooDeep ts.now result }
{
    let (_, rest) = match split_groups(alloc, ts) {
        Ok(read) => read,
        Err(fail) => return fail,
    };
    Fail::Refused(opening(rest), rest.len())
}

/// A lock is refused: before its block, or where this is opened.
fn deep_locking(ts: &[Lexeme]) -> Fail
    requires { Is (Lexical.Word Keyword.Atomic) (head ts.now) }
    ensures { IsTooDeep ts.now result }
{
    let (_, rest) = match locked_group(ts) {
        Ok(read) => read,
        Err(fail) => return fail,
    };
    Fail::Refused(opening(rest), rest.len())
}

/// Why a statement with a block is refused where no block may be opened.
pub(crate) fn too_deep(alloc: Global, ts: &[Lexeme]) -> Fail
    requires { IsOpener (head ts.now) }
    ensures { IsTooDeep ts.now result }
{
    if is_word_next(ts, Keyword::If) {
        return deep_choice(alloc, ts);
    }
    if is_word_next(ts, Keyword::While) {
        return deep_repetition(alloc, ts);
    }
    if is_word_next(ts, Keyword::Split) {
        return deep_splitting(alloc, ts);
    }
    deep_locking(ts)
}
