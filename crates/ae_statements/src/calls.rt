// Arguments and calls.
ghost use Rattle.std.specs.Prelude.{◌≡◌, map};
ghost use Rattle.ae_tree.specs.Shown as shown;
ghost use Rattle.ae_tree.specs.Grammar as grammar;
ghost use Rattle.ae_tree.specs.Limits.{KeepsDepth, AllKeepDepth};
ghost use Rattle.ae_reading.specs.Reads.{Reads, Always, Is};
ghost use Rattle.ae_expressions.specs.Ends.{Ends};
ghost use Rattle.ae_statements.specs.Productions as productions;
ghost use Rattle.ae_statements.specs.Productions.{KeepsCalled, shown_called};

use ae_expressions::expression;
use ae_reading::{Fail, expect_sign, groups, in_front, is_sign_next};
use ae_text::{Items, Sign};
use ae_tree::{Call, Expr, Lexeme, Lexical, NameAt, Path};
use std::alloc::Global;

fn further_argument<'a>(alloc: Global, ts: &'a [Lexeme]) -> Result<(Expr, &'a [Lexeme]), Fail>
    ensures { Reads shown.expression (grammar.further grammar.whole_expression) KeepsDepth (Ends 0) ts.now result }
{
    let (_, rest) = expect_sign(ts, Sign::Comma)?;
    expression(alloc, rest)
}

fn further_arguments<'a>(
    alloc: Global,
    ts: &'a [Lexeme],
) -> Result<(Items<Expr>, &'a [Lexeme]), Fail>
    ensures { Reads (map shown.expression) (grammar.one_by_one (grammar.further grammar.whole_expression))
        AllKeepDepth (Is (Lexical.Sign Sign.CloseParen)) ts.now result }
{
    let mut args = Items::new(alloc);
    let mut rest = ts;
    'more: while is_sign_next(rest, Sign::Comma) {
        let (arg, after) = further_argument(alloc, rest)?;
        args.push(arg)?;
        rest = after;
    }
    Ok((args, rest))
}

fn some_arguments<'a>(alloc: Global, ts: &'a [Lexeme]) -> Result<(Items<Expr>, &'a [Lexeme]), Fail>
    ensures { Reads (map shown.expression) (grammar.separated grammar.whole_expression) AllKeepDepth
        (Is (Lexical.Sign Sign.CloseParen)) ts.now result }
{
    let (first, rest) = expression(alloc, ts)?;
    let (more, rest) = further_arguments(alloc, rest)?;
    Ok((in_front(alloc, first, more)?, rest))
}

fn any_arguments<'a>(alloc: Global, ts: &'a [Lexeme]) -> Result<(Items<Expr>, &'a [Lexeme]), Fail>
    ensures { Reads (map shown.expression) (grammar.comma_list grammar.whole_expression) AllKeepDepth
        (Is (Lexical.Sign Sign.CloseParen)) ts.now result }
{
    if is_sign_next(ts, Sign::CloseParen) {
        Ok((Items::new(alloc), ts))
    } else {
        some_arguments(alloc, ts)
    }
}

/// Arguments in parentheses.
pub(crate) fn arguments<'a>(
    alloc: Global,
    ts: &'a [Lexeme],
) -> Result<(Items<Expr>, &'a [Lexeme]), Fail>
    ensures { Reads (map shown.expression) grammar.arguments AllKeepDepth Always ts.now result }
{
    let (_, rest) = expect_sign(ts, Sign::OpenParen)?;
    let (args, rest) = any_arguments(alloc, rest)?;
    let (_, rest) = expect_sign(rest, Sign::CloseParen)?;
    Ok((args, rest))
}

/// What stands behind the method's name in a call that is ended by a semicolon.
pub(crate) fn called<'a>(
    alloc: Global,
    ts: &'a [Lexeme],
) -> Result<((Items<NameAt>, Items<Expr>), &'a [Lexeme]), Fail>
    ensures { Reads shown_called productions.call_rest KeepsCalled Always ts.now result }
{
    let (groups, rest) = groups(alloc, ts)?;
    let (args, rest) = arguments(alloc, rest)?;
    let (_, rest) = expect_sign(rest, Sign::Semicolon)?;
    Ok(((groups, args), rest))
}

/// The call of the last name of a path, where what stands before it is the receiver.
pub(crate) fn invoke(path: Path, groups: Items<NameAt>, args: Items<Expr>) -> Call
    ensures { shown.invocation result ≡ productions.invoked path (groups, map shown.expression args) }
{
    let Path { root, mut steps } = path;
    match steps.pop() {
        Some(method) => Call {
            on: Some(Path { root, steps }),
            method,
            groups,
            args,
        },
        None => Call {
            on: None,
            method: root,
            groups,
            args,
        },
    }
}
