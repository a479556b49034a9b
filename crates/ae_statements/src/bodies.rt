// The body of a method.
ghost use Rattle.std.specs.Prelude.{◌≡◌, ◌≤◌, IfOk, length};
ghost use Rattle.ae_tree.specs.Shown as shown;
ghost use Rattle.ae_tree.specs.Grammar as grammar;
ghost use Rattle.ae_tree.specs.Limits.{KeepsDepth, KeepsBlock};
ghost use Rattle.ae_reading.specs.Reads.{Reads, Always, Is, head};
ghost use Rattle.ae_statements.specs.Productions as productions;
ghost use Rattle.ae_statements.specs.Productions.{KeepsReturned, returned, body_statements, shown_returned};

use crate::blocks::{MOST_STATEMENTS, NumberedStmts, statements};
use crate::simple::ended_expression;
use ae_reading::{Fail, Why, expect_sign, expect_word, is_word_next};
use ae_text::{Items, Keyword, Sign, Spot};
use ae_tree::{Block, Expr, Lexeme, Lexical, Limit, Stmt, StmtKind};
use std::alloc::Global;

/// A `return` with its expression.
fn result_of<'a>(alloc: Global, ts: &'a [Lexeme]) -> Result<((Spot, Expr), &'a [Lexeme]), Fail>
    ensures { Reads shown_returned returned KeepsReturned Always ts.now result }
{
    let (at, rest) = expect_word(ts, Keyword::Return)?;
    let (e, rest) = ended_expression(alloc, rest)?;
    Ok(((at, e), rest))
}

/// Statements, the last one a `return` where there is one.
fn lines<'a>(alloc: Global, ts: &'a [Lexeme]) -> Result<(Items<Stmt>, &'a [Lexeme]), Fail>
    requires { length ts.now ≤ 1048577 }
    ensures { Reads shown.lines_from body_statements (λ l b. KeepsBlock l 63 b) (Is (Lexical.Sign Sign.CloseBrace))
        ts.now result }
{
    let (read, rest) = statements(alloc, ts, 1, 63)?;
    let NumberedStmts { mut stmts, next: _ } = read;
    if !is_word_next(rest, Keyword::Return) {
        return Ok((stmts, rest));
    }
    if stmts.len() >= MOST_STATEMENTS {
        return Err(Fail::Refused(Why::Over(Limit::Statements), rest.len()));
    }
    let ((at, e), rest) = result_of(alloc, rest)?;
    let kind = StmtKind::Return(e);
    stmts.push(Stmt { kind, at })?;
    Ok((stmts, rest))
}

/// A method's body, which is block 0.
///
/// The statement behind the 1,024th is refused, and the brace that opens a block in 64 others.
pub fn body<'a>(alloc: Global, ts: &'a [Lexeme]) -> Result<(Block, &'a [Lexeme]), Fail>
    requires { length ts.now ≤ 1048577 }
    ensures reads { Reads shown.lines grammar.method_body (λ l b. KeepsBlock l 63 b) Always ts.now result }
    ensures number { IfOk result (λ x. (shown.braced x.0).no ≡ 0) }
{
    let (_, rest) = expect_sign(ts, Sign::OpenBrace)?;
    let (stmts, rest) = lines(alloc, rest)?;
    let (_, rest) = expect_sign(rest, Sign::CloseBrace)?;
    Ok((Block { no: 0, stmts }, rest))
}
