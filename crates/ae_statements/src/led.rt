// Statements that begin with a path.
ghost use Rattle.std.specs.Prelude.{◌≡◌, ◌≢◌};
ghost use Rattle.ae_tree.specs.Shown as shown;
ghost use Rattle.ae_tree.specs.Grammar as grammar;
ghost use Rattle.ae_tree.specs.Limits.{KeepsDepth};
ghost use Rattle.ae_reading.specs.Reads.{Reads, itself, Always, Free, Is, head};
ghost use Rattle.ae_statements.specs.Productions as productions;
ghost use Rattle.ae_statements.specs.Productions.{ReadsSimple, IsRoot, KeepsIndexed, KeepsTail, Only, shown_indexed};
ghost use Rattle.ae_statements.specs.Productions.{shown_tail};

use crate::calls::{called, invoke};
use crate::simple::{ended_expression, value};
use ae_expressions::expression;
use ae_reading::{Fail, expect_sign, is_name_next, is_sign_next, path, unexpected};
use ae_text::{Items, Sign};
use ae_tree::{Expr, Lexeme, Lexical, NameAt, Path, Rhs, Stmt, StmtKind};
use std::alloc::Global;

/// What a path at the front of a statement is.
#[derive(Clone, Copy, Debug, PartialEq, Eq)]
pub(crate) enum Front {
    /// A local.
    Local,
    /// A member, or a method of a receiver.
    Member,
    /// `this` alone.
    This,
}

/// What stands behind the path that a statement begins with.
#[derive(Drop)]
pub(crate) enum Tail {
    Assign(Rhs),
    Field(Expr),
    Index(Expr, Expr),
    Call(Items<NameAt>, Items<Expr>),
}

fn front_of(named: bool, path: &Path) -> Front
    ensures { result ≡ productions.front_of named path.now }
{
    if !path.steps.is_empty() {
        Front::Member
    } else if named {
        Front::Local
    } else {
        Front::This
    }
}

/// An index in brackets and what is stored there.
fn indexed<'a>(alloc: Global, ts: &'a [Lexeme]) -> Result<((Expr, Expr), &'a [Lexeme]), Fail>
    ensures { Reads shown_indexed productions.indexed KeepsIndexed Always ts.now result }
{
    let (_, rest) = expect_sign(ts, Sign::OpenBracket)?;
    let (index, rest) = expression(alloc, rest)?;
    let (_, rest) = expect_sign(rest, Sign::CloseBracket)?;
    let (_, rest) = expect_sign(rest, Sign::Assign)?;
    let (e, rest) = ended_expression(alloc, rest)?;
    Ok(((index, e), rest))
}

/// What is stored in a field, behind the field.
fn stored<'a>(alloc: Global, ts: &'a [Lexeme]) -> Result<(Expr, &'a [Lexeme]), Fail>
    ensures { Reads shown.expression productions.stored_value KeepsDepth Always ts.now result }
{
    let (_, rest) = expect_sign(ts, Sign::Assign)?;
    ended_expression(alloc, rest)
}

fn index_tail<'a>(
    alloc: Global,
    ts: &'a [Lexeme],
    front: Front,
) -> Result<(Tail, &'a [Lexeme]), Fail>
    requires { Only front ts.now }
    ensures { Reads shown_tail (productions.tail front) KeepsTail Always ts.now result }
{
    let ((index, e), rest) = indexed(alloc, ts)?;
    Ok((Tail::Index(index, e), rest))
}

fn local_tail<'a>(alloc: Global, ts: &'a [Lexeme]) -> Result<(Tail, &'a [Lexeme]), Fail>
    requires { Is (Lexical.Sign Sign.Assign) (head ts.now) }
    ensures { Reads shown_tail (productions.tail Front.Local) KeepsTail Always ts.now result }
{
    let (e, rest) = value(alloc, ts)?;
    Ok((Tail::Assign(e), rest))
}

fn member_tail<'a>(alloc: Global, ts: &'a [Lexeme]) -> Result<(Tail, &'a [Lexeme]), Fail>
    requires { Is (Lexical.Sign Sign.Assign) (head ts.now) }
    ensures { Reads shown_tail (productions.tail Front.Member) KeepsTail Always ts.now result }
{
    let (e, rest) = stored(alloc, ts)?;
    Ok((Tail::Field(e), rest))
}

fn call_tail<'a>(
    alloc: Global,
    ts: &'a [Lexeme],
    front: Front,
) -> Result<(Tail, &'a [Lexeme]), Fail>
    requires named { front ≢ Front.This }
    requires assign { Is (Lexical.Sign Sign.Assign) (head ts.now) → ⊥ }
    requires index { Is (Lexical.Sign Sign.OpenBracket) (head ts.now) → ⊥ }
    ensures { Reads shown_tail (productions.tail front) KeepsTail Always ts.now result }
{
    let ((groups, args), rest) = called(alloc, ts)?;
    Ok((Tail::Call(groups, args), rest))
}

/// What stands behind the path that a statement begins with.
fn tail_of<'a>(alloc: Global, ts: &'a [Lexeme], front: Front) -> Result<(Tail, &'a [Lexeme]), Fail>
    ensures { Reads shown_tail (productions.tail front) KeepsTail Always ts.now result }
{
    if is_sign_next(ts, Sign::OpenBracket) {
        return index_tail(alloc, ts, front);
    }
    if front == Front::This {
        return index_tail(alloc, ts, front);
    }
    if !is_sign_next(ts, Sign::Assign) {
        return call_tail(alloc, ts, front);
    }
    match front {
        Front::Local => local_tail(alloc, ts),
        Front::Member | Front::This => member_tail(alloc, ts),
    }
}

fn kind_of(path: Path, tail: Tail) -> StmtKind
    ensures { shown.action result ≡ productions.action_of path (shown_tail tail) }
{
    match tail {
        Tail::Assign(e) => StmtKind::Assign(path.root, e),
        Tail::Field(e) => StmtKind::Field(path, e),
        Tail::Index(index, e) => StmtKind::Index(path, index, e),
        Tail::Call(groups, args) => StmtKind::Call(invoke(path, groups, args)),
    }
}

/// A statement that begins with a path.
pub(crate) fn led<'a>(alloc: Global, ts: &'a [Lexeme]) -> Result<(Stmt, &'a [Lexeme]), Fail>
    requires { IsRoot (head ts.now) }
    ensures { ReadsSimple ts.now result }
{
    let named = is_name_next(ts);
    let (path, rest) = path(alloc, ts)?;
    let at = path.root.at;
    let front = front_of(named, &path);
    let (tail, rest) = tail_of(alloc, rest, front)?;
    let kind = kind_of(path, tail);
    Ok((Stmt { kind, at }, rest))
}
