// Statements and blocks, with the numbers of the blocks in the order of opening.
ghost use Rattle.std.specs.Prelude.{◌≡◌, ◌≤◌, ◌+◌, ℕ, MatchBool, IfOk, length};
ghost use Rattle.ae_tree.specs.Shown as shown;
ghost use Rattle.ae_tree.specs.Grammar as grammar;
ghost use Rattle.ae_tree.specs.Grammar.{blocks_opened, opened_in};
ghost use Rattle.ae_tree.specs.Limits.{KeepsBlock};
ghost use Rattle.ae_reading.specs.Reads.{Reads, Always, Is, head};
ghost use Rattle.ae_statements.specs.Productions as productions;
ghost use Rattle.ae_statements.specs.Productions.{Closes, Further, IsOpener, IsRoot, IsSimple, ReadsSimple};
ghost use Rattle.ae_statements.specs.Productions.{KeepsBraced, KeepsStmt, NoElse, numbered_block, otherwise};
ghost use Rattle.ae_statements.specs.Productions.{shown_block, shown_numbered, shown_stmts, stmt};

use crate::deep::too_deep;
use crate::led::led;
use crate::simple::{assertion, declaration, freezing, group, printing, sharing};
use ae_expressions::expression;
use ae_reading::{
    Fail, Why, expect_sign, expect_word, is_name_next, is_sign_next, is_word_next, name, names,
    unexpected,
};
use ae_text::{Items, Keyword, Sign};
use ae_tree::{Block, Lexeme, Lexical, Limit, Stmt, StmtKind};
use std::alloc::Global;

pub(crate) const MOST_STATEMENTS: usize = 1024;

/// A statement, and the number of the next block.
#[derive(Drop)]
pub(crate) struct Numbered {
    pub(crate) stmt: Stmt,
    pub(crate) next: u32,
}

/// A block, and the number of the next one.
#[derive(Drop)]
pub(crate) struct NumberedBlock {
    pub(crate) block: Block,
    pub(crate) next: u32,
}

/// Statements, and the number of the next block.
#[derive(Drop)]
pub(crate) struct NumberedStmts {
    pub(crate) stmts: Items<Stmt>,
    pub(crate) next: u32,
}

/// Statements in braces: block `no`, in which `levels - 1` more may be opened in one another.
#[cycle(statements)]
fn block<'a>(
    alloc: Global,
    ts: &'a [Lexeme],
    no: u32,
    levels: u32,
) -> Result<(NumberedBlock, &'a [Lexeme]), Fail>
    requires few { no + length ts.now ≤ 4294967295 }
    requires some { 1 ≤ levels }
    ensures reads { Reads shown_block (numbered_block no) (KeepsBraced levels) Always ts.now result }
    ensures number { IfOk result (λ x. (shown.braced x.0.block).no ≡ no) }
    ensures next { IfOk result (λ x. x.0.next ≡ no + 1 + opened_in (shown_block x.0)) }
{
    let (_, rest) = expect_sign(ts, Sign::OpenBrace)?;
    let (inner, rest) = statements(alloc, rest, no + 1, levels - 1)?;
    let (_, rest) = expect_sign(rest, Sign::CloseBrace)?;
    let NumberedStmts { stmts, next } = inner;
    let block = Block { no, stmts };
    Ok((NumberedBlock { block, next }, rest))
}

/// Whether statements are at their end.
fn closes(ts: &[Lexeme]) -> bool
    ensures { MatchBool result (Closes (head ts.now)) (Closes (head ts.now) → ⊥) }
{
    is_sign_next(ts, Sign::CloseBrace) || is_word_next(ts, Keyword::Return)
}

/// Why no further statement is taken: one begins here and is over the limit, or none does.
fn further(ts: &[Lexeme]) -> Why
    ensures { Further ts.now result }
{
    if opens_next(ts) || is_simple_next(ts) || is_root_next(ts) {
        Why::Over(Limit::Statements)
    } else {
        Why::Unexpected
    }
}

/// Statements up to a closing brace or a `return`.
#[cycle(statements)]
pub(crate) fn statements<'a>(
    alloc: Global,
    ts: &'a [Lexeme],
    no: u32,
    levels: u32,
) -> Result<(NumberedStmts, &'a [Lexeme]), Fail>
    requires { no + length ts.now ≤ 4294967295 }
    ensures reads { Reads shown_stmts (grammar.statements no) (λ l b. KeepsBlock l levels b) Closes ts.now result }
    ensures next { IfOk result (λ x. x.0.next ≡ no + opened_in (shown_stmts x.0)) }
{
    let mut stmts = Items::new(alloc);
    let mut next = no;
    let mut rest = ts;
    'body: while !closes(rest) {
        if stmts.len() >= MOST_STATEMENTS {
            return Err(Fail::Refused(further(rest), rest.len()));
        }
        let (read, after) = statement(alloc, rest, next, levels)?;
        let Numbered { stmt, next: behind } = read;
        stmts.push(stmt)?;
        next = behind;
        rest = after;
    }
    Ok((NumberedStmts { stmts, next }, rest))
}

/// Whether a statement with a block begins here.
fn opens_next(ts: &[Lexeme]) -> bool
    ensures { MatchBool result (IsOpener (head ts.now)) (IsOpener (head ts.now) → ⊥) }
{
    is_word_next(ts, Keyword::If)
        || is_word_next(ts, Keyword::While)
        || is_word_next(ts, Keyword::Split)
        || is_word_next(ts, Keyword::Atomic)
}

/// Whether a statement that is named by a word and has no block begins here.
fn is_simple_next(ts: &[Lexeme]) -> bool
    ensures { MatchBool result (IsSimple (head ts.now)) (IsSimple (head ts.now) → ⊥) }
{
    is_word_next(ts, Keyword::Let)
        || is_word_next(ts, Keyword::Group)
        || is_word_next(ts, Keyword::Freeze)
        || is_word_next(ts, Keyword::Share)
        || is_word_next(ts, Keyword::Print)
        || is_word_next(ts, Keyword::Assert)
}

/// Whether a path begins here.
fn is_root_next(ts: &[Lexeme]) -> bool
    ensures { MatchBool result (IsRoot (head ts.now)) (IsRoot (head ts.now) → ⊥) }
{
    is_name_next(ts) || is_word_next(ts, Keyword::This)
}

/// A loop.
#[cycle(statements)]
fn repetition<'a>(
    alloc: Global,
    ts: &'a [Lexeme],
    no: u32,
    levels: u32,
) -> Result<(Numbered, &'a [Lexeme]), Fail>
    requires few { no + length ts.now ≤ 4294967295 }
    requires some { 1 ≤ levels }
    requires word { Is (Lexical.Word Keyword.While) (head ts.now) }
    ensures reads { Reads shown_numbered (stmt no) (KeepsStmt levels) NoElse ts.now result }
    ensures next { IfOk result (λ x. x.0.next ≡ no + blocks_opened (shown_numbered x.0).1) }
{
    let (at, rest) = expect_word(ts, Keyword::While)?;
    let (e, rest) = expression(alloc, rest)?;
    let (inner, rest) = block(alloc, rest, no, levels)?;
    let NumberedBlock { block, next } = inner;
    let kind = StmtKind::While(e, block);
    let stmt = Stmt { kind, at };
    Ok((Numbered { stmt, next }, rest))
}

/// Groups that are split, and the block where they are.
#[cycle(statements)]
fn splitting<'a>(
    alloc: Global,
    ts: &'a [Lexeme],
    no: u32,
    levels: u32,
) -> Result<(Numbered, &'a [Lexeme]), Fail>
    requires few { no + length ts.now ≤ 4294967295 }
    requires some { 1 ≤ levels }
    requires word { Is (Lexical.Word Keyword.Split) (head ts.now) }
    ensures reads { Reads shown_numbered (stmt no) (KeepsStmt levels) NoElse ts.now result }
    ensures next { IfOk result (λ x. x.0.next ≡ no + blocks_opened (shown_numbered x.0).1) }
{
    let (at, rest) = expect_word(ts, Keyword::Split)?;
    let (groups, rest) = names(alloc, rest)?;
    let (inner, rest) = block(alloc, rest, no, levels)?;
    let NumberedBlock { block, next } = inner;
    let kind = StmtKind::Split(groups, block);
    let stmt = Stmt { kind, at };
    Ok((Numbered { stmt, next }, rest))
}

/// A group that is held, and the block where it is.
#[cycle(statements)]
fn locking<'a>(
    alloc: Global,
    ts: &'a [Lexeme],
    no: u32,
    levels: u32,
) -> Result<(Numbered, &'a [Lexeme]), Fail>
    requires few { no + length ts.now ≤ 4294967295 }
    requires some { 1 ≤ levels }
    requires word { Is (Lexical.Word Keyword.Atomic) (head ts.now) }
    ensures reads { Reads shown_numbered (stmt no) (KeepsStmt levels) NoElse ts.now result }
    ensures next { IfOk result (λ x. x.0.next ≡ no + blocks_opened (shown_numbered x.0).1) }
{
    let (at, rest) = expect_word(ts, Keyword::Atomic)?;
    let (group, rest) = name(rest)?;
    let (inner, rest) = block(alloc, rest, no, levels)?;
    let NumberedBlock { block, next } = inner;
    let kind = StmtKind::Atomic(group, block);
    let stmt = Stmt { kind, at };
    Ok((Numbered { stmt, next }, rest))
}

/// The block behind `else`.
#[cycle(statements)]
fn otherwise<'a>(
    alloc: Global,
    ts: &'a [Lexeme],
    no: u32,
    levels: u32,
) -> Result<(NumberedBlock, &'a [Lexeme]), Fail>
    requires few { no + length ts.now ≤ 4294967295 }
    requires some { 1 ≤ levels }
    ensures reads { Reads shown_block (otherwise no) (KeepsBraced levels) Always ts.now result }
    ensures number { IfOk result (λ x. (shown.braced x.0.block).no ≡ no) }
    ensures next { IfOk result (λ x. x.0.next ≡ no + 1 + opened_in (shown_block x.0)) }
{
    let (_, rest) = expect_word(ts, Keyword::Else)?;
    block(alloc, rest, no, levels)
}

/// A choice between blocks, where the second one may be absent.
#[cycle(statements)]
fn choice<'a>(
    alloc: Global,
    ts: &'a [Lexeme],
    no: u32,
    levels: u32,
) -> Result<(Numbered, &'a [Lexeme]), Fail>
    requires few { no + length ts.now ≤ 4294967295 }
    requires some { 1 ≤ levels }
    requires word { Is (Lexical.Word Keyword.If) (head ts.now) }
    ensures reads { Reads shown_numbered (stmt no) (KeepsStmt levels) NoElse ts.now result }
    ensures next { IfOk result (λ x. x.0.next ≡ no + blocks_opened (shown_numbered x.0).1) }
{
    let (at, rest) = expect_word(ts, Keyword::If)?;
    let (e, rest) = expression(alloc, rest)?;
    let (inner, rest) = block(alloc, rest, no, levels)?;
    let NumberedBlock { block: then, next } = inner;
    if !is_word_next(rest, Keyword::Else) {
        let kind = StmtKind::If(e, then, None);
        let stmt = Stmt { kind, at };
        return Ok((Numbered { stmt, next }, rest));
    }
    let (second, rest) = otherwise(alloc, rest, next, levels)?;
    let NumberedBlock { block: other, next } = second;
    let kind = StmtKind::If(e, then, Some(other));
    let stmt = Stmt { kind, at };
    Ok((Numbered { stmt, next }, rest))
}

/// A statement with no block.
fn simple<'a>(alloc: Global, ts: &'a [Lexeme]) -> Result<(Stmt, &'a [Lexeme]), Fail>
    requires { IsOpener (head ts.now) → ⊥ }
    ensures { ReadsSimple ts.now result }
{
    if is_word_next(ts, Keyword::Let) {
        return declaration(alloc, ts);
    }
    if is_word_next(ts, Keyword::Group) {
        return group(ts);
    }
    if is_word_next(ts, Keyword::Freeze) {
        return freezing(ts);
    }
    if is_word_next(ts, Keyword::Share) {
        return sharing(ts);
    }
    if is_word_next(ts, Keyword::Print) {
        return printing(alloc, ts);
    }
    if is_word_next(ts, Keyword::Assert) {
        return assertion(alloc, ts);
    }
    if is_root_next(ts) {
        return led(alloc, ts);
    }
    unexpected(ts)
}

/// One statement, whose blocks are numbered from `no` on.
#[cycle(statements)]
fn statement<'a>(
    alloc: Global,
    ts: &'a [Lexeme],
    no: u32,
    levels: u32,
) -> Result<(Numbered, &'a [Lexeme]), Fail>
    requires { no + length ts.now ≤ 4294967295 }
    ensures reads { Reads shown_numbered (stmt no) (KeepsStmt levels) NoElse ts.now result }
    ensures next { IfOk result (λ x. x.0.next ≡ no + blocks_opened (shown_numbered x.0).1) }
{
    if !opens_next(ts) {
        let (stmt, rest) = simple(alloc, ts)?;
        return Ok((Numbered { stmt, next: no }, rest));
    }
    if levels == 0 {
        return Err(too_deep(alloc, ts));
    }
    if is_word_next(ts, Keyword::If) {
        return choice(alloc, ts, no, levels);
    }
    if is_word_next(ts, Keyword::While) {
        return repetition(alloc, ts, no, levels);
    }
    if is_word_next(ts, Keyword::Split) {
        return splitting(alloc, ts, no, levels);
    }
    locking(alloc, ts, no, levels)
}
