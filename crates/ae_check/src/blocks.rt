// Blocks: their statements in order, and what is compared after them.
ghost use Rattle.std.specs.Prelude.{◌≡◌, ◌≤◌, ◌&&◌, length, take, drop, IfOk, OnOk};
ghost use Rattle.ae_text.specs.declared.refusal.Spot.{Spot};
ghost use Rattle.ae_tree.specs.Plain as plain;
ghost use Rattle.ae_tree.specs.Shown.{action, braced, definition, expression};
ghost use Rattle.ae_rules.specs.Answers.{Leaves};
ghost use Rattle.ae_rules.specs.Verdict.{require};
ghost use Rattle.ae_rules.specs.Statements as spec;
ghost use Rattle.ae_judge.specs.Tabled.{code_of};
ghost use Rattle.ae_scope.specs.declared.scope.Scope.{Scope};
ghost use Rattle.ae_scope.specs.Scope.{context_of};
ghost use Rattle.ae_scope.specs.Slots.{now_held, rewound};
ghost use Rattle.ae_scope.specs.Grows.{Grows};
ghost use Rattle.ae_check.specs.Ready.{IsReady, StaysReady, StatementNamed, LinesNamed};
ghost use Rattle.ae_check.specs.Blocks.{Began, Branched, Ended, block_verdict, body_verdict};
ghost use Rattle.ae_check.specs.Blocks.{inside_verdict, keeps_held, tested_verdict};

use crate::escapes::groups_stay;
use crate::laws::{context_is_ready, lines_are_named};
use crate::simple::judge_simple;
use ae_judge::{Scalar, Tabled, deny, is_value};
use ae_scope::{Change, Mark, Scope};
use ae_text::{Deny, Rule, Spot};
use ae_tree::{Block, Expr, Method, NameAt, Stmt, StmtKind};
use std::alloc::AllocError;

// After these changes each local from before holds the same. They are undone.
fn meet(
    tabled: &Tabled,
    scope: &mut Scope,
    changes: usize,
    rule: Rule,
    at: Spot,
) -> Result<(), Deny>
    requires within { changes ≤ length scope.old.trail.items }
    requires table { length scope.old.at.items ≡ length tabled.now.program.now.names }
    ensures answer { Leaves (keeps_held (code_of tabled.now) changes scope.old rule at) (context_of scope.new) result }
    ensures locals { OnOk result (scope.new.locals.items
        ≡ rewound (drop changes scope.old.trail.items) scope.old.locals.items) }
    ensures groups { OnOk result (scope.new.groups.perms.items ≡ scope.old.groups.perms.items) }
    ensures group_trail { OnOk result (scope.new.group_trail.items ≡ scope.old.group_trail.items) }
    ensures table { OnOk result (length scope.new.at.items ≡ length scope.old.at.items) }
    ensures trail { OnOk result (scope.new.trail.items ≡ take changes scope.old.trail.items) }
{
    if scope.settle(tabled.alloc, changes)? {
        Ok(())
    } else {
        Err(deny(rule, at))
    }
}

// What is held now where something was changed since then. The changes are undone.
fn take_back(tabled: &Tabled, scope: &mut Scope, changes: usize) -> Result<Vec<Change>, AllocError>
    requires { changes ≤ length scope.old.trail.items }
    ensures held { IfOk result (λ v. v.items
        ≡ now_held (drop changes scope.old.trail.items) scope.old.locals.items) }
    ensures locals { OnOk result (scope.new.locals.items
        ≡ rewound (drop changes scope.old.trail.items) scope.old.locals.items) }
    ensures groups { OnOk result (scope.new.groups.perms.items ≡ scope.old.groups.perms.items) }
    ensures group_trail { OnOk result (scope.new.group_trail.items ≡ scope.old.group_trail.items) }
    ensures table { OnOk result (length scope.new.at.items ≡ length scope.old.at.items) }
    ensures trail { OnOk result (scope.new.trail.items ≡ take changes scope.old.trail.items) }
{
    let held = scope.changed(tabled.alloc, changes)?;
    scope.rewind(changes);
    Ok(held)
}

// Both comparisons hold.
fn agree(same: bool, same_too: bool, at: Spot) -> Result<(), Deny>
    ensures { Leaves (require (same && same_too) Rule.BranchesDiffer at) tt result }
{
    if same && same_too {
        Ok(())
    } else {
        Err(deny(Rule::BranchesDiffer, at))
    }
}

// After the second of two branches each local from outside holds the same as after the first.
fn join(
    tabled: &Tabled,
    scope: &mut Scope,
    begun: Mark,
    first: &[Change],
    at: Spot,
) -> Result<(), Deny>
    requires locals { begun.locals ≤ length scope.old.locals.items }
    requires changes { begun.changes ≤ length scope.old.trail.items }
    requires groups { begun.groups ≤ length scope.old.group_trail.items }
    requires table { length scope.old.at.items ≡ length tabled.now.program.now.names }
    ensures answer { (s u : Scope) → Branched s u begun first.now scope.old → Leaves (spec.branches_meet
        (code_of tabled.now) (context_of s) at (context_of u) (context_of scope.old)) (context_of scope.new) result }
    ensures grows { (s u : Scope) → Branched s u begun first.now scope.old → OnOk result (Grows s scope.new) }
{
    let same = scope.holds(first);
    let second = take_back(tabled, scope, begun.changes)?;
    scope.replay(first)?;
    scope.end_block(begun);
    let same_too = scope.holds(second.as_slice());
    agree(same, same_too, at)
}

// The statements of a block, in order.
#[cycle(statements)]
#[tactic(auto, using(crate::proofs::NamedLemmas::lines))]
fn judge_lines(
    tabled: &Tabled,
    method: &Method,
    scope: &mut Scope,
    block: &Block,
) -> Result<(), Deny>
    requires table { length scope.old.at.items ≡ length tabled.now.program.now.names }
    requires stays { StaysReady (code_of tabled.now) (definition method.now) }
    requires ready { IsReady (code_of tabled.now) (context_of scope.old) }
    requires named { LinesNamed (length tabled.now.program.now.names) (braced block.now).lines }
    ensures answer { Leaves (spec.judge_lines (code_of tabled.now) (definition method.now) (braced block.now).lines
        (context_of scope.old)) (context_of scope.new) result }
    ensures grows { OnOk result (Grows scope.old scope.new) }
{
    for stmt in block.stmts.as_slice() {
        judge_stmt(tabled, method, scope, stmt)?;
    }
    Ok(())
}

// A block's statements, from its beginning, and its end.
#[cycle(statements)]
#[tactic(auto, using(crate::proofs::NamedLemmas::statements))]
fn judge_inside(
    tabled: &Tabled,
    method: &Method,
    scope: &mut Scope,
    block: &Block,
    mark: Mark,
) -> Result<(), Deny>
    requires table { length scope.old.at.items ≡ length tabled.now.program.now.names }
    requires stays { StaysReady (code_of tabled.now) (definition method.now) }
    requires ready { IsReady (code_of tabled.now) (context_of scope.old) }
    requires named { LinesNamed (length tabled.now.program.now.names) (braced block.now).lines }
    requires locals { mark.locals ≤ length scope.old.locals.items }
    requires changes { mark.changes ≤ length scope.old.trail.items }
    requires groups { mark.groups ≤ length scope.old.group_trail.items }
    ensures answer { (s : Scope) → Began (code_of tabled.now) s mark scope.old → Leaves (inside_verdict
        (code_of tabled.now) (definition method.now) (braced block.now).lines (context_of s) (context_of scope.old))
        (context_of scope.new) result }
    ensures ended { (s : Scope) → Began (code_of tabled.now) s mark scope.old → OnOk result (Ended s scope.new) }
{
    judge_lines(tabled, method, scope, block)?;
    groups_stay(tabled, scope, mark, block)?;
    scope.end_block(mark);
    Ok(())
}

// A block and its end.
#[cycle(statements)]
#[tactic(auto, using(crate::proofs::NamedLemmas::statements))]
pub(crate) fn judge_block(
    tabled: &Tabled,
    method: &Method,
    scope: &mut Scope,
    block: &Block,
) -> Result<(), Deny>
    requires table { length scope.old.at.items ≡ length tabled.now.program.now.names }
    requires stays { StaysReady (code_of tabled.now) (definition method.now) }
    requires ready { IsReady (code_of tabled.now) (context_of scope.old) }
    requires named { LinesNamed (length tabled.now.program.now.names) (braced block.now).lines }
    ensures answer { Leaves (block_verdict (code_of tabled.now) (definition method.now) (braced block.now).lines
        (context_of scope.old)) (context_of scope.new) result }
    ensures ended { OnOk result (Ended scope.old scope.new) }
{
    let mark = scope.mark();
    judge_inside(tabled, method, scope, block, mark)
}

// A block after which each local from outside holds the same as before.
#[cycle(statements)]
#[tactic(auto, using(crate::proofs::NamedLemmas::statements))]
fn judge_body(
    tabled: &Tabled,
    method: &Method,
    scope: &mut Scope,
    block: &Block,
    rule: Rule,
    at: Spot,
) -> Result<(), Deny>
    requires table { length scope.old.at.items ≡ length tabled.now.program.now.names }
    requires stays { StaysReady (code_of tabled.now) (definition method.now) }
    requires ready { IsReady (code_of tabled.now) (context_of scope.old) }
    requires named { LinesNamed (length tabled.now.program.now.names) (braced block.now).lines }
    ensures answer { Leaves (body_verdict (code_of tabled.now) (definition method.now) (braced block.now).lines rule at
        (context_of scope.old)) (context_of scope.new) result }
    ensures grows { OnOk result (Grows scope.old scope.new) }
{
    let mark = scope.mark();
    judge_block(tabled, method, scope, block)?;
    meet(tabled, scope, mark.changes, rule, at)
}

// A block under a condition, after which each local from outside holds the same as before.
#[cycle(statements)]
#[tactic(auto, using(crate::proofs::NamedLemmas::statements))]
fn judge_tested(
    tabled: &Tabled,
    method: &Method,
    scope: &mut Scope,
    block: &Block,
    expr: &Expr,
    rule: Rule,
    at: Spot,
) -> Result<(), Deny>
    requires table { length scope.old.at.items ≡ length tabled.now.program.now.names }
    requires stays { StaysReady (code_of tabled.now) (definition method.now) }
    requires ready { IsReady (code_of tabled.now) (context_of scope.old) }
    requires named { LinesNamed (length tabled.now.program.now.names) (braced block.now).lines }
    ensures answer { Leaves (tested_verdict (code_of tabled.now) (definition method.now) (expression expr.now)
        (braced block.now).lines rule at (context_of scope.old)) (context_of scope.new) result }
    ensures grows { OnOk result (Grows scope.old scope.new) }
{
    is_value(tabled, scope, Scalar::Bool, expr)?;
    judge_body(tabled, method, scope, block, rule, at)
}

// A split block: inside it its groups are shared.
#[cycle(statements)]
#[tactic(auto, using(crate::proofs::NamedLemmas::statements))]
fn judge_split(
    tabled: &Tabled,
    method: &Method,
    scope: &mut Scope,
    groups: &[NameAt],
    block: &Block,
) -> Result<(), Deny>
    requires table { length scope.old.at.items ≡ length tabled.now.program.now.names }
    requires stays { StaysReady (code_of tabled.now) (definition method.now) }
    requires ready { IsReady (code_of tabled.now) (context_of scope.old) }
    requires named { LinesNamed (length tabled.now.program.now.names) (braced block.now).lines }
    ensures answer { (at : Spot) → Leaves (spec.judge_statement (code_of tabled.now) (definition method.now) at
        (plain.Splits groups.now (braced block.now).no (braced block.now).lines) (context_of scope.old))
        (context_of scope.new) result }
    ensures grows { OnOk result (Grows scope.old scope.new) }
{
    let mark = scope.mark();
    scope.enter_split(groups)?;
    judge_inside(tabled, method, scope, block, mark)
}

// An atomic block: inside it its group is protected, and every other shared group is held back.
#[cycle(statements)]
#[tactic(auto, using(crate::proofs::NamedLemmas::statements))]
fn judge_atomic(
    tabled: &Tabled,
    method: &Method,
    scope: &mut Scope,
    group: NameAt,
    block: &Block,
) -> Result<(), Deny>
    requires table { length scope.old.at.items ≡ length tabled.now.program.now.names }
    requires stays { StaysReady (code_of tabled.now) (definition method.now) }
    requires ready { IsReady (code_of tabled.now) (context_of scope.old) }
    requires named { LinesNamed (length tabled.now.program.now.names) (braced block.now).lines }
    ensures answer { (at : Spot) → Leaves (spec.judge_statement (code_of tabled.now) (definition method.now) at
        (plain.Locks group (braced block.now).no (braced block.now).lines) (context_of scope.old)) (context_of
        scope.new) result }
    ensures grows { OnOk result (Grows scope.old scope.new) }
{
    let mark = scope.mark();
    scope.enter_atomic(group)?;
    judge_inside(tabled, method, scope, block, mark)
}

/// A statement of a method, with those in its blocks: refused by its first premise that fails, with its rule and place.
/// After a refusal what is known is not said.
#[cycle(statements)]
#[tactic(auto, using(crate::proofs::NamedLemmas::statements))]
pub fn judge_stmt(
    tabled: &Tabled,
    method: &Method,
    scope: &mut Scope,
    stmt: &Stmt,
) -> Result<(), Deny>
    requires table { length scope.old.at.items ≡ length tabled.now.program.now.names }
    requires stays { StaysReady (code_of tabled.now) (definition method.now) }
    requires ready { IsReady (code_of tabled.now) (context_of scope.old) }
    requires named { StatementNamed (length tabled.now.program.now.names) (action stmt.now.kind) }
    ensures answer { Leaves (spec.judge_statement (code_of tabled.now) (definition method.now) stmt.now.at
        (action stmt.now.kind) (context_of scope.old)) (context_of scope.new) result }
    ensures grows { OnOk result (Grows scope.old scope.new) }
{
    let at = stmt.at;
    match &stmt.kind {
        StmtKind::If(expr, then, otherwise) => match otherwise {
            Some(other) => {
                is_value(tabled, scope, Scalar::Bool, expr)?;
                let mark = scope.mark();
                lines_are_named(tabled, then);
                judge_block(tabled, method, scope, then)?;
                let first = take_back(tabled, scope, mark.changes)?;
                lines_are_named(tabled, other);
                context_is_ready(tabled, scope);
                judge_block(tabled, method, scope, other)?;
                join(tabled, scope, mark, first.as_slice(), at)
            }
            None => {
                lines_are_named(tabled, then);
                judge_tested(tabled, method, scope, then, expr, Rule::BranchesDiffer, at)
            }
        },
        StmtKind::While(expr, block) => {
            lines_are_named(tabled, block);
            judge_tested(tabled, method, scope, block, expr, Rule::LoopChanges, at)
        }
        StmtKind::Split(groups, block) => {
            lines_are_named(tabled, block);
            judge_split(tabled, method, scope, groups.as_slice(), block)
        }
        StmtKind::Atomic(group, block) => {
            lines_are_named(tabled, block);
            judge_atomic(tabled, method, scope, *group, block)
        }
        StmtKind::Let(..)
        | StmtKind::Assign(..)
        | StmtKind::Field(..)
        | StmtKind::Index(..)
        | StmtKind::Call(_)
        | StmtKind::Group(_)
        | StmtKind::Freeze(_)
        | StmtKind::Share(..)
        | StmtKind::PrintExpr(_)
        | StmtKind::PrintText(_)
        | StmtKind::Assert(_)
        | StmtKind::Return(_) => judge_simple(tabled, method, scope, stmt),
    }
}
