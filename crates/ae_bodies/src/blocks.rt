// What the statements of blocks use. Each statement is judged again as it is gone through, so that what is known before it
// is known: of a statement of an accepted program it is never refused, and of others nothing is promised.
ghost use Rattle.std.specs.Prelude.{◌≡◌, ◌≤◌, ℕ, true, List, [], length, OnOk};
ghost use Rattle.ae_text.specs.declared.refusal.Spot.{Spot};
ghost use Rattle.ae_tree.specs.Plain as plain;
ghost use Rattle.ae_tree.specs.Shown.{action, braced, definition, expression};
ghost use Rattle.ae_rules.specs.Blocks.{blocks_in};
ghost use Rattle.ae_rules.specs.Statements.{judge_statement, judge_lines};
ghost use Rattle.ae_rules.specs.Uses.{of_each, whole_group};
ghost use Rattle.ae_judge.specs.Tabled.{code_of};
ghost use Rattle.ae_scope.specs.declared.scope.Scope.{Scope};
ghost use Rattle.ae_scope.specs.Scope.{context_of};
ghost use Rattle.ae_scope.specs.Grows.{Grows, Marks};
ghost use Rattle.ae_uses.specs.declared.opened.OpenedBlock.{OpenedBlock};
ghost use Rattle.ae_uses.specs.Used.{Adds, used_as};
ghost use Rattle.ae_check.specs.Ready.{StatementNamed, LinesNamed};
ghost use Rattle.ae_check.specs.Blocks.{Ended};
ghost use Rattle.ae_bodies.specs.Passed.{IsHeld, IsPassed, Passes, PassesLine, PassesLines, PassesBlock, PassesInside};
ghost use Rattle.ae_bodies.specs.Passed.{HandsOn, PassesBranch};

use crate::opened::{fill, open};
use ae_check::judge_simple;
use ae_judge::Tabled;
use ae_rules::Footprint;
use ae_scope::{Mark, Scope};
use ae_text::{Deny, Items};
use ae_tree::{Block, Expr, Method, Name, NameAt, Stmt, StmtKind};
use ae_uses::{OpenedBlock, Used, simple_used, value_used};
use std::alloc::{AllocError, Global};

// The statements of the block name only names of the program: said where a statement is taken apart.
fn lines_are_named(tabled: &Tabled, block: &Block)
    requires { LinesNamed (length tabled.now.program.now.names) (braced block.now).lines }
    ensures { LinesNamed (length tabled.now.program.now.names) (braced block.now).lines }
{}

// A statement without blocks.
fn flat_used(
    tabled: &Tabled,
    method: &Method,
    scope: &mut Scope,
    stmt: &Stmt,
    used: &mut Used,
) -> Result<(), Deny>
    requires table { length scope.old.at.items ≡ length tabled.now.program.now.names }
    requires named { StatementNamed (length tabled.now.program.now.names) (action stmt.now.kind) }
    requires simple { blocks_in true (action stmt.now.kind) ≡ [] }
    ensures passed { (os : List OpenedBlock) → IsHeld (judge_statement (code_of tabled.now) (definition method.now)
        stmt.now.at (action stmt.now.kind) (context_of scope.old)) → IsPassed (λ x. Passes (code_of tabled.now)
        (definition method.now) stmt.now.at (action stmt.now.kind) (context_of scope.old) (context_of scope.new)
        os os used.old used.new) result }
    ensures grows { OnOk result (Grows scope.old scope.new) }
{
    simple_used(tabled, method, scope, &stmt.kind, used)?;
    judge_simple(tabled, method, scope, stmt)
}

// The groups of a split block are used as a whole.
fn groups_used(groups: &[NameAt], used: &mut Used) -> Result<(), AllocError>
    ensures { OnOk result (Adds used.old (of_each (λ (g : _). whole_group g.name) groups.now) used.new) }
{
    for group in groups {
        used.takes_whole(group.name)?;
    }
    Ok(())
}

// The footprint of a statement, which is computed once, and handed on to the blocks around it: each resource once.
fn hand_on(
    alloc: Global,
    mut used: Used,
    inside: &mut Used,
    uses: &mut Vec<Footprint>,
) -> Result<(), AllocError>
    ensures { OnOk result (HandsOn (used_as used) inside.old inside.new uses.old.items uses.new.items) }
{
    used.compact();
    uses.push(used.footprint(alloc)?)?;
    inside.adds_all(&used)?;
    Ok(())
}

// The statements of a block in order, with what each of them uses.
#[cycle(blocks)]
fn lines_used(
    tabled: &Tabled,
    method: &Method,
    scope: &mut Scope,
    block: &Block,
    opened: &mut Vec<OpenedBlock>,
    inside: &mut Used,
) -> Result<Items<Footprint>, Deny>
    requires table { length scope.old.at.items ≡ length tabled.now.program.now.names }
    requires named { LinesNamed (length tabled.now.program.now.names) (braced block.now).lines }
    ensures passed { IsHeld (judge_lines (code_of tabled.now) (definition method.now) (braced block.now).lines
        (context_of scope.old)) → IsPassed (PassesLines (code_of tabled.now) (definition method.now)
        (braced block.now).lines (context_of scope.old) (context_of scope.new) opened.old.items opened.new.items
        inside.old inside.new) result }
    ensures grows { OnOk result (Grows scope.old scope.new) }
{
    let mut uses = Vec::new(tabled.alloc);
    for stmt in block.stmts.as_slice() {
        next_used(tabled, method, scope, stmt, opened, inside, &mut uses)?;
    }
    Ok(Items::from_vec(uses))
}

// One statement more of a block.
#[cycle(blocks)]
fn next_used(
    tabled: &Tabled,
    method: &Method,
    scope: &mut Scope,
    stmt: &Stmt,
    opened: &mut Vec<OpenedBlock>,
    inside: &mut Used,
    uses: &mut Vec<Footprint>,
) -> Result<(), Deny>
    requires table { length scope.old.at.items ≡ length tabled.now.program.now.names }
    requires named { StatementNamed (length tabled.now.program.now.names) (action stmt.now.kind) }
    ensures passed { IsHeld (judge_statement (code_of tabled.now) (definition method.now) stmt.now.at
        (action stmt.now.kind) (context_of scope.old)) → IsPassed (λ x. PassesLine (code_of tabled.now)
        (definition method.now) stmt.now.at (action stmt.now.kind) (context_of scope.old) (context_of scope.new)
        opened.old.items opened.new.items inside.old inside.new uses.old.items uses.new.items) result }
    ensures grows { OnOk result (Grows scope.old scope.new) }
{
    let mut used = Used::new(tabled.alloc);
    line_used(tabled, method, scope, stmt, opened, &mut used)?;
    hand_on(tabled.alloc, used, inside, uses)?;
    Ok(())
}

// A block, which is opened, and what its statements use.
#[cycle(blocks)]
pub fn block_used(
    tabled: &Tabled,
    method: &Method,
    scope: &mut Scope,
    block: &Block,
    opened: &mut Vec<OpenedBlock>,
) -> Result<Used, Deny>
    requires table { length scope.old.at.items ≡ length tabled.now.program.now.names }
    requires named { LinesNamed (length tabled.now.program.now.names) (braced block.now).lines }
    ensures passed { IsHeld (judge_lines (code_of tabled.now) (definition method.now) (braced block.now).lines
        (context_of scope.old)) → IsPassed (PassesBlock (code_of tabled.now) (definition method.now)
        (braced block.now).no (braced block.now).lines (context_of scope.old) (context_of scope.new)
        opened.old.items opened.new.items) result }
    ensures grows { OnOk result (Grows scope.old scope.new) }
{
    let at = open(tabled.alloc, block.no, opened)?;
    let mut inside = Used::new(tabled.alloc);
    let uses = lines_used(tabled, method, scope, block, opened, &mut inside)?;
    fill(opened, at, uses);
    Ok(inside)
}

// A block and its end.
#[cycle(blocks)]
fn inside_used(
    tabled: &Tabled,
    method: &Method,
    scope: &mut Scope,
    block: &Block,
    mark: Mark,
    but: Option<Name>,
    opened: &mut Vec<OpenedBlock>,
    used: &mut Used,
) -> Result<(), Deny>
    requires table { length scope.old.at.items ≡ length tabled.now.program.now.names }
    requires named { LinesNamed (length tabled.now.program.now.names) (braced block.now).lines }
    requires locals { mark.locals ≤ length scope.old.locals.items }
    requires groups { mark.groups ≤ length scope.old.group_trail.items }
    ensures passed { (s : Scope) → Marks s mark → Grows s scope.old → IsHeld (judge_lines (code_of tabled.now)
        (definition method.now) (braced block.now).lines (context_of scope.old)) → IsPassed (λ x. PassesInside
        (code_of tabled.now) (definition method.now) (braced block.now).no (braced block.now).lines but
        (context_of s) (context_of scope.old) (context_of scope.new) opened.old.items opened.new.items used.old
        used.new) result }
    ensures ended { (s : Scope) → Marks s mark → Grows s scope.old → OnOk result (Ended s scope.new) }
{
    let inside = block_used(tabled, method, scope, block, opened)?;
    scope.end_block(mark);
    used.adds_outside(scope, but, &inside)?;
    Ok(())
}

// A condition, and a block after which all is known as before.
#[cycle(blocks)]
fn branch_used(
    tabled: &Tabled,
    method: &Method,
    scope: &mut Scope,
    block: &Block,
    expr: &Expr,
    opened: &mut Vec<OpenedBlock>,
    used: &mut Used,
) -> Result<(), Deny>
    requires table { length scope.old.at.items ≡ length tabled.now.program.now.names }
    requires named { LinesNamed (length tabled.now.program.now.names) (braced block.now).lines }
    ensures passed { IsHeld (judge_lines (code_of tabled.now) (definition method.now) (braced block.now).lines
        (context_of scope.old)) → IsPassed (λ x. PassesBranch (code_of tabled.now) (definition method.now)
        (braced block.now).no (braced block.now).lines (expression expr.now) (context_of scope.old)
        (context_of scope.new) opened.old.items opened.new.items used.old used.new) result }
    ensures grows { OnOk result (Grows scope.old scope.new) }
{
    value_used(tabled, scope, expr, used)?;
    let mark = scope.mark();
    inside_used(tabled, method, scope, block, mark, None, opened, used)?;
    scope.rewind(mark.changes);
    Ok(())
}

// A split block.
#[cycle(blocks)]
fn split_used(
    tabled: &Tabled,
    method: &Method,
    scope: &mut Scope,
    groups: &[NameAt],
    block: &Block,
    opened: &mut Vec<OpenedBlock>,
    used: &mut Used,
) -> Result<(), Deny>
    requires table { length scope.old.at.items ≡ length tabled.now.program.now.names }
    requires named { LinesNamed (length tabled.now.program.now.names) (braced block.now).lines }
    ensures passed { (at : Spot) → IsHeld (judge_statement (code_of tabled.now) (definition method.now) at
        (plain.Splits groups.now (braced block.now).no (braced block.now).lines) (context_of scope.old))
        → IsPassed (λ x. Passes (code_of tabled.now) (definition method.now) at
        (plain.Splits groups.now (braced block.now).no (braced block.now).lines) (context_of scope.old)
        (context_of scope.new) opened.old.items opened.new.items used.old used.new) result }
    ensures grows { OnOk result (Grows scope.old scope.new) }
{
    groups_used(groups, used)?;
    let mark = scope.mark();
    scope.enter_split(groups)?;
    inside_used(tabled, method, scope, block, mark, None, opened, used)
}

// An atomic block. The blocks in it are opened apart, and forgotten: none of them has a graph.
#[cycle(blocks)]
fn atomic_used(
    tabled: &Tabled,
    method: &Method,
    scope: &mut Scope,
    group: NameAt,
    block: &Block,
    used: &mut Used,
) -> Result<(), Deny>
    requires table { length scope.old.at.items ≡ length tabled.now.program.now.names }
    requires named { LinesNamed (length tabled.now.program.now.names) (braced block.now).lines }
    ensures passed { (at : Spot) (os : List OpenedBlock) → IsHeld (judge_statement (code_of tabled.now)
        (definition method.now) at (plain.Locks group (braced block.now).no (braced block.now).lines)
        (context_of scope.old)) → IsPassed (λ x. Passes (code_of tabled.now) (definition method.now) at
        (plain.Locks group (braced block.now).no (braced block.now).lines) (context_of scope.old)
        (context_of scope.new) os os used.old used.new) result }
    ensures grows { OnOk result (Grows scope.old scope.new) }
{
    used.shares(group.name)?;
    let mark = scope.mark();
    scope.enter_atomic(group)?;
    let mut apart = Vec::new(tabled.alloc);
    inside_used(
        tabled,
        method,
        scope,
        block,
        mark,
        Some(group.name),
        &mut apart,
        used,
    )
}

// A statement, with those in its blocks.
#[cycle(blocks)]
#[tactic(auto, using(ae_check::proofs::NamedLemmas::statements))]
fn line_used(
    tabled: &Tabled,
    method: &Method,
    scope: &mut Scope,
    stmt: &Stmt,
    opened: &mut Vec<OpenedBlock>,
    used: &mut Used,
) -> Result<(), Deny>
    requires table { length scope.old.at.items ≡ length tabled.now.program.now.names }
    requires named { StatementNamed (length tabled.now.program.now.names) (action stmt.now.kind) }
    ensures passed { IsHeld (judge_statement (code_of tabled.now) (definition method.now) stmt.now.at
        (action stmt.now.kind) (context_of scope.old)) → IsPassed (λ x. Passes (code_of tabled.now)
        (definition method.now) stmt.now.at (action stmt.now.kind) (context_of scope.old) (context_of scope.new)
        opened.old.items opened.new.items used.old used.new) result }
    ensures grows { OnOk result (Grows scope.old scope.new) }
{
    match &stmt.kind {
        StmtKind::If(expr, then, otherwise) => match otherwise {
            Some(other) => {
                lines_are_named(tabled, then);
                branch_used(tabled, method, scope, then, expr, opened, used)?;
                let mark = scope.mark();
                lines_are_named(tabled, other);
                inside_used(tabled, method, scope, other, mark, None, opened, used)
            }
            None => {
                lines_are_named(tabled, then);
                branch_used(tabled, method, scope, then, expr, opened, used)
            }
        },
        StmtKind::While(expr, block) => {
            lines_are_named(tabled, block);
            branch_used(tabled, method, scope, block, expr, opened, used)
        }
        StmtKind::Split(groups, block) => {
            lines_are_named(tabled, block);
            split_used(
                tabled,
                method,
                scope,
                groups.as_slice(),
                block,
                opened,
                used,
            )
        }
        StmtKind::Atomic(group, block) => {
            lines_are_named(tabled, block);
            atomic_used(tabled, method, scope, *group, block, used)
        }
        StmtKind::Let(..)
        | StmtKind::Assign(..)
        | StmtKind::Field(..)
        | StmtKind::Index(..)
        | StmtKind::Call(_)
        | StmtKind::Group(_)
        | StmtKind::Freeze(_)
        | StmtKind::Share(..)
        | StmtKind::PrintExpr(_)
        | StmtKind::PrintText(_)
        | StmtKind::Assert(_)
        | StmtKind::Return(_) => flat_used(tabled, method, scope, stmt, used),
    }
}
