// The groups that a block declares: at its end none is left in a local from outside.
ghost use Rattle.std.specs.Prelude.{◌≡◌, ◌≤◌, ℕ, not, nat_eq, false, length, drop, [], ◌∷◌, IfOk, MatchOption};
ghost use Rattle.std.specs.List.{list_any};
ghost use Rattle.ae_tree.specs.Shown.{action, braced};
ghost use Rattle.ae_rules.specs.Answers.{Answers, done};
ghost use Rattle.ae_rules.specs.BlockLaws.{group_in_line, groups_in_lines};
ghost use Rattle.ae_rules.specs.Lookups.{is_empty};
ghost use Rattle.ae_rules.specs.Verdict.{each, given};
ghost use Rattle.ae_groups.specs.Contexts.{set_of_names};
ghost use Rattle.ae_scope.specs.Slots.{now_held};
ghost use Rattle.ae_check.specs.Blocks.{is_not_left, left_outside, shares_outside};

use ae_judge::{Tabled, deny};
use ae_rules::Held;
use ae_scope::{Change, Mark, Scope};
use ae_text::{Deny, Rule};
use ae_tree::{Block, Name, NameAt, StmtKind};
use std::alloc::{AllocError, Global};
use std::collections::HashSet;

// The group that a statement declares.
#[tactic(auto, using(ae_tree::specs::Shown::shows))]
fn declared(kind: &StmtKind) -> Option<NameAt>
    ensures { MatchOption result (group_in_line (action kind.now) ≡ []) (λ g. group_in_line (action kind.now)
        ≡ g ∷ []) }
{
    match kind {
        StmtKind::Group(group) => Some(*group),
        StmtKind::If(_, _, otherwise) => match otherwise {
            Some(_) => None,
            None => None,
        },
        StmtKind::Let(..)
        | StmtKind::Assign(..)
        | StmtKind::Field(..)
        | StmtKind::Index(..)
        | StmtKind::Call(_)
        | StmtKind::While(..)
        | StmtKind::Split(..)
        | StmtKind::Atomic(..)
        | StmtKind::Freeze(_)
        | StmtKind::Share(..)
        | StmtKind::PrintExpr(_)
        | StmtKind::PrintText(_)
        | StmtKind::Assert(_)
        | StmtKind::Return(_) => None,
    }
}

// A statement of the block declares a group.
fn declares_group(block: &Block) -> bool
    ensures { result ≡ not (is_empty (groups_in_lines (braced block.now).lines)) }
{
    for stmt in block.stmts.as_slice() {
        if declared(&stmt.kind).is_some() {
            return true;
        }
    }
    false
}

// The group in which one of the first locals holds what is shared.
fn shared_by(change: Change, locals: usize) -> Option<Name>
    ensures { (g : ℕ) → shares_outside locals g change ≡ given result false (nat_eq g) }
{
    if change.slot >= locals {
        return None;
    }
    match change.held {
        Held::Shared(group) => Some(group),
        Held::Unique
        | Held::Split(_)
        | Held::Immutable
        | Held::Lent
        | Held::Inner(_)
        | Held::None => None,
    }
}

// The groups in which one of the first locals holds what is shared, of those that changed.
fn groups_shared(
    alloc: Global,
    changes: &[Change],
    locals: usize,
) -> Result<HashSet<Name>, AllocError>
    ensures { IfOk result (λ set. (g : ℕ) → set_of_names set g ≡ list_any (shares_outside locals g) changes.now) }
{
    let mut groups = HashSet::new(alloc);
    for change in changes {
        match shared_by(*change, locals) {
            Some(group) => {
                groups.insert(group)?;
            }
            None => {}
        }
    }
    Ok(groups)
}

// No group that the block declares is one of these.
fn none_left(groups: &HashSet<Name>, block: &Block) -> Result<(), Deny>
    ensures { Answers (each (is_not_left (set_of_names groups.now)) (groups_in_lines (braced block.now).lines)) done
        result }
{
    for stmt in block.stmts.as_slice() {
        match declared(&stmt.kind) {
            Some(group) => {
                if groups.contains(&group.name) {
                    return Err(deny(Rule::GroupEscapes, group.at));
                }
            }
            None => {}
        }
    }
    Ok(())
}

/// No group that the block declares is left in a local from outside: refused at the first of its `group` statements
/// whose group such a local holds. Costs nothing where the block declares no group, and else what changed since the
/// mark
/// and the block's statements.
pub fn groups_stay(tabled: &Tabled, scope: &Scope, mark: Mark, block: &Block) -> Result<(), Deny>
    requires { mark.changes ≤ length scope.now.trail.items }
    ensures { Answers (each (is_not_left (left_outside mark scope.now)) (groups_in_lines (braced block.now).lines))
        done result }
{
    if !declares_group(block) {
        return Ok(());
    }
    let changed = scope.changed(tabled.alloc, mark.changes)?;
    let groups = groups_shared(tabled.alloc, changed.as_slice(), mark.locals)?;
    none_left(&groups, block)
}
