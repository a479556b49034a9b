// Whether nothing is split in a program.
ghost use Rattle.std.specs.Prelude.{MatchBool};
ghost use Rattle.ae_tree.specs.Shown.{action, braced, code};
ghost use Rattle.ae_soundness.specs.Whole.{IsUnsplit};
ghost use Rattle.ae_unsplit.specs.Unsplit.{AreUnsplit, IsUnsplitAction};

use ae_tree::{Block, Program, StmtKind};

// No statement of a block splits anything, nor does one in its blocks.
#[cycle(blocks)]
fn is_unsplit_block(block: &Block) -> bool
    ensures { MatchBool result (AreUnsplit (braced block.now).lines) (AreUnsplit (braced block.now).lines → ⊥) }
{
    for stmt in block.stmts.as_slice() {
        if !is_unsplit_statement(&stmt.kind) {
            return false;
        }
    }
    true
}

// A statement splits nothing, nor does one in its blocks.
#[cycle(blocks)]
#[tactic(auto, using(ae_tree::specs::Shown::shows))]
fn is_unsplit_statement(kind: &StmtKind) -> bool
    ensures { MatchBool result (IsUnsplitAction (action kind.now)) (IsUnsplitAction (action kind.now) → ⊥) }
{
    match kind {
        StmtKind::If(_, then, otherwise) => match otherwise {
            Some(other) => is_unsplit_block(then) && is_unsplit_block(other),
            None => is_unsplit_block(then),
        },
        StmtKind::While(_, body) => is_unsplit_block(body),
        StmtKind::Split(_, _) | StmtKind::Atomic(_, _) => false,
        StmtKind::Let(_, _, _) | StmtKind::Assign(_, _) | StmtKind::Field(_, _) => true,
        StmtKind::Index(_, _, _) | StmtKind::Call(_) | StmtKind::Group(_) => true,
        StmtKind::Freeze(_) | StmtKind::Share(_, _) | StmtKind::PrintExpr(_) => true,
        StmtKind::PrintText(_) | StmtKind::Assert(_) | StmtKind::Return(_) => true,
    }
}

/// Whether no statement of a program splits groups, and none is an atomic block. Costs a look at each statement.
pub fn is_unsplit(program: &Program) -> bool
    ensures { MatchBool result (IsUnsplit (code program.now)) (IsUnsplit (code program.now) → ⊥) }
{
    for method in program.methods.as_slice() {
        if !is_unsplit_block(&method.body) {
            return false;
        }
    }
    true
}
