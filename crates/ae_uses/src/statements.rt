// What a statement without blocks uses, whichever it is.
ghost use Rattle.std.specs.Prelude.{◌≡◌, true, [], OnOk};
ghost use Rattle.ae_tree.specs.Shown.{action, definition};
ghost use Rattle.ae_rules.specs.Blocks.{blocks_in};
ghost use Rattle.ae_rules.specs.Uses.{statement_uses};
ghost use Rattle.ae_scope.specs.Scope.{context_of};
ghost use Rattle.ae_judge.specs.Tabled.{code_of};
ghost use Rattle.ae_uses.specs.Used.{Adds};

use crate::calls::call_used;
use crate::simple::{
    assign_used, let_used, print_used, return_used, share_used, store_at_used, store_used,
};
use crate::used::Used;
use crate::values::value_used;
use ae_judge::Tabled;
use ae_scope::Scope;
use ae_tree::{IO, Method, StmtKind};
use std::alloc::AllocError;

/// What a statement without blocks uses. After an error what was used is not said.
#[tactic(auto, using(ae_tree::specs::Shown::shows))]
pub fn simple_used(
    tabled: &Tabled,
    method: &Method,
    scope: &Scope,
    kind: &StmtKind,
    used: &mut Used,
) -> Result<(), AllocError>
    requires simple { blocks_in true (action kind.now) ≡ [] }
    ensures { OnOk result (Adds used.old (statement_uses (code_of tabled.now) (definition method.now)
        (action kind.now) (context_of scope.now)) used.new) }
{
    match kind {
        StmtKind::Let(ty, x, rhs) => let_used(tabled, scope, ty, *x, rhs, used),
        StmtKind::Assign(x, rhs) => assign_used(tabled, scope, *x, rhs, used),
        StmtKind::Field(path, expr) => store_used(tabled, scope, path, expr, used),
        StmtKind::Index(path, index, expr) => store_at_used(tabled, scope, path, index, expr, used),
        StmtKind::Call(call) => call_used(tabled, scope, call, used),
        StmtKind::Group(group) => used.takes_whole(group.name),
        StmtKind::Freeze(x) => used.writes(x.name),
        StmtKind::Share(x, group) => share_used(*x, *group, used),
        StmtKind::PrintExpr(expr) => print_used(tabled, scope, expr, used),
        StmtKind::PrintText(_) => used.takes_whole(IO),
        StmtKind::Assert(expr) => value_used(tabled, scope, expr, used),
        StmtKind::Return(expr) => return_used(tabled, method, scope, expr, used),
        StmtKind::If(..) | StmtKind::While(..) | StmtKind::Split(..) | StmtKind::Atomic(..) => {
            unreachable!()
        }
    }
}
