// Whether a program has only forms that run by the graph.
ghost use Rattle.std.specs.Prelude.{◌≡◌, ◌≢◌, ◌≤◌, ◌∷◌, [], MatchBool};
ghost use Rattle.ae_text.specs.declared.refusal.Spot.{Spot};
ghost use Rattle.ae_tree.specs.Shown.{expression, right_side, action, lines_from, definition, code};
ghost use Rattle.ae_tree.specs.Grammar.{level};
ghost use Rattle.ae_tree.specs.Names.{this};
ghost use Rattle.ae_tree.specs.Built.{IsBuiltExpression, IsBuiltRight, IsBuiltType, IsBuiltAction, AreBuilt, IsMain};
ghost use Rattle.ae_tree.specs.Built.{Built};
ghost use Rattle.aem.specs.Forms.{IsExclusiveIo, NeedsIo, IsPlainName, IsBare, IsBuiltMethod};

use ae_tree::{
    Expr, GroupNeed, IO, MAIN, Method, Name, Need, Op, Path, Program, Rhs, Stmt, StmtKind, THIS, Ty,
};

fn is_built_operator(op: Op) -> bool
    ensures { MatchBool result (3 ≤ level op) (3 ≤ level op → ⊥) }
{
    match op {
        Op::Add | Op::Sub | Op::Mul | Op::Div | Op::Rem => true,
        Op::Or | Op::And | Op::Eq | Op::Ne | Op::Lt | Op::Le | Op::Gt | Op::Ge => false,
    }
}

fn is_built_path(path: &Path) -> bool
    ensures { MatchBool result (IsPlainName path.now) (IsPlainName path.now → ⊥) }
{
    path.steps.is_empty() && path.root.name != THIS
}

#[tactic(auto, using(ae_tree::specs::Shown::shows))]
fn is_built_expression(expr: &Expr) -> bool
    ensures { MatchBool result (IsBuiltExpression (expression expr.now)) (IsBuiltExpression (expression expr.now) → ⊥) }
{
    match expr {
        Expr::Int(_, _) => true,
        Expr::Path(path) => is_built_path(path),
        Expr::Paren(inner, _) => is_built_expression(inner.get()),
        Expr::Neg(inner, _) => is_built_expression(inner.get()),
        Expr::Bin(op, left, right) => {
            is_built_operator(*op)
                && is_built_expression(left.get())
                && is_built_expression(right.get())
        }
        Expr::Bool(_, _) | Expr::Null(_) | Expr::Index(_, _) => false,
        Expr::Len(_, _) | Expr::Not(_, _) => false,
    }
}

fn is_built_right(rhs: &Rhs) -> bool
    ensures { MatchBool result (IsBuiltRight (right_side rhs.now)) (IsBuiltRight (right_side rhs.now) → ⊥) }
{
    match rhs {
        Rhs::Expr(expr) => is_built_expression(expr),
        Rhs::Take(_, _) | Rhs::Ints(_, _) | Rhs::New(_, _, _, _) | Rhs::Call(_) => false,
    }
}

fn is_built_type(ty: &Ty) -> bool
    ensures { MatchBool result (IsBuiltType ty.now) (IsBuiltType ty.now → ⊥) }
{
    match ty {
        Ty::Int(_) => true,
        Ty::Bool(_) | Ty::Object(_, _) => false,
    }
}

#[tactic(auto, using(ae_tree::specs::Shown::shows))]
fn is_built_statement(kind: &StmtKind) -> bool
    ensures { MatchBool result (IsBuiltAction (action kind.now)) (IsBuiltAction (action kind.now) → ⊥) }
{
    match kind {
        StmtKind::Let(ty, _, rhs) => is_built_type(ty) && is_built_right(rhs),
        StmtKind::Assign(_, rhs) => is_built_right(rhs),
        StmtKind::PrintExpr(expr) => is_built_expression(expr),
        StmtKind::Field(_, _) | StmtKind::Index(_, _, _) | StmtKind::Call(_) => false,
        StmtKind::If(_, _, None) | StmtKind::If(_, _, Some(_)) | StmtKind::While(_, _) => false,
        StmtKind::Group(_) | StmtKind::Split(_, _) | StmtKind::Atomic(_, _) => false,
        StmtKind::Freeze(_) | StmtKind::Share(_, _) | StmtKind::PrintText(_) => false,
        StmtKind::Assert(_) | StmtKind::Return(_) => false,
    }
}

fn are_built(stmts: &[Stmt]) -> bool
    ensures { MatchBool result (AreBuilt (lines_from stmts.now)) (AreBuilt (lines_from stmts.now) → ⊥) }
{
    for stmt in stmts {
        if !is_built_statement(&stmt.kind) {
            return false;
        }
    }
    true
}

fn is_exclusive_io(need: GroupNeed) -> bool
    ensures { MatchBool result (IsExclusiveIo need) (IsExclusiveIo need → ⊥) }
{
    match need.need {
        Need::Exclusive => need.group.name == IO,
        Need::Shared | Need::Protected => false,
    }
}

fn needs_io(needs: &[GroupNeed]) -> bool
    ensures { MatchBool result (NeedsIo needs.now) (NeedsIo needs.now → ⊥) }
{
    match needs {
        [need] => is_exclusive_io(*need),
        _ => false,
    }
}

// A method at the top, named main, without a result, groups and parameters.
#[tactic(auto, using(crate::proofs::Forms::no_out))]
fn is_bare(method: &Method) -> bool
    ensures { MatchBool result (IsBare (definition method.now)) (IsBare (definition method.now) → ⊥) }
{
    method.class.is_none()
        && method.result.is_none()
        && method.name.name == MAIN
        && method.groups.is_empty()
        && method.me.is_none()
        && method.params.is_empty()
        && method.body.no == 0
}

fn is_main(method: &Method) -> bool
    ensures { MatchBool result (IsMain (definition method.now)) (IsMain (definition method.now) → ⊥) }
{
    is_bare(method) && needs_io(method.needs.as_slice())
}

fn is_built_method(method: &Method) -> bool
    ensures { MatchBool result (IsBuiltMethod (definition method.now)) (IsBuiltMethod (definition method.now) → ⊥) }
{
    is_main(method) && are_built(method.body.stmts.as_slice())
}

/// Whether a program is one method `main` all of whose statements run by the graph.
pub fn is_built(program: &Program) -> bool
    ensures { MatchBool result (Built (code program.now)) (Built (code program.now) → ⊥) }
{
    match program.methods.as_slice() {
        [method] => program.classes.is_empty() && is_built_method(method),
        _ => false,
    }
}
