// Statements without blocks.
ghost use Rattle.std.specs.Prelude.{◌≡◌, ◌<◌, length, true, false, [], OnOk};
ghost use Rattle.ae_tree.specs.Form.{form};
ghost use Rattle.ae_tree.specs.Shown.{action, definition, expression, invocation, right_side};
ghost use Rattle.ae_tree.specs.WellShaped.{ActionNamed};
ghost use Rattle.ae_rules.specs.Answers.{Answers, Leaves, done};
ghost use Rattle.ae_rules.specs.Verdict.{Holds};
ghost use Rattle.ae_rules.specs.Context.{is_visible, with_name_moved};
ghost use Rattle.ae_rules.specs.Blocks.{blocks_in};
ghost use Rattle.ae_rules.specs.Effects.{all_moved};
ghost use Rattle.ae_rules.specs.Expressions.{expression_spot};
ghost use Rattle.ae_rules.specs.Statements as spec;
ghost use Rattle.ae_judge.specs.Tabled.{code_of};
ghost use Rattle.ae_scope.specs.Scope.{context_of};
ghost use Rattle.ae_scope.specs.Grows.{Grows};
ghost use Rattle.ae_check.specs.Simple.{after_assignment, called, introduced};

use ae_calls::{judge_call, judge_right};
use ae_judge::{
    Scalar, Tabled, deny, forms_type, group_access, into, is_group, is_value, judge_store,
    judge_store_at, judge_value,
};
use ae_rules::Held;
use ae_scope::{Scope, held_of};
use ae_text::{Deny, Rule, Spot};
use ae_tree::{Call, Expr, Form, IO, Method, Name, NameAt, Path, Rhs, Stmt, StmtKind, Ty, form_of};
use std::alloc::{AllocError, Global};

/// Nothing is held of these locals any more.
#[tactic(auto, using(ae_scope::proofs::ReplayLemmas::grown))]
pub fn release(scope: &mut Scope, names: &[Name]) -> Result<(), AllocError>
    ensures context { OnOk result (context_of scope.new ≡ all_moved names.now (context_of scope.old)) }
    ensures grows { OnOk result (Grows scope.old scope.new) }
{
    for name in names {
        scope.hold(*name, Held::None)?;
    }
    Ok(())
}

// A name that moves holds nothing any more.
#[tactic(auto, using(ae_scope::proofs::ReplayLemmas::grown))]
fn move_name(scope: &mut Scope, name: Option<Name>) -> Result<(), AllocError>
    ensures context { OnOk result (context_of scope.new ≡ with_name_moved name (context_of scope.old)) }
    ensures grows { OnOk result (Grows scope.old scope.new) }
{
    match name {
        Some(name) => scope.hold(name, Held::None),
        None => Ok(()),
    }
}

// The form of a type.
pub(crate) fn form_at(alloc: Global, ty: &Ty) -> Result<Form, Deny>
    ensures { Answers (Holds (form ty.now)) (λ f. f) result }
{
    match form_of(alloc, ty) {
        Ok(form) => Ok(form),
        Err(_) => Err(Deny::Memory),
    }
}

// A new local's form, and what moves into it.
#[derive(Drop)]
struct Introduced {
    form: Form,
    moved: Vec<Name>,
}

// The premises of a `let`.
fn may_let(
    tabled: &Tabled,
    scope: &Scope,
    ty: &Ty,
    x: NameAt,
    rhs: &Rhs,
) -> Result<Introduced, Deny>
    ensures answer { Answers (spec.judge_let (code_of tabled.now) (context_of scope.now) ty.now x (right_side rhs.now))
        (introduced x.name (context_of scope.now)) result }
    ensures new { OnOk result (is_visible (context_of scope.now) x.name ≡ false) }
{
    forms_type(tabled, scope, ty)?;
    if scope.is_visible(x.name) {
        return Err(deny(Rule::DuplicateLocal, x.at));
    }
    let form = form_at(tabled.alloc, ty)?;
    match judge_right(tabled, scope, &form, rhs) {
        Ok(moved) => Ok(Introduced { form, moved }),
        Err(fail) => Err(fail),
    }
}

/// `let`: a new local of a type. Refused where the type may not be written, where the name is visible, and where the
/// right side may not go into it. After a refusal what is known is not said.
#[tactic(auto, using(ae_scope::proofs::ReplayLemmas::grown))]
pub fn judge_let(
    tabled: &Tabled,
    scope: &mut Scope,
    ty: &Ty,
    x: NameAt,
    rhs: &Rhs,
) -> Result<(), Deny>
    requires { x.name < length scope.old.at.items }
    ensures answer { Leaves (spec.judge_let (code_of tabled.now) (context_of scope.old) ty.now x (right_side rhs.now))
        (context_of scope.new) result }
    ensures grows { OnOk result (Grows scope.old scope.new) }
{
    let Introduced { form, moved } = may_let(tabled, scope, ty, x, rhs)?;
    release(scope, moved.as_slice())?;
    scope.declare(x.name, form)?;
    Ok(())
}

// What an assignment moves, and what the local holds then.
#[derive(Drop)]
struct Assigned {
    moved: Vec<Name>,
    held: Held,
}

// The premises of an assignment.
fn may_assign(tabled: &Tabled, scope: &Scope, x: NameAt, rhs: &Rhs) -> Result<Assigned, Deny>
    ensures { Answers (spec.judge_assign (code_of tabled.now) (context_of scope.now) x (right_side rhs.now))
        (after_assignment x.name (context_of scope.now)) result }
{
    match scope.find(x.name) {
        Some(local) => {
            if local.stays {
                return Err(deny(Rule::ParameterMoved, x.at));
            }
            let moved = judge_right(tabled, scope, &local.form, rhs)?;
            Ok(Assigned {
                moved,
                held: held_of(&local.form),
            })
        }
        None => Err(deny(Rule::UnknownName, x.at)),
    }
}

/// An assignment. Refused where no local has the name, where it is a parameter that stays, and where the right side may
/// not go into it. After a refusal what is known is not said.
#[tactic(auto, using(ae_scope::proofs::ReplayLemmas::grown))]
pub fn judge_assign(tabled: &Tabled, scope: &mut Scope, x: NameAt, rhs: &Rhs) -> Result<(), Deny>
    ensures answer { Leaves (spec.judge_assign (code_of tabled.now) (context_of scope.old) x (right_side rhs.now))
        (context_of scope.new) result }
    ensures grows { OnOk result (Grows scope.old scope.new) }
{
    let assigned = may_assign(tabled, scope, x, rhs)?;
    release(scope, assigned.moved.as_slice())?;
    scope.hold(x.name, assigned.held)?;
    Ok(())
}

/// What is printed goes to `io`. Refused where `io` may not be reached. Takes no memory.
pub fn prints(scope: &Scope, at: Spot) -> Result<(), Deny>
    ensures { Leaves (spec.prints (context_of scope.now) at) (context_of scope.now) result }
{
    if scope.opens(IO) {
        Ok(())
    } else {
        Err(deny(Rule::NeedsGroup, at))
    }
}

// The local holds an object alone.
fn holds_alone(scope: &Scope, x: NameAt) -> Result<(), Deny>
    ensures { Answers (spec.holds_alone (context_of scope.now) x) done result }
{
    match scope.find(x.name) {
        Some(local) => match &local.form {
            Form::Int | Form::Bool => Err(deny(Rule::TypeMismatch, x.at)),
            Form::Object(..) => match local.held {
                Held::Unique => Ok(()),
                Held::None => Err(deny(Rule::NoPermission, x.at)),
                Held::Split(_) | Held::Immutable | Held::Lent | Held::Shared(_) | Held::Inner(_) =>
                    Err(deny(Rule::NeedsUnique, x.at)),
            },
        },
        None => Err(deny(Rule::UnknownName, x.at)),
    }
}

/// `freeze`: an object held alone is held by everyone, and changed by no one. Refused where the name is no local's, no
/// object's, or that of an object that is not held alone. After a refusal what is known is not said.
pub fn judge_freeze(scope: &mut Scope, x: NameAt) -> Result<(), Deny>
    ensures answer { Leaves (spec.judge_freeze (context_of scope.old) x) (context_of scope.new) result }
    ensures grows { OnOk result (Grows scope.old scope.new) }
{
    holds_alone(scope, x)?;
    scope.hold(x.name, Held::Immutable)?;
    Ok(())
}

/// `share`: an object held alone becomes a member of a group. Refused where the name is no local's, no object's, or
/// that of an object that is not held alone; and where the group is not known, is `io`, or may not be reached. After a
/// refusal what is known is not said.
pub fn judge_share(scope: &mut Scope, x: NameAt, group: NameAt) -> Result<(), Deny>
    ensures answer { Leaves (spec.judge_share (context_of scope.old) x group) (context_of scope.new) result }
    ensures grows { OnOk result (Grows scope.old scope.new) }
{
    holds_alone(scope, x)?;
    is_group(scope, group)?;
    group_access(scope, group.name, group.at)?;
    scope.hold(x.name, Held::Shared(group.name))?;
    Ok(())
}

/// `return`. Refused where the method is `void`, and where the expression may not go into its result. After a refusal
/// what is known is not said.
pub fn judge_return(
    tabled: &Tabled,
    method: &Method,
    scope: &mut Scope,
    expr: &Expr,
    at: Spot,
) -> Result<(), Deny>
    ensures answer { Leaves (spec.judge_return (code_of tabled.now) (definition method.now) (context_of scope.old)
        (expression expr.now) at) (context_of scope.new) result }
    ensures grows { OnOk result (Grows scope.old scope.new) }
{
    match &method.result {
        Some(ty) => {
            let form = form_at(tabled.alloc, ty)?;
            let name = into(tabled, scope, &form, expr)?;
            move_name(scope, name)?;
            Ok(())
        }
        None => Err(deny(Rule::TypeMismatch, at)),
    }
}

// A write to a field: what moves holds nothing any more.
fn store(tabled: &Tabled, scope: &mut Scope, path: &Path, expr: &Expr) -> Result<(), Deny>
    ensures answer { Leaves (spec.judge_store (code_of tabled.now) (context_of scope.old) path.now
        (expression expr.now) (expression_spot (expression expr.now))) (context_of scope.new) result }
    ensures grows { OnOk result (Grows scope.old scope.new) }
{
    let name = judge_store(tabled, scope, path, expr)?;
    move_name(scope, name)?;
    Ok(())
}

// A write to an item of integers.
fn store_at(
    tabled: &Tabled,
    scope: &Scope,
    path: &Path,
    index: &Expr,
    expr: &Expr,
) -> Result<(), Deny>
    ensures { Leaves (spec.judge_store_at (code_of tabled.now) (context_of scope.now) path.now
        (expression index.now) (expression expr.now)) (context_of scope.now) result }
{
    judge_store_at(tabled, scope, path, index, expr)
}

// A call as a statement: what it gives is dropped.
fn call(tabled: &Tabled, scope: &mut Scope, invoked: &Call) -> Result<(), Deny>
    ensures answer { Leaves (called (code_of tabled.now) (context_of scope.old) (invocation invoked.now))
        (context_of scope.new) result }
    ensures grows { OnOk result (Grows scope.old scope.new) }
{
    let called = judge_call(tabled, scope, invoked)?;
    release(scope, called.gone.as_slice())?;
    Ok(())
}

/// A statement without blocks: refused by its first premise that fails, with its rule and place. After a refusal what
/// is known is not said.
#[tactic(auto, using(crate::proofs::NamedLemmas::statements))]
pub fn judge_simple(
    tabled: &Tabled,
    method: &Method,
    scope: &mut Scope,
    stmt: &Stmt,
) -> Result<(), Deny>
    requires table { length scope.old.at.items ≡ length tabled.now.program.now.names }
    requires named { ActionNamed (length tabled.now.program.now.names) (action stmt.now.kind) }
    requires simple { blocks_in true (action stmt.now.kind) ≡ [] }
    ensures answer { Leaves (spec.judge_statement (code_of tabled.now) (definition method.now) stmt.now.at
        (action stmt.now.kind) (context_of scope.old)) (context_of scope.new) result }
    ensures grows { OnOk result (Grows scope.old scope.new) }
{
    let at = stmt.at;
    match &stmt.kind {
        StmtKind::Let(ty, x, rhs) => judge_let(tabled, scope, ty, *x, rhs),
        StmtKind::Assign(x, rhs) => judge_assign(tabled, scope, *x, rhs),
        StmtKind::Field(path, expr) => store(tabled, scope, path, expr),
        StmtKind::Index(path, index, expr) => store_at(tabled, scope, path, index, expr),
        StmtKind::Call(invoked) => call(tabled, scope, invoked),
        StmtKind::Group(group) => scope.declare_group(*group),
        StmtKind::Freeze(x) => judge_freeze(scope, *x),
        StmtKind::Share(x, group) => judge_share(scope, *x, *group),
        StmtKind::PrintExpr(expr) => {
            judge_value(tabled, scope, expr)?;
            prints(scope, at)
        }
        StmtKind::PrintText(_) => prints(scope, at),
        StmtKind::Assert(expr) => is_value(tabled, scope, Scalar::Bool, expr),
        StmtKind::Return(expr) => judge_return(tabled, method, scope, expr, at),
        StmtKind::If(..) | StmtKind::While(..) | StmtKind::Split(..) | StmtKind::Atomic(..) =>
            unreachable!(),
    }
}
