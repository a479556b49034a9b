// What statements without blocks use.
ghost use Rattle.std.specs.Prelude.{◌≡◌, IfOk, OnOk};
ghost use Rattle.ae_tree.specs.Form.{form};
ghost use Rattle.ae_tree.specs.Shown.{definition, expression, right_side};
ghost use Rattle.ae_rules.specs.Uses as spec;
ghost use Rattle.ae_scope.specs.Scope.{context_of};
ghost use Rattle.ae_judge.specs.Tabled.{code_of};
ghost use Rattle.ae_uses.specs.Used.{Adds};
ghost use Rattle.ae_uses.specs.Simple.{let_uses, store_at_uses, share_uses, print_uses};

use crate::calls::right_used;
use crate::judged::where_held;
use crate::paths::{owner_written, write_used};
use crate::used::Used;
use crate::values::{into_used, value_used};
use ae_judge::{Tabled, walk};
use ae_scope::Scope;
use ae_tree::{Expr, Form, IO, Method, NameAt, Path, Rhs, Ty, form_of};
use std::alloc::{AllocError, Global};

// The form of a type.
fn form_at(alloc: Global, ty: &Ty) -> Result<Form, AllocError>
    ensures { IfOk result (λ f. f ≡ form ty.now) }
{
    match form_of(alloc, ty) {
        Ok(form) => Ok(form),
        Err(_) => Err(AllocError),
    }
}

/// What a `let` uses.
#[tactic(auto, using(crate::proofs::UsedLemmas::adds))]
pub fn let_used(
    tabled: &Tabled,
    scope: &Scope,
    ty: &Ty,
    x: NameAt,
    rhs: &Rhs,
    used: &mut Used,
) -> Result<(), AllocError>
    ensures { OnOk result (Adds used.old (let_uses (code_of tabled.now) (context_of scope.now) (form ty.now) x
        (right_side rhs.now)) used.new) }
{
    used.writes(x.name)?;
    let form = form_at(tabled.alloc, ty)?;
    right_used(tabled, scope, &form, rhs, used)?;
    Ok(())
}

/// What an assignment uses.
#[tactic(auto, using(crate::proofs::UsedLemmas::adds))]
pub fn assign_used(
    tabled: &Tabled,
    scope: &Scope,
    x: NameAt,
    rhs: &Rhs,
    used: &mut Used,
) -> Result<(), AllocError>
    ensures { OnOk result (Adds used.old (spec.assign_uses (code_of tabled.now) (context_of scope.now) x
        (right_side rhs.now)) used.new) }
{
    used.writes(x.name)?;
    match scope.find(x.name) {
        Some(local) => {
            right_used(tabled, scope, &local.form, rhs, used)?;
            Ok(())
        }
        None => Ok(()),
    }
}

/// What a write to a field uses.
#[tactic(auto, using(crate::proofs::UsedLemmas::adds))]
pub fn store_used(
    tabled: &Tabled,
    scope: &Scope,
    path: &Path,
    expr: &Expr,
    used: &mut Used,
) -> Result<(), AllocError>
    ensures { OnOk result (Adds used.old (spec.store_uses (code_of tabled.now) (context_of scope.now) path.now
        (expression expr.now)) used.new) }
{
    owner_written(tabled, scope, path, used)?;
    match where_held(walk(tabled, scope, path))? {
        Some(place) => {
            into_used(tabled, scope, &place.form, expr, used)?;
            Ok(())
        }
        None => Ok(()),
    }
}

/// What a write to an item of integers uses.
#[tactic(auto, using(crate::proofs::UsedLemmas::adds))]
pub fn store_at_used(
    tabled: &Tabled,
    scope: &Scope,
    path: &Path,
    index: &Expr,
    expr: &Expr,
    used: &mut Used,
) -> Result<(), AllocError>
    ensures { OnOk result (Adds used.old (store_at_uses (code_of tabled.now) (context_of scope.now) path.now
        (expression index.now) (expression expr.now)) used.new) }
{
    write_used(tabled, scope, path.root, path.steps.as_slice(), used)?;
    value_used(tabled, scope, index, used)?;
    value_used(tabled, scope, expr, used)?;
    Ok(())
}

/// What a `share` uses: the local is written, and the group is used as a whole.
#[tactic(auto, using(crate::proofs::UsedLemmas::adds))]
pub fn share_used(x: NameAt, group: NameAt, used: &mut Used) -> Result<(), AllocError>
    ensures { OnOk result (Adds used.old (share_uses x group) used.new) }
{
    used.writes(x.name)?;
    used.takes_whole(group.name)?;
    Ok(())
}

/// What printing a value uses: `io` as a whole, too.
#[tactic(auto, using(crate::proofs::UsedLemmas::adds))]
pub fn print_used(
    tabled: &Tabled,
    scope: &Scope,
    expr: &Expr,
    used: &mut Used,
) -> Result<(), AllocError>
    ensures { OnOk result (Adds used.old (print_uses (code_of tabled.now) (context_of scope.now)
        (expression expr.now)) used.new) }
{
    value_used(tabled, scope, expr, used)?;
    used.takes_whole(IO)?;
    Ok(())
}

/// What a `return` uses.
#[tactic(auto, using(crate::proofs::UsedLemmas::adds))]
pub fn return_used(
    tabled: &Tabled,
    method: &Method,
    scope: &Scope,
    expr: &Expr,
    used: &mut Used,
) -> Result<(), AllocError>
    ensures { OnOk result (Adds used.old (spec.return_uses (code_of tabled.now) (definition method.now)
        (context_of scope.now) (expression expr.now)) used.new) }
{
    match &method.result {
        Some(ty) => {
            let form = form_at(tabled.alloc, ty)?;
            into_used(tabled, scope, &form, expr, used)?;
            Ok(())
        }
        None => Ok(()),
    }
}
