// What expressions use.
ghost use Rattle.std.specs.Prelude.{OnOk};
ghost use Rattle.ae_tree.specs.Shown.{expression};
ghost use Rattle.ae_rules.specs.Into.{From};
ghost use Rattle.ae_rules.specs.Uses as spec;
ghost use Rattle.ae_scope.specs.Scope.{context_of};
ghost use Rattle.ae_judge.specs.Tabled.{code_of};
ghost use Rattle.ae_uses.specs.Used.{Adds};

use crate::paths::{end_used, path_used, walk_used};
use crate::used::Used;
use ae_judge::{Source, Tabled, moves, source_in};
use ae_scope::Scope;
use ae_tree::{Expr, Form, Name, Path, Perm};
use std::alloc::AllocError;

/// What an expression uses that is an integer or a boolean.
#[tactic(auto, using(crate::proofs::ValueLemmas::values, ae_tree::specs::Shown::shows))]
pub fn value_used(
    tabled: &Tabled,
    scope: &Scope,
    expr: &Expr,
    used: &mut Used,
) -> Result<(), AllocError>
    ensures { OnOk result (Adds used.old (spec.value_uses (code_of tabled.now) (context_of scope.now)
        (expression expr.now)) used.new) }
{
    match expr {
        Expr::Int(..) | Expr::Bool(..) | Expr::Null(_) => Ok(()),
        Expr::Path(path) => path_used(tabled, scope, path, used),
        Expr::Index(path, index) => {
            used.reads(path.root.name)?;
            end_used(tabled, scope, path, used)?;
            value_used(tabled, scope, index.get(), used)?;
            Ok(())
        }
        Expr::Len(path, _) => {
            used.reads(path.root.name)?;
            end_used(tabled, scope, path, used)?;
            Ok(())
        }
        Expr::Paren(inner, _) | Expr::Not(inner, _) | Expr::Neg(inner, _) => {
            value_used(tabled, scope, inner.get(), used)
        }
        Expr::Bin(_, a, b) => {
            value_used(tabled, scope, a.get(), used)?;
            value_used(tabled, scope, b.get(), used)?;
            Ok(())
        }
    }
}

// A source that goes into a form with this permission; a name that moves is written.
#[tactic(auto, using(crate::proofs::UsedLemmas::adds))]
fn source_used(
    tabled: &Tabled,
    scope: &Scope,
    perm: Perm,
    path: &Path,
    used: &mut Used,
) -> Result<(), AllocError>
    ensures { OnOk result (Adds used.old (spec.source_uses (code_of tabled.now) (context_of scope.now) perm
        (From path.now)) used.new) }
{
    path_used(tabled, scope, path, used)?;
    match moves(perm, path) {
        Some(name) => {
            used.writes(name)?;
            Ok(())
        }
        None => Ok(()),
    }
}

/// What an expression uses that goes into a form.
#[tactic(auto, using(crate::proofs::UsedLemmas::adds))]
pub fn into_used(
    tabled: &Tabled,
    scope: &Scope,
    form: &Form,
    expr: &Expr,
    used: &mut Used,
) -> Result<(), AllocError>
    ensures { OnOk result (Adds used.old (spec.into_uses (code_of tabled.now) (context_of scope.now) form.now
        (expression expr.now)) used.new) }
{
    match form {
        Form::Int | Form::Bool => value_used(tabled, scope, expr, used),
        Form::Object(perm, _) => match source_in(expr) {
            Some(found) => match found {
                Source::Null => Ok(()),
                Source::From(path) => source_used(tabled, scope, *perm, path, used),
            },
            None => Ok(()),
        },
    }
}

// The root of an argument for a parameter with this permission.
fn root_lent(perm: Perm, root: Name, used: &mut Used) -> Result<(), AllocError>
    ensures { OnOk result (Adds used.old (spec.root_lent perm root) used.new) }
{
    match perm {
        Perm::Unique => used.writes(root),
        Perm::Immutable | Perm::Lent | Perm::Shared(_) => used.reads(root),
    }
}

/// A path that is given to a parameter with this permission.
#[tactic(auto, using(crate::proofs::UsedLemmas::adds))]
pub fn path_given(
    tabled: &Tabled,
    scope: &Scope,
    perm: Perm,
    path: &Path,
    used: &mut Used,
) -> Result<(), AllocError>
    ensures { OnOk result (Adds used.old (spec.given_uses (code_of tabled.now) (context_of scope.now) perm
        (From path.now)) used.new) }
{
    root_lent(perm, path.root.name, used)?;
    walk_used(tabled, scope, path.root, path.steps.as_slice(), used)?;
    Ok(())
}

/// An argument for a parameter of this form.
#[tactic(auto, using(crate::proofs::UsedLemmas::adds))]
pub fn argument_used(
    tabled: &Tabled,
    scope: &Scope,
    form: &Form,
    expr: &Expr,
    used: &mut Used,
) -> Result<(), AllocError>
    ensures { OnOk result (Adds used.old (spec.argument_uses (code_of tabled.now) (context_of scope.now) form.now
        (expression expr.now)) used.new) }
{
    match form {
        Form::Int | Form::Bool => value_used(tabled, scope, expr, used),
        Form::Object(perm, _) => match source_in(expr) {
            Some(found) => match found {
                Source::Null => Ok(()),
                Source::From(path) => path_given(tabled, scope, *perm, path, used),
            },
            None => Ok(()),
        },
    }
}
