// Fields taken, and writes to fields and items.
ghost use Rattle.std.specs.Prelude.{◌≡◌};
ghost use Rattle.ae_tree.specs.Shown.{expression};
ghost use Rattle.ae_rules.specs.Answers.{Answers};
ghost use Rattle.ae_rules.specs.Context.{with_name_moved};
ghost use Rattle.ae_rules.specs.Expressions as expressions;
ghost use Rattle.ae_rules.specs.Statements as spec;
ghost use Rattle.ae_scope.specs.Scope.{context_of};
ghost use Rattle.ae_judge.specs.Tabled.{code_of};

use crate::answer::deny;
use crate::fitting::into;
use crate::forms::{is_ints, is_object, is_unique};
use crate::tabled::Tabled;
use crate::values::{Scalar, expression_spot, is_value};
use crate::walks::{owner_write_access, walk, write_access};
use ae_scope::Scope;
use ae_text::{Deny, Rule, Spot};
use ae_tree::{Expr, Form, Name, Path};

/// A field taken from its object, with the place of `take`. The answer is the field's form. Refused where it is no
/// object or not unique, and where the object that has it may not be changed.
pub fn judge_take(tabled: &Tabled, scope: &Scope, path: &Path, at: Spot) -> Result<Form, Deny>
    ensures { Answers (spec.judge_take (code_of tabled.now) (context_of scope.now) path.now at) (λ form. form) result }
{
    let place = walk(tabled, scope, path)?;
    if !is_object(&place.form) {
        return Err(deny(Rule::TypeMismatch, at));
    }
    if !is_unique(&place.form) {
        return Err(deny(Rule::NeedsUnique, at));
    }
    owner_write_access(tabled, scope, path)?;
    Ok(place.form)
}

fn is_moved(name: Option<Name>, other: Name) -> bool
    ensures { result ≡ spec.is_moved name other }
{
    match name {
        Some(name) => name == other,
        None => false,
    }
}

/// A write to a field. The answer is the name that moves, which holds nothing after the statement; nothing is changed
/// here. Refused where the object that has the field may not be changed, where the expression does not go into the
/// field, and where it moves the path's own root.
pub fn judge_store(
    tabled: &Tabled,
    scope: &Scope,
    path: &Path,
    expr: &Expr,
) -> Result<Option<Name>, Deny>
    ensures { Answers (spec.judge_store (code_of tabled.now) (context_of scope.now) path.now (expression expr.now)
        (expressions.expression_spot (expression expr.now))) (λ name. with_name_moved name (context_of scope.now))
        result }
{
    let place = walk(tabled, scope, path)?;
    owner_write_access(tabled, scope, path)?;
    let name = into(tabled, scope, &place.form, expr)?;
    if is_moved(name, path.root.name) {
        return Err(deny(Rule::UsedTwice, expression_spot(expr)));
    }
    Ok(name)
}

/// A write to an item of integers. Nothing moves. Refused where the path leads to no integers, where they may not be
/// changed, and where the index or what is written is no integer.
pub fn judge_store_at(
    tabled: &Tabled,
    scope: &Scope,
    path: &Path,
    index: &Expr,
    expr: &Expr,
) -> Result<(), Deny>
    ensures { Answers (spec.judge_store_at (code_of tabled.now) (context_of scope.now) path.now (expression index.now)
        (expression expr.now)) (λ _. context_of scope.now) result }
{
    let place = walk(tabled, scope, path)?;
    if !is_ints(&place.form) {
        return Err(deny(Rule::TypeMismatch, path.root.at));
    }
    write_access(scope, path.root.at, place.held)?;
    is_value(tabled, scope, Scalar::Int, index)?;
    is_value(tabled, scope, Scalar::Int, expr)
}
