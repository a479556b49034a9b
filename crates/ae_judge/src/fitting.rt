// What may go into a place of a form: an expression, or a value that was made.
ghost use Rattle.std.specs.Prelude.{◌≡◌, MatchOption, None, Some};
ghost use Rattle.ae_tree.specs.Shown.{expression};
ghost use Rattle.ae_rules.specs.Answers.{Answers, done};
ghost use Rattle.ae_rules.specs.Context.{is_held_alone};
ghost use Rattle.ae_rules.specs.Into as spec;
ghost use Rattle.ae_scope.specs.Scope.{context_of};
ghost use Rattle.ae_judge.specs.Tabled.{code_of};
ghost use Rattle.ae_judge.specs.Views.{source_of};

use crate::answer::deny;
use crate::forms::{is_object_of, is_same_kind, is_same_perm, is_same_value};
use crate::tabled::Tabled;
use crate::values::{Scalar, expression_spot, is_value};
use crate::walks::{is_name, walk};
use ae_rules::Held;
use ae_scope::Scope;
use ae_text::{Deny, Rule, Spot};
use ae_tree::{Expr, Form, Kind, Name, Path, Perm};

/// What can stand where an object goes: `null`, or a path without parentheses.
#[derive(Clone, Copy)]
pub enum Source<'a> {
    Null,
    From(&'a Path),
}

/// What an expression is where an object goes, if it can stand there. Takes no memory.
#[tactic(auto, using(ae_tree::specs::Shown::shows))]
pub fn source_in<'a>(expr: &'a Expr) -> Option<Source<'a>>
    ensures { MatchOption result (spec.source (expression expr.now) ≡ None)
        (λ s. spec.source (expression expr.now) ≡ Some (source_of s)) }
{
    match expr {
        Expr::Null(_) => Some(Source::Null),
        Expr::Path(path) => Some(Source::From(path)),
        Expr::Int(..)
        | Expr::Bool(..)
        | Expr::Index(..)
        | Expr::Len(..)
        | Expr::Paren(..)
        | Expr::Not(..)
        | Expr::Neg(..)
        | Expr::Bin(..) => None,
    }
}

/// All of an object is held, and by no one else. Takes no memory.
pub fn is_held_alone(held: Held) -> bool
    ensures { result ≡ is_held_alone held }
{
    match held {
        Held::Unique => true,
        Held::Split(_)
        | Held::Immutable
        | Held::Lent
        | Held::Shared(_)
        | Held::Inner(_)
        | Held::None => false,
    }
}

// Into a unique form goes what is held Unique and has a name of its own.
fn into_unique(named: bool, held: Held, at: Spot) -> Result<(), Deny>
    ensures { Answers (spec.into_unique named held at) done result }
{
    if named && is_held_alone(held) {
        Ok(())
    } else {
        Err(deny(Rule::NeedsUnique, at))
    }
}

/// Into an immutable form goes what is held Immutable, and else this is refused. Takes no memory.
pub fn into_immutable(held: Held, at: Spot) -> Result<(), Deny>
    ensures { Answers (spec.into_immutable held at) done result }
{
    match held {
        Held::Immutable => Ok(()),
        Held::Unique
        | Held::Split(_)
        | Held::Lent
        | Held::Shared(_)
        | Held::Inner(_)
        | Held::None => Err(deny(Rule::NoPermission, at)),
    }
}

/// Into a form shared in a group goes what is held shared in it: another group is of another form, and anything else is
/// no permission. Takes no memory.
pub fn into_shared(group: Name, held: Held, at: Spot) -> Result<(), Deny>
    ensures { Answers (spec.into_shared group held at) done result }
{
    match held {
        Held::Shared(other) => {
            if group == other {
                Ok(())
            } else {
                Err(deny(Rule::TypeMismatch, at))
            }
        }
        Held::Unique
        | Held::Split(_)
        | Held::Immutable
        | Held::Lent
        | Held::Inner(_)
        | Held::None => Err(deny(Rule::NoPermission, at)),
    }
}

/// Something is held, and it is not lent; else this is refused. Takes no memory.
pub fn may_leave(held: Held, at: Spot) -> Result<(), Deny>
    ensures { Answers (spec.may_leave held at) done result }
{
    match held {
        Held::None => Err(deny(Rule::NoPermission, at)),
        Held::Lent => Err(deny(Rule::LentEscapes, at)),
        Held::Unique | Held::Split(_) | Held::Immutable | Held::Shared(_) | Held::Inner(_) => Ok(
            (),
        ),
    }
}

// By the form's permission; nothing goes into a lent form.
fn into_perm(perm: Perm, named: bool, held: Held, at: Spot) -> Result<(), Deny>
    ensures { Answers (spec.into_perm perm named held at) done result }
{
    match perm {
        Perm::Unique => into_unique(named, held, at),
        Perm::Immutable => into_immutable(held, at),
        Perm::Lent => Err(deny(Rule::LentEscapes, at)),
        Perm::Shared(group) => into_shared(group, held, at),
    }
}

// A path into an object's form, where the expression stands here.
fn path_fits(
    tabled: &Tabled,
    scope: &Scope,
    perm: Perm,
    kind: &Kind,
    path: &Path,
    at: Spot,
) -> Result<(), Deny>
    ensures { Answers (spec.path_fits (code_of tabled.now) (context_of scope.now) perm kind.now path.now at) done
        result }
{
    let place = walk(tabled, scope, path)?;
    if !is_object_of(kind, &place.form) {
        return Err(deny(Rule::TypeMismatch, at));
    }
    may_leave(place.held, at)?;
    into_perm(perm, is_name(path), place.held, at)
}

// An expression fits into a form.
fn fits(tabled: &Tabled, scope: &Scope, form: &Form, expr: &Expr) -> Result<(), Deny>
    ensures { Answers (spec.fits (code_of tabled.now) (context_of scope.now) form.now (expression expr.now)) done
        result }
{
    match form {
        Form::Int => is_value(tabled, scope, Scalar::Int, expr),
        Form::Bool => is_value(tabled, scope, Scalar::Bool, expr),
        Form::Object(perm, kind) => match source_in(expr) {
            Some(found) => match found {
                Source::Null => Ok(()),
                Source::From(path) => {
                    path_fits(tabled, scope, *perm, kind, path, expression_spot(expr))
                }
            },
            None => Err(deny(Rule::TypeMismatch, expression_spot(expr))),
        },
    }
}

/// The name that moves into a form with this permission: the path's, where it is unique. Takes no memory.
pub fn moves(perm: Perm, path: &Path) -> Option<Name>
    ensures { result ≡ spec.moves perm path.now }
{
    match perm {
        Perm::Unique => Some(path.root.name),
        Perm::Immutable | Perm::Lent | Perm::Shared(_) => None,
    }
}

/// The name that moves with an expression into a form, by its text alone: that of a path into a unique form. Takes no
/// memory.
pub fn name_into(form: &Form, expr: &Expr) -> Option<Name>
    ensures { result ≡ spec.name_into form.now (expression expr.now) }
{
    match form {
        Form::Int | Form::Bool => None,
        Form::Object(perm, _) => match source_in(expr) {
            Some(found) => match found {
                Source::Null => None,
                Source::From(path) => moves(*perm, path),
            },
            None => None,
        },
    }
}

/// An expression into a form. The answer is the name that moves, which holds nothing after the statement; nothing is
/// changed here. Refused is what is of another form, what is not held, or lent, or not as the form asks.
pub fn into(tabled: &Tabled, scope: &Scope, form: &Form, expr: &Expr) -> Result<Option<Name>, Deny>
    ensures { Answers (spec.into (code_of tabled.now) (context_of scope.now) form.now (expression expr.now))
        (λ name. name) result }
{
    fits(tabled, scope, form, expr)?;
    Ok(name_into(form, expr))
}

// The rule that a value with another permission breaks.
fn other_perm(perm: Perm) -> Rule
    ensures { result ≡ spec.other_perm perm }
{
    match perm {
        Perm::Unique => Rule::NeedsUnique,
        Perm::Immutable | Perm::Lent | Perm::Shared(_) => Rule::NoPermission,
    }
}

/// A made value into a form: refused where its kind is another, and then where its permission is. Takes no memory.
pub fn made_into(value: &Form, target: &Form, at: Spot) -> Result<(), Deny>
    ensures { Answers (spec.made_into value.now target.now at) done result }
{
    match value {
        Form::Int | Form::Bool => {
            if is_same_value(value, target) {
                Ok(())
            } else {
                Err(deny(Rule::TypeMismatch, at))
            }
        }
        Form::Object(perm, kind) => match target {
            Form::Int | Form::Bool => Err(deny(Rule::TypeMismatch, at)),
            Form::Object(wanted, other) => {
                if !is_same_kind(kind, other) {
                    return Err(deny(Rule::TypeMismatch, at));
                }
                if is_same_perm(*perm, *wanted) {
                    Ok(())
                } else {
                    Err(deny(other_perm(*wanted), at))
                }
            }
        },
    }
}
