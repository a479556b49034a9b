// Expressions, from left to right: which are integers, which are booleans, and which premise fails first.
ghost use Rattle.std.specs.Prelude.{◌≡◌, MatchOption, None, Some};
ghost use Rattle.ae_tree.specs.Plain.{Read, Item, Length};
ghost use Rattle.ae_tree.specs.Shown.{expression};
ghost use Rattle.ae_rules.specs.Answers.{Answers, done};
ghost use Rattle.ae_rules.specs.Context.{held_in, holds_nothing};
ghost use Rattle.ae_rules.specs.Expressions as spec;
ghost use Rattle.ae_rules.specs.Forms.{same_value};
ghost use Rattle.ae_scope.specs.Scope.{context_of};
ghost use Rattle.ae_judge.specs.Tabled.{code_of};
ghost use Rattle.ae_judge.specs.Views.{form_of, operands_of};

use crate::answer::deny;
use crate::forms::is_ints;
use crate::tabled::Tabled;
use crate::walks::{access, walk};
use ae_rules::Held;
use ae_scope::Scope;
use ae_text::{Deny, Rule, Spot};
use ae_tree::{Expr, Form, Name, Op, Path};

/// The form of a value that is no object.
#[derive(Clone, Copy, Debug, PartialEq, Eq)]
pub enum Scalar {
    Int,
    Bool,
}

/// The place of an expression's first token. Takes no memory.
#[tactic(auto, using(ae_tree::specs::Shown::shows))]
pub fn expression_spot(expr: &Expr) -> Spot
    ensures { result ≡ spec.expression_spot (expression expr.now) }
{
    match expr {
        Expr::Int(_, at)
        | Expr::Bool(_, at)
        | Expr::Null(at)
        | Expr::Len(_, at)
        | Expr::Paren(_, at)
        | Expr::Not(_, at)
        | Expr::Neg(_, at) => *at,
        Expr::Path(path) | Expr::Index(path, _) => path.root.at,
        Expr::Bin(_, a, _) => expression_spot(a.get()),
    }
}

fn result_form(op: Op) -> Scalar
    ensures { form_of result ≡ spec.result_form op }
{
    match op {
        Op::Or | Op::And | Op::Eq | Op::Ne | Op::Lt | Op::Le | Op::Gt | Op::Ge => Scalar::Bool,
        Op::Add | Op::Sub | Op::Mul | Op::Div | Op::Rem => Scalar::Int,
    }
}

// What an operator asks of its operands.
#[derive(Clone, Copy)]
enum Operands {
    Numbers,
    Truths,
    Equals,
}

fn operands_for(op: Op) -> Operands
    ensures { operands_of result ≡ spec.operands op }
{
    match op {
        Op::Or | Op::And => Operands::Truths,
        Op::Eq | Op::Ne => Operands::Equals,
        Op::Lt | Op::Le | Op::Gt | Op::Ge | Op::Add | Op::Sub | Op::Mul | Op::Div | Op::Rem =>
            Operands::Numbers,
    }
}

fn is_same_scalar(wanted: Scalar, found: Scalar) -> bool
    ensures { result ≡ same_value (form_of wanted) (form_of found) }
{
    match wanted {
        Scalar::Int => match found {
            Scalar::Int => true,
            Scalar::Bool => false,
        },
        Scalar::Bool => match found {
            Scalar::Int => false,
            Scalar::Bool => true,
        },
    }
}

// What is held of a local; nothing, where it is not visible.
fn held_in(scope: &Scope, name: Name) -> Held
    ensures { result ≡ held_in (context_of scope.now) name }
{
    match scope.find(name) {
        Some(local) => local.held,
        None => Held::None,
    }
}

/// Nothing is held. Takes no memory.
pub fn holds_nothing(held: Held) -> bool
    ensures { result ≡ holds_nothing held }
{
    match held {
        Held::Unique
        | Held::Split(_)
        | Held::Immutable
        | Held::Lent
        | Held::Shared(_)
        | Held::Inner(_) => false,
        Held::None => true,
    }
}

// An integer or a boolean that a path leads to.
fn read(tabled: &Tabled, scope: &Scope, path: &Path) -> Result<Scalar, Deny>
    ensures { Answers (spec.judge_value (code_of tabled.now) (context_of scope.now) (Read path.now)) form_of result }
{
    let place = walk(tabled, scope, path)?;
    match &place.form {
        Form::Int => Ok(Scalar::Int),
        Form::Bool => Ok(Scalar::Bool),
        Form::Object(..) => Err(deny(Rule::TypeMismatch, path.root.at)),
    }
}

// The length of integers.
fn judge_len(tabled: &Tabled, scope: &Scope, path: &Path, at: Spot) -> Result<Scalar, Deny>
    ensures { Answers (spec.judge_value (code_of tabled.now) (context_of scope.now) (Length path.now at)) form_of
        result }
{
    let place = walk(tabled, scope, path)?;
    if !is_ints(&place.form) {
        return Err(deny(Rule::TypeMismatch, path.root.at));
    }
    access(scope, path.root.at, place.held)?;
    Ok(Scalar::Int)
}

// A path beside `null`, and the place of the `null`.
#[tactic(auto, using(ae_tree::specs::Shown::shows))]
fn beside_null<'a>(a: &'a Expr, b: &'a Expr) -> Option<(&'a Path, Spot)>
    ensures { MatchOption result (spec.beside_null (expression a.now) (expression b.now) ≡ None)
        (λ pair. spec.beside_null (expression a.now) (expression b.now)
        ≡ Some (record { path = pair.0.now; null_at = pair.1 })) }
{
    match a {
        Expr::Null(at) => match b {
            Expr::Path(path) => Some((path, *at)),
            Expr::Int(..)
            | Expr::Bool(..)
            | Expr::Null(_)
            | Expr::Index(..)
            | Expr::Len(..)
            | Expr::Paren(..)
            | Expr::Not(..)
            | Expr::Neg(..)
            | Expr::Bin(..) => None,
        },
        Expr::Path(path) => match b {
            Expr::Null(at) => Some((path, *at)),
            Expr::Int(..)
            | Expr::Bool(..)
            | Expr::Path(_)
            | Expr::Index(..)
            | Expr::Len(..)
            | Expr::Paren(..)
            | Expr::Not(..)
            | Expr::Neg(..)
            | Expr::Bin(..) => None,
        },
        Expr::Int(..)
        | Expr::Bool(..)
        | Expr::Index(..)
        | Expr::Len(..)
        | Expr::Paren(..)
        | Expr::Not(..)
        | Expr::Neg(..)
        | Expr::Bin(..) => None,
    }
}

// A path beside `null` leads to an object, and something is held of its root.
fn null_and_path(tabled: &Tabled, scope: &Scope, path: &Path, null_at: Spot) -> Result<(), Deny>
    ensures { Answers (spec.null_and_path (code_of tabled.now) (context_of scope.now)
        (record { path = path.now; null_at = null_at })) done result }
{
    let place = walk(tabled, scope, path)?;
    match &place.form {
        Form::Int | Form::Bool => Err(deny(Rule::TypeMismatch, null_at)),
        Form::Object(..) => {
            if holds_nothing(held_in(scope, path.root.name)) {
                Err(deny(Rule::NoPermission, path.root.at))
            } else {
                Ok(())
            }
        }
    }
}

// An item of integers.
#[cycle(values)]
fn judge_item(tabled: &Tabled, scope: &Scope, path: &Path, index: &Expr) -> Result<Scalar, Deny>
    ensures { Answers (spec.judge_value (code_of tabled.now) (context_of scope.now)
        (Item path.now (expression index.now)))
        form_of result }
{
    let place = walk(tabled, scope, path)?;
    if !is_ints(&place.form) {
        return Err(deny(Rule::TypeMismatch, path.root.at));
    }
    access(scope, path.root.at, place.held)?;
    is_value(tabled, scope, Scalar::Int, index)?;
    Ok(Scalar::Int)
}

/// Whether an expression is an integer or a boolean. The operands are judged from left to right, and each is tested
/// right after it is judged; the first that is of a wrong form, or that may not be read, is refused.
#[cycle(values)]
#[tactic(auto, using(ae_tree::specs::Shown::shows))]
pub fn judge_value(tabled: &Tabled, scope: &Scope, expr: &Expr) -> Result<Scalar, Deny>
    ensures { Answers (spec.judge_value (code_of tabled.now) (context_of scope.now) (expression expr.now)) form_of
        result }
{
    match expr {
        Expr::Int(..) => Ok(Scalar::Int),
        Expr::Bool(..) => Ok(Scalar::Bool),
        Expr::Null(at) => Err(deny(Rule::TypeMismatch, *at)),
        Expr::Path(path) => read(tabled, scope, path),
        Expr::Index(path, index) => judge_item(tabled, scope, path, index.get()),
        Expr::Len(path, at) => judge_len(tabled, scope, path, *at),
        Expr::Paren(inner, _) => judge_value(tabled, scope, inner.get()),
        Expr::Not(inner, _) => {
            is_value(tabled, scope, Scalar::Bool, inner.get())?;
            Ok(Scalar::Bool)
        }
        Expr::Neg(inner, _) => {
            is_value(tabled, scope, Scalar::Int, inner.get())?;
            Ok(Scalar::Int)
        }
        Expr::Bin(op, a, b) => {
            match operands_for(*op) {
                Operands::Numbers => {
                    is_value(tabled, scope, Scalar::Int, a.get())?;
                    is_value(tabled, scope, Scalar::Int, b.get())?;
                }
                Operands::Truths => {
                    is_value(tabled, scope, Scalar::Bool, a.get())?;
                    is_value(tabled, scope, Scalar::Bool, b.get())?;
                }
                Operands::Equals => match beside_null(a.get(), b.get()) {
                    Some((path, at)) => null_and_path(tabled, scope, path, at)?,
                    None => {
                        let left = judge_value(tabled, scope, a.get())?;
                        is_value(tabled, scope, left, b.get())?;
                    }
                },
            }
            Ok(result_form(*op))
        }
    }
}

/// The expression is an integer, or is a boolean, as is wanted.
#[cycle(values)]
#[tactic(auto, using(ae_tree::specs::Shown::shows))]
pub fn is_value(tabled: &Tabled, scope: &Scope, wanted: Scalar, expr: &Expr) -> Result<(), Deny>
    ensures { Answers (spec.is_value (code_of tabled.now) (context_of scope.now) (form_of wanted) (expression expr.now))
        done result }
{
    let found = judge_value(tabled, scope, expr)?;
    if is_same_scalar(wanted, found) {
        Ok(())
    } else {
        Err(deny(Rule::TypeMismatch, expression_spot(expr)))
    }
}
