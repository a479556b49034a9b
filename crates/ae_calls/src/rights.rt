// Right sides, each into a form.
ghost use Rattle.std.specs.Prelude.{◌≡◌, map, IfOk};
ghost use Rattle.ae_tree.specs.Shown.{expression, invocation, right_side};
ghost use Rattle.ae_tree.specs.Plain.{Value, Taken, Zeros, Made as MadeThere, Returned};
ghost use Rattle.ae_rules.specs.Answers.{Answers, done};
ghost use Rattle.ae_rules.specs.Context.{Context, with_name_moved};
ghost use Rattle.ae_rules.specs.Effects.{all_moved};
ghost use Rattle.ae_rules.specs.Statements as spec;
ghost use Rattle.ae_scope.specs.Scope.{context_of};
ghost use Rattle.ae_judge.specs.Tabled.{code_of};

use crate::calls::judge_call;
use crate::filling::judge_new;
use ae_judge::{Scalar, Tabled, deny, into, is_value, judge_take, made_into};
use ae_scope::Scope;
use ae_text::{Deny, Rule, Spot};
use ae_tree::{Call, Expr, Form, Kind, Name, NameAt, Path, Perm, Rhs};
use std::alloc::{AllocError, Global};

// The names that move where one does, or none.
#[tactic(auto, using(crate::proofs::MovedLemmas::moved))]
fn one_or_none(alloc: Global, name: Option<Name>) -> Result<Vec<Name>, AllocError>
    ensures { IfOk result (λ v. (c : Context) → all_moved v.items c ≡ with_name_moved name c) }
{
    let mut names = Vec::new(alloc);
    match name {
        Some(name) => {
            names.push(name)?;
            Ok(names)
        }
        None => Ok(names),
    }
}

// An expression into a form.
fn value_into(tabled: &Tabled, scope: &Scope, form: &Form, expr: &Expr) -> Result<Vec<Name>, Deny>
    ensures { Answers (spec.judge_right (code_of tabled.now) (context_of scope.now) form.now
        (Value (expression expr.now)))
        (λ v. all_moved v.items (context_of scope.now)) result }
{
    let name = into(tabled, scope, form, expr)?;
    let names = one_or_none(tabled.alloc, name)?;
    Ok(names)
}

// A field that is taken, into a form. No name moves.
fn taken_into(
    tabled: &Tabled,
    scope: &Scope,
    form: &Form,
    path: &Path,
    at: Spot,
) -> Result<(), Deny>
    ensures { Answers (spec.judge_right (code_of tabled.now) (context_of scope.now) form.now (Taken path.now at))
        (λ _. context_of scope.now) result }
{
    let value = judge_take(tabled, scope, path, at)?;
    made_into(&value, form, at)
}

// New integers, into a form. No name moves.
fn ints_into(tabled: &Tabled, scope: &Scope, form: &Form, expr: &Expr, at: Spot) -> Result<(), Deny>
    ensures { Answers (spec.judge_right (code_of tabled.now) (context_of scope.now) form.now
        (Zeros (expression expr.now) at))
        (λ _. context_of scope.now) result }
{
    is_value(tabled, scope, Scalar::Int, expr)?;
    made_into(&Form::Object(Perm::Unique, Kind::Ints), form, at)
}

// A new object, into a form.
fn new_into(
    tabled: &Tabled,
    scope: &Scope,
    form: &Form,
    class: NameAt,
    groups: &[NameAt],
    args: &[Expr],
    at: Spot,
) -> Result<Vec<Name>, Deny>
    ensures { Answers (spec.judge_right (code_of tabled.now) (context_of scope.now) form.now
        (MadeThere class groups.now (map expression args.now) at))
        (λ v. all_moved v.items (context_of scope.now)) result }
{
    let made = judge_new(tabled, scope, class, groups, args)?;
    made_into(&made.value, form, at)?;
    Ok(made.moved)
}

// A call's result into a form; a call without one has none.
fn result_into(value: &Option<Form>, form: &Form, at: Spot) -> Result<(), Deny>
    ensures { Answers (spec.result_into value.now form.now at) done result }
{
    match value {
        Some(value) => made_into(value, form, at),
        None => Err(deny(Rule::TypeMismatch, at)),
    }
}

// A call, into a form.
fn call_into(tabled: &Tabled, scope: &Scope, form: &Form, call: &Call) -> Result<Vec<Name>, Deny>
    ensures { Answers (spec.judge_right (code_of tabled.now) (context_of scope.now) form.now
        (Returned (invocation call.now))) (λ v. all_moved v.items (context_of scope.now)) result }
{
    let called = judge_call(tabled, scope, call)?;
    result_into(&called.result, form, call.method.at)?;
    Ok(called.gone)
}

/// A right side into a form. The answer is the names that move, which hold nothing after the statement; nothing is
/// changed here. Refused as what stands right is, and then where it does not go into the form.
#[tactic(auto, using(crate::proofs::MovedLemmas::moved))]
pub fn judge_right(
    tabled: &Tabled,
    scope: &Scope,
    form: &Form,
    rhs: &Rhs,
) -> Result<Vec<Name>, Deny>
    ensures { Answers (spec.judge_right (code_of tabled.now) (context_of scope.now) form.now (right_side rhs.now))
        (λ v. all_moved v.items (context_of scope.now)) result }
{
    match rhs {
        Rhs::Expr(expr) => value_into(tabled, scope, form, expr),
        Rhs::Take(path, at) => {
            taken_into(tabled, scope, form, path, *at)?;
            Ok(Vec::new(tabled.alloc))
        }
        Rhs::Ints(expr, at) => {
            ints_into(tabled, scope, form, expr, *at)?;
            Ok(Vec::new(tabled.alloc))
        }
        Rhs::New(class, groups, args, at) => {
            new_into(
                tabled,
                scope,
                form,
                *class,
                groups.as_slice(),
                args.as_slice(),
                *at,
            )
        }
        Rhs::Call(call) => call_into(tabled, scope, form, call),
    }
}
