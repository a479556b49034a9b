// Calls: the method, its groups, its arguments and its needs.
ghost use Rattle.std.specs.Prelude.{◌≡◌, length, zip, map, filter_map, is_some, option_map, IfOk, Some, None};
ghost use Rattle.ae_tree.specs.Form.{form};
ghost use Rattle.ae_tree.specs.Shown.{definition, invocation};
ghost use Rattle.ae_rules.specs.Answers.{Answers, Leaves};
ghost use Rattle.ae_rules.specs.Verdict.{in_turn};
ghost use Rattle.ae_rules.specs.Calls as spec;
ghost use Rattle.ae_rules.specs.Forms as forms;
ghost use Rattle.ae_rules.specs.Effects.{gone_name};
ghost use Rattle.ae_scope.specs.Scope.{context_of};
ghost use Rattle.ae_judge.specs.Tabled.{code_of};
ghost use Rattle.ae_calls.specs.Roots.{roots_of};
ghost use Rattle.ae_calls.specs.Param.{new_in};
ghost use Rattle.ae_calls.specs.Callee.{callee_shown};
ghost use Rattle.ae_calls.specs.Called.{called_of};

use crate::callees::{Callee, judge_callee};
use crate::giving::Given;
use crate::needs::needs_met;
use crate::params::{GroupsIn, groups_in, me_slot};
use ae_judge::{Tabled, deny, form_with, groups_fit};
use ae_scope::Scope;
use ae_text::{Deny, Rule};
use ae_tree::{Call, Form, Method, Name, Ty};
use std::alloc::{AllocError, Global};

/// What a call comes to: its result, where the method has one, and the names that are given away for good, which hold
/// nothing after the statement.
#[derive(Drop)]
pub struct Called {
    pub result: Option<Form>,
    pub gone: Vec<Name>,
}

// The form of the result in a call.
fn result_form(alloc: Global, new: &GroupsIn, ty: &Option<Ty>) -> Result<Option<Form>, AllocError>
    ensures { IfOk result (λ o. o ≡ option_map (λ (t : Ty). forms.form_with (new_in new.now) (form t)) ty.now) }
{
    match ty {
        Some(ty) => {
            let form = form_with(alloc, new.names.as_slice(), new.groups.as_slice(), ty)?;
            Ok(Some(form))
        }
        None => Ok(None),
    }
}

// The receiver and the arguments, each to its slot.
fn give_slots(
    tabled: &Tabled,
    scope: &Scope,
    new: &GroupsIn,
    method: &Method,
    call: &Call,
) -> Result<Given, Deny>
    requires many { length call.now.args ≡ length method.now.params }
    requires receiver { is_some method.now.me ≡ is_some call.now.on }
    ensures answer { Answers (in_turn (spec.to_slot (code_of tabled.now) (context_of scope.now))
        (zip (spec.slots (code_of tabled.now) (new_in new.now) (definition method.now))
        (spec.givens (invocation call.now)))
        spec.no_roots) (λ given. roots_of given.roots) result }
    ensures gone { IfOk result (λ given. given.gone.items ≡ filter_map gone_name
        (zip (spec.slots (code_of tabled.now) (new_in new.now) (definition method.now))
        (spec.givens (invocation call.now)))) }
{
    let mut given = Given::new(tabled.alloc);
    if let Some(me) = &method.me {
        if let Some(path) = &call.on {
            let slot = me_slot(tabled, new, method, me)?;
            given.receive(tabled, scope, &slot, path)?;
        }
    }
    given.give_all(
        tabled,
        scope,
        new,
        method.params.as_slice(),
        call.args.as_slice(),
    )?;
    Ok(given)
}

// A call's groups, its arguments and its needs, in the context before the statement.
fn judge_callee_with(
    tabled: &Tabled,
    scope: &Scope,
    call: &Call,
    callee: &Callee,
) -> Result<Called, Deny>
    requires { is_some callee.now.method.now.me ≡ is_some call.now.on }
    ensures { Answers (spec.judge_callee_with (code_of tabled.now) (context_of scope.now) (invocation call.now)
        (callee_shown callee.now)) (called_of (context_of scope.now)) result }
{
    let method = callee.method;
    let at = call.method.at;
    groups_fit(scope, method.groups.len(), at, call.groups.as_slice())?;
    if call.args.len() != method.params.len() {
        return Err(deny(Rule::ArgumentCount, at));
    }
    let new = groups_in(tabled.alloc, callee, call.groups.as_slice())?;
    let given = match give_slots(tabled, scope, &new, method, call) {
        Ok(given) => given,
        Err(fail) => return Err(fail),
    };
    match needs_met(tabled.alloc, scope, at, &new, method.needs.as_slice()) {
        Ok(()) => {}
        Err(fail) => return Err(fail),
    }
    let result = result_form(tabled.alloc, &new, &method.result)?;
    Ok(Called {
        result,
        gone: given.gone,
    })
}

/// A call: refused where the receiver is no object, where the method is not there, where its groups do not fit, where
/// there are not as many arguments as parameters, where an argument may not be given to its parameter, or shares its
/// root with another one and one of both is for a unique parameter, and where a need is not met. All is judged as it is
/// before the statement; nothing is changed here.
pub fn judge_call(tabled: &Tabled, scope: &Scope, call: &Call) -> Result<Called, Deny>
    ensures { Answers (spec.judge_call (code_of tabled.now) (context_of scope.now) (invocation call.now))
        (called_of (context_of scope.now)) result }
{
    let callee = judge_callee(tabled, scope, &call.on, call.method)?;
    judge_callee_with(tabled, scope, call, &callee)
}
