// What new objects, calls and right sides use.
ghost use Rattle.std.specs.Prelude.{◌≡◌, OnOk, is_some, map, zip};
ghost use Rattle.ae_tree.specs.Shown.{definition, expression, invocation, right_side};
ghost use Rattle.ae_rules.specs.Calls as call;
ghost use Rattle.ae_rules.specs.Groups.{wanted_need};
ghost use Rattle.ae_rules.specs.Lookups.{field_form};
ghost use Rattle.ae_rules.specs.Uses as spec;
ghost use Rattle.ae_scope.specs.Scope.{context_of};
ghost use Rattle.ae_judge.specs.Tabled.{code_of};
ghost use Rattle.ae_calls.specs.Callee.{callee_shown};
ghost use Rattle.ae_calls.specs.Param.{new_in};
ghost use Rattle.ae_uses.specs.Used.{Adds};
ghost use Rattle.ae_uses.specs.Calls.{slot_uses, field_uses, receiver_uses};

use crate::judged::where_held;
use crate::paths::owner_written;
use crate::used::Used;
use crate::values::{argument_used, into_used, path_given, value_used};
use ae_calls::{Callee, GroupsIn, groups_in, judge_callee, me_slot, param_slot};
use ae_judge::{Tabled, bare_names, class_called, field_form, in_place};
use ae_scope::Scope;
use ae_tree::{Call, Class, Expr, Form, GroupNeed, Name, NameAt, Need, Param, Rhs};
use std::alloc::AllocError;

// A need, of an actual group: a group that is shared is used together with others, and any other as a whole.
fn need_used(need: Need, group: Name, used: &mut Used) -> Result<(), AllocError>
    ensures { OnOk result (Adds used.old (spec.need_uses (need, group)) used.new) }
{
    match need {
        Need::Shared => used.shares(group),
        Need::Exclusive | Need::Protected => used.takes_whole(group),
    }
}

// The needs of the method that is called, of the groups in the call.
fn needs_used(new: &GroupsIn, needs: &[GroupNeed], used: &mut Used) -> Result<(), AllocError>
    ensures { OnOk result (Adds used.old (spec.of_each spec.need_uses (map (wanted_need (new_in new.now)) needs.now))
        used.new) }
{
    for need in needs {
        let group = in_place(new.names.as_slice(), new.groups.as_slice(), need.group.name);
        need_used(need.need, group, used)?;
    }
    Ok(())
}

// The arguments of a call, each for its parameter.
fn arguments_used(
    tabled: &Tabled,
    scope: &Scope,
    new: &GroupsIn,
    params: &[Param],
    args: &[Expr],
    used: &mut Used,
) -> Result<(), AllocError>
    ensures { OnOk result (Adds used.old (spec.of_each (slot_uses (code_of tabled.now) (context_of scope.now))
        (zip (map (call.param_slot (new_in new.now)) params.now) (map expression args.now))) used.new) }
{
    let len = params.len().min(args.len());
    for i in 0..len {
        let slot = param_slot(tabled.alloc, new, &params[i])?;
        argument_used(tabled, scope, &slot.form, &args[i], used)?;
    }
    Ok(())
}

// The receiver of a call, where the method has one.
fn receiver_used(
    tabled: &Tabled,
    scope: &Scope,
    new: &GroupsIn,
    callee: &Callee,
    call: &Call,
    used: &mut Used,
) -> Result<(), AllocError>
    requires { is_some callee.now.method.now.me ≡ is_some call.now.on }
    ensures { OnOk result (Adds used.old (receiver_uses (code_of tabled.now) (context_of scope.now) (new_in new.now)
        (definition callee.now.method.now) call.now.on) used.new) }
{
    if let Some(me) = &callee.method.me {
        if let Some(path) = &call.on {
            let slot = me_slot(tabled, new, callee.method, me)?;
            path_given(tabled, scope, slot.perm, path, used)?;
        }
    }
    Ok(())
}

// The receiver, the arguments and the needs of a call.
fn callee_used(
    tabled: &Tabled,
    scope: &Scope,
    callee: &Callee,
    call: &Call,
    used: &mut Used,
) -> Result<(), AllocError>
    requires { is_some callee.now.method.now.me ≡ is_some call.now.on }
    ensures { OnOk result (Adds used.old (spec.callee_uses (code_of tabled.now) (context_of scope.now)
        (invocation call.now) (callee_shown callee.now)) used.new) }
{
    let new = groups_in(tabled.alloc, callee, call.groups.as_slice())?;
    receiver_used(tabled, scope, &new, callee, call, used)?;
    arguments_used(
        tabled,
        scope,
        &new,
        callee.method.params.as_slice(),
        call.args.as_slice(),
        used,
    )?;
    needs_used(&new, callee.method.needs.as_slice(), used)?;
    Ok(())
}

/// What a call uses: nothing, where there is no such method.
pub fn call_used(
    tabled: &Tabled,
    scope: &Scope,
    call: &Call,
    used: &mut Used,
) -> Result<(), AllocError>
    ensures { OnOk result (Adds used.old (spec.call_uses (code_of tabled.now) (context_of scope.now)
        (invocation call.now)) used.new) }
{
    match where_held(judge_callee(tabled, scope, &call.on, call.method))? {
        Some(callee) => {
            callee_used(tabled, scope, &callee, call, used)?;
            Ok(())
        }
        None => Ok(()),
    }
}

// The arguments of a new object, each into its field.
fn fields_used(
    tabled: &Tabled,
    scope: &Scope,
    class: &Class,
    groups: &[Name],
    args: &[Expr],
    used: &mut Used,
) -> Result<(), AllocError>
    ensures { OnOk result (Adds used.old (spec.of_each (field_uses (code_of tabled.now) (context_of scope.now))
        (zip (map (field_form class.now groups.now) class.now.fields) (map expression args.now))) used.new) }
{
    let fields = class.fields.as_slice();
    let len = fields.len().min(args.len());
    for i in 0..len {
        let form = field_form(tabled.alloc, class, groups, &fields[i])?;
        into_used(tabled, scope, &form, &args[i], used)?;
    }
    Ok(())
}

// What a new object uses: nothing, where there is no such class.
fn made_used(
    tabled: &Tabled,
    scope: &Scope,
    name: NameAt,
    groups: &[NameAt],
    args: &[Expr],
    used: &mut Used,
) -> Result<(), AllocError>
    ensures { OnOk result (Adds used.old (spec.made_uses (code_of tabled.now) (context_of scope.now) name groups.now
        (map expression args.now)) used.new) }
{
    match class_called(tabled, name.name) {
        Some(found) => {
            let own = bare_names(tabled.alloc, groups)?;
            fields_used(tabled, scope, found.class, own.as_slice(), args, used)?;
            Ok(())
        }
        None => Ok(()),
    }
}

/// What a right side uses that goes into a form.
pub fn right_used(
    tabled: &Tabled,
    scope: &Scope,
    form: &Form,
    rhs: &Rhs,
    used: &mut Used,
) -> Result<(), AllocError>
    ensures { OnOk result (Adds used.old (spec.right_uses (code_of tabled.now) (context_of scope.now) form.now
        (right_side rhs.now)) used.new) }
{
    match rhs {
        Rhs::Expr(expr) => into_used(tabled, scope, form, expr, used),
        Rhs::Take(path, _) => {
            owner_written(tabled, scope, path, used)?;
            Ok(())
        }
        Rhs::Ints(expr, _) => value_used(tabled, scope, expr, used),
        Rhs::New(class, groups, args, _) => {
            made_used(
                tabled,
                scope,
                *class,
                groups.as_slice(),
                args.as_slice(),
                used,
            )?;
            Ok(())
        }
        Rhs::Call(call) => call_used(tabled, scope, call, used),
    }
}
