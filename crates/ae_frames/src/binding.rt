// The names with which the body of a method begins are bound.
ghost use Rattle.std.specs.Prelude.{◌≡◌, ℕ, ◌++◌, [], ◌∷◌, None, Some, true, false, IfSome, OnOk, IfOk, zip};
ghost use Rattle.std.specs.Prelude.{filter_map, option_map};
ghost use Rattle.std.specs.List.{cons_option};
ghost use Rattle.ae_rules.specs.Lookups.{has_name};
ghost use Rattle.ae_semantics.specs.Places.{with};
ghost use Rattle.ae_values.specs.declared.env.Bound.TheVariants as bound;
ghost use Rattle.ae_values.specs.Environments.{bound_under, running_binds, waiting_binds};
ghost use Rattle.ae_values.specs.Shapes.{shapes, OfLocal};
ghost use Rattle.ae_frames.specs.Entries.{all_differ};
ghost use Rattle.ae_frames.specs.Givens.{origin_of, argument_of, arguments_of, taker_of, takers_of, names_bound_by};
ghost use Rattle.ae_frames.specs.Bounds.{bound_by, shapes_by};
ghost use Rattle.ae_frames.specs.Kept.{returning, back_from};
ghost use Rattle.ae_frames.specs.Shown.{backs_of, bound_to, shapes_to, group_names_of};

use crate::arguments::comes_back;
use crate::given::{Arg, Origin, Parameter};
use crate::granted::{Back, Granted};
use ae_text::Memory;
use ae_tree::Name;
use ae_values::Env;
use std::alloc::Global;

// Notes that what a parameter holds comes back, where it does.
fn note_back(
    back: &mut Vec<Back>,
    name: Name,
    comes: bool,
    from: Option<Origin>,
) -> Result<(), Memory>
    ensures { OnOk result (backs_of back.new.items ≡ backs_of back.old.items
        ++ cons_option (back_from name comes (option_map origin_of from)) []) }
{
    match from {
        Some(Origin { base, fields }) => {
            if comes {
                match back.push(Back { name, base, fields }) {
                    Ok(()) => Ok(()),
                    Err(_) => Err(Memory),
                }
            } else {
                Ok(())
            }
        }
        None => Ok(()),
    }
}

// A parameter is bound to its argument's value, and it is noted where that comes back to.
fn bind_one(env: &mut Env, taker: Parameter, arg: Arg, back: &mut Vec<Back>) -> Result<(), Memory>
    requires new { bound_under env.old taker.name ≡ None }
    ensures bound { OnOk result (bound_under env.new
        ≡ with taker.name (Some (bound.Value taker.slot.form arg.value)) (bound_under env.old)) }
    ensures shapes { OnOk result (shapes (running_binds env.new)
        ≡ shapes (running_binds env.old) ++ (taker.name, OfLocal taker.slot.form) ∷ []) }
    ensures waiting { waiting_binds env.new ≡ waiting_binds env.old }
    ensures back { OnOk result (backs_of back.new.items
        ≡ backs_of back.old.items ++ cons_option (returning (taker_of taker, argument_of arg)) []) }
{
    let comes = comes_back(&taker.slot);
    let name = taker.name;
    match note_back(back, name, comes, arg.from) {
        Ok(()) => {}
        Err(memory) => return Err(memory),
    }
    env.declare(name, taker.slot.form, arg.value)
}

/// The parameters are bound to the values of the arguments, in order, and it is noted which of them come back where to.
/// Where memory is refused some of them may be bound.
pub(crate) fn bind_all(
    alloc: Global,
    env: &mut Env,
    mut takers: Vec<Parameter>,
    mut args: Vec<Arg>,
) -> Result<Vec<Back>, Memory>
    requires apart { all_differ (names_bound_by takers.items) ≡ true }
    requires free { (x : ℕ) → has_name (names_bound_by takers.items) x ≡ true → bound_under env.old x ≡ None }
    ensures bound { OnOk result (bound_under env.new ≡ bound_by takers.items args.items (bound_under env.old)) }
    ensures shapes { OnOk result (shapes (running_binds env.new)
        ≡ shapes (running_binds env.old) ++ shapes_by takers.items args.items) }
    ensures waiting { waiting_binds env.new ≡ waiting_binds env.old }
    ensures back { IfOk result (λ b. backs_of b.items
        ≡ filter_map returning (zip (takers_of takers.items) (arguments_of args.items))) }
{
    let mut back = Vec::new(alloc);
    takers.reverse();
    args.reverse();
    while let Some(taker) = takers.pop() {
        match args.pop() {
            Some(arg) => match bind_one(env, taker, arg, &mut back) {
                Ok(()) => {}
                Err(memory) => return Err(memory),
            },
            None => return Ok(back),
        }
    }
    Ok(back)
}

// A group that is got is bound.
fn grant_one(env: &mut Env, granted: Granted) -> Result<(), Memory>
    requires new { bound_under env.old granted.group ≡ None }
    ensures bound { OnOk result (bound_under env.new ≡ with granted.group (Some granted.bound) (bound_under env.old)) }
    ensures shapes { OnOk result (shapes (running_binds env.new)
        ≡ shapes (running_binds env.old) ++ shapes_to (granted ∷ [])) }
    ensures waiting { waiting_binds env.new ≡ waiting_binds env.old }
{
    env.declare_group(granted.group, granted.bound)
}

/// The groups that are got are bound, in order. Where memory is refused some of them may be bound.
pub(crate) fn grant_all(env: &mut Env, mut granted: Vec<Granted>) -> Result<(), Memory>
    requires apart { all_differ (group_names_of granted.items) ≡ true }
    requires free { (x : ℕ) → has_name (group_names_of granted.items) x ≡ true → bound_under env.old x ≡ None }
    ensures bound { OnOk result (bound_under env.new ≡ bound_to granted.items (bound_under env.old)) }
    ensures shapes { OnOk result (shapes (running_binds env.new)
        ≡ shapes (running_binds env.old) ++ shapes_to granted.items) }
    ensures waiting { waiting_binds env.new ≡ waiting_binds env.old }
{
    granted.reverse();
    while let Some(one) = granted.pop() {
        match grant_one(env, one) {
            Ok(()) => {}
            Err(memory) => return Err(memory),
        }
    }
    Ok(())
}
