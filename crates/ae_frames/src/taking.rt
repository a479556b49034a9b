// What comes back to a caller is taken out of its callee.
ghost use Rattle.std.specs.Prelude.{◌≡◌, true, None, Some, IfOk};
ghost use Rattle.ae_semantics.specs.Places.{with};
ghost use Rattle.ae_values.specs.Environments.{bound_under, locals_in, running_binds, waiting_binds, group_bound};
ghost use Rattle.ae_reads.specs.Answers.{one_name};
ghost use Rattle.ae_frames.specs.Bounds.{has_group_shape};
ghost use Rattle.ae_values.specs.Shapes.{OfGroup, shapes, shape_in};
ghost use Rattle.ae_frames.specs.Entries.{all_differ};
ghost use Rattle.ae_frames.specs.Granting.{groups_seen};
ghost use Rattle.ae_frames.specs.Returns.{value_returned, values_from, came_of, cames_of, group_from, groups_from};
ghost use Rattle.ae_frames.specs.Returns.{returned_of, returneds_of, back_names, lent_names, AreGroups};
ghost use Rattle.ae_frames.specs.Shown.{back_of, backs_of, lent_of, lents_of, placed};

use crate::granted::{Back, Lent};
use crate::returned::{Came, Returned};
use ae_text::Memory;
use ae_tree::Name;
use ae_values::{Bound, Env};
use std::alloc::Global;

// What a parameter holds is taken out of it.
fn take_value(env: &mut Env, back: Back) -> Came
    ensures came { came_of result ≡ value_returned (locals_in (bound_under env.old)) (back_of back) }
    ensures locals { locals_in (bound_under env.new) ≡ with back.name None (locals_in (bound_under env.old)) }
    ensures groups { groups_seen env.new ≡ groups_seen env.old }
    ensures shapes { shapes (running_binds env.new) ≡ shapes (running_binds env.old) }
    ensures waiting { waiting_binds env.new ≡ waiting_binds env.old }
{
    let Back { name, base, fields } = back;
    let value = env.take(name);
    Came {
        base,
        fields,
        value,
    }
}

/// What these parameters hold is taken out of them, in order. Takes memory for the answer.
pub(crate) fn take_values(
    alloc: Global,
    env: &mut Env,
    mut back: Vec<Back>,
) -> Result<Vec<Came>, Memory>
    requires { all_differ (back_names back.items) ≡ true }
    ensures came { IfOk result (λ v. cames_of v.items
        ≡ values_from (locals_in (bound_under env.old)) (backs_of back.items)) }
    ensures groups { groups_seen env.new ≡ groups_seen env.old }
    ensures shapes { shapes (running_binds env.new) ≡ shapes (running_binds env.old) }
    ensures waiting { waiting_binds env.new ≡ waiting_binds env.old }
{
    let mut came = Vec::new(alloc);
    back.reverse();
    while let Some(one) = back.pop() {
        let value = take_value(env, one);
        match came.push(value) {
            Ok(()) => {}
            Err(_) => return Err(Memory),
        }
    }
    Ok(came)
}

// A group that stands under its own name is taken out, and a placeholder stands for it.
fn take_bound(env: &mut Env, group: Name) -> Bound
    requires { shape_in (shapes (running_binds env.old)) group ≡ Some (OfGroup None) }
    ensures grouped { has_group_shape result ≡ true }
    ensures taken { group_bound one_name result ≡ groups_seen env.old group }
    ensures groups { groups_seen env.new ≡ with group placed (groups_seen env.old) }
    ensures shapes { shapes (running_binds env.new) ≡ shapes (running_binds env.old) }
    ensures waiting { waiting_binds env.new ≡ waiting_binds env.old }
{
    let bound = match env.replace(group, Bound::Cell(0)) {
        Some(bound) => bound,
        None => return Bound::Cell(0),
    };
    bound
}

// A group that was lent is taken out.
fn take_group(env: &mut Env, lent: Lent) -> Returned
    requires { shape_in (shapes (running_binds env.old)) lent.group ≡ Some (OfGroup None) }
    ensures returned { returned_of result ≡ group_from (groups_seen env.old) (lent_of lent) }
    ensures groups { groups_seen env.new ≡ with lent.group placed (groups_seen env.old) }
    ensures shapes { shapes (running_binds env.new) ≡ shapes (running_binds env.old) }
    ensures waiting { waiting_binds env.new ≡ waiting_binds env.old }
{
    let bound = take_bound(env, lent.group);
    Returned {
        holder: lent.holder,
        bound,
    }
}

/// The groups that were lent are taken out, in order. Takes memory for the answer.
pub(crate) fn take_groups(
    alloc: Global,
    env: &mut Env,
    mut lent: Vec<Lent>,
) -> Result<Vec<Returned>, Memory>
    requires apart { all_differ (lent_names lent.items) ≡ true }
    requires groups { AreGroups (lent_names lent.items) (shapes (running_binds env.old)) }
    ensures returned { IfOk result (λ v. returneds_of v.items
        ≡ groups_from (groups_seen env.old) (lents_of lent.items)) }
    ensures waiting { waiting_binds env.new ≡ waiting_binds env.old }
{
    let mut returned = Vec::new(alloc);
    lent.reverse();
    while let Some(one) = lent.pop() {
        let group = take_group(env, one);
        match returned.push(group) {
            Ok(()) => {}
            Err(_) => return Err(Memory),
        }
    }
    Ok(returned)
}
