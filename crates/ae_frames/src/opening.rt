// The environment of a call that is entered.
ghost use Rattle.std.specs.Prelude.{◌≡◌, true, ◌++◌, [], map, drop, take, IfOk, OnOk};
ghost use Rattle.ae_semantics.specs.Calls as spec;
ghost use Rattle.ae_values.specs.Binding.{bound_in, IsCallFrom};
ghost use Rattle.ae_values.specs.Environments.{bound_under, locals_in, running_binds, waiting_binds};
ghost use Rattle.ae_values.specs.Shapes.{shapes};
ghost use Rattle.ae_frames.specs.Entries.{all_differ, need_names, param_shape};
ghost use Rattle.ae_frames.specs.Givens.{arguments_of, takers_of, names_bound_by};
ghost use Rattle.ae_frames.specs.Granting.{groups_seen, holder_by, all_got, all_lent, group_in_list, with_placeholders};
ghost use Rattle.ae_frames.specs.Shown.{lents_of, backs_of, got_shape};
ghost use Rattle.ae_frames.specs.Bounds.{shapes_by};
ghost use Rattle.ae_frames.specs.Kept.{returning};
ghost use Rattle.std.specs.Prelude.{zip, filter_map};

use crate::binding::{bind_all, grant_all};
use crate::given::{Arg, Parameter};
use crate::granted::{Back, Lent};
use crate::lending::lend;
use ae_calls::GroupsIn;
use ae_text::Memory;
use ae_tree::GroupNeed;
use ae_values::Env;
use std::alloc::Global;

/// What is kept of the caller: from where on its names wait, what comes back where to, and the groups that are lent.
#[derive(Drop)]
pub struct Waiting {
    pub base: usize,
    pub back: Vec<Back>,
    pub lent: Vec<Lent>,
}

/// The caller waits, with placeholders for what it lends, and the names with which the body begins are bound: the
/// parameters to the values of the arguments, and the groups that are needed. Takes memory for them; after a refusal
/// nothing is promised.
pub(crate) fn open(
    alloc: Global,
    env: &mut Env,
    new: &GroupsIn,
    needs: &[GroupNeed],
    takers: Vec<Parameter>,
    args: Vec<Arg>,
) -> Result<Waiting, Memory>
    requires { all_differ (names_bound_by takers.items ++ need_names needs.now) ≡ true }
    ensures locals { OnOk result (locals_in (bound_under env.new)
        ≡ spec.taken (takers_of takers.items) (arguments_of args.items)) }
    ensures groups { OnOk result (groups_seen env.new
        ≡ group_in_list (all_got (holder_by (groups_seen env.old) new.now) (groups_seen env.old) [] needs.now)) }
    ensures shapes { OnOk result (shapes (running_binds env.new)
        ≡ shapes_by takers.items args.items
        ++ map got_shape (all_got (holder_by (groups_seen env.old) new.now) (groups_seen env.old) [] needs.now)) }
    ensures back { IfOk result (λ w. backs_of w.back.items
        ≡ filter_map returning (zip (takers_of takers.items) (arguments_of args.items))) }
    ensures lent { IfOk result (λ w. lents_of w.lent.items
        ≡ all_lent (holder_by (groups_seen env.old) new.now) (groups_seen env.old) [] needs.now) }
    ensures waits { IfOk result (λ w. bound_in (drop w.base (waiting_binds env.new))
        ≡ with_placeholders (lents_of w.lent.items) (bound_under env.old)) }
    ensures waiting_shapes { IfOk result (λ w. shapes (drop w.base (waiting_binds env.new))
        ≡ shapes (running_binds env.old)) }
    ensures outer { IfOk result (λ w. take w.base (waiting_binds env.new) ≡ waiting_binds env.old) }
    ensures call { IfOk result (λ w. IsCallFrom (waiting_binds env.new) w.base) }
{
    let lending = match lend(alloc, env, new, needs) {
        Ok(lending) => lending,
        Err(memory) => return Err(memory),
    };
    let base = env.enter();
    let back = match bind_all(alloc, env, takers, args) {
        Ok(back) => back,
        Err(memory) => return Err(memory),
    };
    match grant_all(env, lending.granted) {
        Ok(()) => Ok(Waiting {
            base,
            back,
            lent: lending.lent,
        }),
        Err(memory) => Err(memory),
    }
}
