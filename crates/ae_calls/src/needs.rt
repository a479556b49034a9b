// The needs of a call.
ghost use Rattle.std.specs.Prelude.{◌≡◌, map, IfOk};
ghost use Rattle.ae_rules.specs.Answers.{Answers, done};
ghost use Rattle.ae_rules.specs.Groups as spec;
ghost use Rattle.ae_scope.specs.Scope.{context_of};
ghost use Rattle.ae_calls.specs.Param.{new_in};

use crate::params::GroupsIn;
use ae_judge::in_place;
use ae_scope::Scope;
use ae_text::{Deny, Spot};
use ae_tree::{GroupNeed, Name, Need};
use std::alloc::{AllocError, Global};

// The needs of a method, of the groups in a call.
fn wanted_needs(
    alloc: Global,
    new: &GroupsIn,
    needs: &[GroupNeed],
) -> Result<Vec<(Need, Name)>, AllocError>
    ensures { IfOk result (λ v. v.items ≡ map (spec.wanted_need (new_in new.now)) needs.now) }
{
    let mut wanted = Vec::new(alloc);
    for need in needs {
        let group = in_place(new.names.as_slice(), new.groups.as_slice(), need.group.name);
        wanted.push((need.need, group))?;
    }
    Ok(wanted)
}

/// The needs of a method, of the groups in a call: refused where two that are not both shared have one group, and where
/// a group has not the permission that is needed; all at the method's name.
pub fn needs_met(
    alloc: Global,
    scope: &Scope,
    at: Spot,
    new: &GroupsIn,
    needs: &[GroupNeed],
) -> Result<(), Deny>
    ensures { Answers (spec.needs_met (context_of scope.now).group at
        (map (spec.wanted_need (new_in new.now)) needs.now))
        done result }
{
    let wanted = wanted_needs(alloc, new, needs)?;
    scope.groups.call(alloc, wanted.as_slice(), at)
}
