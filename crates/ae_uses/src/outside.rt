// What was used inside a block, as it is seen from outside.
ghost use Rattle.std.specs.Prelude.{◌≡◌, ◌++◌, OnOk};
ghost use Rattle.std.specs.List.{filter};
ghost use Rattle.ae_scope.specs.Scope.{context_of};
ghost use Rattle.ae_uses.specs.Outside.{is_that_group, is_local_outside, is_group_outside};

use crate::used::Used;
use ae_scope::Scope;
use ae_tree::Name;
use std::alloc::AllocError;

// The group is the one that is left out.
fn is_left_out(but: Option<Name>, name: Name) -> bool
    ensures { result ≡ is_that_group but name }
{
    match but {
        Some(group) => group == name,
        None => false,
    }
}

// Those of the names that are visible locals.
fn put_locals(to: &mut Vec<Name>, scope: &Scope, names: &[Name]) -> Result<(), AllocError>
    ensures { OnOk result (to.new.items ≡ to.old.items ++ filter (is_local_outside (context_of scope.now)) names.now) }
{
    for name in names {
        if scope.find(*name).is_some() {
            to.push(*name)?;
        }
    }
    Ok(())
}

// Those of the names that are known groups, but for one that may be left out.
fn put_groups(
    to: &mut Vec<Name>,
    scope: &Scope,
    but: Option<Name>,
    names: &[Name],
) -> Result<(), AllocError>
    ensures { OnOk result (to.new.items
        ≡ to.old.items ++ filter (is_group_outside (context_of scope.now) but) names.now) }
{
    for name in names {
        if scope.knows(*name) && !is_left_out(but, *name) {
            to.push(*name)?;
        }
    }
    Ok(())
}

impl Used {
    ghost use Rattle.std.specs.Prelude.{OnOk};
    ghost use Rattle.ae_rules.specs.Uses.{outside};
    ghost use Rattle.ae_scope.specs.Scope.{context_of};
    ghost use Rattle.ae_uses.specs.Used.{Adds, used_as};
    ghost use Rattle.ae_uses.specs.Outside.{without_group};

    /// All that was used there is used here too.
    #[tactic(auto, using(crate::proofs::OutsideLemmas::all_of_it_more))]
    pub fn adds_all(&mut self, other: &Used) -> Result<(), AllocError>
        ensures { OnOk result (Adds self.old (used_as other.now) self.new) }
    {
        self.read.extend_from_slice(&other.read)?;
        self.written.extend_from_slice(&other.written)?;
        self.together.extend_from_slice(&other.together)?;
        self.whole.extend_from_slice(&other.whole)?;
        Ok(())
    }

    /// What was used inside a block is used here too, as far as it is visible here, but for one group that may be left
    /// out.
    #[tactic(auto, using(crate::proofs::OutsideLemmas::what_is_outside_more))]
    pub fn adds_outside(
        &mut self,
        scope: &Scope,
        but: Option<Name>,
        inside: &Used,
    ) -> Result<(), AllocError>
        ensures { OnOk result (Adds self.old (without_group but (outside (context_of scope.now) (used_as inside.now)))
            self.new) }
    {
        put_locals(&mut self.read, scope, &inside.read)?;
        put_locals(&mut self.written, scope, &inside.written)?;
        put_groups(&mut self.together, scope, but, &inside.together)?;
        put_groups(&mut self.whole, scope, but, &inside.whole)?;
        Ok(())
    }
}
