// What is reached of groups, and the needs of a call.
use crate::answer::deny;
use crate::context::GroupContext;
use crate::needed::any_clash;
use ae_rules::GroupPerm;
use ae_text::{Deny, Refusal, Rule, Spot};
use ae_tree::{Name, Need};
use std::alloc::Global;

impl GroupContext {
    ghost use Rattle.ae_rules.specs.Answers.{Answers, done};
    ghost use Rattle.ae_rules.specs.Groups as group;
    ghost use Rattle.ae_groups.specs.Contexts.{known_groups, refused};

    /// A member of the group, or its log, is reached: refused (G3) where it is neither exclusive nor protected here.
    /// Takes no memory.
    pub fn access(&self, g: Name, at: Spot) -> Result<(), Refusal>
        ensures { Answers (group.group_access (known_groups self.now) g at) done (refused result) }
    {
        if self.opens(g) {
            Ok(())
        } else {
            Err(Refusal {
                rule: Rule::NeedsGroup,
                at,
            })
        }
    }

    // A group is needed exclusive.
    fn exclusive_met(&self, g: Name, at: Spot) -> Result<(), Deny>
        ensures { Answers (group.need_met (known_groups self.now) at (Need.Exclusive, g)) done result }
    {
        if self.is(GroupPerm::Exclusive, g) {
            Ok(())
        } else {
            Err(deny(Rule::NotExclusive, at))
        }
    }

    // A group is needed shared.
    fn shared_met(&self, g: Name, at: Spot) -> Result<(), Deny>
        ensures { Answers (group.need_met (known_groups self.now) at (Need.Shared, g)) done result }
    {
        if self.is(GroupPerm::HeldBack, g) {
            return Err(deny(Rule::NestedAtomic, at));
        }
        if self.is(GroupPerm::Shared, g) {
            Ok(())
        } else {
            Err(deny(Rule::NotShared, at))
        }
    }

    // A group is needed protected.
    fn protected_met(&self, g: Name, at: Spot) -> Result<(), Deny>
        ensures { Answers (group.need_met (known_groups self.now) at (Need.Protected, g)) done result }
    {
        match self.access(g, at) {
            Ok(()) => Ok(()),
            Err(refusal) => Err(Deny::Refused(refusal)),
        }
    }

    // A need by the permission of its group.
    fn need_met(&self, need: Need, g: Name, at: Spot) -> Result<(), Deny>
        ensures { Answers (group.need_met (known_groups self.now) at (need, g)) done result }
    {
        match need {
            Need::Exclusive => self.exclusive_met(g, at),
            Need::Shared => self.shared_met(g, at),
            Need::Protected => self.protected_met(g, at),
        }
    }

    /// The needs of a call, of the groups in it: refused where one group has two needs that are not both shared (G6),
    /// and then at the first need that is not met: it is not exclusive (G4), held back (G8) or not shared (G5), or
    /// neither exclusive nor protected (G3). All at this place. Changes nothing.
    pub fn call(&self, alloc: Global, needs: &[(Need, Name)], at: Spot) -> Result<(), Deny>
        ensures { Answers (group.needs_met (known_groups self.now) at needs.now) done result }
    {
        if any_clash(alloc, needs)? {
            return Err(deny(Rule::GroupTwice, at));
        }
        for need in needs {
            self.need_met(need.0, need.1, at)?;
        }
        Ok(())
    }
}
