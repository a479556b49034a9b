// Atomic blocks.
ghost use Rattle.std.specs.Prelude.{◌≡◌};
ghost use Rattle.ae_rules.specs.Groups as group;

use crate::answer::deny;
use crate::context::GroupContext;
use ae_rules::GroupPerm;
use ae_text::{Deny, Rule};
use ae_tree::NameAt;
use std::alloc::{AllocError, Global};
use std::mem;

// A shared group is held back, and all else is as it was.
fn held_back(perm: Option<GroupPerm>) -> Option<GroupPerm>
    ensures { result ≡ group.held_back perm }
{
    match perm {
        Some(GroupPerm::Shared) => Some(GroupPerm::HeldBack),
        Some(GroupPerm::Exclusive | GroupPerm::Protected | GroupPerm::HeldBack | GroupPerm::None)
        | None => perm,
    }
}

impl GroupContext {
    ghost use Rattle.std.specs.Prelude.{◌≡◌, length, IfOk, OnErr};
    ghost use Rattle.ae_rules.specs.Answers.{Answers, done};
    ghost use Rattle.ae_rules.specs.Groups as group;
    ghost use Rattle.ae_groups.specs.Contexts.{known_groups, every_held_back};

    /// A group may be locked: refused where it is not known (G1), held back (G8), or not shared (G5). Changes nothing,
    /// takes no memory.
    pub fn may_lock(&self, g: NameAt) -> Result<(), Deny>
        ensures { Answers (group.may_lock (known_groups self.now) g) done result }
    {
        if !self.knows(g.name) {
            return Err(deny(Rule::UnknownGroup, g.at));
        }
        if self.is(GroupPerm::HeldBack, g.name) {
            return Err(deny(Rule::NestedAtomic, g.at));
        }
        if !self.is(GroupPerm::Shared, g.name) {
            return Err(deny(Rule::NotShared, g.at));
        }
        Ok(())
    }

    // The context in which every shared group is held back.
    fn others_held_back(&self, alloc: Global) -> Result<GroupContext, AllocError>
        ensures groups { IfOk result (λ c. known_groups c ≡ every_held_back (known_groups self.now)) }
        ensures table { IfOk result (λ c. length c.perms.items ≡ length self.now.perms.items) }
    {
        let mut perms = Vec::new(alloc);
        for perm in &self.perms {
            perms.push(held_back(*perm))?;
        }
        Ok(GroupContext { perms })
    }

    /// An atomic block begins: its group is protected, and every other shared group is held back. Gives the context
    /// outside, which the caller puts back at the block's end. Refused where the group is not known (G1), held back
    /// (G8), or not shared (G5). A refused call leaves the context unchanged.
    pub fn enter_atomic(&mut self, alloc: Global, g: NameAt) -> Result<GroupContext, Deny>
        ensures answer { Answers (group.enter_atomic g (known_groups self.old)) (λ _. known_groups self.new) result }
        ensures outside { IfOk result (λ c. c ≡ self.old) }
        ensures kept { OnErr result (self.new ≡ self.old) }
        ensures table { length self.new.perms.items ≡ length self.old.perms.items }
    {
        self.may_lock(g)?;
        let mut inside = self.others_held_back(alloc)?;
        inside.set(g.name, Some(GroupPerm::Protected));
        Ok(mem::replace(self, inside))
    }
}
