// The known groups, each with its permission, by the number of its name.
ghost use Rattle.std.specs.Prelude.{◌≡◌};
ghost use Rattle.ae_rules.specs.Groups as group;

use crate::answer::deny;
use ae_rules::GroupPerm;
use ae_text::{Deny, Rule};
use ae_tree::{Name, NameAt};
use std::alloc::{AllocError, Global};

/// The permission of each known group, by the number of its name. A name without a permission is that of no known group.
#[derive(Drop)]
pub struct GroupContext {
    pub perms: Vec<Option<GroupPerm>>,
}

fn is_same_group_perm(one: GroupPerm, other: GroupPerm) -> bool
    ensures { result ≡ group.same_group_perm one other }
{
    match one {
        GroupPerm::Exclusive => matches!(other, GroupPerm::Exclusive),
        GroupPerm::Shared => matches!(other, GroupPerm::Shared),
        GroupPerm::Protected => matches!(other, GroupPerm::Protected),
        GroupPerm::HeldBack => matches!(other, GroupPerm::HeldBack),
        GroupPerm::None => matches!(other, GroupPerm::None),
    }
}

impl GroupContext {
    ghost use Rattle.std.specs.Prelude.{◌≡◌, ◌<◌, not, length, slice_set, None, Some, IfOk, OnOk, OnErr};
    ghost use Rattle.ae_tree.specs.Form.{bare_names};
    ghost use Rattle.ae_tree.specs.WellShaped.{AreNamed};
    ghost use Rattle.ae_rules.specs.Answers.{Answers, Leaves, done};
    ghost use Rattle.ae_rules.specs.Groups as group;
    ghost use Rattle.ae_rules.specs.Lookups.{has_name};
    ghost use Rattle.ae_rules.specs.Verdict.{require};
    ghost use Rattle.ae_groups.specs.Contexts.{known_groups, with_permission, no_groups};

    /// A context in which no group is known, for this many names.
    pub fn new(alloc: Global, names: usize) -> Result<GroupContext, AllocError>
        ensures groups { IfOk result (λ c. known_groups c ≡ no_groups) }
        ensures table { IfOk result (λ c. length c.perms.items ≡ names) }
    {
        let perms = vec![in alloc; None; names]?;
        Ok(GroupContext { perms })
    }

    /// The permission of a group, and none exactly where it is not known. Takes no memory.
    pub fn perm(&self, g: Name) -> Option<GroupPerm>
        ensures { result ≡ known_groups self.now g }
    {
        match self.perms.get(g as usize) {
            Some(perm) => *perm,
            None => None,
        }
    }

    /// A group with this name is known. Takes no memory.
    pub fn knows(&self, g: Name) -> bool
        ensures { result ≡ group.known (known_groups self.now) g }
    {
        self.perm(g).is_some()
    }

    /// The group is known, with this permission. Takes no memory.
    pub fn is(&self, perm: GroupPerm, g: Name) -> bool
        ensures { result ≡ group.group_is perm (known_groups self.now) g }
    {
        match self.perm(g) {
            Some(found) => is_same_group_perm(perm, found),
            None => false,
        }
    }

    /// The members of the group may be reached. Takes no memory.
    pub fn opens(&self, g: Name) -> bool
        ensures { result ≡ group.opens (known_groups self.now) g }
    {
        self.is(GroupPerm::Exclusive, g) || self.is(GroupPerm::Protected, g)
    }

    /// A group is known with this permission, or is not known any more. Takes no memory.
    pub fn set(&mut self, g: Name, perm: Option<GroupPerm>)
        requires { g < length self.old.perms.items }
        ensures items { self.new.perms.items ≡ slice_set self.old.perms.items g perm }
        ensures groups { known_groups self.new ≡ with_permission g perm (known_groups self.old) }
    {
        self.perms[g as usize] = perm;
    }

    // Each of these groups is known, with this permission.
    pub(crate) fn set_all(&mut self, gs: &[NameAt], perm: GroupPerm)
        requires { AreNamed (length self.old.perms.items) gs.now }
        ensures groups { known_groups self.new ≡ group.with_all (has_name (bare_names gs.now)) perm (known_groups self.old) }
        ensures table { length self.new.perms.items ≡ length self.old.perms.items }
    {
        for g in gs {
            self.set(g.name, Some(perm));
        }
    }

    /// A group may be declared: refused (N6) where a group with its name is known. Changes nothing, takes no memory.
    pub fn may_declare(&self, g: NameAt) -> Result<(), Deny>
        ensures { Answers (require (not (group.known (known_groups self.now) g.name)) Rule.DuplicateLocal g.at) done
            result }
    {
        if self.knows(g.name) {
            return Err(deny(Rule::DuplicateLocal, g.at));
        }
        Ok(())
    }

    /// A group that was not known is known, and exclusive. Refused (N6) where a group with its name is known. A refused
    /// call leaves the context unchanged. Takes no memory.
    pub fn declare(&mut self, g: NameAt) -> Result<(), Deny>
        requires { g.name < length self.old.perms.items }
        ensures answer { Leaves (group.declare g (known_groups self.old)) (known_groups self.new) result }
        ensures kept { OnErr result (self.new ≡ self.old) }
        ensures table { length self.new.perms.items ≡ length self.old.perms.items }
    {
        self.may_declare(g)?;
        self.set(g.name, Some(GroupPerm::Exclusive));
        Ok(())
    }

    // A group is not known any more.
    fn forget_one(&mut self, g: Name)
        ensures groups { known_groups self.new ≡ with_permission g None (known_groups self.old) }
        ensures table { length self.new.perms.items ≡ length self.old.perms.items }
    {
        if (g as usize) < self.perms.len() {
            self.set(g, None);
        }
    }

    /// These groups are not known any more, as at a block's end. All others stay. Takes no memory.
    pub fn forget(&mut self, gs: &[Name])
        ensures groups { known_groups self.new ≡ group.forget gs.now (known_groups self.old) }
        ensures table { length self.new.perms.items ≡ length self.old.perms.items }
    {
        for g in gs {
            self.forget_one(*g);
        }
    }
}
