// Split blocks.
ghost use Rattle.std.specs.Prelude.{◌≡◌, OnOk};
ghost use Rattle.ae_rules.specs.Table.{and_also};
ghost use Rattle.ae_groups.specs.Contexts.{set_of_names};

use crate::answer::deny;
use crate::context::GroupContext;
use ae_rules::GroupPerm;
use ae_text::{Deny, Rule};
use ae_tree::{Name, NameAt};
use std::alloc::{AllocError, Global};
use std::collections::HashSet;

// With one name more.
fn note(name: Name, names: &mut HashSet<Name>) -> Result<(), AllocError>
    ensures { OnOk result (set_of_names names.new ≡ and_also name (set_of_names names.old)) }
{
    names.insert(name)?;
    Ok(())
}

impl GroupContext {
    ghost use Rattle.std.specs.Prelude.{◌≡◌, length, All, OnErr};
    ghost use Rattle.ae_rules.specs.Answers.{Answers, Leaves, done};
    ghost use Rattle.ae_rules.specs.Groups as group;
    ghost use Rattle.ae_groups.specs.Contexts.{known_groups, set_of_names, AreShared};

    // A group of a split list may be split, after those before it in the list.
    fn may_split_next(&self, g: NameAt, earlier: &mut HashSet<Name>) -> Result<(), Deny>
        ensures { Leaves (group.may_split (known_groups self.now) g (set_of_names earlier.old)) (set_of_names earlier.new)
            result }
    {
        if !self.knows(g.name) {
            return Err(deny(Rule::UnknownGroup, g.at));
        }
        if earlier.contains(&g.name) {
            return Err(deny(Rule::GroupTwice, g.at));
        }
        if !self.is(GroupPerm::Exclusive, g.name) {
            return Err(deny(Rule::NotExclusive, g.at));
        }
        note(g.name, earlier)?;
        Ok(())
    }

    /// These groups may be split. Refused at the first of the list that may not: it is not known (G1), it stands earlier
    /// in the list (G6), or it is not exclusive (G4). Changes nothing.
    pub fn may_split(&self, alloc: Global, gs: &[NameAt]) -> Result<(), Deny>
        ensures { Answers (group.may_split_all (known_groups self.now) gs.now) done result }
    {
        let mut earlier = HashSet::new(alloc);
        for g in gs {
            self.may_split_next(*g, &mut earlier)?;
        }
        Ok(())
    }

    /// A split block begins: its groups are shared. Refused (G1, G6, G4) at the first group of the list that may not be
    /// split. A refused call leaves the context unchanged.
    pub fn enter_split(&mut self, gs: &[NameAt]) -> Result<(), Deny>
        ensures answer { Leaves (group.enter_split gs.now (known_groups self.old)) (known_groups self.new) result }
        ensures kept { OnErr result (self.new ≡ self.old) }
        ensures table { length self.new.perms.items ≡ length self.old.perms.items }
    {
        self.may_split(*self.perms.allocator(), gs)?;
        self.set_all(gs, GroupPerm::Shared);
        Ok(())
    }

    /// A split block ends: its groups are exclusive again. Takes no memory.
    pub fn leave_split(&mut self, gs: &[NameAt])
        requires { AreShared (known_groups self.old) gs.now }
        ensures groups { known_groups self.new ≡ group.exclusive_again gs.now (known_groups self.old) }
        ensures table { length self.new.perms.items ≡ length self.old.perms.items }
    {
        self.set_all(gs, GroupPerm::Exclusive);
    }
}
