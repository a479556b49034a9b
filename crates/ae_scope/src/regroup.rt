// Groups that become known, that are split and locked, and how this is taken back.
ghost use Rattle.std.specs.Prelude.{◌≡◌, ℕ, nat_eq, true, false, is_some};
ghost use Rattle.ae_rules.specs.Lookups.{has_name};

use crate::scope::Scope;
use crate::slot::{GroupChange, Mark};
use ae_groups::deny;
use ae_rules::GroupPerm;
use ae_text::{Deny, Rule};
use ae_tree::{Name, NameAt};
use std::alloc::AllocError;

// A group that was not known before a change leaves the list of the known ones, where it is the last of them.
fn unlist(known: &mut Vec<Name>, change: GroupChange)
    ensures others { (g : ℕ) → nat_eq change.name g ≡ false
        → has_name known.new.items g ≡ has_name known.old.items g }
    ensures same { is_some change.before ≡ true → known.new.items ≡ known.old.items }
{
    if change.before.is_none() && known.last() == Some(&change.name) {
        known.pop();
    }
}

impl Scope {
    ghost use Rattle.std.specs.Prelude.{◌≡◌, ℕ, ◌<◌, ◌≤◌, ◌-◌, true, length, take, drop, All, OnOk};
    ghost use Rattle.ae_tree.specs.declared.tree.NameAt.{NameAt};
    ghost use Rattle.ae_tree.specs.WellShaped.{AreNamed};
    ghost use Rattle.ae_rules.specs.Answers.{Leaves};
    ghost use Rattle.ae_rules.specs.Groups as spec;
    ghost use Rattle.ae_rules.specs.Lookups.{has_name};
    ghost use Rattle.ae_rules.specs.Statements.{judge_group, while_locked, while_split};
    ghost use Rattle.ae_scope.specs.Trail.{groups_before};
    ghost use Rattle.ae_scope.specs.Scope.{context_of, with_known, with_held_back, all_held_back, enters_atomic, enters_split};
    ghost use Rattle.ae_scope.specs.Grows.{Ends, Grows};

    // A group has a permission. Which one it had before is kept.
    fn set_group(&mut self, name: Name, perm: GroupPerm) -> Result<(), AllocError>
        requires within { name < length self.old.groups.perms.items }
        requires listed { has_name self.old.known.items name ≡ true }
        ensures context { OnOk result (context_of self.new ≡ with_known name perm (context_of self.old)) }
        ensures known { self.new.known.items ≡ self.old.known.items }
        ensures table { length self.new.at.items ≡ length self.old.at.items }
        ensures grows { OnOk result (Grows self.old self.new) }
    {
        let before = self.groups.perm(name);
        self.group_trail.push(GroupChange { name, before })?;
        self.groups.set(name, Some(perm));
        Ok(())
    }

    /// A group is known, with this permission.
    pub fn know(&mut self, name: Name, perm: GroupPerm) -> Result<(), AllocError>
        requires { name < length self.old.groups.perms.items }
        ensures context { OnOk result (context_of self.new ≡ with_known name perm (context_of self.old)) }
        ensures table { length self.new.at.items ≡ length self.old.at.items }
        ensures groups { length self.new.groups.perms.items ≡ length self.old.groups.perms.items }
        ensures grows { OnOk result (Grows self.old self.new) }
    {
        self.known.push(name)?;
        self.set_group(name, perm)
    }

    /// A group that a `group` statement declares is known, and exclusive. Refused (N6) where a local or a group has its
    /// name.
    pub fn declare_group(&mut self, group: NameAt) -> Result<(), Deny>
        requires within { group.name < length self.old.at.items }
        ensures answer { Leaves (judge_group (context_of self.old) group) (context_of self.new) result }
        ensures grows { OnOk result (Grows self.old self.new) }
    {
        if self.find(group.name).is_some() {
            return Err(deny(Rule::DuplicateLocal, group.at));
        }
        self.groups.may_declare(group)?;
        self.know(group.name, GroupPerm::Exclusive)?;
        Ok(())
    }

    // These groups are shared.
    fn share_all(&mut self, groups: &[NameAt]) -> Result<(), AllocError>
        requires named { AreNamed (length self.old.groups.perms.items) groups.now }
        requires listed { All (λ (x : NameAt). has_name self.old.known.items x.name ≡ true) groups.now }
        ensures context { OnOk result (context_of self.new ≡ while_split groups.now (context_of self.old)) }
        ensures grows { OnOk result (Grows self.old self.new) }
    {
        for group in groups {
            self.set_group(group.name, GroupPerm::Shared)?;
        }
        Ok(())
    }

    /// A split block begins: its groups are shared. Refused (G1, G6, G4) at the first group of the list that may not be
    /// split.
    pub fn enter_split(&mut self, groups: &[NameAt]) -> Result<(), Deny>
        ensures answer { Leaves (enters_split groups.now (context_of self.old)) (context_of self.new) result }
        ensures grows { OnOk result (Grows self.old self.new) }
    {
        self.groups.may_split(*self.known.allocator(), groups)?;
        self.share_all(groups)?;
        Ok(())
    }

    // A known group is held back, where it is shared.
    fn hold_back(&mut self, name: Name) -> Result<(), AllocError>
        ensures context { OnOk result (context_of self.new ≡ with_held_back name (context_of self.old)) }
        ensures known { self.new.known.items ≡ self.old.known.items }
        ensures grows { OnOk result (Grows self.old self.new) }
    {
        if self.groups.is(GroupPerm::Shared, name) {
            self.set_group(name, GroupPerm::HeldBack)?;
        }
        Ok(())
    }

    // Every shared group is held back.
    fn hold_all_back(&mut self) -> Result<(), AllocError>
        ensures context { OnOk result (context_of self.new ≡ all_held_back (context_of self.old)) }
        ensures grows { OnOk result (Grows self.old self.new) }
    {
        for i in 0..self.known.len() {
            let name = self.known[i];
            self.hold_back(name)?;
        }
        Ok(())
    }

    // A group is protected, and every other shared group is held back.
    fn lock(&mut self, name: Name) -> Result<(), AllocError>
        requires { spec.known (context_of self.old).group name ≡ true }
        ensures context { OnOk result (context_of self.new ≡ while_locked name (context_of self.old)) }
        ensures grows { OnOk result (Grows self.old self.new) }
    {
        self.set_group(name, GroupPerm::Protected)?;
        self.hold_all_back()
    }

    /// An atomic block begins: its group is protected, and every other shared group is held back. Refused where the
    /// group is not known (G1), held back (G8), or not shared (G5).
    pub fn enter_atomic(&mut self, group: NameAt) -> Result<(), Deny>
        ensures answer { Leaves (enters_atomic group (context_of self.old)) (context_of self.new) result }
        ensures grows { OnOk result (Grows self.old self.new) }
    {
        self.groups.may_lock(group)?;
        self.lock(group.name)?;
        Ok(())
    }

    // The last change of a group is undone.
    fn undo_group(&mut self)
        requires { 0 < length self.old.group_trail.items }
        ensures groups { (n : ℕ) → n < length self.old.group_trail.items
            → groups_before (drop n self.new.group_trail.items) self.new.groups.perms.items
            ≡ groups_before (drop n self.old.group_trail.items) self.old.groups.perms.items }
        ensures locals { self.new.locals.items ≡ self.old.locals.items }
        ensures table { length self.new.at.items ≡ length self.old.at.items }
        ensures trail { self.new.trail.items ≡ self.old.trail.items }
        ensures group_trail { self.new.group_trail.items
            ≡ take (length self.old.group_trail.items - 1) self.old.group_trail.items }
    {
        match self.group_trail.pop() {
            Some(change) => {
                if (change.name as usize) < self.groups.perms.len() {
                    self.groups.set(change.name, change.before);
                    unlist(&mut self.known, change);
                }
            }
            None => {}
        }
    }

    // All but the first changes of groups are undone, the last one first.
    fn rewind_groups(&mut self, changes: usize)
        requires { changes ≤ length self.old.group_trail.items }
        ensures groups { self.new.groups.perms.items
            ≡ groups_before (drop changes self.old.group_trail.items) self.old.groups.perms.items }
        ensures locals { self.new.locals.items ≡ self.old.locals.items }
        ensures table { length self.new.at.items ≡ length self.old.at.items }
        ensures trail { self.new.trail.items ≡ self.old.trail.items }
        ensures group_trail { self.new.group_trail.items ≡ take changes self.old.group_trail.items }
    {
        while self.group_trail.len() > changes {
            self.undo_group();
        }
    }

    /// A block ends: only the first of the locals stay, and the groups are as they were at the mark. What is held of the
    /// locals that stay is not touched.
    pub fn end_block(&mut self, mark: Mark)
        requires locals { mark.locals ≤ length self.old.locals.items }
        requires groups { mark.groups ≤ length self.old.group_trail.items }
        ensures { Ends mark self.old self.new }
    {
        self.cut(mark.locals);
        self.rewind_groups(mark.groups);
    }
}
