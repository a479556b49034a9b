// What is known at a statement, as a stack of locals with a table by name.
ghost use Rattle.std.specs.Prelude.{◌≡◌, length};
ghost use Rattle.ae_scope.specs.Slots.{Tied, names};
ghost use Rattle.ae_scope.specs.Trail.{Listed, Rising};

use crate::slot::{Change, GroupChange, Slot, held_of};
use ae_groups::GroupContext;
use ae_rules::{GroupPerm, Held};
use ae_tree::{Form, Name};
use std::alloc::{AllocError, Global};

/// The visible locals in the order of their `let`s, the place of each name among them, the permission of each group by
/// name, the names of the known groups, and what was held and which permissions groups had before, change by change. One
/// scope serves the methods of a program in turn: what a method knows is added at its start, and all of it is forgotten
/// at its end.
#[derive(Drop)]
pub struct Scope {
    pub locals: Vec<Slot>,
    pub at: Vec<Option<usize>>,
    pub groups: GroupContext,
    pub known: Vec<Name>,
    pub trail: Vec<Change>,
    pub group_trail: Vec<GroupChange>,
    pub ghost tied: { Tied at.items (names locals.items) },
    pub ghost listed: { Listed groups.perms.items known.items },
    pub ghost rising: { Rising group_trail.items groups.perms.items },
    pub ghost sized: { length groups.perms.items ≡ length at.items },
}

impl Scope {
    ghost use Rattle.std.specs.Prelude.{◌≡◌, ◌<◌, length, MatchOption, None, Some, OnOk, IfOk};
    ghost use Rattle.ae_rules.specs.Context as context;
    ghost use Rattle.ae_rules.specs.Groups as group;
    ghost use Rattle.ae_scope.specs.Slots.{local_of, place_in, hold_at};
    ghost use Rattle.ae_scope.specs.Scope.{context_of, with_parameter, with_known, Empty};
    ghost use Rattle.ae_scope.specs.Grows.{Grows};

    /// A scope in which nothing is known, for this many names.
    pub fn new(alloc: Global, names: usize) -> Result<Scope, AllocError>
        ensures { IfOk result (Empty names) }
    {
        let at = vec![in alloc; None; names]?;
        let groups = GroupContext::new(alloc, names)?;
        Ok(Scope {
            locals: Vec::new(alloc),
            at,
            groups,
            known: Vec::new(alloc),
            trail: Vec::new(alloc),
            group_trail: Vec::new(alloc),
        })
    }

    // Where a name stands in the stack.
    fn place(&self, name: Name) -> Option<usize>
        ensures { result ≡ place_in self.now.at.items name }
    {
        match self.at.get(name as usize) {
            Some(at) => *at,
            None => None,
        }
    }

    /// The local with this name.
    #[tactic(auto, using(crate::proofs::SlotLemmas::slots))]
    pub fn find(&self, name: Name) -> Option<&Slot>
        ensures { MatchOption result ((context_of self.now).local name ≡ None)
            (λ s. (context_of self.now).local name ≡ Some (local_of s.now)) }
    {
        match self.place(name) {
            Some(at) => Some(&self.locals[at]),
            None => None,
        }
    }

    /// The permission of a group, where it is known.
    pub fn group(&self, name: Name) -> Option<GroupPerm>
        ensures { result ≡ (context_of self.now).group name }
    {
        self.groups.perm(name)
    }

    /// A group with this name is known.
    pub fn knows(&self, name: Name) -> bool
        ensures { result ≡ group.known (context_of self.now).group name }
    {
        self.groups.knows(name)
    }

    /// The members of the group may be reached.
    pub fn opens(&self, name: Name) -> bool
        ensures { result ≡ group.opens (context_of self.now).group name }
    {
        self.groups.opens(name)
    }

    /// A local or a group has this name.
    pub fn is_visible(&self, name: Name) -> bool
        ensures { result ≡ context.is_visible (context_of self.now) name }
    {
        match self.find(name) {
            Some(_) => true,
            None => self.knows(name),
        }
    }

    /// Adds a parameter, whose name is new. One that stays is never assigned.
    pub fn add(&mut self, name: Name, form: Form, stays: bool) -> Result<(), AllocError>
        requires new { (context_of self.old).local name ≡ None }
        requires within { name < length self.old.at.items }
        ensures context { OnOk result (context_of self.new ≡ with_parameter name form stays (context_of self.old)) }
        ensures grows { OnOk result (Grows self.old self.new) }
    {
        let at = self.locals.len();
        let held = held_of(&form);
        self.locals.push(Slot {
            name,
            form,
            held,
            stays,
        })?;
        self.at[name as usize] = Some(at);
        Ok(())
    }

    /// Adds a local, whose name is new.
    pub fn declare(&mut self, name: Name, form: Form) -> Result<(), AllocError>
        requires new { (context_of self.old).local name ≡ None }
        requires within { name < length self.old.at.items }
        ensures context { OnOk result (context_of self.new ≡ context.with_local name form (context_of self.old)) }
        ensures grows { OnOk result (Grows self.old self.new) }
    {
        self.add(name, form, false)
    }

    // Another thing is held of the local at this place, and no change is kept.
    pub(crate) fn set_held(&mut self, at: usize, held: Held)
        requires { at < length self.old.locals.items }
        ensures locals { self.new.locals.items ≡ hold_at self.old.locals.items at held }
        ensures at { self.new.at.items ≡ self.old.at.items }
        ensures groups { self.new.groups ≡ self.old.groups }
        ensures trail { self.new.trail.items ≡ self.old.trail.items }
        ensures group_trail { self.new.group_trail.items ≡ self.old.group_trail.items }
    {
        self.locals[at].held = held;
    }

    /// Another thing is held of a local. What was held before is kept.
    pub fn hold(&mut self, name: Name, held: Held) -> Result<(), AllocError>
        ensures context { OnOk result (context_of self.new ≡ context.with_held name held (context_of self.old)) }
        ensures grows { OnOk result (Grows self.old self.new) }
    {
        match self.place(name) {
            Some(at) => {
                let before = self.locals[at].held;
                self.trail.push(Change {
                    slot: at,
                    held: before,
                })?;
                self.set_held(at, held);
                Ok(())
            }
            None => Ok(()),
        }
    }
}
