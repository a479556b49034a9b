// What was added or changed since some point is taken back.
use crate::scope::Scope;
use crate::slot::{Change, Mark, is_same_held};
use ae_rules::Held;
use std::alloc::{AllocError, Global};

impl Scope {
    ghost use Rattle.std.specs.Prelude.{◌≡◌, ℕ, ◌<◌, ◌≤◌, ◌-◌, [], length, take, drop, OnOk, IfOk};
    ghost use Rattle.ae_scope.specs.Slots.{hold_at, rewound, now_held, all_same, held_at, replayed};
    ghost use Rattle.ae_scope.specs.Scope.{Empty};
    ghost use Rattle.ae_scope.specs.Grows.{Grows, Marks};

    /// How many locals, changes of what is held, and changes of groups there are.
    pub fn mark(&self) -> Mark
        ensures { Marks self.now result }
    {
        Mark {
            locals: self.locals.len(),
            changes: self.trail.len(),
            groups: self.group_trail.len(),
        }
    }

    // The last local leaves.
    fn forget(&mut self)
        requires { 0 < length self.old.locals.items }
        ensures locals { self.new.locals.items ≡ take (length self.old.locals.items - 1) self.old.locals.items }
        ensures groups { self.new.groups.perms.items ≡ self.old.groups.perms.items }
        ensures group_trail { self.new.group_trail.items ≡ self.old.group_trail.items }
        ensures table { length self.new.at.items ≡ length self.old.at.items }
        ensures trail { self.new.trail.items ≡ self.old.trail.items }
    {
        match self.locals.pop() {
            Some(slot) => self.at[slot.name as usize] = None,
            None => {}
        }
    }

    /// Only the first of the locals stay.
    pub fn cut(&mut self, locals: usize)
        requires { locals ≤ length self.old.locals.items }
        ensures locals { self.new.locals.items ≡ take locals self.old.locals.items }
        ensures groups { self.new.groups.perms.items ≡ self.old.groups.perms.items }
        ensures group_trail { self.new.group_trail.items ≡ self.old.group_trail.items }
        ensures table { length self.new.at.items ≡ length self.old.at.items }
        ensures trail { self.new.trail.items ≡ self.old.trail.items }
    {
        while self.locals.len() > locals {
            self.forget();
        }
    }

    // The last change is undone.
    fn undo(&mut self)
        requires { 0 < length self.old.trail.items }
        ensures locals { (n : ℕ) → n < length self.old.trail.items → rewound (drop n self.new.trail.items)
            self.new.locals.items ≡ rewound (drop n self.old.trail.items) self.old.locals.items }
        ensures groups { self.new.groups.perms.items ≡ self.old.groups.perms.items }
        ensures group_trail { self.new.group_trail.items ≡ self.old.group_trail.items }
        ensures table { length self.new.at.items ≡ length self.old.at.items }
        ensures trail { self.new.trail.items ≡ take (length self.old.trail.items - 1) self.old.trail.items }
    {
        match self.trail.pop() {
            Some(change) => {
                if change.slot < self.locals.len() {
                    self.set_held(change.slot, change.held);
                }
            }
            None => {}
        }
    }

    /// All but the first changes are undone, the last one first.
    pub fn rewind(&mut self, changes: usize)
        requires { changes ≤ length self.old.trail.items }
        ensures locals { self.new.locals.items ≡ rewound (drop changes self.old.trail.items) self.old.locals.items }
        ensures groups { self.new.groups.perms.items ≡ self.old.groups.perms.items }
        ensures group_trail { self.new.group_trail.items ≡ self.old.group_trail.items }
        ensures table { length self.new.at.items ≡ length self.old.at.items }
        ensures trail { self.new.trail.items ≡ take changes self.old.trail.items }
    {
        while self.trail.len() > changes {
            self.undo();
        }
    }

    // What is held of the local at this place.
    #[tactic(auto, using(crate::proofs::SlotLemmas::helds))]
    fn held_at(&self, at: usize) -> Held
        ensures { result ≡ held_at self.now.locals.items at }
    {
        match self.locals.get(at) {
            Some(local) => local.held,
            None => Held::None,
        }
    }

    /// What is held now where something was changed since then.
    pub fn changed(&self, alloc: Global, changes: usize) -> Result<Vec<Change>, AllocError>
        requires { changes ≤ length self.now.trail.items }
        ensures { IfOk result (λ v. v.items ≡ now_held (drop changes self.now.trail.items) self.now.locals.items) }
    {
        let mut now = Vec::new(alloc);
        for change in &self.trail[changes..] {
            now.push(Change {
                slot: change.slot,
                held: self.held_at(change.slot),
            })?;
        }
        Ok(now)
    }

    /// These are held.
    pub fn holds(&self, changes: &[Change]) -> bool
        ensures { result ≡ all_same changes.now self.now.locals.items }
    {
        for change in changes {
            if !is_same_held(change.held, self.held_at(change.slot)) {
                return false;
            }
        }
        true
    }

    /// Undoes all but the first changes, and says whether each local that changed holds the same as before them.
    pub fn settle(&mut self, alloc: Global, changes: usize) -> Result<bool, AllocError>
        requires { changes ≤ length self.old.trail.items }
        ensures value { IfOk result (λ b. b ≡ all_same (now_held (drop changes self.old.trail.items)
            self.old.locals.items) self.new.locals.items) }
        ensures locals { OnOk result (self.new.locals.items ≡ rewound (drop changes self.old.trail.items)
            self.old.locals.items) }
        ensures groups { OnOk result (self.new.groups.perms.items ≡ self.old.groups.perms.items) }
        ensures group_trail { OnOk result (self.new.group_trail.items ≡ self.old.group_trail.items) }
        ensures table { OnOk result (length self.new.at.items ≡ length self.old.at.items) }
        ensures trail { OnOk result (self.new.trail.items ≡ take changes self.old.trail.items) }
    {
        let now = self.changed(alloc, changes)?;
        self.rewind(changes);
        Ok(self.holds(now.as_slice()))
    }

    // Another thing is held of the local at this place, if there is one.
    fn put(&mut self, change: Change) -> Result<(), AllocError>
        ensures locals { OnOk result (self.new.locals.items ≡ hold_at self.old.locals.items change.slot change.held) }
        ensures grows { OnOk result (Grows self.old self.new) }
    {
        if change.slot < self.locals.len() {
            let before = self.locals[change.slot].held;
            self.trail.push(Change {
                slot: change.slot,
                held: before,
            })?;
            self.set_held(change.slot, change.held);
        }
        Ok(())
    }

    /// Holds these things again, the first one first.
    #[tactic(auto, using(crate::proofs::ReplayLemmas::grown))]
    pub fn replay(&mut self, changes: &[Change]) -> Result<(), AllocError>
        ensures locals { OnOk result (self.new.locals.items ≡ replayed changes.now self.old.locals.items) }
        ensures grows { OnOk result (Grows self.old self.new) }
    {
        for change in changes {
            self.put(*change)?;
        }
        Ok(())
    }

    // The last group that became known is forgotten.
    fn forget_group(&mut self)
        requires { self.old.group_trail.items ≡ [] }
        ensures known { self.new.known.items ≡ take (length self.old.known.items - 1) self.old.known.items }
        ensures locals { self.new.locals.items ≡ self.old.locals.items }
        ensures trail { self.new.trail.items ≡ self.old.trail.items }
        ensures table { length self.new.at.items ≡ length self.old.at.items }
        ensures group_trail { self.new.group_trail.items ≡ self.old.group_trail.items }
    {
        match self.known.pop() {
            Some(name) => {
                if (name as usize) < self.groups.perms.len() {
                    self.groups.set(name, None);
                }
            }
            None => {}
        }
    }

    /// A method ends: nothing is known any more. Costs what was known and what was changed.
    pub fn clear(&mut self)
        requires { length self.old.groups.perms.items ≡ length self.old.at.items }
        ensures { Empty (length self.old.at.items) self.new }
    {
        self.trail.clear();
        self.group_trail.clear();
        self.cut(0);
        while !self.known.is_empty() {
            self.forget_group();
        }
    }
}
