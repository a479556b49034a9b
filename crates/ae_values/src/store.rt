// The members of a group.
ghost use Rattle.std.specs.Prelude.{◌≡◌, ◌<◌, [], ◌∷◌, ◌++◌, map, true, Some, min, length, slice_get, option_map};
ghost use Rattle.std.specs.Prelude.{IfOk, IfSome, OnOk, OnErr};
ghost use Rattle.std.specs.Option.{option_copied};
ghost use Rattle.std.specs.List.{list_all};
ghost use Rattle.ae_values.specs.Shown.{shown, shown_tree, tree_shown, IsMeasured, IsMeasuredTree};
ghost use Rattle.ae_semantics.specs.Values.{Tree, Owned, height, put_at};
ghost use Rattle.ae_semantics.specs.Values as meant;
ghost use Rattle.ae_values.specs.Inside.{put_in_member, item_set_in_member};

use crate::value::{Object, Val};
use ae_text::Memory;
use sqlite_items::at;
use std::alloc::{AllocError, Global};
use std::marker::Model;

/// The members of a group, by their numbers. A contract sees the list of their trees, and each member is well measured.
#[derive(Drop)]
pub struct Store {
    members: Vec<Object>,
}

impl Model for Store {
    ghost use Rattle.std.specs.Prelude.{◌≡◌, true, map};
    ghost use Rattle.std.specs.List.{list_all};
    ghost use Rattle.std.specs.Coded.{coded_list};
    ghost use Rattle.ae_values.specs.TreeCode.{tree_code};
    ghost use Rattle.ae_semantics.specs.Values as meant;
    ghost use Rattle.ae_values.specs.Shown.{shown_tree, tree_shown};

    ghost Value = { meant.Store };

    ghost coded = { coded_list tree_code };

    ghost view = { λ s. map shown_tree s.members.items };

    ghost invariant = { λ s. list_all (λ x. (tree_shown x).measured) s.members.items ≡ true };
}

// A new value comes to stand inside one of these members.
fn put_in(members: &mut Vec<Object>, number: usize, fields: &[u32], new: Val)
    requires measured { list_all (λ x. (tree_shown x).measured) members.old.items ≡ true }
    requires new { IsMeasured new }
    requires room { (t : Tree) → slice_get (map shown_tree members.old.items) number ≡ Some t
        → height (put_at fields.now (shown new) (Owned t)) < 4294967296 }
    ensures trees { map shown_tree members.new.items ≡
        put_in_member number fields.now (shown new) (map shown_tree members.old.items) }
    ensures measured { list_all (λ x. (tree_shown x).measured) members.new.items ≡ true }
{
    match members.get_mut(number) {
        Some(member) => member.put(fields, new),
        None => {}
    }
}

// One item of an array inside one of these members comes to be this number.
fn set_item_in(members: &mut Vec<Object>, number: usize, fields: &[u32], at: usize, n: i64)
    ensures trees { map shown_tree members.new.items ≡
        item_set_in_member number fields.now at n (map shown_tree members.old.items) }
    ensures measured { list_all (λ x. (tree_shown x).measured) members.old.items ≡ true
        → list_all (λ x. (tree_shown x).measured) members.new.items ≡ true }
{
    match members.get_mut(number) {
        Some(member) => member.set_item(fields, at, n),
        None => {}
    }
}

impl Store {
    /// A group without members.
    pub fn new(alloc: Global) -> Store
        ensures { result ≡ [] }
    {
        Store {
            members: Vec::new(alloc),
        }
    }

    /// How many members there are. Takes no memory.
    pub fn len(&self) -> u64
        ensures { result ≡ length self.now }
    {
        self.members.len() as u64
    }

    /// An object becomes the next member, whose number is the answer. Where memory is refused the members stay as they
    /// were.
    pub fn add(&mut self, object: Object) -> Result<u64, Memory>
        requires { IsMeasuredTree object }
        ensures number { IfOk result (λ n. n ≡ length self.old) }
        ensures added { OnOk result (self.new ≡ self.old ++ shown_tree object ∷ []) }
        ensures refused { OnErr result (self.new ≡ self.old) }
    {
        let number = self.len();
        match self.members.push(object) {
            Ok(()) => Ok(number),
            Err(_) => Err(Memory),
        }
    }

    /// The same members once more, with the same numbers. Where memory is refused there are none.
    pub fn copy(&self, alloc: Global) -> Result<Store, AllocError>
        ensures { IfOk result (λ s. s ≡ self.now) }
    {
        let mut members = Vec::new(alloc);
        for member in &self.members {
            members.push(member.copy(alloc)?)?;
        }
        Ok(Store { members })
    }

    /// The member with this number, and none exactly where there are not so many. Takes no memory.
    pub fn get(&self, number: u64) -> Option<&Object>
        ensures tree { option_map shown_tree (option_copied result) ≡ slice_get self.now number }
        ensures measured { IfSome result (λ o. IsMeasuredTree o.now) }
    {
        at(self.members.as_slice(), number as usize)
    }

    /// A new value comes to stand at the place to which these fields of a member lead, and the heights on the way are
    /// made right. Where there is no such member or place nothing changes. Takes no memory.
    pub fn put(&mut self, number: u64, fields: &[u32], new: Val)
        requires new { IsMeasured new }
        requires room { (t : Tree) → slice_get self.old number ≡ Some t
            → height (put_at fields.now (shown new) (Owned t)) < 4294967296 }
        ensures { self.new ≡ put_in_member number fields.now (shown new) self.old }
    {
        put_in(&mut self.members, number as usize, fields, new);
    }

    /// One item of the array at the place to which these fields of a member lead comes to be this number. Where
    /// there is
    /// no such member, place, array or item nothing changes. Takes no memory.
    pub fn set_item(&mut self, number: u64, fields: &[u32], at: usize, n: i64)
        ensures { self.new ≡ item_set_in_member number fields.now at n self.old }
    {
        set_item_in(&mut self.members, number as usize, fields, at, n);
    }

    /// How high a member would be with a value of this height at the place to which these fields lead, before anything
    /// is changed: no higher than the largest number is told. Takes no memory.
    pub fn height_with(&self, number: u64, fields: &[u32], height: u32) -> u32
        ensures { (t : Tree) → slice_get self.now number ≡ Some t → (new : meant.Val) → meant.height new ≡ height
            → result ≡ min (meant.height (put_at fields.now new (Owned t))) 4294967295 }
    {
        match self.get(number) {
            Some(member) => member.height_with(fields, height),
            None => 0,
        }
    }
}
