// Places in what is bound: locals and members of groups are changed where they stand.
ghost use Rattle.std.specs.Prelude.{◌≡◌, ℕ, ℤ, List, Option, ◌<◌, [], ◌∷◌, ◌++◌, Some, None, length, min, slice_get};
ghost use Rattle.std.specs.Prelude.{slice_set, option_map, IsTrue, IfOk, OnOk, OnErr};
ghost use Rattle.ae_rules.specs.Verdict.{given};
ghost use Rattle.ae_tree.specs.declared.form.Form.{Form};
ghost use Rattle.ae_tree.specs.declared.form.Perm.{Perm};
ghost use Rattle.ae_semantics.specs.Values as meant;
ghost use Rattle.ae_semantics.specs.Values.{Tree, Owned, Array, put_at, height};
ghost use Rattle.ae_semantics.specs.Places.{CellName, State, with, members, group_of, name_of, with_store, Here, Fine};
ghost use Rattle.ae_semantics.specs.Places.{InLocal, InGroup, write_in};
ghost use Rattle.ae_semantics.specs.Places as place;
ghost use Rattle.ae_values.specs.Shown.{IsMeasured, IsMeasuredTree, shown, shown_tree};
ghost use Rattle.ae_values.specs.Inside.{array_inside, item_changed, put_in_member, item_set_in_member};
ghost use Rattle.ae_values.specs.Binding.{bound_measured, members_bound, with_members, with_joined, IsChanged, IsWritten};
ghost use Rattle.ae_values.specs.Environments.{running_binds, bound_under, state_in, HasNamesOf};
ghost use Rattle.ae_values.specs.Shapes.{name_shape, shapes};
ghost use Rattle.ae_values.specs.declared.env.Bound.TheVariants as bound;
ghost use Rattle.ae_values.specs.declared.env.Bound.{Bound};
ghost use Rattle.ae_values.specs.declared.value.Val.{Val};

use crate::env::{Bound, Env, Image};
use crate::value::{Object, Val};
use ae_text::Memory;
use ae_tree::Name;

// A local with another value at the place in it to which these fields lead.
fn written(old: Bound, fields: &[u32], new: Val) -> Bound
    requires measured { IsTrue (bound_measured old) }
    requires new { IsMeasured new }
    requires room { (form : Form) (v : Val) → old ≡ bound.Value form v
        → height (put_at fields.now (shown new) (shown v)) < 4294967296 }
    ensures written { IsWritten fields.now (shown new) old result }
    ensures measured { IsTrue (bound_measured result) }
{
    match old {
        Bound::Value(form, mut value) => {
            value.put(fields, new);
            Bound::Value(form, value)
        }
        Bound::Moved(form) => Bound::Moved(form),
        Bound::Whole(image) => Bound::Whole(image),
        Bound::Other(group) => Bound::Other(group),
        Bound::Cell(cell) => Bound::Cell(cell),
        Bound::Pieces(pieces) => Bound::Pieces(pieces),
    }
}

// What is bound, with one more member where it is a group that is here, and the number of that member.
fn joined(bound: Bound, object: Object) -> (Bound, Result<Option<u64>, Memory>)
    requires { IsMeasuredTree object }
    ensures number { IfOk result.1 (λ n. n ≡ option_map (λ st. length st) (members_bound bound)) }
    ensures added { OnOk result.1 (result.0 ≡ with_joined (shown_tree object) bound) }
    ensures refused { OnErr result.1 (result.0 ≡ bound) }
    ensures shape { (q : Perm) → name_shape q result.0 ≡ name_shape q bound }
{
    match bound {
        Bound::Whole(Image::Store(mut store)) => match store.add(object) {
            Ok(number) => (Bound::Whole(Image::Store(store)), Ok(Some(number))),
            Err(memory) => (Bound::Whole(Image::Store(store)), Err(memory)),
        },
        Bound::Whole(Image::Log(pieces)) => (Bound::Whole(Image::Log(pieces)), Ok(None)),
        Bound::Value(form, value) => (Bound::Value(form, value), Ok(None)),
        Bound::Moved(form) => (Bound::Moved(form), Ok(None)),
        Bound::Other(group) => (Bound::Other(group), Ok(None)),
        Bound::Cell(cell) => (Bound::Cell(cell), Ok(None)),
        Bound::Pieces(pieces) => (Bound::Pieces(pieces), Ok(None)),
    }
}

// A local with another item in the array in it to which these fields lead.
fn item_set(old: Bound, fields: &[u32], at: usize, n: i64) -> Bound
    requires measured { IsTrue (bound_measured old) }
    ensures changed { IsChanged (item_changed fields.now at n) old result }
    ensures measured { IsTrue (bound_measured result) }
{
    match old {
        Bound::Value(form, mut value) => {
            value.set_item(fields, at, n);
            Bound::Value(form, value)
        }
        Bound::Moved(form) => Bound::Moved(form),
        Bound::Whole(image) => Bound::Whole(image),
        Bound::Other(group) => Bound::Other(group),
        Bound::Cell(cell) => Bound::Cell(cell),
        Bound::Pieces(pieces) => Bound::Pieces(pieces),
    }
}

// A group that is here with another value at the place in one of its members to which these fields lead.
fn member_written(old: Bound, number: u64, fields: &[u32], new: Val) -> Bound
    requires measured { IsTrue (bound_measured old) }
    requires new { IsMeasured new }
    requires room { (st : meant.Store) (t : Tree) → members_bound old ≡ Some st → slice_get st number ≡ Some t
        → height (put_at fields.now (shown new) (Owned t)) < 4294967296 }
    ensures written { result ≡ with_members (put_in_member number fields.now (shown new)) old }
    ensures measured { IsTrue (bound_measured result) }
{
    match old {
        Bound::Whole(Image::Store(mut store)) => {
            store.put(number, fields, new);
            Bound::Whole(Image::Store(store))
        }
        Bound::Whole(Image::Log(pieces)) => Bound::Whole(Image::Log(pieces)),
        Bound::Value(form, value) => Bound::Value(form, value),
        Bound::Moved(form) => Bound::Moved(form),
        Bound::Other(group) => Bound::Other(group),
        Bound::Cell(cell) => Bound::Cell(cell),
        Bound::Pieces(pieces) => Bound::Pieces(pieces),
    }
}

// A group that is here with another item in the array in one of its members to which these fields lead.
fn member_item_set(old: Bound, number: u64, fields: &[u32], at: usize, n: i64) -> Bound
    requires measured { IsTrue (bound_measured old) }
    ensures changed { result ≡ with_members (item_set_in_member number fields.now at n) old }
    ensures measured { IsTrue (bound_measured result) }
{
    match old {
        Bound::Whole(Image::Store(mut store)) => {
            store.set_item(number, fields, at, n);
            Bound::Whole(Image::Store(store))
        }
        Bound::Whole(Image::Log(pieces)) => Bound::Whole(Image::Log(pieces)),
        Bound::Value(form, value) => Bound::Value(form, value),
        Bound::Moved(form) => Bound::Moved(form),
        Bound::Other(group) => Bound::Other(group),
        Bound::Cell(cell) => Bound::Cell(cell),
        Bound::Pieces(pieces) => Bound::Pieces(pieces),
    }
}

// How high a local would be with a value of this height at the place in it to which these fields lead.
fn local_height(local: &Bound, fields: &[u32], height: u32) -> u32
    requires { IsTrue (bound_measured local.now) }
    ensures { (form : Form) (v : Val) → local.now ≡ bound.Value form v → (new : meant.Val) → meant.height new ≡ height
        → result ≡ min (meant.height (put_at fields.now new (shown v))) 4294967295 }
{
    match local {
        Bound::Value(_, value) => value.height_with(fields, height),
        Bound::Moved(_) | Bound::Whole(_) | Bound::Other(_) | Bound::Cell(_) | Bound::Pieces(_) =>
            0,
    }
}

impl Env {
    /// The place in a local to which these fields lead, one after another, gets a value; its heights are made right,
    /// and nothing else of it changes. Where no local with a value is bound under the name all stays. Takes no memory.
    pub fn write(&mut self, name: Name, fields: &[u32], new: Val)
        requires new { IsMeasured new }
        requires room { (form : Form) (v : Val) → bound_under self.old name ≡ Some (bound.Value form v)
            → height (put_at fields.now (shown new) (shown v)) < 4294967296 }
        ensures written { (b : Bound) → bound_under self.old name ≡ Some b
            → (a : Bound) × IsWritten fields.now (shown new) b a
            × (bound_under self.new ≡ with name (Some a) (bound_under self.old)) }
        ensures meant { (cells : ℕ → CellName) (r : Option meant.Val) (s : State)
            → write_in (state_in cells r self.old) (InLocal name) fields.now (shown new) ≡ Fine s
            → state_in cells r self.new ≡ s }
        ensures absent { bound_under self.old name ≡ None → bound_under self.new ≡ bound_under self.old }
        ensures stays { HasNamesOf self.old self.new }
        ensures shapes { shapes (running_binds self.new) ≡ shapes (running_binds self.old) }
    {
        match self.replace(name, Bound::Cell(0)) {
            Some(bound) => {
                let bound = written(bound, fields, new);
                let _ = self.replace(name, bound);
            }
            None => {}
        }
    }

    /// An object becomes the next member of a group, by whichever of the group's names, and its number is the answer.
    /// There is none exactly where the group's members are not here, and then all stays, as it does where memory is
    /// refused.
    pub fn add_member(&mut self, group: Name, object: Object) -> Result<Option<u64>, Memory>
        requires { IsMeasuredTree object }
        ensures number { (cells : ℕ → CellName) (r : Option meant.Val) → IfOk result (λ n.
            n ≡ option_map (λ st. length st) (members (group_of (state_in cells r self.old) group))) }
        ensures bound { (cells : ℕ → CellName) (r : Option meant.Val) → OnOk result (bound_under self.new
            ≡ with (name_of (state_in cells r self.old) group)
            (option_map (with_joined (shown_tree object)) (bound_under self.old (name_of (state_in cells r self.old) group)))
            (bound_under self.old)) }
        ensures added { (cells : ℕ → CellName) (r : Option meant.Val) (st : meant.Store)
            → members (group_of (state_in cells r self.old) group) ≡ Some st
            → OnOk result (state_in cells r self.new
            ≡ with_store group (Some (Here (st ++ shown_tree object ∷ []))) (state_in cells r self.old)) }
        ensures refused { OnErr result (bound_under self.new ≡ bound_under self.old) }
        ensures stays { HasNamesOf self.old self.new }
        ensures shapes { shapes (running_binds self.new) ≡ shapes (running_binds self.old) }
    {
        let name = self.holder(group);
        match self.replace(name, Bound::Cell(0)) {
            Some(bound) => {
                let (bound, number) = joined(bound, object);
                let _ = self.replace(name, bound);
                number
            }
            None => Ok(None),
        }
    }

    /// One item of the array in a local to which these fields lead comes to be this number: one write. Where no local
    /// with a value is bound under the name, or there is no such place, array or item, all stays. Takes no memory.
    pub fn set_item(&mut self, name: Name, fields: &[u32], at: usize, n: i64)
        ensures changed { (b : Bound) → bound_under self.old name ≡ Some b
            → (a : Bound) × IsChanged (item_changed fields.now at n) b a
            × (bound_under self.new ≡ with name (Some a) (bound_under self.old)) }
        ensures meant { (cells : ℕ → CellName) (r : Option meant.Val) (b : place.Bound) (ns : List ℤ) (s : State)
            → (state_in cells r self.old).locals name ≡ Some b → array_inside fields.now b.value ≡ Some ns
            → write_in (state_in cells r self.old) (InLocal name) fields.now (Owned
            (Array (slice_set ns at n))) ≡ Fine s
            → state_in cells r self.new ≡ s }
        ensures absent { bound_under self.old name ≡ None → bound_under self.new ≡ bound_under self.old }
        ensures stays { HasNamesOf self.old self.new }
        ensures shapes { shapes (running_binds self.new) ≡ shapes (running_binds self.old) }
    {
        match self.replace(name, Bound::Cell(0)) {
            Some(bound) => {
                let bound = item_set(bound, fields, at, n);
                let _ = self.replace(name, bound);
            }
            None => {}
        }
    }

    /// The place in a member of a group to which these fields lead, one after another, gets a value, by whichever of
    /// the group's names; the member's heights are made right, and nothing else of it changes. Where the members are
    /// not here, or there is no such member or place, all stays. Takes no memory.
    pub fn write_member(&mut self, group: Name, number: u64, fields: &[u32], new: Val)
        requires new { IsMeasured new }
        requires room { (cells : ℕ → CellName) (r : Option meant.Val) (st : meant.Store) (t : Tree)
            → members (group_of (state_in cells r self.old) group) ≡ Some st → slice_get st number ≡ Some t
            → height (put_at fields.now (shown new) (Owned t)) < 4294967296 }
        ensures bound { (cells : ℕ → CellName) (r : Option meant.Val) → bound_under self.new
            ≡ with (name_of (state_in cells r self.old) group)
            (option_map (with_members (put_in_member number fields.now (shown new)))
            (bound_under self.old (name_of (state_in cells r self.old) group))) (bound_under self.old) }
        ensures meant { (cells : ℕ → CellName) (r : Option meant.Val) (s : State)
            → write_in (state_in cells r self.old) (InGroup group number) fields.now (shown new) ≡ Fine s
            → state_in cells r self.new ≡ s }
        ensures stays { HasNamesOf self.old self.new }
        ensures shapes { shapes (running_binds self.new) ≡ shapes (running_binds self.old) }
    {
        let name = self.holder(group);
        match self.replace(name, Bound::Cell(0)) {
            Some(bound) => {
                let bound = member_written(bound, number, fields, new);
                let _ = self.replace(name, bound);
            }
            None => {}
        }
    }

    /// One item of the array in a member of a group to which these fields lead comes to be this number, by whichever of
    /// the group's names: one write. Where the group's members are not here, or there is no such member, place, array
    /// or item, all stays. Takes no memory.
    pub fn set_member_item(&mut self, group: Name, number: u64, fields: &[u32], at: usize, n: i64)
        ensures bound { (cells : ℕ → CellName) (r : Option meant.Val) → bound_under self.new
            ≡ with (name_of (state_in cells r self.old) group)
            (option_map (with_members (item_set_in_member number fields.now at n))
            (bound_under self.old (name_of (state_in cells r self.old) group))) (bound_under self.old) }
        ensures meant { (cells : ℕ → CellName) (r : Option meant.Val) (st : meant.Store) (t : Tree) (ns : List ℤ)
            (s : State) → members (group_of (state_in cells r self.old) group) ≡ Some st
            → slice_get st number ≡ Some t → array_inside fields.now (Owned t) ≡ Some ns
            → write_in (state_in cells r self.old) (InGroup group number) fields.now (Owned
            (Array (slice_set ns at n))) ≡ Fine s
            → state_in cells r self.new ≡ s }
        ensures stays { HasNamesOf self.old self.new }
        ensures shapes { shapes (running_binds self.new) ≡ shapes (running_binds self.old) }
    {
        let name = self.holder(group);
        match self.replace(name, Bound::Cell(0)) {
            Some(bound) => {
                let bound = member_item_set(bound, number, fields, at, n);
                let _ = self.replace(name, bound);
            }
            None => {}
        }
    }

    /// How high a local would be with a value of this height at the place in it to which these fields lead, before
    /// anything is changed: no higher than the largest number is told. Takes no memory.
    pub fn height_with(&self, name: Name, fields: &[u32], height: u32) -> u32
        ensures { (form : Form) (v : Val) → bound_under self.now name ≡ Some (bound.Value form v) → (new : meant.Val)
            → meant.height new ≡ height → result ≡ min (meant.height (put_at fields.now new (shown v))) 4294967295 }
    {
        match self.get(name) {
            Some(local) => local_height(local, fields, height),
            None => 0,
        }
    }

    /// The same of a member of a group, by whichever of the group's names. Takes no memory.
    pub fn member_height_with(&self, group: Name, number: u64, fields: &[u32], height: u32) -> u32
        ensures { (cells : ℕ → CellName) (r : Option meant.Val) (st : meant.Store) (t : Tree)
            → members (group_of (state_in cells r self.now) group) ≡ Some st → slice_get st number ≡ Some t
            → (new : meant.Val) → meant.height new ≡ height
            → result ≡ min (meant.height (put_at fields.now new (Owned t))) 4294967295 }
    {
        match self.store(group) {
            Some(store) => store.height_with(number, fields, height),
            None => 0,
        }
    }
}
