// Environments: what is bound under names.
ghost use Rattle.std.specs.Prelude.{◌≡◌, ℕ, Option, ◌<◌, ◌≤◌, [], ◌∷◌, ◌++◌, Some, None, length, drop, take};
ghost use Rattle.std.specs.Prelude.{option_map, if◌then◌else◌, is_some, MatchOption, IsTrue, IfSome, IfOk, OnOk};
ghost use Rattle.std.specs.Prelude.{OnErr, vec_len};
ghost use Rattle.std.specs.Option.{option_copied};
ghost use Rattle.ae_rules.specs.Verdict.{given};
ghost use Rattle.ae_tree.specs.declared.form.Form.{Form};
ghost use Rattle.ae_tree.specs.declared.form.Perm.{Perm};
ghost use Rattle.ae_tree.specs.declared.form.Perm.TheVariants as perm;
ghost use Rattle.ae_semantics.specs.Values as meant;
ghost use Rattle.ae_semantics.specs.Values.{put_at, height};
ghost use Rattle.ae_semantics.specs.Places.{CellName, with, members, group_of, other_name, name_of, with_store, Here};
ghost use Rattle.ae_semantics.specs.Meaning.{with_perm};
ghost use Rattle.ae_values.specs.Shown.{IsMeasured, IsMeasuredTree, shown, shown_tree};
ghost use Rattle.ae_values.specs.Binding.{bound_in, bound_measured, bound_once, binds_measured, IsNamedAt, heads};
ghost use Rattle.ae_values.specs.Binding.{IsCallFrom};
ghost use Rattle.ae_values.specs.Binding.{declared_as, form_perm, value_held, emptied, reassigned, permitted};
ghost use Rattle.ae_values.specs.Binding.{members_bound, with_joined, IsWritten};
ghost use Rattle.ae_values.specs.Shapes.{OfLocal, name_shape, shapes};
ghost use Rattle.ae_values.specs.declared.env.Bound.TheVariants as bound;
ghost use Rattle.ae_values.specs.declared.env.Bound.{Bound};
ghost use Rattle.ae_values.specs.declared.value.Val.{Val};

use crate::store::Store;
use crate::value::{Object, Val};
use ae_semantics::Piece;
use ae_text::{Items, Memory};
use ae_tree::{Form, Name, Perm};
use std::alloc::{AllocError, Global};
use std::mem::replace;

/// What a group's cell holds: its members, or the log where the group is `io`.
#[derive(Drop)]
pub enum Image {
    Store(Store),
    Log(Items<Piece>),
}

/// What is bound under a name: the value of a local with the form of what it holds now, the form of a local whose value
/// was moved away, a whole group or the log, the other name under which the members of a group stand, the cell that has
/// the group, by its number, or the pieces that are appended to a log that stands elsewhere.
#[derive(Drop)]
pub enum Bound {
    Value(Form, Val),
    Moved(Form),
    Whole(Image),
    Other(Name),
    Cell(u32),
    Pieces(Items<Piece>),
}

/// A name with the permission with which it was declared, what is bound under it, and where the name was bound before,
/// which only says where to look first.
#[derive(Drop)]
pub struct Bind {
    pub name: Name,
    pub declared: Perm,
    pub bound: Bound,
    before: u32,
}

/// What is bound under the names of the running call, and under those of the calls that wait for it. In the running
/// call no name is bound twice, and all values are well measured. A name is found at once where it was bound last,
/// however many there are.
#[derive(Drop)]
pub struct Env {
    binds: Vec<Bind>,
    base: usize,
    hints: Vec<u32>,
    pub ghost within: { base ≤ vec_len binds },
    pub ghost once: { IsTrue (bound_once (drop base binds.items)) },
    pub ghost measured: { IsTrue (binds_measured binds.items) },
}

// Where a bind with this name stands, from the base on: one by one.
fn scan(binds: &[Bind], base: usize, name: Name) -> Option<usize>
    ensures { MatchOption result (bound_in (drop base binds.now) name ≡ None)
        (λ at. (base ≤ at) × IsNamedAt binds.now at name) }
{
    for at in base..binds.len() {
        if binds[at].name == name {
            return Some(at);
        }
    }
    None
}

// Where a bind with this name stands, from the base on: where the hint says, or else one by one.
fn place(binds: &[Bind], base: usize, hints: &[u32], name: Name) -> Option<usize>
    ensures { MatchOption result (bound_in (drop base binds.now) name ≡ None)
        (λ at. (base ≤ at) × IsNamedAt binds.now at name) }
{
    if let Some(hint) = hints.get(name as usize) {
        let at = *hint as usize;
        if base <= at && at < binds.len() && binds[at].name == name {
            return Some(at);
        }
    }
    scan(binds, base, name)
}

// Where this name was bound last.
fn hint(hints: &[u32], name: Name) -> u32 {
    match hints.get(name as usize) {
        Some(hint) => *hint,
        None => 0,
    }
}

// From now on this is where the name was bound last.
fn set_hint(hints: &mut Vec<u32>, name: Name, at: u32) {
    if let Some(hint) = hints.get_mut(name as usize) {
        *hint = at;
    }
}

// The binds after so many end, the last first, and the names that they had are hinted to where they were before.
fn unbind(binds: &mut Vec<Bind>, hints: &mut Vec<u32>, keep: usize)
    ensures { binds.new.items ≡ take keep binds.old.items }
{
    while keep < binds.len() {
        if let Some(Bind { name, before, .. }) = binds.pop() {
            set_hint(hints, name, before);
        }
    }
}

/// A form with another permission; that of what is no object counts for nothing. Takes no memory.
pub fn with_perm(perm: Perm, form: Form) -> Form
    ensures { result ≡ with_perm perm form }
{
    match form {
        Form::Int => Form::Int,
        Form::Bool => Form::Bool,
        Form::Object(_, kind) => Form::Object(perm, kind),
    }
}

// The permission of a form.
fn form_perm(form: &Form) -> Perm
    ensures { result ≡ form_perm form.now }
{
    match form {
        Form::Int | Form::Bool => Perm::Unique,
        Form::Object(perm, _) => *perm,
    }
}

// A local without its value, and that value.
fn emptied(bound: Bound) -> (Bound, Option<Val>)
    ensures left { result.0 ≡ emptied bound }
    ensures value { result.1 ≡ value_held bound }
{
    match bound {
        Bound::Value(form, value) => (Bound::Moved(form), Some(value)),
        Bound::Moved(form) => (Bound::Moved(form), None),
        Bound::Whole(image) => (Bound::Whole(image), None),
        Bound::Other(group) => (Bound::Other(group), None),
        Bound::Cell(cell) => (Bound::Cell(cell), None),
        Bound::Pieces(pieces) => (Bound::Pieces(pieces), None),
    }
}

// A local that was declared with this permission, with another value.
fn assigned(declared: Perm, value: Val, bound: Bound) -> Bound
    ensures { result ≡ reassigned declared value bound }
{
    match bound {
        Bound::Value(form, _old) => Bound::Value(with_perm(declared, form), value),
        Bound::Moved(form) => Bound::Value(with_perm(declared, form), value),
        Bound::Whole(image) => Bound::Whole(image),
        Bound::Other(group) => Bound::Other(group),
        Bound::Cell(cell) => Bound::Cell(cell),
        Bound::Pieces(pieces) => Bound::Pieces(pieces),
    }
}

// A local with another permission.
fn permitted(perm: Perm, bound: Bound) -> Bound
    ensures { result ≡ permitted perm bound }
{
    match bound {
        Bound::Value(form, value) => Bound::Value(with_perm(perm, form), value),
        Bound::Moved(form) => Bound::Moved(form),
        Bound::Whole(image) => Bound::Whole(image),
        Bound::Other(group) => Bound::Other(group),
        Bound::Cell(cell) => Bound::Cell(cell),
        Bound::Pieces(pieces) => Bound::Pieces(pieces),
    }
}

impl Env {
    ghost use Rattle.ae_values.specs.Environments.{running_binds, waiting_binds, bound_under, state_in, group_bound, HasNamesOf};

    /// Nothing is bound. So many names are found at once where they were bound last; others are looked for one by one.
    pub fn new(alloc: Global, names: usize) -> Result<Env, AllocError>
        ensures running { IfOk result (λ e. running_binds e ≡ []) }
        ensures waiting { IfOk result (λ e. waiting_binds e ≡ []) }
    {
        Ok(Env {
            binds: Vec::new(alloc),
            base: 0,
            hints: vec![in alloc; 0; names]?,
        })
    }

    /// What is bound under a name, and none exactly where nothing is. Takes no memory.
    pub fn get(&self, name: Name) -> Option<&Bound>
        ensures bound { option_copied result ≡ bound_under self.now name }
        ensures measured { IfSome result (λ b. IsTrue (bound_measured b.now)) }
    {
        match place(
            self.binds.as_slice(),
            self.base,
            self.hints.as_slice(),
            name,
        ) {
            Some(at) => Some(&self.binds[at].bound),
            None => None,
        }
    }

    /// The permission with which a name was declared, and none exactly where nothing is bound under it. Takes no memory.
    pub fn declared(&self, name: Name) -> Option<Perm>
        ensures { result ≡ declared_as (heads (running_binds self.now)) name }
    {
        match place(
            self.binds.as_slice(),
            self.base,
            self.hints.as_slice(),
            name,
        ) {
            Some(at) => Some(self.binds[at].declared),
            None => None,
        }
    }

    // The members of a group that is bound and is here.
    fn whole(bound: Option<&Bound>) -> Option<&Store>
        ensures { (cells : ℕ → CellName) →
            option_copied result ≡ members (given (option_copied bound.entry) None (group_bound cells)) }
    {
        match bound {
            Some(Bound::Whole(Image::Store(store))) => Some(store),
            _ => None,
        }
    }

    // The other name under which the members of a group that is bound stand.
    fn elsewhere(bound: Option<&Bound>) -> Option<Name>
        ensures { (cells : ℕ → CellName) (g : ℕ) →
            other_name g (given (option_copied bound.entry) None (group_bound cells)) ≡ given result g (λ h. h) }
    {
        match bound {
            Some(Bound::Other(other)) => Some(*other),
            _ => None,
        }
    }

    /// The members of a group, by whichever of its names, and none exactly where they are not here. Takes no memory.
    pub fn store(&self, group: Name) -> Option<&Store>
        ensures { (cells : ℕ → CellName) (r : Option meant.Val) →
            option_copied result ≡ members (group_of (state_in cells r self.now) group) }
    {
        let found = self.get(group);
        match Env::elsewhere(found) {
            Some(other) => Env::whole(self.get(other)),
            None => Env::whole(found),
        }
    }

    // The name under which the members of a group stand.
    pub(crate) fn holder(&self, group: Name) -> Name
        ensures { (cells : ℕ → CellName) (r : Option meant.Val) → result ≡ name_of (state_in cells r self.now) group }
    {
        match Env::elsewhere(self.get(group)) {
            Some(other) => other,
            None => group,
        }
    }

    // At this place another thing is bound. What was bound there is handed out.
    fn exchange(&mut self, at: usize, bound: Bound) -> Bound
        requires running { self.old.base ≤ at }
        requires within { at < vec_len self.old.binds }
        requires measured { IsTrue (bound_measured bound) }
        ensures was { (x : ℕ) → IsNamedAt self.old.binds.items at x → Some result ≡ bound_under self.old x }
        ensures measured { IsTrue (bound_measured result) }
        ensures bound { (x : ℕ) → IsNamedAt self.old.binds.items at x
            → bound_under self.new ≡ with x (Some bound) (bound_under self.old) }
        ensures named { (x : ℕ) → IsNamedAt self.old.binds.items at x → IsNamedAt self.new.binds.items at x }
        ensures place { (self.new.base ≡ self.old.base) × (vec_len self.new.binds ≡ vec_len self.old.binds) }
        ensures stays { HasNamesOf self.old self.new }
    {
        replace(&mut self.binds[at].bound, bound)
    }

    /// Another thing is bound under a name, in place of what was, which is handed out. Where nothing is bound under the
    /// name all stays. Takes no memory.
    pub fn replace(&mut self, name: Name, bound: Bound) -> Option<Bound>
        requires { IsTrue (bound_measured bound) }
        ensures was { result ≡ bound_under self.old name }
        ensures measured { IfSome result (λ b. IsTrue (bound_measured b)) }
        ensures bound { bound_under self.new ≡ with name (option_map (λ b. bound) (bound_under self.old name)) (bound_under self.old) }
        ensures stays { HasNamesOf self.old self.new }
        ensures shapes { (b : Bound) → bound_under self.old name ≡ Some b
            → ((q : Perm) → name_shape q bound ≡ name_shape q b) → shapes (running_binds self.new) ≡ shapes (running_binds self.old) }
    {
        match place(
            self.binds.as_slice(),
            self.base,
            self.hints.as_slice(),
            name,
        ) {
            Some(at) => Some(self.exchange(at, bound)),
            None => None,
        }
    }

    /// Takes out the value of a local, and none exactly where there is none. Its form stays. Takes no memory.
    pub fn take(&mut self, name: Name) -> Option<Val>
        ensures value { result ≡ given (bound_under self.old name) None value_held }
        ensures measured { IfSome result (λ v. IsMeasured v) }
        ensures left { bound_under self.new ≡ with name (option_map emptied (bound_under self.old name)) (bound_under self.old) }
        ensures stays { HasNamesOf self.old self.new }
        ensures shapes { shapes (running_binds self.new) ≡ shapes (running_binds self.old) }
    {
        match self.replace(name, Bound::Cell(0)) {
            Some(bound) => {
                let (left, value) = emptied(bound);
                let _ = self.replace(name, left);
                value
            }
            None => None,
        }
    }
    /// A local gets a value, and has again the permission with which it was declared. Where nothing is bound under the
    /// name all stays. Takes no memory.
    pub fn assign(&mut self, name: Name, value: Val)
        requires { IsMeasured value }
        ensures bound { (q : Perm) → declared_as (heads (running_binds self.old)) name ≡ Some q → bound_under self.new
            ≡ with name (option_map (reassigned q value) (bound_under self.old name)) (bound_under self.old) }
        ensures absent { bound_under self.old name ≡ None → bound_under self.new ≡ bound_under self.old }
        ensures stays { HasNamesOf self.old self.new }
        ensures shapes { shapes (running_binds self.new) ≡ shapes (running_binds self.old) }
    {
        match place(
            self.binds.as_slice(),
            self.base,
            self.hints.as_slice(),
            name,
        ) {
            Some(at) => {
                let declared = self.binds[at].declared;
                let bound = self.exchange(at, Bound::Cell(0));
                let _ = self.exchange(at, assigned(declared, value, bound));
            }
            None => {}
        }
    }

    /// A local that has a value gets another permission; its kind stays. All else stays. Takes no memory.
    pub fn set_perm(&mut self, name: Name, perm: Perm)
        ensures bound { bound_under self.new
            ≡ with name (option_map (permitted perm) (bound_under self.old name)) (bound_under self.old) }
        ensures stays { HasNamesOf self.old self.new }
        ensures shapes { shapes (running_binds self.new) ≡ shapes (running_binds self.old) }
    {
        match self.replace(name, Bound::Cell(0)) {
            Some(bound) => {
                let _ = self.replace(name, permitted(perm, bound));
            }
            None => {}
        }
    }

    // Binds a name that is not bound, behind the others.
    fn push(&mut self, name: Name, declared: Perm, bound: Bound) -> Result<(), Memory>
        requires new { bound_under self.old name ≡ None }
        requires measured { IsTrue (bound_measured bound) }
        ensures bound { OnOk result (bound_under self.new ≡ with name (Some bound) (bound_under self.old)) }
        ensures heads { OnOk result
            (heads (running_binds self.new) ≡ heads (running_binds self.old) ++ (name, declared) ∷ []) }
        ensures waiting { waiting_binds self.new ≡ waiting_binds self.old }
        ensures shapes { OnOk result
            (shapes (running_binds self.new) ≡ shapes (running_binds self.old) ++ (name, name_shape declared bound) ∷ []) }
        ensures refused { OnErr result (running_binds self.new ≡ running_binds self.old) }
    {
        let at = u32::try_from(self.binds.len()).unwrap_or(u32::MAX);
        let before = hint(self.hints.as_slice(), name);
        let bind = Bind {
            name,
            declared,
            bound,
            before,
        };
        match self.binds.push(bind) {
            Ok(()) => {
                set_hint(&mut self.hints, name, at);
                Ok(())
            }
            Err(_) => Err(Memory),
        }
    }

    /// Declares a local whose name is not bound: the name is bound, behind the others, to a value of this form. Where
    /// memory is refused all stays as it was.
    pub fn declare(&mut self, name: Name, form: Form, value: Val) -> Result<(), Memory>
        requires new { bound_under self.old name ≡ None }
        requires measured { IsMeasured value }
        ensures bound { OnOk result (bound_under self.new ≡ with name (Some (bound.Value form value)) (bound_under self.old)) }
        ensures heads { OnOk result
            (heads (running_binds self.new) ≡ heads (running_binds self.old) ++ (name, form_perm form) ∷ []) }
        ensures waiting { waiting_binds self.new ≡ waiting_binds self.old }
        ensures shapes { OnOk result
            (shapes (running_binds self.new) ≡ shapes (running_binds self.old) ++ (name, OfLocal form) ∷ []) }
        ensures refused { OnErr result (running_binds self.new ≡ running_binds self.old) }
    {
        let declared = form_perm(&form);
        self.push(name, declared, Bound::Value(form, value))
    }

    /// Declares a group whose name is not bound: the name is bound, behind the others, to what there is of the group.
    /// Where memory is refused all stays as it was.
    pub fn declare_group(&mut self, name: Name, bound: Bound) -> Result<(), Memory>
        requires new { bound_under self.old name ≡ None }
        requires measured { IsTrue (bound_measured bound) }
        ensures bound { OnOk result (bound_under self.new ≡ with name (Some bound) (bound_under self.old)) }
        ensures heads { OnOk result
            (heads (running_binds self.new) ≡ heads (running_binds self.old) ++ (name, perm.Unique) ∷ []) }
        ensures waiting { waiting_binds self.new ≡ waiting_binds self.old }
        ensures shapes { OnOk result
            (shapes (running_binds self.new) ≡ shapes (running_binds self.old) ++ (name, name_shape perm.Unique bound) ∷ []) }
        ensures refused { OnErr result (running_binds self.new ≡ running_binds self.old) }
    {
        self.push(name, Perm::Unique, bound)
    }

    /// Binds a name, in place of what was bound under it, or else behind the others. Where memory is refused all stays
    /// as it was.
    pub fn put(&mut self, name: Name, declared: Perm, bound: Bound) -> Result<(), Memory>
        requires { IsTrue (bound_measured bound) }
        ensures bound { OnOk result (bound_under self.new ≡ with name (Some bound) (bound_under self.old)) }
        ensures heads { OnOk result (heads (running_binds self.new) ≡ (if is_some (bound_under self.old name)
            then heads (running_binds self.old)
            else (heads (running_binds self.old) ++ (name, declared) ∷ []))) }
        ensures waiting { waiting_binds self.new ≡ waiting_binds self.old }
        ensures shapes { (b : Bound) → bound_under self.old name ≡ Some b → ((q : Perm) → name_shape q bound ≡ name_shape q b)
            → OnOk result (shapes (running_binds self.new) ≡ shapes (running_binds self.old)) }
        ensures shapes_besides { bound_under self.old name ≡ None → OnOk result
            (shapes (running_binds self.new) ≡ shapes (running_binds self.old) ++ (name, name_shape declared bound) ∷ []) }
        ensures refused { OnErr result (running_binds self.new ≡ running_binds self.old) }
    {
        match place(
            self.binds.as_slice(),
            self.base,
            self.hints.as_slice(),
            name,
        ) {
            Some(at) => {
                let _ = self.exchange(at, bound);
                Ok(())
            }
            None => self.push(name, declared, bound),
        }
    }

    /// How many names the running call has. Takes no memory.
    pub fn mark(&self) -> usize
        ensures { result ≡ length (running_binds self.now) }
    {
        self.binds.len() - self.base
    }

    /// The names of the running call after the first so many end. Takes no memory.
    pub fn forget(&mut self, mark: usize)
        ensures running { running_binds self.new ≡ take mark (running_binds self.old) }
        ensures heads { heads (running_binds self.new) ≡ take mark (heads (running_binds self.old)) }
        ensures bound { (x : ℕ) → bound_under self.new x
            ≡ given (declared_as (take mark (heads (running_binds self.old))) x) None (λ q. bound_under self.old x) }
        ensures waiting { waiting_binds self.new ≡ waiting_binds self.old }
        ensures shapes { shapes (running_binds self.new) ≡ take mark (shapes (running_binds self.old)) }
    {
        if mark < self.mark() {
            unbind(&mut self.binds, &mut self.hints, self.base + mark);
        }
    }

    /// The running call waits, and a new one without names runs. The answer is what `leave` wants. Takes no memory.
    pub fn enter(&mut self) -> usize
        ensures base { result ≡ length (waiting_binds self.old) }
        ensures running { running_binds self.new ≡ [] }
        ensures waiting { waiting_binds self.new ≡ waiting_binds self.old ++ running_binds self.old }
        ensures back { IsCallFrom (waiting_binds self.new) result }
    {
        let base = self.base;
        self.base = self.binds.len();
        base
    }

    /// The names of the running call end, and the call whose names wait from this base on runs again. Takes no memory.
    pub fn leave(&mut self, base: usize)
        requires { IsCallFrom (waiting_binds self.old) base }
        ensures running { running_binds self.new ≡ drop base (waiting_binds self.old) }
        ensures waiting { waiting_binds self.new ≡ take base (waiting_binds self.old) }
    {
        unbind(&mut self.binds, &mut self.hints, self.base);
        self.base = base;
    }
}
