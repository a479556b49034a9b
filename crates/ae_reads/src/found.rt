// What is found: locals, values, objects and places where they stand.
ghost use Rattle.ae_values.specs.Shown.{IsMeasured, IsMeasuredTree};

use ae_tree::{Class, Field, Form, Name};
use ae_values::{Object, Val};

/// A form: that of what a local holds, where it is bound, or one that was made for a field.
#[derive(Drop)]
pub enum PlaceForm<'a> {
    Bound(&'a Form),
    Made(Form),
}

impl PlaceForm<'_> {
    ghost use Rattle.std.specs.Prelude.{◌≡◌};
    ghost use Rattle.ae_reads.specs.Views.{shown_form};

    /// The form. Takes no memory.
    pub fn get(&self) -> &Form
        ensures { result.now ≡ shown_form self.now }
    {
        match self {
            PlaceForm::Bound(form) => form,
            PlaceForm::Made(form) => form,
        }
    }
}

/// A local where it is bound: the form of what it holds now, and its value.
#[derive(Clone, Copy)]
pub struct BoundLocal<'a> {
    pub form: &'a Form,
    pub value: &'a Val,
    pub ghost measured: { IsMeasured value.now },
}

/// An object where it stands.
#[derive(Clone, Copy)]
pub struct Tree<'a> {
    pub object: &'a Object,
    pub ghost measured: { IsMeasuredTree object.now },
}

/// A value that is looked at where it stands: an object is not copied.
#[derive(Clone, Copy)]
pub enum Sight<'a> {
    Int(i64),
    Bool(bool),
    Null,
    Object(Tree<'a>),
    Ref(u64),
}

/// A member of a group, by the group's name and the member's number.
#[derive(Clone, Copy, Debug, PartialEq, Eq)]
pub struct MemberOf {
    pub group: Name,
    pub number: u64,
}

/// An object that was opened, and which member it is where a reference led to it.
#[derive(Clone, Copy)]
pub struct Opened<'a> {
    pub member: Option<MemberOf>,
    pub tree: Tree<'a>,
}

/// A place: its form, and the value that stands there.
#[derive(Drop)]
pub struct Place<'a> {
    pub form: PlaceForm<'a>,
    pub value: &'a Val,
    pub ghost measured: { IsMeasured value.now },
}

/// The place to which a step led, by the number of the field; and which member has the field, where the step went by
/// a reference.
#[derive(Drop)]
pub struct Stepped<'a> {
    pub member: Option<MemberOf>,
    pub number: u32,
    pub place: Place<'a>,
}

/// A field of a class, by its number in it.
#[derive(Clone, Copy)]
pub struct FieldFound<'a> {
    pub number: u32,
    pub class: &'a Class,
    pub field: &'a Field,
}

/// Where a tree stands: in a local, or as a member of a group.
#[derive(Clone, Copy, Debug, PartialEq, Eq)]
pub enum Base {
    Local(Name),
    Member(MemberOf),
}

/// A place and the tree that has it.
#[derive(Drop)]
pub struct Found<'a> {
    pub base: Base,
    pub place: Place<'a>,
}

/// An object to which a path leads, with the form of its place.
#[derive(Drop)]
pub struct Reached<'a> {
    pub form: PlaceForm<'a>,
    pub opened: Opened<'a>,
}
