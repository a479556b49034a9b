// Types without their places.
use crate::tree::Name;
use ae_text::Items;

/// A permission.
#[derive(Clone, Copy, Debug, PartialEq, Eq)]
pub enum Perm {
    Unique,
    Immutable,
    Lent,
    Shared(Name),
}

/// An array of integers, or a class with its groups.
#[derive(Drop)]
pub enum Kind {
    Ints,
    Class(Name, Items<Name>),
}

/// The form of a value.
#[derive(Drop)]
pub enum Form {
    Int,
    Bool,
    Object(Perm, Kind),
}
