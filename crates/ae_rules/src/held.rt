// What is held of an object, and of a group.
use ae_tree::Name;

/// What is held of an object. `Split` stands while parts of a unique object are lent, with their number.
/// `Inner` is held of a unique object inside a member of a group.
#[derive(Clone, Copy, Debug, PartialEq, Eq)]
pub enum Held {
    Unique,
    Split(u32),
    Immutable,
    Lent,
    Shared(Name),
    Inner(Name),
    None,
}

/// What is held of a group. `HeldBack` is held of a shared group while a block protects another one.
#[derive(Clone, Copy, Debug, PartialEq, Eq)]
pub enum GroupPerm {
    Exclusive,
    Shared,
    Protected,
    HeldBack,
    None,
}
