// A local of a scope.
ghost use Rattle.std.specs.Prelude.{◌≡◌};
ghost use Rattle.ae_rules.specs.Context as context;

use ae_rules::{GroupPerm, Held};
use ae_tree::{Form, Name, Perm};

/// A local: its name, its form and what is held of it. One that stays is a parameter that is never assigned.
#[derive(Drop)]
pub struct Slot {
    pub name: Name,
    pub form: Form,
    pub held: Held,
    pub stays: bool,
}

/// What a local held before, by its place in the stack.
#[derive(Clone, Copy, Debug)]
pub struct Change {
    pub slot: usize,
    pub held: Held,
}

/// The permission that a group had before, and none where it was not known.
#[derive(Clone, Copy, Debug)]
pub struct GroupChange {
    pub name: Name,
    pub before: Option<GroupPerm>,
}

/// How many locals, changes of what is held, and changes of groups there were at some point.
#[derive(Clone, Copy, Debug)]
pub struct Mark {
    pub locals: usize,
    pub changes: usize,
    pub groups: usize,
}

/// What a new local of this form holds.
pub fn held_of(form: &Form) -> Held
    ensures { result ≡ context.held_of form.now }
{
    match form {
        Form::Int | Form::Bool => Held::None,
        Form::Object(perm, _) => match perm {
            Perm::Unique => Held::Unique,
            Perm::Immutable => Held::Immutable,
            Perm::Lent => Held::Lent,
            Perm::Shared(group) => Held::Shared(*group),
        },
    }
}

/// The same is held.
pub fn is_same_held(a: Held, b: Held) -> bool
    ensures { result ≡ context.same_held a b }
{
    match a {
        Held::Unique => match b {
            Held::Unique => true,
            Held::Split(_)
            | Held::Immutable
            | Held::Lent
            | Held::Shared(_)
            | Held::Inner(_)
            | Held::None => false,
        },
        Held::Split(m) => match b {
            Held::Split(n) => m == n,
            Held::Unique
            | Held::Immutable
            | Held::Lent
            | Held::Shared(_)
            | Held::Inner(_)
            | Held::None => false,
        },
        Held::Immutable => match b {
            Held::Immutable => true,
            Held::Unique
            | Held::Split(_)
            | Held::Lent
            | Held::Shared(_)
            | Held::Inner(_)
            | Held::None => false,
        },
        Held::Lent => match b {
            Held::Lent => true,
            Held::Unique
            | Held::Split(_)
            | Held::Immutable
            | Held::Shared(_)
            | Held::Inner(_)
            | Held::None => false,
        },
        Held::Shared(g) => match b {
            Held::Shared(h) => g == h,
            Held::Unique
            | Held::Split(_)
            | Held::Immutable
            | Held::Lent
            | Held::Inner(_)
            | Held::None => false,
        },
        Held::Inner(g) => match b {
            Held::Inner(h) => g == h,
            Held::Unique
            | Held::Split(_)
            | Held::Immutable
            | Held::Lent
            | Held::Shared(_)
            | Held::None => false,
        },
        Held::None => match b {
            Held::None => true,
            Held::Unique
            | Held::Split(_)
            | Held::Immutable
            | Held::Lent
            | Held::Shared(_)
            | Held::Inner(_) => false,
        },
    }
}
