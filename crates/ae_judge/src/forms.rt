// Forms compared, and forms with groups in the place of a declaration's own.
ghost use Rattle.std.specs.Prelude.{◌≡◌, map, IfOk};
ghost use Rattle.ae_tree.specs.Form.{form, bare_names, perm_of};
ghost use Rattle.ae_rules.specs.Forms as spec;
ghost use Rattle.ae_rules.specs.Lookups.{groups_of};

use ae_text::Items;
use ae_tree::{Form, Kind, KindAt, Name, NameAt, Perm, PermAt, Ty};
use std::alloc::{AllocError, Global};

/// The names are the same, in the same order. Takes no memory.
pub fn is_same_names(a: &[Name], b: &[Name]) -> bool
    ensures { result ≡ spec.same_names a.now b.now }
{
    if a.len() != b.len() {
        return false;
    }
    for i in 0..a.len() {
        if a[i] != b[i] {
            return false;
        }
    }
    true
}

/// The permissions are the same. Takes no memory.
pub fn is_same_perm(a: Perm, b: Perm) -> bool
    ensures { result ≡ spec.same_perm a b }
{
    match a {
        Perm::Unique => match b {
            Perm::Unique => true,
            Perm::Immutable | Perm::Lent | Perm::Shared(_) => false,
        },
        Perm::Immutable => match b {
            Perm::Immutable => true,
            Perm::Unique | Perm::Lent | Perm::Shared(_) => false,
        },
        Perm::Lent => match b {
            Perm::Lent => true,
            Perm::Unique | Perm::Immutable | Perm::Shared(_) => false,
        },
        Perm::Shared(g) => match b {
            Perm::Shared(h) => g == h,
            Perm::Unique | Perm::Immutable | Perm::Lent => false,
        },
    }
}

/// The kinds are the same: both are integers, or both the same class with the same groups. Takes no memory.
pub fn is_same_kind(a: &Kind, b: &Kind) -> bool
    ensures { result ≡ spec.same_kind a.now b.now }
{
    match a {
        Kind::Ints => match b {
            Kind::Ints => true,
            Kind::Class(..) => false,
        },
        Kind::Class(x, gs) => match b {
            Kind::Ints => false,
            Kind::Class(y, hs) => x == y && is_same_names(gs.as_slice(), hs.as_slice()),
        },
    }
}

/// Both are integers, or both are booleans. Takes no memory.
pub fn is_same_value(a: &Form, b: &Form) -> bool
    ensures { result ≡ spec.same_value a.now b.now }
{
    match a {
        Form::Int => match b {
            Form::Int => true,
            Form::Bool | Form::Object(..) => false,
        },
        Form::Bool => match b {
            Form::Bool => true,
            Form::Int | Form::Object(..) => false,
        },
        Form::Object(..) => false,
    }
}

/// An object of this kind. Takes no memory.
pub fn is_object_of(kind: &Kind, form: &Form) -> bool
    ensures { result ≡ spec.is_object_of kind.now form.now }
{
    match form {
        Form::Int | Form::Bool => false,
        Form::Object(_, other) => is_same_kind(kind, other),
    }
}

/// An object, of any kind. Takes no memory.
pub fn is_object(form: &Form) -> bool
    ensures { result ≡ spec.is_object form.now }
{
    match form {
        Form::Int | Form::Bool => false,
        Form::Object(..) => true,
    }
}

/// An array of integers. Takes no memory.
pub fn is_ints(form: &Form) -> bool
    ensures { result ≡ spec.is_ints form.now }
{
    is_object_of(&Kind::Ints, form)
}

/// A unique object. Takes no memory.
pub fn is_unique(form: &Form) -> bool
    ensures { result ≡ spec.is_unique form.now }
{
    match form {
        Form::Int | Form::Bool => false,
        Form::Object(perm, _) => is_same_perm(Perm::Unique, *perm),
    }
}

/// The groups of an object of this kind. Takes no memory.
pub fn groups_of(kind: &Kind) -> &[Name]
    ensures { result.now ≡ groups_of kind.now }
{
    match kind {
        Kind::Ints => &[],
        Kind::Class(_, groups) => groups.as_slice(),
    }
}

/// The names without their places. An empty list takes no memory.
pub fn bare_names(alloc: Global, list: &[NameAt]) -> Result<Items<Name>, AllocError>
    ensures { IfOk result (λ xs. xs ≡ bare_names list.now) }
{
    let mut names = Items::new(alloc);
    for item in list {
        names.push(item.name)?;
    }
    Ok(names)
}

/// The name at the place in the second list that this name has in the first, or else the name itself. Takes no memory.
pub fn in_place(from: &[Name], to: &[Name], name: Name) -> Name
    ensures { result ≡ spec.in_place from.now to.now name }
{
    let len = from.len().min(to.len());
    for i in 0..len {
        if from[i] == name {
            return to[i];
        }
    }
    name
}

/// A permission, with its group replaced by the one at its place in the second list. Takes no memory.
pub fn perm_with(from: &[Name], to: &[Name], perm: &PermAt) -> Perm
    ensures { result ≡ spec.perm_with (spec.in_place from.now to.now) (perm_of perm.now) }
{
    match perm {
        PermAt::Unique(_) => Perm::Unique,
        PermAt::Immutable(_) => Perm::Immutable,
        PermAt::Lent(_) => Perm::Lent,
        PermAt::Shared(_, group) => Perm::Shared(in_place(from, to, group.name)),
    }
}

/// Names, each replaced by the one at its place in the second list. An empty list takes no memory.
pub fn names_with(
    alloc: Global,
    from: &[Name],
    to: &[Name],
    list: &[NameAt],
) -> Result<Items<Name>, AllocError>
    ensures { IfOk result (λ xs. xs ≡ map (spec.in_place from.now to.now) (bare_names list.now)) }
{
    let mut names = Items::new(alloc);
    for item in list {
        names.push(in_place(from, to, item.name))?;
    }
    Ok(names)
}

/// The form of a type as it is written, with each group replaced by the one at its place in the second list. Takes
/// memory for its groups alone.
pub fn form_with(alloc: Global, from: &[Name], to: &[Name], ty: &Ty) -> Result<Form, AllocError>
    ensures { IfOk result (λ f. f ≡ spec.form_with (spec.in_place from.now to.now) (form ty.now)) }
{
    match ty {
        Ty::Int(_) => Ok(Form::Int),
        Ty::Bool(_) => Ok(Form::Bool),
        Ty::Object(perm, kind) => match kind {
            KindAt::Ints(_) => Ok(Form::Object(perm_with(from, to, perm), Kind::Ints)),
            KindAt::Class(class, groups) => {
                let groups = names_with(alloc, from, to, groups.as_slice())?;
                Ok(Form::Object(perm_with(from, to, perm), Kind::Class(class.name, groups)))
            }
        },
    }
}

/// The same form once more. Takes memory for its groups alone.
pub fn copy_form(alloc: Global, form: &Form) -> Result<Form, AllocError>
    ensures { IfOk result (λ f. f ≡ form.now) }
{
    match form {
        Form::Int => Ok(Form::Int),
        Form::Bool => Ok(Form::Bool),
        Form::Object(perm, kind) => match kind {
            Kind::Ints => Ok(Form::Object(*perm, Kind::Ints)),
            Kind::Class(class, groups) => {
                let groups = Items::from_slice(alloc, groups.as_slice())?;
                Ok(Form::Object(*perm, Kind::Class(*class, groups)))
            }
        },
    }
}
