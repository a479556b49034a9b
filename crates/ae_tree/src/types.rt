// The forms of types.
ghost use Rattle.std.specs.Prelude.{◌≡◌, IfOk};
ghost use Rattle.ae_tree.specs.Form.{bare_names, form, kind_of, perm_of};

use crate::form::{Form, Kind, Perm};
use crate::tree::{KindAt, Name, NameAt, PermAt, Ty};
use ae_text::{Items, Memory};
use std::alloc::{AllocError, Global};

fn bare_perm(perm: &PermAt) -> Perm
    ensures { result ≡ perm_of perm.now }
{
    match perm {
        PermAt::Unique(_) => Perm::Unique,
        PermAt::Immutable(_) => Perm::Immutable,
        PermAt::Lent(_) => Perm::Lent,
        PermAt::Shared(_, group) => Perm::Shared(group.name),
    }
}

fn names_of(alloc: Global, list: &[NameAt]) -> Result<Items<Name>, AllocError>
    ensures { IfOk result (λ names. names ≡ bare_names list.now) }
{
    let mut names = Items::new(alloc);
    for item in list {
        names.push(item.name)?;
    }
    Ok(names)
}

/// The form of a type as it is written, without its places.
pub fn form_of(alloc: Global, ty: &Ty) -> Result<Form, Memory>
    ensures { IfOk result (λ f. f ≡ form ty.now) }
{
    match ty {
        Ty::Int(_) => Ok(Form::Int),
        Ty::Bool(_) => Ok(Form::Bool),
        Ty::Object(perm, KindAt::Ints(_)) => Ok(Form::Object(bare_perm(perm), Kind::Ints)),
        Ty::Object(perm, KindAt::Class(class, groups)) => match names_of(alloc, groups.as_slice()) {
            Ok(names) => Ok(Form::Object(bare_perm(perm), Kind::Class(class.name, names))),
            Err(_) => Err(Memory),
        },
    }
}
