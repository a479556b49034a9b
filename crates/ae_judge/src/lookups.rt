// What a program declares under a name, by its class table.
ghost use Rattle.std.specs.Prelude.{◌≡◌, MatchOption, None, Some, IfOk};
ghost use Rattle.std.specs.Option.{option_copied};
ghost use Rattle.ae_rules.specs.Lookups as spec;
ghost use Rattle.ae_judge.specs.Tabled.{code_of};

use crate::forms::{bare_names, form_with, groups_of};
use crate::tabled::Tabled;
use ae_rules::Member;
use ae_tree::{Class, Field, Form, Kind, Name, Ty};
use std::alloc::{AllocError, Global};

/// A field, the class that has it, and the groups of the object in the place of the class's.
#[derive(Clone, Copy)]
pub struct FieldAt<'a> {
    pub class: &'a Class,
    pub groups: &'a [Name],
    pub field: &'a Field,
}

/// A class and its number.
#[derive(Clone, Copy)]
pub struct ClassAt<'a> {
    pub number: u32,
    pub class: &'a Class,
}

/// The class with this name. Takes no memory.
pub fn class_called<'a>(tabled: &'a Tabled, name: Name) -> Option<ClassAt<'a>>
    ensures { MatchOption result (spec.class_called (code_of tabled.now) name ≡ None)
        (λ k. (spec.class_called (code_of tabled.now) name ≡ Some k.class.now)
        × (spec.class_at (code_of tabled.now) k.number ≡ Some k.class.now)) }
{
    match tabled.table.class(name) {
        Some(number) => match tabled.program.classes.get(number as usize) {
            Some(class) => Some(ClassAt { number, class }),
            None => None,
        },
        None => None,
    }
}

/// The class of an object of this kind. Takes no memory.
pub fn class_of<'a>(tabled: &'a Tabled, kind: &Kind) -> Option<ClassAt<'a>>
    ensures { MatchOption result (spec.class_of (code_of tabled.now) kind.now ≡ None)
        (λ k. (spec.class_of (code_of tabled.now) kind.now ≡ Some k.class.now)
        × (spec.class_at (code_of tabled.now) k.number ≡ Some k.class.now)) }
{
    match kind {
        Kind::Ints => None,
        Kind::Class(name, _) => class_called(tabled, *name),
    }
}

/// What a class has under a name. Takes no memory.
pub fn member_called(tabled: &Tabled, class: ClassAt, name: Name) -> Option<Member>
    requires { spec.class_at (code_of tabled.now) class.number ≡ Some class.class.now }
    ensures { result ≡ spec.member_called (code_of tabled.now) class.entry.class.now name }
{
    tabled.table.member(class.number, name)
}

/// The first field of a class with this name. Takes no memory.
#[tactic(auto, using(crate::proofs::LookupLemmas::members))]
pub fn field_called<'a>(tabled: &Tabled, class: ClassAt<'a>, name: Name) -> Option<&'a Field>
    requires { spec.class_at (code_of tabled.now) class.number ≡ Some class.class.now }
    ensures { option_copied result ≡ spec.field_called class.entry.class.now name }
{
    match member_called(tabled, class, name) {
        Some(Member::Field(number)) => class.class.fields.get(number as usize),
        Some(Member::Method(_)) => None,
        None => None,
    }
}

/// The field with this name of an object of this form, where it is of a class that has one. Takes no memory.
pub fn field_in<'a>(tabled: &'a Tabled, form: &'a Form, name: Name) -> Option<FieldAt<'a>>
    ensures { MatchOption result (spec.field_of (code_of tabled.now) form.now name ≡ None)
        (λ d. spec.field_of (code_of tabled.now) form.now name
        ≡ Some (spec.field_form d.class.now d.groups.now d.field.now)) }
{
    match form {
        Form::Int | Form::Bool => None,
        Form::Object(_, kind) => match class_of(tabled, kind) {
            Some(found) => match field_called(tabled, found, name) {
                Some(field) => Some(FieldAt {
                    class: found.class,
                    groups: groups_of(kind),
                    field,
                }),
                None => None,
            },
            None => None,
        },
    }
}

/// The form of a field in an object with these groups in the place of the class's. Takes memory for groups alone.
pub fn field_form(
    alloc: Global,
    class: &Class,
    groups: &[Name],
    field: &Field,
) -> Result<Form, AllocError>
    ensures { IfOk result (λ f. f ≡ spec.field_form class.now groups.now field.now) }
{
    match &field.ty {
        Ty::Int(_) => Ok(Form::Int),
        Ty::Bool(_) => Ok(Form::Bool),
        Ty::Object(..) => {
            let own = bare_names(alloc, class.groups.as_slice())?;
            form_with(alloc, own.as_slice(), groups, &field.ty)
        }
    }
}
