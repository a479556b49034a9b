// The object at a place, and one step into a field of it.
ghost use Rattle.std.specs.Prelude.{◌≡◌, MatchOption, None, Some};
ghost use Rattle.ae_tree.specs.declared.form.Perm.TheVariants as perm;
ghost use Rattle.ae_rules.specs.Lookups.{field_form, groups_of};
ghost use Rattle.ae_semantics.specs.Values.{value_fits, is_of_kind};
ghost use Rattle.ae_semantics.specs.Values as meant;
ghost use Rattle.ae_semantics.specs.Places as spec;
ghost use Rattle.ae_semantics.specs.Places.{Address, numbered_field, opened_if};
ghost use Rattle.ae_values.specs.Fitting.{fields_of_kind};
ghost use Rattle.ae_values.specs.Shown.{shown, shown_tree, IsMeasured};
ghost use Rattle.ae_judge.specs.Tabled.{code_of};
ghost use Rattle.ae_reads.specs.Answers.{ReadsAs, AsSeen};
ghost use Rattle.ae_reads.specs.Views.{base_at, shown_form, opened_at, opened_as_form, place_at, stepped_at, IsClassOf};
ghost use Rattle.ae_tree.specs.Plain.{Code};

use crate::found::{FieldFound, MemberOf, Opened, Place, PlaceForm, Sight, Stepped, Tree};
use crate::sight::seen;
use crate::stop::Stop;
use ae_judge::{ClassAt, Tabled, class_of, field_form, groups_of, member_called};
use ae_rules::Member;
use ae_tree::{Form, Kind, Name, NameAt, Perm};
use ae_values::{Env, Val};

const NOTHING_THERE: Stop = Stop::Trap(3);

// The field with this name of an object of this kind, whose class was looked up.
#[tactic(auto, using(crate::proofs::FieldLemmas::fields))]
fn field_in<'a>(
    tabled: &Tabled,
    kind: &Kind,
    class: Option<ClassAt<'a>>,
    name: Name,
) -> Option<FieldFound<'a>>
    requires { IsClassOf (code_of tabled.now) kind.now class }
    ensures { MatchOption result (numbered_field (code_of tabled.now) kind.now name ≡ None)
        (λ d. numbered_field (code_of tabled.now) kind.now name ≡ Some (record {
          number = d.number;
          form = field_form d.class.now (groups_of kind.now) d.field.now;
        })) }
{
    match class {
        Some(found) => match member_called(tabled, found, name) {
            Some(Member::Field(number)) => match found.class.fields.get(number as usize) {
                Some(field) => Some(FieldFound {
                    number,
                    class: found.class,
                    field,
                }),
                None => None,
            },
            Some(Member::Method(_)) => None,
            None => None,
        },
        None => None,
    }
}

/// The field with this name of an object of this kind. Its form is made only where it is wanted. Takes no memory.
pub fn field_found<'a>(tabled: &'a Tabled, kind: &Kind, name: Name) -> Option<FieldFound<'a>>
    ensures { MatchOption result (numbered_field (code_of tabled.now) kind.now name ≡ None)
        (λ d. numbered_field (code_of tabled.now) kind.now name ≡ Some (record {
          number = d.number;
          form = field_form d.class.now (groups_of kind.now) d.field.now;
        })) }
{
    field_in(tabled, kind, class_of(tabled, kind), name)
}

// The class of the objects of this kind, and how many fields they have, where it is declared.
fn class_known<'a>(tabled: &'a Tabled, kind: &Kind) -> (Option<ClassAt<'a>>, Option<usize>)
    ensures class { IsClassOf (code_of tabled.now) kind.now result.0 }
    ensures fields { result.1 ≡ fields_of_kind (code_of tabled.now) kind.now }
{
    match class_of(tabled, kind) {
        Some(found) => (Some(found), Some(found.class.fields.len())),
        None => (None, None),
    }
}

// Whether the value fits a place of this form. The class is looked up for an object that stands here alone.
#[tactic(auto, using(ae_values::specs::Shown::shows))]
fn is_met(tabled: &Tabled, form: &Form, value: &Val) -> bool
    ensures { result ≡ value_fits (code_of tabled.now) form.now (shown value.now) }
{
    match form {
        Form::Int | Form::Bool => value.fits(form, None),
        Form::Object(Perm::Shared(_), _) => match value {
            Val::Null | Val::Ref(_) => true,
            Val::Int(_) | Val::Bool(_) | Val::Object(_) => false,
        },
        Form::Object(Perm::Unique | Perm::Immutable | Perm::Lent, kind) => match value {
            Val::Object(object) => object.is_of(kind, class_known(tabled, kind).1),
            Val::Null => true,
            Val::Int(_) | Val::Bool(_) | Val::Ref(_) => false,
        },
    }
}

// An object as one that is opened, where it is of this kind, whose class has so many fields.
fn of_kind<'a>(
    kind: &Kind,
    fields: Option<usize>,
    member: Option<MemberOf>,
    tree: Tree<'a>,
) -> Result<Opened<'a>, Stop>
    ensures { (p : Code) → fields ≡ fields_of_kind p kind.now → (at : Address) → ReadsAs (opened_if
        (is_of_kind p kind.now (shown_tree tree.entry.object.now))
        (record { at = base_at at member; kind = kind.now; tree = shown_tree tree.entry.object.now }))
        (opened_at at kind.now) result }
{
    if tree.object.is_of(kind, fields) {
        Ok(Opened { member, tree })
    } else {
        Err(NOTHING_THERE)
    }
}

// The member to which a reference leads.
fn open_member<'a>(
    env: &'a Env,
    kind: &Kind,
    fields: Option<usize>,
    member: MemberOf,
) -> Result<Opened<'a>, Stop>
    ensures { (p : Code) → fields ≡ fields_of_kind p kind.now → AsSeen env.now (λ s. (at : Address) → ReadsAs
        (spec.open_value p s (perm.Shared member.group) kind.now at (meant.Member member.number))
        (opened_at at kind.now) result) }
{
    match env.store(member.group) {
        Some(members) => match members.get(member.number) {
            Some(object) => of_kind(kind, fields, Some(member), Tree { object }),
            None => Err(NOTHING_THERE),
        },
        None => Err(Stop::Lack),
    }
}

// The object of a value in a place with this permission and kind, whose class has so many fields.
fn open_value<'a>(
    env: &'a Env,
    perm: Perm,
    kind: &Kind,
    fields: Option<usize>,
    value: &'a Val,
) -> Result<Opened<'a>, Stop>
    requires { IsMeasured value.now }
    ensures { (p : Code) → fields ≡ fields_of_kind p kind.now → AsSeen env.now (λ s. (at : Address) → ReadsAs
        (spec.open_value p s perm kind.now at (shown value.now)) (opened_at at kind.now) result) }
{
    match perm {
        Perm::Shared(group) => match seen(value) {
            Sight::Ref(number) => open_member(env, kind, fields, MemberOf { group, number }),
            Sight::Int(_) | Sight::Bool(_) | Sight::Null | Sight::Object(_) => Err(NOTHING_THERE),
        },
        Perm::Unique | Perm::Immutable | Perm::Lent => match seen(value) {
            Sight::Object(tree) => of_kind(kind, fields, None, tree),
            Sight::Int(_) | Sight::Bool(_) | Sight::Null | Sight::Ref(_) => Err(NOTHING_THERE),
        },
    }
}

/// The object at a place. Null is trap 3, and so are a reference without a member and an object of another kind. Takes
/// no memory.
pub fn open<'a>(tabled: &Tabled, env: &'a Env, place: &Place<'a>) -> Result<Opened<'a>, Stop>
    ensures { AsSeen env.now (λ s. (at : Address) → ReadsAs
        (spec.open_place (code_of tabled.now) s (place_at at place.now))
        (opened_as_form at (shown_form place.now.form)) result) }
{
    match place.form.get() {
        Form::Int | Form::Bool => Err(Stop::Lack),
        Form::Object(perm, kind) => {
            let (_, fields) = class_known(tabled, kind);
            open_value(env, *perm, kind, fields, place.value)
        }
    }
}

// A step into a field of an object that is opened, of this kind, whose class was looked up.
fn into_field<'a>(
    tabled: &Tabled,
    kind: &Kind,
    class: Option<ClassAt>,
    opened: Opened<'a>,
    x: NameAt,
) -> Result<Stepped<'a>, Stop>
    requires { IsClassOf (code_of tabled.now) kind.now class }
    ensures { (at : Address) → ReadsAs
        (spec.into_field (code_of tabled.now) (opened_at at kind.now opened.entry) x.name) (stepped_at at) result }
{
    let Some(found) = field_in(tabled, kind, class, x.name) else {
        return Err(Stop::Lack);
    };
    let Some(value) = opened.tree.object.field(found.number as usize) else {
        return Err(Stop::Lack);
    };
    let form = field_form(tabled.alloc, found.class, groups_of(kind), found.field)?;
    if !is_met(tabled, &form, value) {
        return Err(NOTHING_THERE);
    }
    Ok(Stepped {
        member: opened.member,
        number: found.number,
        place: Place {
            form: PlaceForm::Made(form),
            value,
        },
    })
}

/// One step of a path, from a place into the field with this name. The object is opened, and a field whose value does
/// not fit its form is trap 3, as null would be. Takes memory for the groups of the field's form alone.
pub fn step<'a>(
    tabled: &Tabled,
    env: &'a Env,
    from: &Place<'a>,
    x: NameAt,
) -> Result<Stepped<'a>, Stop>
    ensures { AsSeen env.now (λ s. (at : Address) → ReadsAs
        (spec.step_to (code_of tabled.now) s x (place_at at from.now)) (stepped_at at) result) }
{
    match from.form.get() {
        Form::Int | Form::Bool => Err(Stop::Lack),
        Form::Object(perm, kind) => {
            let (class, fields) = class_known(tabled, kind);
            match open_value(env, *perm, kind, fields, from.value) {
                Ok(opened) => into_field(tabled, kind, class, opened, x),
                Err(stop) => Err(stop),
            }
        }
    }
}
