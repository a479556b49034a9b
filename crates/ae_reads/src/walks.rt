// Where a path leads from a local.
ghost use Rattle.std.specs.Prelude.{◌≡◌, IfOk};
ghost use Rattle.ae_semantics.specs.Places as spec;
ghost use Rattle.ae_judge.specs.Tabled.{code_of};
ghost use Rattle.ae_reads.specs.Answers.{ReadsAs, AnswersSomewhere, AsSeen};
ghost use Rattle.ae_reads.specs.Views.{place_at, found_at, root_bound, reached_at, address, field_at, base_at};

use crate::bound::local;
use crate::found::{Base, Found, MemberOf, Place, PlaceForm, Reached};
use crate::places::{open, step};
use crate::stop::Stop;
use ae_judge::Tabled;
use ae_text::Memory;
use ae_tree::{Name, Path};
use ae_values::Env;

// The place of a local.
fn root<'a>(env: &'a Env, name: Name) -> Result<Place<'a>, Stop>
    ensures { AsSeen env.now (λ s. ReadsAs (spec.there (s.locals name)) root_bound result) }
{
    match local(env, name) {
        Some(found) => Ok(Place {
            form: PlaceForm::Bound(found.form),
            value: found.value,
        }),
        None => Err(Stop::Lack),
    }
}

/// Where a path leads: each of its steps in turn, from its local. No value is copied. Takes memory for the groups of
/// forms alone.
pub fn walk<'a>(tabled: &Tabled, env: &'a Env, path: &Path) -> Result<Place<'a>, Stop>
    ensures { AnswersSomewhere env.now (λ s. spec.walk_to (code_of tabled.now) s path.now) place_at result }
{
    let mut place = root(env, path.root.name)?;
    for x in path.steps.as_slice() {
        let next = match step(tabled, env, &place, *x) {
            Ok(next) => next,
            Err(stop) => return Err(stop),
        };
        place = next.place;
    }
    Ok(place)
}

// Notes a step: by a reference it goes on from a member, and then into the field with this number.
fn note(
    base: Base,
    fields: &mut Vec<u32>,
    member: Option<MemberOf>,
    number: u32,
) -> Result<Base, Memory>
    ensures { IfOk result (λ b. address b fields.new.items ≡ field_at (base_at (address base fields.old.items) member)
        number) }
{
    let base = match member {
        Some(member) => {
            fields.clear();
            Base::Member(member)
        }
        None => base,
    };
    match fields.push(number) {
        Ok(()) => Ok(base),
        Err(_) => Err(Memory),
    }
}

/// The same, with the address of the place: the answer has the tree, and `fields` the numbers of the fields that lead
/// to the place in it. What `fields` has after a fault is of no use.
pub fn walk_noting<'a>(
    tabled: &Tabled,
    env: &'a Env,
    path: &Path,
    fields: &mut Vec<u32>,
) -> Result<Found<'a>, Stop>
    ensures { AsSeen env.now (λ s. ReadsAs (spec.walk_to (code_of tabled.now) s path.now)
        (found_at fields.new.items) result) }
{
    fields.clear();
    let mut base = Base::Local(path.root.name);
    let mut place = root(env, path.root.name)?;
    for x in path.steps.as_slice() {
        let next = match step(tabled, env, &place, *x) {
            Ok(next) => next,
            Err(stop) => return Err(stop),
        };
        base = match note(base, fields, next.member, next.number) {
            Ok(base) => base,
            Err(_) => return Err(Stop::Memory),
        };
        place = next.place;
    }
    Ok(Found { base, place })
}

/// The object to which a path leads. Null there is trap 3, as in a step.
pub fn reach<'a>(tabled: &Tabled, env: &'a Env, path: &Path) -> Result<Reached<'a>, Stop>
    ensures { AnswersSomewhere env.now (λ s. spec.reach (code_of tabled.now) s path.now) reached_at result }
{
    let place = walk(tabled, env, path)?;
    match open(tabled, env, &place) {
        Ok(opened) => Ok(Reached {
            form: place.form,
            opened,
        }),
        Err(stop) => Err(stop),
    }
}
