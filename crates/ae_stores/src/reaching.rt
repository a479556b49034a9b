// The object to which steps lead from a local, with the address of it.
ghost use Rattle.std.specs.Prelude.{◌≡◌, IfOk};
ghost use Rattle.ae_semantics.specs.Places as spec;
ghost use Rattle.ae_judge.specs.Tabled.{code_of};
ghost use Rattle.ae_reads.specs.Answers.{ReadsAs, AsSeen};
ghost use Rattle.ae_reads.specs.Views.{address, base_at, field_at, found_at, root_bound};
ghost use Rattle.ae_running.specs.Seen.{seen};
ghost use Rattle.ae_stores.specs.Parts.{object_at};
ghost use Rattle.ae_stores.specs.Targets.{path_along};

use ae_judge::Tabled;
use ae_reads::{
    Base, Found, MemberOf, Place, PlaceForm, Stop, Tree, local, open, reads_see_no_cells, step,
};
use ae_running::Running;
use ae_text::Memory;
use ae_tree::{Name, NameAt};
use ae_values::Env;

/// An object, the base in which it stands, and the form of its place.
#[derive(Drop)]
pub struct ObjectFound<'a> {
    pub base: Base,
    pub form: PlaceForm<'a>,
    pub tree: Tree<'a>,
}

// Where an object begins: where a reference led to it the fields before it count no more.
fn begin(base: Base, fields: &mut Vec<u32>, member: Option<MemberOf>) -> Base
    ensures { address result fields.new.items ≡ base_at (address base fields.old.items) member }
{
    match member {
        Some(member) => {
            fields.clear();
            Base::Member(member)
        }
        None => base,
    }
}

// Notes a step into the field with this number.
fn note(
    base: Base,
    fields: &mut Vec<u32>,
    member: Option<MemberOf>,
    number: u32,
) -> Result<Base, Memory>
    ensures { IfOk result (λ b. address b fields.new.items ≡ field_at (base_at (address base fields.old.items) member)
        number) }
{
    let base = begin(base, fields, member);
    match fields.push(number) {
        Ok(()) => Ok(base),
        Err(_) => Err(Memory),
    }
}

// The place of a local.
fn root<'a>(env: &'a Env, name: Name) -> Result<Place<'a>, Stop>
    ensures { AsSeen env.now (λ s. ReadsAs (spec.there (s.locals name)) root_bound result) }
{
    match local(env, name) {
        Some(found) => Ok(Place {
            form: PlaceForm::Bound(found.form),
            value: found.value,
        }),
        None => Err(Stop::Lack),
    }
}

// The place to which these steps lead from a place that lies in this base, and the numbers of the fields on the way.
fn walk_from<'a>(
    tabled: &Tabled,
    env: &'a Env,
    from: Found<'a>,
    steps: &[NameAt],
    fields: &mut Vec<u32>,
) -> Result<Found<'a>, Stop>
    ensures { AsSeen env.now (λ s. ReadsAs (spec.steps (code_of tabled.now) s steps.now
        (found_at fields.old.items from.entry))
        (found_at fields.new.items) result) }
{
    let mut base = from.base;
    let mut place = from.place;
    for x in steps {
        let next = match step(tabled, env, &place, *x) {
            Ok(next) => next,
            Err(stop) => return Err(stop),
        };
        base = match note(base, fields, next.member, next.number) {
            Ok(base) => base,
            Err(_) => return Err(Stop::Memory),
        };
        place = next.place;
    }
    Ok(Found { base, place })
}

// The place to which these steps lead from a local, and the numbers of the fields on the way.
fn walk_along<'a>(
    tabled: &Tabled,
    env: &'a Env,
    root_at: NameAt,
    steps: &[NameAt],
    fields: &mut Vec<u32>,
) -> Result<Found<'a>, Stop>
    ensures { AsSeen env.now (λ s. ReadsAs (spec.walk_to (code_of tabled.now) s (path_along root_at steps.now))
        (found_at fields.new.items) result) }
{
    fields.clear();
    let base = Base::Local(root_at.name);
    match root(env, root_at.name) {
        Ok(place) => walk_from(tabled, env, Found { base, place }, steps, fields),
        Err(stop) => Err(stop),
    }
}

// The object at a place that was found.
fn open_found<'a>(
    tabled: &Tabled,
    env: &'a Env,
    found: Found<'a>,
    fields: &mut Vec<u32>,
) -> Result<ObjectFound<'a>, Stop>
    ensures { AsSeen env.now (λ s. ReadsAs (spec.open_place (code_of tabled.now) s
        (found_at fields.old.items found.entry))
        (object_at fields.new.items) result) }
{
    match open(tabled, env, &found.place) {
        Ok(opened) => Ok(ObjectFound {
            base: begin(found.base, fields, opened.member),
            form: found.place.form,
            tree: opened.tree,
        }),
        Err(stop) => Err(stop),
    }
}

// The object to which these steps lead from a local.
fn reach_in<'a>(
    tabled: &Tabled,
    env: &'a Env,
    root_at: NameAt,
    steps: &[NameAt],
    fields: &mut Vec<u32>,
) -> Result<ObjectFound<'a>, Stop>
    ensures { AsSeen env.now (λ s. ReadsAs (spec.reach (code_of tabled.now) s (path_along root_at steps.now))
        (object_at fields.new.items) result) }
{
    match walk_along(tabled, env, root_at, steps, fields) {
        Ok(found) => open_found(tabled, env, found, fields),
        Err(stop) => Err(stop),
    }
}

/// The object to which these steps lead from a local, with its base; `fields` has the numbers of the fields that lead
/// to it there. Null on the way, or at its end, is trap 3. What `fields` has after a fault is of no use. Takes memory
/// for the fields on the way, and for the groups of forms.
pub fn reach_along<'a>(
    tabled: &Tabled,
    run: &'a Running,
    root_at: NameAt,
    steps: &[NameAt],
    fields: &mut Vec<u32>,
) -> Result<ObjectFound<'a>, Stop>
    ensures { ReadsAs (spec.reach (code_of tabled.now) (seen run.now) (path_along root_at steps.now))
        (object_at fields.new.items) result }
{
    reads_see_no_cells();
    reach_in(tabled, &run.env, root_at, steps, fields)
}
