// A field's value taken out.
ghost use Rattle.std.specs.Prelude.{IfOk};
ghost use Rattle.ae_semantics.specs.Meaning as spec;
ghost use Rattle.ae_judge.specs.Tabled.{code_of};
ghost use Rattle.ae_values.specs.Shown.{IsMeasured};
ghost use Rattle.ae_reads.specs.Answers.{ReadsAs};
ghost use Rattle.ae_running.specs.Seen.{seen};
ghost use Rattle.ae_stores.specs.Changes.{TakesAs, KeepsRest};
ghost use Rattle.ae_stores.specs.Parts.{address_from, value_found};
ghost use Rattle.ae_stores.specs.Targets.{place_aimed, value_aimed};

use crate::emptying::take_local;
use crate::places::put;
use ae_judge::{Tabled, is_name};
use ae_reads::{Base, Stop};
use ae_running::{Running, walk_noting};
use ae_tree::Path;
use ae_values::Val;

/// A copy of a value that was found, and the base in which it lies.
#[derive(Drop)]
pub struct ValueFound {
    pub base: Base,
    pub value: Val,
}

// A copy of the value to which a path leads; `fields` leads to it.
fn find_value(
    tabled: &Tabled,
    run: &Running,
    path: &Path,
    fields: &mut Vec<u32>,
) -> Result<ValueFound, Stop>
    ensures value { ReadsAs (value_aimed (code_of tabled.now) (seen run.now) path.now) (value_found fields.new.items)
        result }
    ensures measured { IfOk result (λ x. IsMeasured x.value) }
{
    let found = match walk_noting(tabled, run, path, fields) {
        Ok(found) => found,
        Err(stop) => return Err(stop),
    };
    match found.place.value.copy(tabled.alloc) {
        Ok(value) => Ok(ValueFound {
            base: found.base,
            value,
        }),
        Err(_) => Err(Stop::Memory),
    }
}

// A field's value, of which a copy is handed out.
#[tactic(auto, using(crate::proofs::TakeLemmas::none_to_take))]
fn take_copied(tabled: &Tabled, run: &mut Running, path: &Path) -> Result<Val, Stop>
    ensures takes { TakesAs (spec.take_field (code_of tabled.now) (seen run.old) path.now) run.old result run.new }
    ensures measured { IfOk result IsMeasured }
    ensures keeps { KeepsRest run.old run.new }
{
    if is_name(path) {
        return Err(Stop::Lack);
    }
    let mut fields = Vec::new(tabled.alloc);
    let found = match find_value(tabled, run, path, &mut fields) {
        Ok(found) => found,
        Err(stop) => return Err(stop),
    };
    match put(run, found.base, fields.as_slice(), Val::Null) {
        Ok(()) => Ok(found.value),
        Err(stop) => Err(stop),
    }
}

// Where the place to which a path leads is; `fields` leads to it from the base that is the answer.
fn find_place(
    tabled: &Tabled,
    run: &Running,
    path: &Path,
    fields: &mut Vec<u32>,
) -> Result<Base, Stop>
    ensures { ReadsAs (place_aimed (code_of tabled.now) (seen run.now) path.now)
        (address_from fields.new.items) result }
{
    match walk_noting(tabled, run, path, fields) {
        Ok(found) => Ok(found.base),
        Err(stop) => Err(stop),
    }
}

/// `take p.f`: the value of the field, with null in its place. Null on the way is trap 3, and so is a value that does
/// not fit the field; a value that is too high as a whole is trap 8. After a fault, and where memory is refused, the
/// run is as it was. Of a value that lies in a member a copy is handed out. Takes memory for that, for the fields on
/// the way, and for the groups of forms.
#[tactic(auto, using(crate::proofs::TakeLemmas::none_to_take))]
pub fn take_field(tabled: &Tabled, run: &mut Running, path: &Path) -> Result<Val, Stop>
    ensures takes { TakesAs (spec.take_field (code_of tabled.now) (seen run.old) path.now) run.old result run.new }
    ensures measured { IfOk result IsMeasured }
    ensures keeps { KeepsRest run.old run.new }
{
    if is_name(path) {
        return Err(Stop::Lack);
    }
    let mut fields = Vec::new(tabled.alloc);
    let base = match find_place(tabled, run, path, &mut fields) {
        Ok(base) => base,
        Err(stop) => return Err(stop),
    };
    match base {
        Base::Local(name) => take_local(run, name, fields.as_slice()),
        Base::Member(_) => take_copied(tabled, run, path),
    }
}
