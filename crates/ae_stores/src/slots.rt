// The field at which a write is aimed.
ghost use Rattle.ae_judge.specs.Tabled.{code_of};
ghost use Rattle.ae_reads.specs.Answers.{ReadsAs};
ghost use Rattle.ae_running.specs.Seen.{seen};
ghost use Rattle.ae_stores.specs.Parts.{object_at, slot_at};
ghost use Rattle.ae_stores.specs.Targets.{field_aimed, aimed_in};

use crate::reaching::{ObjectFound, reach_along};
use ae_judge::{Tabled, field_form, groups_of};
use ae_reads::{Base, Stop, field_found};
use ae_running::Running;
use ae_tree::{Form, NameAt, Path};

/// A field that is to be written, by the base in which it lies, and its form.
#[derive(Drop)]
pub struct SlotFound {
    pub base: Base,
    pub form: Form,
}

// The field with this name of an object; `fields` leads to the object, and then to the field.
fn field_of(
    tabled: &Tabled,
    found: &ObjectFound,
    x: NameAt,
    fields: &mut Vec<u32>,
) -> Result<SlotFound, Stop>
    ensures { ReadsAs (aimed_in (code_of tabled.now) (object_at fields.old.items found.now) x)
        (slot_at fields.new.items) result }
{
    match found.form.get() {
        Form::Object(_, kind) => match field_found(tabled, kind, x.name) {
            Some(field) => {
                let form = field_form(tabled.alloc, field.class, groups_of(kind), field.field)?;
                match fields.push(field.number) {
                    Ok(()) => Ok(SlotFound {
                        base: found.base,
                        form,
                    }),
                    Err(_) => Err(Stop::Memory),
                }
            }
            None => Err(Stop::Lack),
        },
        Form::Int | Form::Bool => Err(Stop::Lack),
    }
}

/// The last field of a path: the path to its object is walked. Null on the way, or at its end, is trap 3; what stands
/// in the field is not looked at. `fields` has the numbers of the fields that lead to it; what it has after a fault is
/// of no use. Takes memory for the fields on the way, and for the groups of forms.
pub fn find_field(
    tabled: &Tabled,
    run: &Running,
    path: &Path,
    fields: &mut Vec<u32>,
) -> Result<SlotFound, Stop>
    ensures { ReadsAs (field_aimed (code_of tabled.now) (seen run.now) path.now) (slot_at fields.new.items) result }
{
    match path.steps.as_slice().split_last() {
        Some((last, steps)) => {
            let found = match reach_along(tabled, run, path.root, steps, fields) {
                Ok(found) => found,
                Err(stop) => return Err(stop),
            };
            field_of(tabled, &found, *last, fields)
        }
        None => Err(Stop::Lack),
    }
}
