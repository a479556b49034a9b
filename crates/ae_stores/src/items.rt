// Writes to items of arrays.
ghost use Rattle.std.specs.Prelude.{◌≡◌};
ghost use Rattle.ae_tree.specs.Shown.{expression};
ghost use Rattle.ae_semantics.specs.Meaning.{stored_at};
ghost use Rattle.ae_judge.specs.Tabled.{code_of};
ghost use Rattle.ae_values.specs.Shown.{shown_tree};
ghost use Rattle.ae_reads.specs.Answers.{ReadsAs, as_it_is};
ghost use Rattle.ae_running.specs.Seen.{seen};
ghost use Rattle.ae_stores.specs.Changes.{ChangesAs, KeepsRest};
ghost use Rattle.ae_stores.specs.Parts.{item_found};
ghost use Rattle.ae_stores.specs.Targets.{item_aimed, item_number};

use crate::places::put_item;
use crate::reaching::reach_along;
use ae_judge::Tabled;
use ae_reads::{Base, Stop};
use ae_running::{Running, int_of};
use ae_tree::{Expr, Path};
use ae_values::Object;

const NO_ITEM: Stop = Stop::Trap(4);

/// An item of an array, by the base in which the array stands and the item's number.
#[derive(Clone, Copy)]
pub struct ItemFound {
    pub base: Base,
    pub number: usize,
}

// The number of the item at an index.
#[tactic(auto, using(crate::proofs::ItemLemmas::numbers_are_items))]
fn number_in(object: &Object, n: i64) -> Result<usize, Stop>
    ensures { ReadsAs (item_number (shown_tree object.now) n) as_it_is result }
{
    match object.len() {
        Some(count) => {
            if n < 0 || n as usize >= count {
                Err(NO_ITEM)
            } else {
                Ok(n as usize)
            }
        }
        None => Err(Stop::Lack),
    }
}

// The item with this index in the array to which a path leads. `fields` leads to the array then.
fn find_item(
    tabled: &Tabled,
    run: &Running,
    path: &Path,
    n: i64,
    fields: &mut Vec<u32>,
) -> Result<ItemFound, Stop>
    ensures { ReadsAs (item_aimed (code_of tabled.now) (seen run.now) path.now n) (item_found fields.new.items) result }
{
    let found = match reach_along(tabled, run, path.root, path.steps.as_slice(), fields) {
        Ok(found) => found,
        Err(stop) => return Err(stop),
    };
    match number_in(found.tree.object, n) {
        Ok(number) => Ok(ItemFound {
            base: found.base,
            number,
        }),
        Err(stop) => Err(stop),
    }
}

/// `p[i] = e`: the index, the expression, then the array to which the path leads, and one item of it is written where
/// it stands; no array is copied. An index without an item is trap 4, and null on the way or at its end trap 3. After
/// a fault, and where memory is refused, the run is as it was. Takes memory for the fields on the way, and for the
/// groups of forms.
pub fn store_at(
    tabled: &Tabled,
    run: &mut Running,
    path: &Path,
    index: &Expr,
    expr: &Expr,
) -> Result<(), Stop>
    ensures changes { ChangesAs (stored_at (code_of tabled.now) path.now (expression index.now) (expression expr.now)
        (seen run.old)) run.old result run.new }
    ensures keeps { KeepsRest run.old run.new }
{
    let n = match int_of(tabled, run, index) {
        Ok(n) => n,
        Err(stop) => return Err(stop),
    };
    let value = match int_of(tabled, run, expr) {
        Ok(value) => value,
        Err(stop) => return Err(stop),
    };
    let mut fields = Vec::new(tabled.alloc);
    let found = match find_item(tabled, run, path, n, &mut fields) {
        Ok(found) => found,
        Err(stop) => return Err(stop),
    };
    put_item(run, found.base, fields.as_slice(), found.number, value)
}
