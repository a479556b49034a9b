// Values taken out of locals where they stand.
ghost use Rattle.std.specs.Prelude.{◌≡◌, ℕ, Option, None, Some, IsTrue, IfOk, is_some, option_map, true};
ghost use Rattle.ae_rules.specs.Verdict.{given};
ghost use Rattle.ae_tree.specs.declared.form.Form.{Form};
ghost use Rattle.ae_semantics.specs.Values as meant;
ghost use Rattle.ae_semantics.specs.Places as meant_place;
ghost use Rattle.ae_semantics.specs.Places.{CellName, State, Fine, InLocal, write_in};
ghost use Rattle.ae_values.specs.declared.env.Bound.TheVariants as bound;
ghost use Rattle.ae_values.specs.declared.value.Val.{Val};
ghost use Rattle.ae_values.specs.Binding.{bound_measured, IsWritten};
ghost use Rattle.ae_values.specs.Environments.{running_binds, bound_under, state_in, local_bound, HasNamesOf};
ghost use Rattle.ae_values.specs.Inside.{value_inside};
ghost use Rattle.ae_values.specs.Shapes.{shapes};
ghost use Rattle.ae_values.specs.Shown.{shown, IsMeasured};
ghost use Rattle.ae_running.specs.Seen.{seen};
ghost use Rattle.ae_stores.specs.Changes.{TakesAs, KeepsRest};
ghost use Rattle.ae_stores.specs.Stand.{taken_at, value_standing, standing_or_null, nulled_in};

use crate::places::{TOO_HIGH, stays_low};
use ae_reads::{Base, Stop, local};
use ae_running::Running;
use ae_text::Memory;
use ae_tree::Name;
use ae_values::{Bound, Env, Val};
use std::alloc::Global;

// A local with null at the place in it to which these fields lead, and what stood there.
#[tactic(auto, using(ae_values::specs::Shown::shows))]
fn emptied(old: Bound, fields: &[u32]) -> (Bound, Val)
    requires measured { IsTrue (bound_measured old) }
    ensures written { IsWritten fields.now meant.Null old result.0 }
    ensures measured { IsTrue (bound_measured result.0) }
    ensures value { (form : Form) (v : Val) → old ≡ bound.Value form v
        → shown result.1 ≡ given (value_inside fields.now (shown v)) meant.Null (λ w. w) }
    ensures standing { shown result.1 ≡ given (given (option_map (λ (b : meant_place.Bound). b.value) (local_bound old)) None
        (value_inside fields.now)) meant.Null (λ w. w) }
    ensures value_measured { IsMeasured result.1 }
{
    match old {
        Bound::Value(form, mut value) => {
            let taken = value.take(fields);
            (Bound::Value(form, value), taken)
        }
        Bound::Moved(form) => (Bound::Moved(form), Val::Null),
        Bound::Whole(image) => (Bound::Whole(image), Val::Null),
        Bound::Other(group) => (Bound::Other(group), Val::Null),
        Bound::Cell(cell) => (Bound::Cell(cell), Val::Null),
        Bound::Pieces(pieces) => (Bound::Pieces(pieces), Val::Null),
    }
}

// The value at the place in a local to which these fields lead is taken out, and null stands there then.
#[tactic(auto, using(ae_values::specs::Shown::shows))]
fn take_in_local(env: &mut Env, name: Name, fields: &[u32]) -> Val
    ensures meant { (cells : ℕ → CellName) (r : Option meant.Val) (s : State)
        → write_in (state_in cells r env.old) (InLocal name) fields.now meant.Null ≡ Fine s
        → state_in cells r env.new ≡ s }
    ensures nulled { (cells : ℕ → CellName) (r : Option meant.Val)
        → state_in cells r env.new ≡ nulled_in name fields.now (state_in cells r env.old) }
    ensures value { (form : Form) (v : Val) → bound_under env.old name ≡ Some (bound.Value form v)
        → shown result ≡ given (value_inside fields.now (shown v)) meant.Null (λ w. w) }
    ensures standing { (cells : ℕ → CellName) (r : Option meant.Val)
        → shown result ≡ standing_or_null (state_in cells r env.old) name fields.now }
    ensures measured { IsMeasured result }
    ensures stays { HasNamesOf env.old env.new }
    ensures shapes { shapes (running_binds env.new) ≡ shapes (running_binds env.old) }
{
    match env.replace(name, Bound::Cell(0)) {
        Some(bound) => {
            let (bound, taken) = emptied(bound, fields);
            let _ = env.replace(name, bound);
            taken
        }
        None => Val::Null,
    }
}

/// The value that stands at a place in a local is taken out of it, and null stands there then. Trap 8 is where the
/// local is too high even so; then all stays. Takes no memory.
pub fn take_local(run: &mut Running, name: Name, fields: &[u32]) -> Result<Val, Stop>
    requires { is_some (value_standing (seen run.old) (InLocal name) fields.now) ≡ true }
    ensures takes { TakesAs (taken_at (seen run.old) (InLocal name) fields.now) run.old result run.new }
    ensures measured { IfOk result IsMeasured }
    ensures keeps { KeepsRest run.old run.new }
{
    if !stays_low(run, Base::Local(name), fields, 0) {
        return Err(TOO_HIGH);
    }
    Ok(take_in_local(&mut run.env, name, fields))
}

/// The value that stands at a place in a local is taken out of it, and null stands there then. Where nothing stands
/// there it is null, and all stays. Takes no memory.
pub fn take_standing(run: &mut Running, name: Name, fields: &[u32]) -> Val
    ensures meant { seen run.new ≡ nulled_in name fields.now (seen run.old) }
    ensures value { shown result ≡ standing_or_null (seen run.old) name fields.now }
    ensures measured { IsMeasured result }
    ensures keeps { KeepsRest run.old run.new }
{
    take_in_local(&mut run.env, name, fields)
}

/// A copy of the value that stands at a place in a local, and null where nothing stands there. Takes memory for it.
#[tactic(auto, using(ae_values::specs::Shown::shows))]
pub fn copy_standing(
    alloc: Global,
    run: &Running,
    name: Name,
    fields: &[u32],
) -> Result<Val, Memory>
    ensures value { IfOk result (λ v. shown v ≡ standing_or_null (seen run.now) name fields.now) }
    ensures measured { IfOk result IsMeasured }
{
    match local(&run.env, name) {
        Some(found) => match found.value.at(fields) {
            Some(value) => match value.copy(alloc) {
                Ok(value) => Ok(value),
                Err(_) => Err(Memory),
            },
            None => Ok(Val::Null),
        },
        None => Ok(Val::Null),
    }
}
