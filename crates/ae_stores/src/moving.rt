// Values that move from a local to a place: they are not copied.
ghost use Rattle.std.specs.Prelude.{◌≡◌, ◌<◌, MatchOption, None, Some, is_some, true, false};
ghost use Rattle.ae_semantics.specs.Values as meant;
ghost use Rattle.ae_semantics.specs.Values.{height, put_at};
ghost use Rattle.ae_semantics.specs.Places.{Fine, State, Bound, with_bound, write_in};
ghost use Rattle.ae_values.specs.Shown.{shown, IsMeasured};
ghost use Rattle.ae_reads.specs.Views.{base_of};
ghost use Rattle.ae_running.specs.Seen.{seen};
ghost use Rattle.ae_stores.specs.Changes.{ChangesAs, KeepsRest};
ghost use Rattle.ae_stores.specs.Stand.{whole_at, is_local, moved_into, KeepsObject};

use crate::places::{TOO_HIGH, stays_low, write};
use ae_reads::{Base, Stop, local};
use ae_running::Running;
use ae_tree::Name;
use ae_values::Val;

// How high the value of a local is, and none exactly where no local with a value has the name.
fn height_of(run: &Running, name: Name) -> Option<u32>
    ensures { MatchOption result ((seen run.now).locals name ≡ None)
        (λ h. (b : Bound) × ((seen run.now).locals name ≡ Some b) × (height b.value ≡ h)) }
{
    match local(&run.env, name) {
        Some(found) => Some(found.value.height()),
        None => None,
    }
}

/// Whether a local with a value has this name. Takes no memory.
pub fn has_value(run: &Running, name: Name) -> bool
    ensures { result ≡ is_some ((seen run.now).locals name) }
{
    match height_of(run, name) {
        Some(_) => true,
        None => false,
    }
}

// Whether the places of a base lie in this local.
fn is_own(name: Name, base: Base) -> bool
    ensures { result ≡ is_local name (base_of base) }
{
    match base {
        Base::Local(other) => name == other,
        Base::Member(_) => false,
    }
}

// The value that a local has lost comes to stand at a place. Where that lies in the local itself it is lost with it.
fn write_moved(run: &mut Running, base: Base, fields: &[u32], name: Name, value: Val)
    requires new { IsMeasured value }
    requires room { is_local name (base_of base) ≡ false → (whole : meant.Val)
        → whole_at (seen run.old) (base_of base) ≡ Some whole
        → height (put_at fields.now (shown value) whole) < 4294967296 }
    ensures meant { (s t : State) → seen run.old ≡ with_bound name None s
        → write_in s (base_of base) fields.now (shown value) ≡ Fine t → seen run.new ≡ with_bound name None t }
    ensures keeps { KeepsRest run.old run.new }
{
    if is_own(name, base) {
        drop(value)
    } else {
        write(run, base, fields, value)
    }
}

// The value of a local is taken out of it and comes to stand at a place.
fn hand_over(run: &mut Running, base: Base, fields: &[u32], name: Name)
    requires room { (b : Bound) (whole : meant.Val) → (seen run.old).locals name ≡ Some b
        → whole_at (seen run.old) (base_of base) ≡ Some whole → height (put_at fields.now b.value whole) < 4294967296 }
    ensures meant { (t : State) → moved_into (seen run.old) name (base_of base) fields.now ≡ Fine t → seen run.new ≡ t }
    ensures keeps { KeepsRest run.old run.new }
{
    match run.env.take(name) {
        Some(value) => write_moved(run, base, fields, name, value),
        None => {}
    }
}

/// The value of a local comes to stand at a place that lies in a value which is there, and the local has no value
/// then. Trap 8 is where that would become too high, and a lack where the local has no value; then all stays. Takes no
/// memory.
pub fn move_in(run: &mut Running, base: Base, fields: &[u32], name: Name) -> Result<(), Stop>
    requires there { is_some (whole_at (seen run.old) (base_of base)) ≡ true }
    requires object { (new : meant.Val) → KeepsObject fields.now new }
    ensures changes { ChangesAs (moved_into (seen run.old) name (base_of base) fields.now) run.old result run.new }
    ensures keeps { KeepsRest run.old run.new }
{
    let height = match height_of(run, name) {
        Some(height) => height,
        None => return Err(Stop::Lack),
    };
    if !stays_low(run, base, fields, height) {
        return Err(TOO_HIGH);
    }
    hand_over(run, base, fields, name);
    Ok(())
}
