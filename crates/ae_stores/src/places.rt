// Places of a run by their bases and fields: how high a write would make what they lie in, and writes.
ghost use Rattle.std.specs.Prelude.{◌≡◌, ◌<◌, Some, is_some, true};
ghost use Rattle.ae_semantics.specs.Values as meant;
ghost use Rattle.ae_semantics.specs.Values.{is_low, height, put_at};
ghost use Rattle.ae_semantics.specs.Places.{Fine, State, write_in};
ghost use Rattle.ae_values.specs.Shown.{shown, IsMeasured};
ghost use Rattle.ae_reads.specs.Views.{base_of};
ghost use Rattle.ae_running.specs.Seen.{seen};
ghost use Rattle.ae_stores.specs.Changes.{ChangesAs, KeepsRest};
ghost use Rattle.ae_stores.specs.Stand.{whole_at, array_at, item_written, KeepsObject};

use ae_reads::{Base, Stop};
use ae_running::Running;
use ae_values::Val;

/// A local or a member would be too high.
pub const TOO_HIGH: Stop = Stop::Trap(8);

const HIGHEST: u32 = 1000;

/// Whether the whole value in which a place lies stays low with a value of this height there. Takes no memory.
pub fn stays_low(run: &Running, base: Base, fields: &[u32], height: u32) -> bool
    ensures { (whole : meant.Val) → whole_at (seen run.now) (base_of base) ≡ Some whole → (new : meant.Val)
        → meant.height new ≡ height → result ≡ is_low (put_at fields.now new whole) }
{
    match base {
        Base::Local(name) => run.env.height_with(name, fields, height) <= HIGHEST,
        Base::Member(member) => {
            run.env
                .member_height_with(member.group, member.number, fields, height)
                <= HIGHEST
        }
    }
}

/// A value comes to stand at a place, where the whole value in which that lies has room for it. Takes no memory.
pub fn write(run: &mut Running, base: Base, fields: &[u32], new: Val)
    requires new { IsMeasured new }
    requires room { (whole : meant.Val) → whole_at (seen run.old) (base_of base) ≡ Some whole
        → height (put_at fields.now (shown new) whole) < 4294967296 }
    ensures meant { (s : State) → write_in (seen run.old) (base_of base) fields.now (shown new) ≡ Fine s
        → seen run.new ≡ s }
    ensures keeps { KeepsRest run.old run.new }
{
    match base {
        Base::Local(name) => run.env.write(name, fields, new),
        Base::Member(member) => run
            .env
            .write_member(member.group, member.number, fields, new),
    }
}

// One item of the array at a place comes to be this number. Takes no memory.
fn set_item(run: &mut Running, base: Base, fields: &[u32], at: usize, n: i64)
    ensures meant { (s : State) → item_written (seen run.old) (base_of base) fields.now at n ≡ Fine s
        → seen run.new ≡ s }
    ensures keeps { KeepsRest run.old run.new }
{
    match base {
        Base::Local(name) => run.env.set_item(name, fields, at, n),
        Base::Member(member) => run
            .env
            .set_member_item(member.group, member.number, fields, at, n),
    }
}

/// A value comes to stand at a place that lies in a value which is there. Trap 8 is where that would become too high;
/// then all stays. Takes no memory.
pub fn put(run: &mut Running, base: Base, fields: &[u32], new: Val) -> Result<(), Stop>
    requires new { IsMeasured new }
    requires there { is_some (whole_at (seen run.old) (base_of base)) ≡ true }
    requires object { KeepsObject fields.now (shown new) }
    ensures changes { ChangesAs (write_in (seen run.old) (base_of base) fields.now (shown new)) run.old result run.new }
    ensures keeps { KeepsRest run.old run.new }
{
    if !stays_low(run, base, fields, new.height()) {
        return Err(TOO_HIGH);
    }
    write(run, base, fields, new);
    Ok(())
}

/// One item of the array at a place, which is there, comes to be this number: one write. Trap 8 is where the value in
/// which the array lies is too high; then all stays. Takes no memory.
pub fn put_item(
    run: &mut Running,
    base: Base,
    fields: &[u32],
    at: usize,
    n: i64,
) -> Result<(), Stop>
    requires there { is_some (array_at (seen run.old) (base_of base) fields.now) ≡ true }
    ensures changes { ChangesAs (item_written (seen run.old) (base_of base) fields.now at n) run.old result run.new }
    ensures keeps { KeepsRest run.old run.new }
{
    if !stays_low(run, base, fields, 1) {
        return Err(TOO_HIGH);
    }
    set_item(run, base, fields, at, n);
    Ok(())
}
