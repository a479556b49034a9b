// What was taken out of a callee comes back to its caller.
ghost use Rattle.std.specs.Prelude.{◌≡◌, None, Some, is_some, slice_get};
ghost use Rattle.ae_semantics.specs.Places.{with_bound, write_in, InGroup};
ghost use Rattle.ae_semantics.specs.Calls.{without_moved};
ghost use Rattle.ae_values.specs.Environments.{running_binds};
ghost use Rattle.ae_values.specs.Shapes.{OfGroup, shapes, shape_in};
ghost use Rattle.ae_values.specs.Shown.{shown, IsMeasured};
ghost use Rattle.ae_reads.specs.Answers.{ReadsAs};
ghost use Rattle.ae_reads.specs.Views.{base_of};
ghost use Rattle.ae_running.specs.Seen.{seen};
ghost use Rattle.ae_stores.specs.Changes.{KeepsRest};
ghost use Rattle.ae_stores.specs.Stand.{whole_at};
ghost use Rattle.ae_frames.specs.Returns.{came_of, cames_of, one_written, all_written, returned_of, returneds_of};
ghost use Rattle.ae_frames.specs.Returns.{group_put, groups_put, holders_of, AreGroups, is_owned};
ghost use Rattle.ae_frames.specs.Returns as returns;

use crate::returned::{Came, Returned};
use ae_reads::{Base, MemberOf, Stop, local};
use ae_running::Running;
use ae_stores::{TOO_HIGH, stays_low, write};
use ae_tree::Name;
use ae_values::{Store, Val};

// A name that was given away has no value.
fn lose(run: &mut Running, name: Name)
    ensures meant { seen run.new ≡ with_bound name None (seen run.old) }
    ensures keeps { KeepsRest run.old run.new }
{
    drop(run.env.take(name));
}

/// The names that were given away have no value. Takes no memory.
pub(crate) fn lose_all(run: &mut Running, mut gone: Vec<Name>)
    ensures meant { seen run.new ≡ without_moved gone.items (seen run.old) }
    ensures keeps { KeepsRest run.old run.new }
{
    gone.reverse();
    while let Some(name) = gone.pop() {
        lose(run, name);
    }
}

// A group stands again where a placeholder stood for it.
fn put_group(run: &mut Running, returned: Returned)
    requires { shape_in (shapes (running_binds run.old.env)) returned.holder ≡ Some (OfGroup None) }
    ensures meant { seen run.new ≡ group_put (returned_of returned) (seen run.old) }
    ensures keeps { KeepsRest run.old run.new }
{
    let Returned { holder, bound } = returned;
    drop(run.env.replace(holder, bound));
}

/// The groups that were lent stand again where placeholders stood for them. Takes no memory.
pub(crate) fn put_groups(run: &mut Running, mut returned: Vec<Returned>)
    requires { AreGroups (holders_of returned.items) (shapes (running_binds run.old.env)) }
    ensures meant { seen run.new ≡ groups_put (returneds_of returned.items) (seen run.old) }
    ensures keeps { KeepsRest run.old run.new }
{
    returned.reverse();
    while let Some(one) = returned.pop() {
        put_group(run, one);
    }
}

// Whether there is a member with this number.
fn has_member(store: &Store, number: u64) -> bool
    ensures { result ≡ is_some (slice_get store.now number) }
{
    match store.get(number) {
        Some(_) => true,
        None => false,
    }
}

// Whether this member is there.
fn member_there(run: &Running, member: MemberOf) -> bool
    ensures { result ≡ is_some (whole_at (seen run.now) (InGroup member.group member.number)) }
{
    match run.env.store(member.group) {
        Some(store) => has_member(store, member.number),
        None => false,
    }
}

// Whether there is a whole value in which the places of a base lie.
fn is_there(run: &Running, base: Base) -> bool
    ensures { result ≡ is_some (whole_at (seen run.now) (base_of base)) }
{
    match base {
        Base::Local(name) => match local(&run.env, name) {
            Some(_) => true,
            None => false,
        },
        Base::Member(member) => member_there(run, member),
    }
}

// Whether a value is an object of its own.
#[tactic(auto, using(ae_values::specs::Shown::shows))]
fn is_object(value: &Val) -> bool
    ensures { result ≡ is_owned (shown value.now) }
{
    match value {
        Val::Object(_) => true,
        Val::Int(_) | Val::Bool(_) | Val::Null | Val::Ref(_) => false,
    }
}

// Whether such a value can stand at this place.
fn can_stand(base: Base, fields: &[u32], value: &Val) -> bool
    ensures { result ≡ returns.can_stand (base_of base) fields.now (shown value.now) }
{
    match base {
        Base::Local(_) => true,
        Base::Member(_) => !fields.is_empty() || is_object(value),
    }
}

// A value is written to a place.
fn write_back(run: &mut Running, base: Base, fields: &[u32], value: Val) -> Result<(), Stop>
    requires { IsMeasured value }
    ensures written { ReadsAs (write_in (seen run.old) (base_of base) fields.now (shown value)) (λ done. seen run.new)
        result }
    ensures keeps { KeepsRest run.old run.new }
{
    if !is_there(run, base) {
        return Err(Stop::Lack);
    }
    if !stays_low(run, base, fields, value.height()) {
        return Err(TOO_HIGH);
    }
    if !can_stand(base, fields, &value) {
        return Err(Stop::Lack);
    }
    write(run, base, fields, value);
    Ok(())
}

// What a parameter held comes back to its place.
fn bring_back(run: &mut Running, came: Came) -> Result<(), Stop>
    ensures written { ReadsAs (one_written (came_of came) (seen run.old)) (λ done. seen run.new) result }
    ensures keeps { KeepsRest run.old run.new }
{
    let Came {
        base,
        fields,
        value,
    } = came;
    match value {
        Some(value) => write_back(run, base, fields.as_slice(), value),
        None => Err(Stop::Lack),
    }
}

/// What the parameters held comes back, in order. A value that is not there is a lack, and trap 8 is where a local or a
/// member would become too high. Takes no memory.
pub(crate) fn bring_all(run: &mut Running, mut came: Vec<Came>) -> Result<(), Stop>
    ensures written { ReadsAs (all_written (cames_of came.items) (seen run.old)) (λ done. seen run.new) result }
    ensures keeps { KeepsRest run.old run.new }
{
    came.reverse();
    while let Some(one) = came.pop() {
        match bring_back(run, one) {
            Ok(()) => {}
            Err(stop) => return Err(stop),
        }
    }
    Ok(())
}
