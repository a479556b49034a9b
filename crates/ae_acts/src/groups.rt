// Groups declared, and objects that become immutable or members of a group.
ghost use Rattle.std.specs.Prelude.{◌≡◌, ◌∷◌, ◌++◌, [], None, Some, true, false, option_map, is_some, OnOk};
ghost use Rattle.ae_semantics.specs.Meaning as spec;
ghost use Rattle.ae_semantics.specs.Places.{Fine, Here, with_store, members, group_of};
ghost use Rattle.ae_values.specs.Environments.{waiting_binds};
ghost use Rattle.ae_values.specs.Shapes.{OfGroup, shape_in};
ghost use Rattle.ae_values.specs.Shown.{shown, shown_tree, IsMeasuredTree};
ghost use Rattle.ae_reads.specs.Answers.{ReadsAs};
ghost use Rattle.ae_running.specs.Seen.{seen};
ghost use Rattle.ae_acts.specs.Doing.{Stays, value_in, is_null, joined_to, forms_of, names_of};

use crate::changes::{declared_form, take_out};
use ae_judge::Tabled;
use ae_reads::{Stop, local};
use ae_running::Running;
use ae_tree::{Name, Perm};
use ae_values::{Bound, Image, Object, Store, Val};

/// A group, whose name is free, is declared without members. Where memory is refused the names stay.
pub fn declares_group(tabled: &Tabled, run: &mut Running, name: Name) -> Result<(), Stop>
    requires free { shape_in (names_of run.old) name ≡ None }
    ensures done { ReadsAs (Fine (with_store name (Some (Here [])) (seen run.old))) (λ done. seen run.new) result }
    ensures names { OnOk result (names_of run.new ≡ names_of run.old ++ (name, OfGroup None) ∷ []) }
    ensures waiting { waiting_binds run.new.env ≡ waiting_binds run.old.env }
    ensures out { run.new.out ≡ run.old.out }
{
    let members = Bound::Whole(Image::Store(Store::new(tabled.alloc)));
    match run.env.declare_group(name, members) {
        Ok(()) => Ok(()),
        Err(_) => Err(Stop::Memory),
    }
}

// Whether the value of a local is null, and none exactly where it has no value.
#[tactic(auto, using(ae_values::specs::Shown::shows))]
fn is_null(run: &Running, name: Name) -> Option<bool>
    ensures { result ≡ option_map is_null (value_in (seen run.now) name) }
{
    match local(&run.env, name) {
        Some(found) => match found.value {
            Val::Null => Some(true),
            Val::Int(_) | Val::Bool(_) | Val::Object(_) | Val::Ref(_) => Some(false),
        },
        None => None,
    }
}

/// The object of a local becomes immutable. The names stay. Takes no memory.
pub fn freezes(run: &mut Running, name: Name) -> Result<(), Stop>
    ensures done { ReadsAs (spec.frozen name (seen run.old)) (λ done. seen run.new) result }
    ensures stays { Stays run.old run.new }
{
    match is_null(run, name) {
        Some(_) => {
            run.env.set_perm(name, Perm::Immutable);
            Ok(())
        }
        None => Err(Stop::Lack),
    }
}

// An object that was taken out of a local becomes a member of a group, and the local gets its number.
#[tactic(auto, using(ae_values::specs::Shown::shows))]
fn join(run: &mut Running, name: Name, group: Name, object: Object) -> Result<(), Stop>
    requires { IsMeasuredTree object }
    ensures done { ReadsAs (joined_to (forms_of run.old) name group (shown_tree object) (seen run.old))
        (λ done. seen run.new) result }
    ensures stays { Stays run.old run.new }
{
    match declared_form(&run.env, name) {
        Some(_) => match run.env.add_member(group, object) {
            Ok(Some(number)) => {
                run.env.assign(name, Val::Ref(number));
                run.env.set_perm(name, Perm::Shared(group));
                Ok(())
            }
            Ok(None) => Err(Stop::Lack),
            Err(_) => Err(Stop::Memory),
        },
        None => Err(Stop::Lack),
    }
}

// The same, for a local that still has its object.
#[tactic(auto, using(ae_values::specs::Shown::shows))]
fn take_and_join(run: &mut Running, name: Name, group: Name) -> Result<(), Stop>
    requires { option_map is_null (value_in (seen run.old) name) ≡ Some false }
    ensures done { ReadsAs (spec.shares_into name group (seen run.old)) (λ done. seen run.new) result }
    ensures stays { Stays run.old run.new }
{
    match take_out(run, name) {
        Some(value) => match value {
            Val::Object(object) => join(run, name, group, Box::into_inner(object)),
            Val::Int(_) | Val::Bool(_) | Val::Null | Val::Ref(_) => Err(Stop::Lack),
        },
        None => Err(Stop::Lack),
    }
}

/// The object of a local becomes the next member of a group, and the local gets a reference to it; null stays null. The
/// names stay.
pub fn shares(run: &mut Running, name: Name, group: Name) -> Result<(), Stop>
    ensures done { ReadsAs (spec.shares_into name group (seen run.old)) (λ done. seen run.new) result }
    ensures stays { Stays run.old run.new }
{
    match is_null(run, name) {
        Some(is_null) => {
            if is_null {
                share_null(run, name, group)
            } else {
                take_and_join(run, name, group)
            }
        }
        None => Err(Stop::Lack),
    }
}

// Whether the members of a group are here.
fn is_here(run: &Running, group: Name) -> bool
    ensures { result ≡ is_some (members (group_of (seen run.now) group)) }
{
    match run.env.store(group) {
        Some(_) => true,
        None => false,
    }
}

// A local that is null is shared of a group whose members are here.
fn share_null(run: &mut Running, name: Name, group: Name) -> Result<(), Stop>
    requires { option_map is_null (value_in (seen run.old) name) ≡ Some true }
    ensures done { ReadsAs (spec.shares_into name group (seen run.old)) (λ done. seen run.new) result }
    ensures stays { Stays run.old run.new }
{
    if is_here(run, group) {
        run.env.set_perm(name, Perm::Shared(group));
        Ok(())
    } else {
        Err(Stop::Lack)
    }
}
