// Changes of one local in a run that is under way.
ghost use Rattle.std.specs.Prelude.{◌≡◌, ◌∷◌, ◌++◌, None, [], option_map, IfSome, OnOk};
ghost use Rattle.ae_semantics.specs.Places as place;
ghost use Rattle.ae_semantics.specs.Places.{with_bound};
ghost use Rattle.ae_semantics.specs.Expressions as spec;
ghost use Rattle.ae_values.specs.Environments.{running_binds, waiting_binds};
ghost use Rattle.ae_values.specs.Shapes.{OfLocal, shapes, shape_in};
ghost use Rattle.ae_values.specs.Shown.{shown, IsMeasured};
ghost use Rattle.ae_names.specs.Known.{form_in};
ghost use Rattle.ae_reads.specs.Answers.{ReadsAs};
ghost use Rattle.ae_running.specs.Seen.{seen};
ghost use Rattle.ae_acts.specs.Doing.{Stays, value_in, without_kind, form_held, assigned_to, forms_of, names_of};

use ae_reads::Stop;
use ae_running::Running;
use ae_tree::{Form, Kind, Name};
use ae_values::{Bound, Env, Val, with_perm};

/// A value that is too high for a local.
pub const TOO_HIGH: Stop = Stop::Trap(8);

/// The value of a local is taken out, and none exactly where it has none. The names stay, with the forms of their
/// declarations. Takes no memory.
pub fn take_out(run: &mut Running, name: Name) -> Option<Val>
    ensures value { option_map shown result ≡ value_in (seen run.old) name }
    ensures measured { IfSome result IsMeasured }
    ensures left { seen run.new ≡ with_bound name None (seen run.old) }
    ensures stays { Stays run.old run.new }
{
    run.env.take(name)
}

// A form without its kind.
fn without_kind(form: &Form) -> Form
    ensures { result ≡ without_kind form.now }
{
    match form {
        Form::Int => Form::Int,
        Form::Bool => Form::Bool,
        Form::Object(perm, _) => Form::Object(*perm, Kind::Ints),
    }
}

// The form of what is a local, without its kind.
fn form_held(bound: &Bound) -> Option<Form>
    ensures { result ≡ option_map without_kind (form_held bound.now) }
{
    match bound {
        Bound::Value(form, _) => Some(without_kind(form)),
        Bound::Moved(form) => Some(without_kind(form)),
        Bound::Whole(_) | Bound::Other(_) | Bound::Cell(_) | Bound::Pieces(_) => None,
    }
}

/// The form in which a local was declared, but for its kind, and none exactly where no local has the name. Takes no
/// memory.
pub fn declared_form(env: &Env, name: Name) -> Option<Form>
    ensures { result ≡ option_map without_kind (form_in (shapes (running_binds env.now)) name) }
{
    match env.get(name) {
        Some(bound) => match form_held(bound) {
            Some(form) => match env.declared(name) {
                Some(perm) => Some(with_perm(perm, form)),
                None => None,
            },
            None => None,
        },
        None => None,
    }
}

/// A value that is too high for a local is trap 8. Takes no memory.
pub fn low(value: &Val) -> Result<(), Stop>
    requires { IsMeasured value.now }
    ensures { ReadsAs (place.low (shown value.now)) (λ done. shown value.now) result }
{
    if value.height() <= 1000 {
        Ok(())
    } else {
        Err(TOO_HIGH)
    }
}

/// A value goes to a local, in the form in which it was declared. A value that is higher than 1,000 is trap 8. Takes no
/// memory.
pub fn assign(run: &mut Running, name: Name, value: Val) -> Result<(), Stop>
    requires { IsMeasured value }
    ensures done { ReadsAs (assigned_to (forms_of run.old) name (shown value) (seen run.old)) (λ done. seen run.new)
        result }
    ensures stays { Stays run.old run.new }
{
    match declared_form(&run.env, name) {
        Some(_) => {
            low(&value)?;
            run.env.assign(name, value);
            Ok(())
        }
        None => Err(Stop::Lack),
    }
}

/// A new local, whose name is free, is declared in this form with a value. A value that is higher than 1,000 is trap 8.
/// After a fault all stays.
pub fn declare(run: &mut Running, name: Name, form: Form, value: Val) -> Result<(), Stop>
    requires free { shape_in (names_of run.old) name ≡ None }
    requires measured { IsMeasured value }
    ensures done { ReadsAs (place.bind name form (shown value) (seen run.old)) (λ done. seen run.new) result }
    ensures names { OnOk result (names_of run.new ≡ names_of run.old ++ (name, OfLocal form) ∷ []) }
    ensures waiting { waiting_binds run.new.env ≡ waiting_binds run.old.env }
    ensures out { run.new.out ≡ run.old.out }
{
    low(&value)?;
    match run.env.declare(name, form, value) {
        Ok(()) => Ok(()),
        Err(_) => Err(Stop::Memory),
    }
}
