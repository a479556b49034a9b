// Locals declared and assigned, and what a method returns.
ghost use Rattle.std.specs.Prelude.{◌≡◌, ◌∷◌, ◌++◌, [], IfOk, IfErr, OnOk, IsTrue};
ghost use Rattle.ae_tree.specs.Form.{form};
ghost use Rattle.ae_tree.specs.Shown.{expression, right_side, definition};
ghost use Rattle.ae_semantics.specs.Meaning as spec;
ghost use Rattle.ae_values.specs.Environments.{waiting_binds};
ghost use Rattle.ae_values.specs.Shapes.{OfLocal, shape_in};
ghost use Rattle.ae_values.specs.Shown.{shown, IsMeasured};
ghost use Rattle.ae_judge.specs.Tabled.{code_of};
ghost use Rattle.ae_reads.specs.Answers.{ReadsAs};
ghost use Rattle.ae_reads.specs.declared.stop.Stop.TheVariants as stop;
ghost use Rattle.ae_running.specs.Seen.{seen};
ghost use Rattle.ae_acts.specs.Acts.{put_into, put_again, is_no_call};
ghost use Rattle.ae_acts.specs.Doing.{Stays, result_of, forms_of, names_of};

use crate::changes::{assign, declare, declared_form};
use crate::values::{right, value_for};
use ae_judge::Tabled;
use ae_reads::Stop;
use ae_running::{Running, value_of};
use ae_tree::{Expr, Form, Method, Name, Rhs, Ty, form_of};
use ae_values::Val;
use std::alloc::Global;

// The form of a type.
fn form_written(alloc: Global, ty: &Ty) -> Result<Form, Stop>
    ensures form { IfOk result (λ f. f ≡ form ty.now) }
    ensures refused { IfErr result (λ e. e ≡ stop.Memory) }
{
    match form_of(alloc, ty) {
        Ok(form) => Ok(form),
        Err(_) => Err(Stop::Memory),
    }
}

/// A new local, whose name is free, is declared with a type and a right side. After a fault the names stay.
pub fn declares(
    tabled: &Tabled,
    run: &mut Running,
    ty: &Ty,
    name: Name,
    rhs: &Rhs,
) -> Result<(), Stop>
    requires made { IsTrue (is_no_call (right_side rhs.now)) }
    requires free { shape_in (names_of run.old) name ≡ None }
    ensures done { ReadsAs (put_into (code_of tabled.now) name (form ty.now) (right_side rhs.now) (seen run.old))
        (λ done. seen run.new) result }
    ensures names { OnOk result (names_of run.new ≡ names_of run.old ++ (name, OfLocal (form ty.now)) ∷ []) }
    ensures waiting { waiting_binds run.new.env ≡ waiting_binds run.old.env }
    ensures out { run.new.out ≡ run.old.out }
{
    let form = form_written(tabled.alloc, ty)?;
    let value = right(tabled, run, &form, rhs)?;
    declare(run, name, form, value)
}

/// A right side goes to a local, in the form in which it was declared. The names stay.
pub fn assigns(tabled: &Tabled, run: &mut Running, name: Name, rhs: &Rhs) -> Result<(), Stop>
    requires made { IsTrue (is_no_call (right_side rhs.now)) }
    ensures done { ReadsAs (put_again (code_of tabled.now) (forms_of run.old) name (right_side rhs.now) (seen run.old))
        (λ done. seen run.new) result }
    ensures stays { Stays run.old run.new }
{
    match declared_form(&run.env, name) {
        Some(form) => {
            let value = right(tabled, run, &form, rhs)?;
            assign(run, name, value)
        }
        None => Err(Stop::Lack),
    }
}

// The value of a method's result. A name that moves with it has no value then.
fn result_for(tabled: &Tabled, method: &Method, run: &mut Running, expr: &Expr) -> Result<Val, Stop>
    ensures done { ReadsAs
        (result_of (code_of tabled.now) (definition method.now) (expression expr.now) (seen run.old))
        (λ v. (shown v, seen run.new)) result }
    ensures measured { IfOk result IsMeasured }
    ensures stays { Stays run.old run.new }
{
    match &method.result {
        Some(ty) => {
            let form = form_written(tabled.alloc, ty)?;
            value_for(tabled, run, &form, expr)
        }
        None => value_of(tabled, run, expr),
    }
}

/// The value of an expression is the result of the running method. A name that moves with it has no value then. The
/// names stay.
pub fn returns(tabled: &Tabled, method: &Method, run: &mut Running, expr: &Expr) -> Result<(), Stop>
    ensures done { ReadsAs
        (spec.returns_value (code_of tabled.now) (definition method.now) (expression expr.now) (seen run.old))
        (λ done. seen run.new) result }
    ensures stays { Stays run.old run.new }
{
    let value = result_for(tabled, method, run, expr)?;
    run.result = Some(value);
    Ok(())
}
