// The values of expressions and right sides that go to a place: a name that moves is taken out, and nothing is copied
// that was to move.
ghost use Rattle.std.specs.Prelude.{◌≡◌, pos, IfOk, IsTrue};
ghost use Rattle.ae_tree.specs.Shown.{expression, right_side};
ghost use Rattle.ae_semantics.specs.Meaning as spec;
ghost use Rattle.ae_semantics.specs.Places.{Fine};
ghost use Rattle.ae_values.specs.Shown.{shown, IsMeasured};
ghost use Rattle.ae_judge.specs.Tabled.{code_of};
ghost use Rattle.ae_reads.specs.Answers.{ReadsAs};
ghost use Rattle.ae_running.specs.Seen.{seen};
ghost use Rattle.ae_acts.specs.Acts.{moved_out, is_no_call};
ghost use Rattle.ae_acts.specs.Doing.{Stays, is_alone, value_moved};
ghost use Rattle.ae_acts.specs.Made.{is_plain, made_low, taken_low};

use crate::changes::{low, take_out};
use crate::objects::new_object;
use ae_judge::{Tabled, is_name, name_into};
use ae_reads::Stop;
use ae_running::{Running, int_of, value_of};
use ae_stores::take_field;
use ae_tree::{Expr, Form, Name, Path, Rhs};
use ae_values::{Object, Val};
use std::alloc::{AllocError, Global};

const NEGATIVE_LENGTH: Stop = Stop::Trap(7);

// Whether an expression is a name that stands alone.
#[tactic(auto, using(ae_tree::specs::Shown::shows))]
fn is_alone(expr: &Expr) -> bool
    ensures { result ≡ is_alone (expression expr.now) }
{
    match expr {
        Expr::Path(path) => is_name(path),
        Expr::Int(..)
        | Expr::Bool(..)
        | Expr::Null(_)
        | Expr::Index(..)
        | Expr::Len(..)
        | Expr::Paren(..)
        | Expr::Not(..)
        | Expr::Neg(..)
        | Expr::Bin(..) => false,
    }
}

/// The value of an expression for a place of this form. A name that moves has no value then: its value is taken out and
/// not copied. The names stay.
pub fn value_for(tabled: &Tabled, run: &mut Running, form: &Form, expr: &Expr) -> Result<Val, Stop>
    ensures done { ReadsAs (value_moved (code_of tabled.now) form.now (expression expr.now) (seen run.old))
        (λ v. (shown v, seen run.new)) result }
    ensures measured { IfOk result IsMeasured }
    ensures stays { Stays run.old run.new }
{
    match name_into(form, expr) {
        Some(name) => {
            if is_alone(expr) {
                match take_out(run, name) {
                    Some(value) => Ok(value),
                    None => Err(Stop::Lack),
                }
            } else {
                let value = value_of(tabled, run, expr)?;
                let _ = take_out(run, name);
                Ok(value)
            }
        }
        None => value_of(tabled, run, expr),
    }
}

// An array of zeros; a negative length is trap 7.
fn zeros(alloc: Global, n: i64) -> Result<Val, Stop>
    ensures value { ReadsAs (spec.zeros n) shown result }
    ensures measured { IfOk result IsMeasured }
{
    if n < 0 {
        return Err(NEGATIVE_LENGTH);
    }
    let value = zeros_of(alloc, n as usize)?;
    Ok(value)
}

// So many zeros.
#[tactic(auto, using(ae_values::specs::Shown::shows))]
fn zeros_of(alloc: Global, n: usize) -> Result<Val, AllocError>
    ensures value { IfOk result (λ v. Fine (shown v) ≡ spec.zeros (pos n)) }
    ensures measured { IfOk result IsMeasured }
{
    let items = vec![in alloc; 0; n]?;
    let object = Box::new(alloc, Object::ints(items))?;
    Ok(Val::Object(object))
}

// The value of a right side that is an expression or new integers, for a place of this form.
fn plain(tabled: &Tabled, run: &mut Running, form: &Form, rhs: &Rhs) -> Result<Val, Stop>
    requires { IsTrue (is_plain (right_side rhs.now)) }
    ensures done { ReadsAs (moved_out (code_of tabled.now) form.now (right_side rhs.now) (seen run.old))
        (λ v. (shown v, seen run.new)) result }
    ensures measured { IfOk result IsMeasured }
    ensures stays { Stays run.old run.new }
{
    match rhs {
        Rhs::Expr(expr) => value_for(tabled, run, form, expr),
        Rhs::Ints(expr, _) => {
            let n = int_of(tabled, run, expr)?;
            zeros(tabled.alloc, n)
        }
        Rhs::New(..) | Rhs::Take(..) | Rhs::Call(_) => Err(Stop::Lack),
    }
}

// The same, where a value that is higher than 1,000 is trap 8.
fn plain_low(tabled: &Tabled, run: &mut Running, form: &Form, rhs: &Rhs) -> Result<Val, Stop>
    requires { IsTrue (is_plain (right_side rhs.now)) }
    ensures done { ReadsAs (made_low (code_of tabled.now) form.now (right_side rhs.now) (seen run.old))
        (λ v. (shown v, seen run.new)) result }
    ensures measured { IfOk result IsMeasured }
    ensures stays { Stays run.old run.new }
{
    let value = plain(tabled, run, form, rhs)?;
    low(&value)?;
    Ok(value)
}

// The value of a field, taken out of it. A value that is higher than 1,000 is trap 8.
fn taken(tabled: &Tabled, run: &mut Running, path: &Path) -> Result<Val, Stop>
    ensures done { ReadsAs (taken_low (code_of tabled.now) path.now (seen run.old)) (λ v. (shown v, seen run.new)) result }
    ensures measured { IfOk result IsMeasured }
    ensures stays { Stays run.old run.new }
{
    match take_field(tabled, run, path) {
        Ok(value) => match low(&value) {
            Ok(()) => Ok(value),
            Err(stop) => Err(stop),
        },
        Err(stop) => Err(stop),
    }
}

/// The value of what stands right of a `=`, for a place of this form: an expression, a field's value that is taken out
/// of it, new integers, or a new object.
/// Names that move have no value then. A value that is higher than 1,000 is trap 8. The names stay.
pub fn right(tabled: &Tabled, run: &mut Running, form: &Form, rhs: &Rhs) -> Result<Val, Stop>
    requires made { IsTrue (is_no_call (right_side rhs.now)) }
    ensures done { ReadsAs (made_low (code_of tabled.now) form.now (right_side rhs.now) (seen run.old))
        (λ v. (shown v, seen run.new)) result }
    ensures measured { IfOk result IsMeasured }
    ensures stays { Stays run.old run.new }
{
    match rhs {
        Rhs::New(class, groups, args, _) => {
            new_object(tabled, run, class.name, groups.as_slice(), args.as_slice())
        }
        Rhs::Expr(_) | Rhs::Ints(..) => plain_low(tabled, run, form, rhs),
        Rhs::Take(path, _) => taken(tabled, run, path),
        Rhs::Call(_) => Err(Stop::Lack),
    }
}
