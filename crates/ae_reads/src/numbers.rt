// Operators on numbers and truths, and the items of arrays.
ghost use Rattle.std.specs.Prelude.{◌≡◌, pos, length, ◌+ℤ◌, ◌-ℤ◌, ◌*ℤ◌, neg_ℤ, int_div, int_rem};
ghost use Rattle.ae_semantics.specs.Expressions as spec;
ghost use Rattle.ae_semantics.specs.Places.{Fine};
ghost use Rattle.ae_semantics.specs.Values.{OfInt};
ghost use Rattle.ae_values.specs.Shown.{shown_tree};
ghost use Rattle.ae_reads.specs.Answers.{ReadsAs};
ghost use Rattle.ae_reads.specs.Sights.{seen_value, list_behind, item_of};

use crate::found::Sight;
use crate::stop::Stop;
use ae_tree::Op;
use ae_values::Object;

const OVERFLOW: Stop = Stop::Trap(1);

const ZERO_DIVISOR: Stop = Stop::Trap(2);

const NO_ITEM: Stop = Stop::Trap(4);

// A sum that does not fit is a fault, and so it is with a difference and a product.
fn sum(a: i64, b: i64) -> Result<i64, Stop>
    ensures { ReadsAs (spec.fitted (a +ℤ b)) OfInt result }
{
    a.checked_add(b).ok_or(OVERFLOW)
}

fn difference(a: i64, b: i64) -> Result<i64, Stop>
    ensures { ReadsAs (spec.fitted (a -ℤ b)) OfInt result }
{
    a.checked_sub(b).ok_or(OVERFLOW)
}

fn product(a: i64, b: i64) -> Result<i64, Stop>
    ensures { ReadsAs (spec.fitted (a *ℤ b)) OfInt result }
{
    a.checked_mul(b).ok_or(OVERFLOW)
}

// Cut towards zero. The least number divided by -1 does not fit.
fn quotient(a: i64, b: i64) -> Result<i64, Stop>
    ensures { ReadsAs (spec.unless_zero b (spec.fitted (int_div a b))) OfInt result }
{
    if b == 0 {
        return Err(ZERO_DIVISOR);
    }
    a.checked_div(b).ok_or(OVERFLOW)
}

// With the dividend's sign. The least number leaves 0 when it is divided by -1.
fn remainder(a: i64, b: i64) -> Result<i64, Stop>
    ensures { ReadsAs (spec.unless_zero b (Fine (OfInt (int_rem a b)))) OfInt result }
{
    if b == 0 {
        return Err(ZERO_DIVISOR);
    }
    Ok(a.wrapping_rem(b))
}

/// The negation. That of the least number does not fit.
pub fn negate(a: i64) -> Result<i64, Stop>
    ensures { ReadsAs (spec.fitted (neg_ℤ a)) OfInt result }
{
    a.checked_neg().ok_or(OVERFLOW)
}

/// An operator on two numbers.
pub fn calculate<'a>(op: Op, a: i64, b: i64) -> Result<Sight<'a>, Stop>
    ensures { ReadsAs (spec.calculated op a b) seen_value result }
{
    match op {
        Op::Lt => Ok(Sight::Bool(a < b)),
        Op::Le => Ok(Sight::Bool(a <= b)),
        Op::Gt => Ok(Sight::Bool(a > b)),
        Op::Ge => Ok(Sight::Bool(a >= b)),
        Op::Add => Ok(Sight::Int(sum(a, b)?)),
        Op::Sub => Ok(Sight::Int(difference(a, b)?)),
        Op::Mul => Ok(Sight::Int(product(a, b)?)),
        Op::Div => Ok(Sight::Int(quotient(a, b)?)),
        Op::Rem => Ok(Sight::Int(remainder(a, b)?)),
        Op::Or | Op::And | Op::Eq | Op::Ne => Err(Stop::Lack),
    }
}

/// The integers of an array.
#[tactic(auto, using(ae_values::specs::Shown::shows))]
pub fn numbers(object: &Object) -> Result<&[i64], Stop>
    ensures { ReadsAs (spec.numbers (shown_tree object.now)) list_behind result }
{
    match object {
        Object::Ints(items) => Ok(items.as_slice()),
        Object::Rec { .. } => Err(Stop::Lack),
    }
}

/// How many integers there are.
pub fn count(items: &[i64]) -> i64
    ensures { result ≡ pos (length items.now) }
{
    items.len() as i64
}

/// The item at an index.
pub fn item(items: &[i64], index: i64) -> Result<i64, Stop>
    ensures { ReadsAs (item_of items.now index) OfInt result }
{
    if index < 0 {
        return Err(NO_ITEM);
    }
    match items.get(index as usize) {
        Some(number) => Ok(*number),
        None => Err(NO_ITEM),
    }
}
