// The values of expressions.
ghost use Rattle.std.specs.Prelude.{◌≡◌, ◌≢◌, pos, neg_ℤ, int_div, int_rem};
ghost use Rattle.ae_tree.specs.Shown.{expression};
ghost use Rattle.ae_meaning.specs.Values.{Fine, today_value, today_found, today_fitted, today_unless_zero};
ghost use Rattle.ae_meaning.specs.Values.{today_applied, stepped};
ghost use Rattle.ae_meaning.specs.Running.{env_of, Comes};

use crate::locals::Locals;
use ae_tree::{Expr, Op, Path};

/// Why an expression has no value: it traps, or it has a form that does not run yet or a name without a value.
#[derive(Clone, Copy, Debug, PartialEq, Eq)]
pub enum Fault {
    Trap(u8),
    Lack,
}

const OVERFLOW: Fault = Fault::Trap(1);

const ZERO_DIVISOR: Fault = Fault::Trap(2);

// Cut towards zero. The least number divided by -1 does not fit.
fn quotient(a: i64, b: i64) -> Result<i64, Fault>
    ensures { Comes (today_unless_zero b (today_fitted (int_div a b))) result }
{
    if b == 0 {
        return Err(ZERO_DIVISOR);
    }
    a.checked_div(b).ok_or(OVERFLOW)
}

// With the dividend's sign. The least number leaves 0 when it is divided by -1.
fn remainder(a: i64, b: i64) -> Result<i64, Fault>
    ensures { Comes (today_unless_zero b (Fine (int_rem a b))) result }
{
    if b == 0 {
        return Err(ZERO_DIVISOR);
    }
    Ok(a.wrapping_rem(b))
}

fn apply(op: Op, a: i64, b: i64) -> Result<i64, Fault>
    ensures { Comes (today_applied op a b) result }
{
    match op {
        Op::Add => a.checked_add(b).ok_or(OVERFLOW),
        Op::Sub => a.checked_sub(b).ok_or(OVERFLOW),
        Op::Mul => a.checked_mul(b).ok_or(OVERFLOW),
        Op::Div => quotient(a, b),
        Op::Rem => remainder(a, b),
        Op::Or | Op::And | Op::Eq | Op::Ne | Op::Lt | Op::Le | Op::Gt | Op::Ge => Err(Fault::Lack),
    }
}

// The negation of the least number does not fit.
fn negate(a: i64) -> Result<i64, Fault>
    ensures { Comes (today_fitted (neg_ℤ a)) result }
{
    a.checked_neg().ok_or(OVERFLOW)
}

// A local's value. Fields are not read yet.
fn read(path: &Path, locals: &Locals) -> Result<i64, Fault>
    ensures { Comes (stepped path.now.steps (today_found (env_of locals.now path.now.root.name))) result }
{
    if !path.steps.is_empty() {
        return Err(Fault::Lack);
    }
    locals.get(path.root.name).ok_or(Fault::Lack)
}

/// The value of an expression, or its first fault from left to right.
#[tactic(auto, using(crate::proofs::Rules::forms))]
pub fn value_of(expr: &Expr, locals: &Locals) -> Result<i64, Fault>
    ensures { Comes (today_value (expression expr.now) (env_of locals.now)) result }
{
    match expr {
        Expr::Int(n, _) => Ok(*n),
        Expr::Path(path) => read(path, locals),
        Expr::Paren(inner, _) => value_of(inner.get(), locals),
        Expr::Neg(inner, _) => negate(value_of(inner.get(), locals)?),
        Expr::Bin(op, a, b) => {
            let x = value_of(a.get(), locals)?;
            let y = value_of(b.get(), locals)?;
            apply(*op, x, y)
        }
        Expr::Bool(..) | Expr::Null(_) | Expr::Index(..) | Expr::Len(..) | Expr::Not(..) => {
            Err(Fault::Lack)
        }
    }
}
