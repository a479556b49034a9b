// The values of expressions.
ghost use Rattle.std.specs.Prelude.{IfOk};
ghost use Rattle.ae_tree.specs.declared.tree.Op.TheVariants as op;
ghost use Rattle.ae_tree.specs.Plain.{Read, Item, Length, Binary};
ghost use Rattle.ae_tree.specs.Shown.{expression};
ghost use Rattle.ae_semantics.specs.Expressions as spec;
ghost use Rattle.ae_semantics.specs.Places.{Address};
ghost use Rattle.ae_semantics.specs.Values.{OfInt};
ghost use Rattle.ae_values.specs.Shown.{shown, IsMeasured};
ghost use Rattle.ae_judge.specs.Tabled.{code_of};
ghost use Rattle.ae_reads.specs.Answers.{ReadsAs, AsSeen, as_it_is};
ghost use Rattle.ae_reads.specs.Sights.{seen_value, list_behind, array_in, held_in, opposite, negation};
ghost use Rattle.ae_reads.specs.Views.{place_at};

use crate::bound::local;
use crate::found::{Place, Sight};
use crate::numbers::{calculate, count, item, negate, numbers};
use crate::places::open;
use crate::sight::{copied, number, same, seen, truth};
use crate::stop::Stop;
use crate::walks::walk;
use ae_judge::{Tabled, is_name};
use ae_text::Spot;
use ae_tree::{Expr, Name, Op, Path};
use ae_values::{Env, Val};
use std::alloc::Global;

// An operator on the values of both operands.
fn apply<'a>(op: Op, a: Sight<'a>, b: Sight<'a>) -> Result<Sight<'a>, Stop>
    ensures { ReadsAs (spec.applied op (seen_value a.entry) (seen_value b.entry)) seen_value result }
{
    match op {
        Op::Eq => {
            let equal = same(a, b)?;
            Ok(Sight::Bool(equal))
        }
        Op::Ne => {
            let equal = same(a, b)?;
            Ok(Sight::Bool(!equal))
        }
        Op::Or | Op::And => Err(Stop::Lack),
        Op::Lt | Op::Le | Op::Gt | Op::Ge | Op::Add | Op::Sub | Op::Mul | Op::Div | Op::Rem => {
            let m = number(a)?;
            let n = number(b)?;
            calculate(op, m, n)
        }
    }
}

// What a local holds.
fn read_local<'a>(env: &'a Env, name: Name) -> Result<Sight<'a>, Stop>
    ensures { AsSeen env.now (λ s. ReadsAs (held_in (s.locals name)) seen_value result) }
{
    match local(env, name) {
        Some(found) => Ok(seen(found.value)),
        None => Err(Stop::Lack),
    }
}

// What stands where the steps of a path lead.
fn read_along<'a>(tabled: &Tabled, env: &'a Env, path: &Path) -> Result<Sight<'a>, Stop>
    ensures { AsSeen env.now (λ s. ReadsAs (spec.value (code_of tabled.now) s (Read path.now)) seen_value
        result) }
{
    let place = walk(tabled, env, path)?;
    Ok(seen(place.value))
}

// What stands where a path leads. A bare name is read where its local is bound.
fn read<'a>(tabled: &Tabled, env: &'a Env, path: &Path) -> Result<Sight<'a>, Stop>
    ensures { AsSeen env.now (λ s. ReadsAs (spec.value (code_of tabled.now) s (Read path.now)) seen_value
        result) }
{
    if is_name(path) {
        read_local(env, path.root.name)
    } else {
        read_along(tabled, env, path)
    }
}

// The integers of the array at a place.
fn array<'a>(tabled: &Tabled, env: &'a Env, place: &Place<'a>) -> Result<&'a [i64], Stop>
    ensures { AsSeen env.now (λ s. (at : Address) → ReadsAs
        (array_in (code_of tabled.now) s (place_at at place.now)) list_behind result) }
{
    match open(tabled, env, place) {
        Ok(opened) => numbers(opened.tree.object),
        Err(stop) => Err(stop),
    }
}

// How many integers an array has.
fn length(tabled: &Tabled, env: &Env, path: &Path, at: Spot) -> Result<i64, Stop>
    ensures { AsSeen env.now (λ s. ReadsAs
        (spec.value (code_of tabled.now) s (Length path.now at)) OfInt result) }
{
    let place = walk(tabled, env, path)?;
    match array(tabled, env, &place) {
        Ok(items) => Ok(count(items)),
        Err(stop) => Err(stop),
    }
}

// The same as a value.
fn length_seen<'a>(tabled: &Tabled, env: &'a Env, path: &Path, at: Spot) -> Result<Sight<'a>, Stop>
    ensures { AsSeen env.now (λ s. ReadsAs
        (spec.value (code_of tabled.now) s (Length path.now at)) seen_value result) }
{
    let n = length(tabled, env, path, at)?;
    Ok(Sight::Int(n))
}

// The item of an array: the path is walked, then the index is evaluated, and only then the array is opened.
#[cycle(values)]
#[tactic(auto, using(ae_tree::specs::Shown::shows))]
fn item_at(tabled: &Tabled, env: &Env, path: &Path, index: &Expr) -> Result<i64, Stop>
    ensures { AsSeen env.now (λ s. ReadsAs
        (spec.value (code_of tabled.now) s (Item path.now (expression index.now))) OfInt result) }
{
    let place = walk(tabled, env, path)?;
    let found = look(tabled, env, index)?;
    let n = number(found)?;
    match array(tabled, env, &place) {
        Ok(items) => item(items, n),
        Err(stop) => Err(stop),
    }
}

// The same as a value.
#[cycle(values)]
fn item_seen<'a>(
    tabled: &Tabled,
    env: &'a Env,
    path: &Path,
    index: &Expr,
) -> Result<Sight<'a>, Stop>
    ensures { AsSeen env.now (λ s. ReadsAs
        (spec.value (code_of tabled.now) s (Item path.now (expression index.now))) seen_value result) }
{
    let n = item_at(tabled, env, path, index)?;
    Ok(Sight::Int(n))
}

// The opposite of a truth.
#[cycle(values)]
fn negated<'a>(tabled: &Tabled, env: &'a Env, inner: &Expr) -> Result<Sight<'a>, Stop>
    ensures { AsSeen env.now (λ s. ReadsAs
        (opposite (spec.value (code_of tabled.now) s (expression inner.now))) seen_value result) }
{
    let found = look(tabled, env, inner)?;
    let b = truth(found)?;
    Ok(Sight::Bool(!b))
}

// The negation of a number.
#[cycle(values)]
fn minus<'a>(tabled: &Tabled, env: &'a Env, inner: &Expr) -> Result<Sight<'a>, Stop>
    ensures { AsSeen env.now (λ s. ReadsAs
        (negation (spec.value (code_of tabled.now) s (expression inner.now))) seen_value result) }
{
    let found = look(tabled, env, inner)?;
    let n = number(found)?;
    let negated = negate(n)?;
    Ok(Sight::Int(negated))
}

// The second of two truths, unless the first is false.
#[cycle(values)]
fn unless_false<'a>(tabled: &Tabled, env: &'a Env, a: &Expr, b: &Expr) -> Result<Sight<'a>, Stop>
    ensures { AsSeen env.now (λ s. ReadsAs (spec.value (code_of tabled.now) s
        (Binary op.And (expression a.now) (expression b.now))) seen_value result) }
{
    let first = look(tabled, env, a)?;
    let goes_on = truth(first)?;
    if goes_on {
        look(tabled, env, b)
    } else {
        Ok(Sight::Bool(false))
    }
}

// The second of two truths, unless the first is true.
#[cycle(values)]
fn unless_true<'a>(tabled: &Tabled, env: &'a Env, a: &Expr, b: &Expr) -> Result<Sight<'a>, Stop>
    ensures { AsSeen env.now (λ s. ReadsAs (spec.value (code_of tabled.now) s
        (Binary op.Or (expression a.now) (expression b.now))) seen_value result) }
{
    let first = look(tabled, env, a)?;
    let is_settled = truth(first)?;
    if is_settled {
        Ok(Sight::Bool(true))
    } else {
        look(tabled, env, b)
    }
}

// An operator on two operands, of which `&&` and `||` may not need the second.
#[cycle(values)]
fn both<'a>(tabled: &Tabled, env: &'a Env, op: Op, a: &Expr, b: &Expr) -> Result<Sight<'a>, Stop>
    ensures { AsSeen env.now (λ s. ReadsAs (spec.value (code_of tabled.now) s
        (Binary op (expression a.now) (expression b.now))) seen_value result) }
{
    match op {
        Op::And => unless_false(tabled, env, a, b),
        Op::Or => unless_true(tabled, env, a, b),
        Op::Eq
        | Op::Ne
        | Op::Lt
        | Op::Le
        | Op::Gt
        | Op::Ge
        | Op::Add
        | Op::Sub
        | Op::Mul
        | Op::Div
        | Op::Rem => {
            let first = look(tabled, env, a)?;
            let second = look(tabled, env, b)?;
            apply(op, first, second)
        }
    }
}

// The value of an expression, looked at where it stands. Each form has a function of its own, so that little is made
// ready for each call.
#[cycle(values)]
#[tactic(auto, using(ae_tree::specs::Shown::shows))]
fn look<'a>(tabled: &Tabled, env: &'a Env, expr: &Expr) -> Result<Sight<'a>, Stop>
    ensures { AsSeen env.now (λ s. ReadsAs (spec.value (code_of tabled.now) s (expression expr.now)) seen_value
        result) }
{
    match expr {
        Expr::Int(n, _) => Ok(Sight::Int(*n)),
        Expr::Bool(b, _) => Ok(Sight::Bool(*b)),
        Expr::Null(_) => Ok(Sight::Null),
        Expr::Path(path) => read(tabled, env, path),
        Expr::Index(path, index) => item_seen(tabled, env, path, index.get()),
        Expr::Len(path, at) => length_seen(tabled, env, path, *at),
        Expr::Paren(inner, _) => look(tabled, env, inner.get()),
        Expr::Not(inner, _) => negated(tabled, env, inner.get()),
        Expr::Neg(inner, _) => minus(tabled, env, inner.get()),
        Expr::Bin(op, a, b) => both(tabled, env, *op, a.get(), b.get()),
    }
}

/// The integer that an expression comes to, or its first fault from left to right. No value is copied. Takes memory for
/// the groups of forms alone.
pub fn int_of(tabled: &Tabled, env: &Env, expr: &Expr) -> Result<i64, Stop>
    ensures { AsSeen env.now (λ s. ReadsAs (spec.number_of (code_of tabled.now) s (expression expr.now)) as_it_is
        result) }
{
    let found = look(tabled, env, expr)?;
    number(found)
}

/// The truth that an expression comes to, or its first fault from left to right. No value is copied. Takes memory for
/// the groups of forms alone.
pub fn truth_of(tabled: &Tabled, env: &Env, expr: &Expr) -> Result<bool, Stop>
    ensures { AsSeen env.now (λ s. ReadsAs (spec.truth_of (code_of tabled.now) s (expression expr.now)) as_it_is
        result) }
{
    let found = look(tabled, env, expr)?;
    truth(found)
}

/// The value that an expression comes to, as one of its own, or its first fault from left to right. Only a tree to
/// which a path leads is copied.
pub fn value_of(alloc: Global, tabled: &Tabled, env: &Env, expr: &Expr) -> Result<Val, Stop>
    ensures value { AsSeen env.now (λ s. ReadsAs (spec.value (code_of tabled.now) s (expression expr.now)) shown
        result) }
    ensures measured { IfOk result IsMeasured }
{
    let found = look(tabled, env, expr)?;
    let value = copied(alloc, found)?;
    Ok(value)
}
