// What the arguments of a call come to.
ghost use Rattle.std.specs.Prelude.{◌≡◌, MatchOption, IfOk, None, true, false, ◌&&◌, ◌||◌, option_map};
ghost use Rattle.ae_tree.specs.Plain.{Read};
ghost use Rattle.ae_tree.specs.Shown.{expression, invocation};
ghost use Rattle.ae_rules.specs.Verdict.{given};
ghost use Rattle.ae_rules.specs.Calls.{givens};
ghost use Rattle.ae_semantics.specs.Calls as spec;
ghost use Rattle.ae_semantics.specs.Calls.{value_comes_back};
ghost use Rattle.ae_calls.specs.Param.{slot_of};
ghost use Rattle.ae_judge.specs.Tabled.{code_of};
ghost use Rattle.ae_semantics.specs.Places.{InLocal};
ghost use Rattle.ae_reads.specs.Answers.{ReadsAs};
ghost use Rattle.ae_reads.specs.Views.{base_of};
ghost use Rattle.ae_running.specs.Seen.{seen};
ghost use Rattle.ae_frames.specs.Asking as view;
ghost use Rattle.ae_frames.specs.Asking.{asked_in, all_asked, is_in_local, is_name, is_spared, taker_seen, AreSpared};
ghost use Rattle.ae_frames.specs.Givens.{is_path, argument_of, taker_of, takers_of};

use crate::given::{Arg, Asked, Origin, Parameter, Standing};
use crate::gone::given_away;
use crate::handed::{Handed, handed_at};
use ae_calls::ParamSlot;
use ae_judge::{Tabled, is_unique};
use ae_reads::{Base, Stop};
use ae_running::{Running, value_of, walk_noting};
use ae_tree::{Call, Expr, Name, Path};

// The path that an expression is, if it is one.
#[tactic(auto, using(ae_tree::specs::Shown::shows))]
fn path_in(expr: &Expr) -> Option<&Path>
    ensures { MatchOption result (is_path (expression expr.now) ≡ false)
        (λ path. expression expr.now ≡ Read path.now) }
{
    match expr {
        Expr::Path(path) => Some(path),
        Expr::Int(..)
        | Expr::Bool(..)
        | Expr::Null(_)
        | Expr::Index(..)
        | Expr::Len(..)
        | Expr::Paren(..)
        | Expr::Not(..)
        | Expr::Neg(..)
        | Expr::Bin(..) => None,
    }
}

/// Whether what a parameter of this slot holds comes back. Takes no memory.
pub(crate) fn comes_back(slot: &ParamSlot) -> bool
    ensures { result ≡ value_comes_back (slot_of slot.now) }
{
    is_unique(&slot.form) && !slot.away
}

// Whether this is the name that goes away.
fn is_gone(name: Name, gone: Option<Name>) -> bool
    ensures { result ≡ is_name name gone }
{
    match gone {
        Some(other) => name == other,
        None => false,
    }
}

// The local in which a value stands that the caller does not keep, if it stands in one.
fn spared_local(base: Base, comes: bool, gone: Option<Name>) -> Option<Name>
    ensures { MatchOption result (comes && is_in_local (base_of base) ≡ false)
        (λ x. (base_of base ≡ InLocal x) × (comes || is_name x gone ≡ true)) }
{
    match base {
        Base::Local(name) => {
            if comes || is_gone(name, gone) {
                Some(name)
            } else {
                None
            }
        }
        Base::Member(_) => None,
    }
}

// The value of a path, with its place: where the caller does not keep it, and it stands in a local, it is not copied.
fn path_asked(
    tabled: &Tabled,
    run: &Running,
    path: &Path,
    comes: bool,
    gone: Option<Name>,
) -> Result<Asked, Stop>
    ensures asked { ReadsAs (spec.argument (code_of tabled.now) (seen run.now) (Read path.now)) (asked_in (seen run.now))
        result }
    ensures spared { IfOk result (λ x. is_spared comes gone x ≡ true) }
{
    let mut fields = Vec::new(tabled.alloc);
    let found = match walk_noting(tabled, run, path, &mut fields) {
        Ok(found) => found,
        Err(stop) => return Err(stop),
    };
    let base = found.base;
    match spared_local(base, comes, gone) {
        Some(name) => Ok(Asked::Stands(Standing { name, fields })),
        None => {
            let value = found.place.value.copy(tabled.alloc)?;
            Ok(Asked::Read(Arg {
                value,
                from: Some(Origin { base, fields }),
            }))
        }
    }
}

// The value of an expression, with the place of a path.
fn written_asked(
    tabled: &Tabled,
    run: &Running,
    expr: &Expr,
    comes: bool,
    gone: Option<Name>,
) -> Result<Asked, Stop>
    ensures asked { ReadsAs (spec.argument (code_of tabled.now) (seen run.now) (expression expr.now))
        (asked_in (seen run.now)) result }
    ensures spared { IfOk result (λ x. is_spared comes gone x ≡ true) }
{
    match path_in(expr) {
        Some(path) => path_asked(tabled, run, path, comes, gone),
        None => {
            let value = value_of(tabled, run, expr)?;
            Ok(Asked::Read(Arg { value, from: None }))
        }
    }
}

// What a parameter is given, where it is known whether that comes back and which name goes away with it.
fn one_asked(
    tabled: &Tabled,
    run: &Running,
    handed: Handed,
    comes: bool,
    gone: Option<Name>,
) -> Result<Asked, Stop>
    ensures asked { ReadsAs (spec.argument (code_of tabled.now) (seen run.now) (view.handed handed.entry))
        (asked_in (seen run.now)) result }
    ensures spared { IfOk result (λ x. is_spared comes gone x ≡ true) }
{
    match handed {
        Handed::Receiver(path) => path_asked(tabled, run, path, comes, gone),
        Handed::Written(expr) => written_asked(tabled, run, expr, comes, gone),
    }
}

// The same by the parameter, if there is one for it.
fn asked(
    tabled: &Tabled,
    run: &Running,
    taker: Option<&Parameter>,
    handed: Handed,
) -> Result<Asked, Stop>
    ensures asked { ReadsAs (spec.argument (code_of tabled.now) (seen run.now) (view.handed handed.entry))
        (asked_in (seen run.now)) result }
    ensures spared { IfOk result (λ x. is_spared
        (given (option_map taker_seen taker.entry) false (λ t. value_comes_back t.1))
        (given (option_map taker_seen taker.entry) None (λ t. spec.given_away (t, view.handed handed.entry))) x ≡ true) }
{
    match taker {
        Some(taker) => {
            let comes = comes_back(&taker.slot);
            let gone = given_away(taker, handed);
            one_asked(tabled, run, handed, comes, gone)
        }
        None => one_asked(tabled, run, handed, false, None),
    }
}

/// What the receiver and the arguments of a call come to, from left to right, or the first fault, where these are the
/// parameters. Values that stand in locals and that the caller does not keep are not copied; all others are, and the
/// place of a path is noted.
pub(crate) fn arguments(
    tabled: &Tabled,
    run: &Running,
    takers: &[Parameter],
    call: &Call,
) -> Result<Vec<Asked>, Stop>
    ensures asked { ReadsAs (spec.each_argument (code_of tabled.now) (seen run.now) (givens (invocation call.now)))
        (all_asked (seen run.now)) result }
    ensures spared { IfOk result (λ xs. AreSpared (takers_of takers.now) (givens (invocation call.now)) xs.items) }
{
    let mut args = Vec::new(tabled.alloc);
    while let Some(handed) = handed_at(call, args.len()) {
        let arg = match asked(tabled, run, takers.get(args.len()), handed) {
            Ok(arg) => arg,
            Err(stop) => return Err(stop),
        };
        match args.push(arg) {
            Ok(()) => {}
            Err(_) => return Err(Stop::Memory),
        }
    }
    Ok(args)
}
