// The names that are given away with the arguments of a call.
ghost use Rattle.std.specs.Prelude.{◌≡◌, None, IfOk, zip, filter_map, slice_get};
ghost use Rattle.ae_rules.specs.Verdict.{given};
ghost use Rattle.ae_tree.specs.Shown.{invocation};
ghost use Rattle.ae_rules.specs.Calls.{givens};
ghost use Rattle.ae_semantics.specs.Calls as spec;
ghost use Rattle.ae_frames.specs.Asking as view;
ghost use Rattle.ae_frames.specs.Givens.{taker_of, takers_of};

use crate::given::Parameter;
use crate::handed::{Handed, handed_at};
use ae_judge::{moves, name_into};
use ae_text::Memory;
use ae_tree::{Call, Form, Name};
use std::alloc::Global;

/// The name that goes away with what a parameter is given. Takes no memory.
pub(crate) fn given_away(taker: &Parameter, handed: Handed) -> Option<Name>
    ensures { result ≡ spec.given_away (taker_of taker.now, view.handed handed.entry) }
{
    if !taker.slot.away {
        return None;
    }
    match handed {
        Handed::Receiver(path) => match &taker.slot.form {
            Form::Int | Form::Bool => None,
            Form::Object(perm, _) => moves(*perm, path),
        },
        Handed::Written(expr) => name_into(&taker.slot.form, expr),
    }
}

// The name that goes away with what this parameter is given, by the parameter's number.
fn given_away_at(taker: &Parameter, call: &Call, at: usize) -> Option<Name>
    ensures { result ≡ given (slice_get (givens (invocation call.now)) at) None (λ e. spec.given_away (
      taker_of
          taker.now,
      e,
    )) }
{
    match handed_at(call, at) {
        Some(handed) => given_away(taker, handed),
        None => None,
    }
}

/// The names that are given away with a call, in the order of the parameters. Takes memory for them.
pub(crate) fn all_given_away(
    alloc: Global,
    takers: &[Parameter],
    call: &Call,
) -> Result<Vec<Name>, Memory>
    ensures { IfOk result (λ xs. xs.items
        ≡ filter_map spec.given_away (zip (takers_of takers.now) (givens (invocation call.now)))) }
{
    let mut gone = Vec::new(alloc);
    for at in 0..takers.len() {
        if let Some(name) = given_away_at(&takers[at], call, at) {
            match gone.push(name) {
                Ok(()) => {}
                Err(_) => return Err(Memory),
            }
        }
    }
    Ok(gone)
}
