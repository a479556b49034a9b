// What a call hands over, one after another.
ghost use Rattle.std.specs.Prelude.{◌≡◌, option_map, slice_get};
ghost use Rattle.ae_tree.specs.Shown.{invocation};
ghost use Rattle.ae_rules.specs.Calls.{givens};
ghost use Rattle.ae_frames.specs.Asking.{handed};

use ae_tree::{Call, Expr, Path};

/// What a parameter is given: the path of the receiver, or an expression.
#[derive(Clone, Copy)]
pub enum Handed<'a> {
    Receiver(&'a Path),
    Written(&'a Expr),
}

/// What a call hands over with this number: the receiver goes before the arguments. Takes no memory.
pub(crate) fn handed_at(call: &Call, at: usize) -> Option<Handed<'_>>
    ensures { option_map handed result ≡ slice_get (givens (invocation call.now)) at }
{
    match &call.on {
        Some(path) => {
            if at == 0 {
                return Some(Handed::Receiver(path));
            }
            match call.args.get(at - 1) {
                Some(expr) => Some(Handed::Written(expr)),
                None => None,
            }
        }
        None => match call.args.get(at) {
            Some(expr) => Some(Handed::Written(expr)),
            None => None,
        },
    }
}
