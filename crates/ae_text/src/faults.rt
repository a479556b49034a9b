// Why a scan stops.
use crate::refusal::{Deny, Rule};
use std::alloc::AllocError;

// A broken rule and how many bytes further it stands, or no memory.
#[derive(Clone, Copy)]
pub enum Fault {
    Rule(Rule, usize),
    Memory,
}

impl From<AllocError> for Fault {
    ghost use Rattle.std.specs.Prelude.{◌≡◌};
    ghost use Rattle.ae_text.specs.declared.faults.Fault.TheVariants.{Memory};

    ghost from_gives = { λ _ e. e ≡ Memory };

    fn from(_error: AllocError) -> Fault {
        Fault::Memory
    }
}

impl From<AllocError> for Deny {
    ghost use Rattle.std.specs.Prelude.{◌≡◌};
    ghost use Rattle.ae_text.specs.declared.refusal.Deny.TheVariants.{Memory};

    ghost from_gives = { λ _ e. e ≡ Memory };

    fn from(_error: AllocError) -> Deny {
        Deny::Memory
    }
}
