// Why there is no answer.
ghost use Rattle.std.specs.Prelude.{◌≡◌};

use std::alloc::AllocError;

/// Why there is no answer: the meaning traps, or lacks what an accepted program always has, or memory was refused.
#[derive(Clone, Copy, Debug, PartialEq, Eq)]
pub enum Stop {
    Trap(u8),
    Lack,
    Memory,
}

impl From<AllocError> for Stop {
    ghost use Rattle.ae_reads.specs.declared.stop.Stop.{Stop};

    ghost from_gives = { λ _ e. e ≡ Stop.Memory };

    fn from(_error: AllocError) -> Stop {
        Stop::Memory
    }
}
