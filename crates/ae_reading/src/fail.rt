// Why a step of the parser gave no tree.
use ae_tree::Limit;
use std::alloc::AllocError;

/// What is wrong with a token.
#[derive(Clone, Copy, Debug, PartialEq, Eq)]
pub enum Why {
    /// No program goes on with it.
    Unexpected,
    /// Each program that goes on with it is over this limit.
    Over(Limit),
}

/// Why no tree was read.
#[derive(Clone, Copy, Debug, PartialEq, Eq)]
pub enum Fail {
    /// A token is refused. From it on, this many are left.
    Refused(Why, usize),
    Memory,
}

impl From<AllocError> for Fail {
    ghost use Rattle.std.specs.Prelude.{◌≡◌};
    ghost use Rattle.ae_reading.specs.declared.fail.Fail.TheVariants.{Memory};

    ghost from_gives = { λ _ e. e ≡ Memory };

    fn from(_error: AllocError) -> Fail {
        Fail::Memory
    }
}
