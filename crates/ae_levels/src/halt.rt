// Why a run goes on no further.
ghost use Rattle.std.specs.Prelude.{◌≡◌};
ghost use Rattle.ae_levels.specs.Halting.{halt_at};

use ae_reads::Stop;
use ae_semantics::Ending;
use ae_text::Spot;

/// Why a run goes on no further: it has this ending, or lacks what an accepted program always has, or memory was
/// refused.
#[derive(Clone, Copy, Debug, PartialEq, Eq)]
pub enum Halt {
    Ends(Ending),
    Lack,
    Memory,
}

/// A stop at a statement that stands here. Takes no memory.
pub fn stopped_at(stop: Stop, at: Spot) -> Halt
    ensures { result ≡ halt_at at stop }
{
    match stop {
        Stop::Trap(code) => Halt::Ends(Ending::Trap { code, at }),
        Stop::Lack => Halt::Lack,
        Stop::Memory => Halt::Memory,
    }
}
