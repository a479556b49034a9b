// Which uses go together.
ghost use Rattle.std.specs.Prelude.{◌≡◌};
ghost use Rattle.ae_rules.specs.Edges.{are_compatible};

use ae_rules::Mode;

/// Whether two uses of a resource may go together: two reads may, and two that share a group. Takes no memory.
pub fn compatible(a: Mode, b: Mode) -> bool
    ensures { result ≡ are_compatible a b }
{
    match (a, b) {
        (Mode::Read, Mode::Read) => true,
        (Mode::GroupShared, Mode::GroupShared) => true,
        _ => false,
    }
}
