// What was taken out of a callee, to come back to its caller.
ghost use Rattle.std.specs.Prelude.{◌≡◌, true, IsTrue};
ghost use Rattle.ae_running.specs.Results.{result_measured};
ghost use Rattle.ae_frames.specs.Bounds.{has_group_shape};

use ae_reads::Base;
use ae_tree::Name;
use ae_values::{Bound, Val};

/// What a parameter held at the end, if it held a value, and the place to which it comes back.
#[derive(Drop)]
pub struct Came {
    pub base: Base,
    pub fields: Vec<u32>,
    pub value: Option<Val>,
    pub ghost measured: { IsTrue (result_measured value) },
}

/// A group that was lent, and the caller's name under which it stands again.
#[derive(Drop)]
pub struct Returned {
    pub holder: Name,
    pub bound: Bound,
    pub ghost grouped: { has_group_shape bound ≡ true },
}
