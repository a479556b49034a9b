// What a caller lends, and what comes back to it.
ghost use Rattle.std.specs.Prelude.{◌≡◌, true};
ghost use Rattle.ae_frames.specs.Bounds.{is_lendable};

use ae_reads::Base;
use ae_tree::Name;
use ae_values::Bound;

/// What a method gets of a group that it needs, under the need's name.
#[derive(Drop)]
pub struct Granted {
    pub group: Name,
    pub bound: Bound,
    pub ghost lendable: { is_lendable bound ≡ true },
}

/// A group of a method that was lent, and the caller's name under which it stood and stands again.
#[derive(Clone, Copy, Debug)]
pub struct Lent {
    pub group: Name,
    pub holder: Name,
}

/// A parameter of which what it holds comes back to this place.
#[derive(Drop)]
pub struct Back {
    pub name: Name,
    pub base: Base,
    pub fields: Vec<u32>,
}
