// What is told of a run.
use ae_text::{Items, Spot};

/// How a run ended: it went through, or stopped at a trap or for want of fuel, at this place.
#[derive(Clone, Copy, Debug, PartialEq, Eq)]
pub enum Ending {
    Done,
    Trap { code: u8, at: Spot },
    Fuel { at: Spot },
}

/// What was printed at once, with the path of its statement.
#[derive(Debug, Drop)]
pub struct Piece {
    pub path: Items<u64>,
    pub bytes: Items<u8>,
}

/// A statement that ran, or a loop from a turn on, with its place, and when it began and ended.
#[derive(Debug, Drop)]
pub struct TraceLine {
    pub path: Items<u64>,
    pub at: Spot,
    pub began: u64,
    pub ended: u64,
}
