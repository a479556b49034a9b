// What a run comes to.
use ae_text::{Items, Spot};

/// How a run ended: it went through, or stopped at a trap or for want of fuel, at this place.
#[derive(Clone, Copy, Debug, PartialEq, Eq)]
pub enum Ending {
    Done,
    Trap { code: u8, at: Spot },
    Fuel { at: Spot },
}

/// The meaning of a program: its ending, where it has one, and the bytes printed up to there.
#[derive(Debug, Drop)]
pub struct Meant {
    pub ending: Option<Ending>,
    pub out: Items<u8>,
}

/// What a run answers: its ending and the bytes printed.
#[derive(Debug, Drop)]
pub struct RunReport {
    pub ending: Ending,
    pub out: Items<u8>,
}
