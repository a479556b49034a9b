// What the top call answers.
use ae_semantics::Ending;
use ae_text::{Items, Refusal};

/// What the words ask for.
#[derive(Clone, Copy, Debug, PartialEq, Eq)]
pub enum Command {
    Check,
    Graph,
    Run,
}

/// What is wrong with the command words.
#[derive(Clone, Copy, Debug, PartialEq, Eq)]
pub enum UsageKind {
    /// There is no word.
    NoMode,
    /// The first word is no mode.
    UnknownMode,
    /// The words behind the mode are not those that it takes.
    Words,
}

/// What is told of a run: how it ended, and the bytes printed up to there.
#[derive(Debug, Drop)]
pub struct Report {
    pub ending: Ending,
    pub out: Items<u8>,
}

/// What was done.
#[derive(Debug, Drop)]
pub enum What {
    Usage(UsageKind),
    ReadFault,
    Refused(Refusal),
    Checked,
    Graph(Items<u8>),
    Ran(Report),
    Memory,
}

/// The status of the process, what was done, and how many bytes of the text were written where the sink failed.
#[derive(Debug, Drop)]
pub struct Answer {
    pub status: u8,
    pub what: What,
    pub cut: Option<u64>,
}
