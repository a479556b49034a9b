//! What a run reads from and writes to, and the tokens of a source.
#![tactic(auto)]

mod characters;
mod faults;
mod memory;
mod outside;
mod refusal;
mod scan;
mod signs;
mod standard;
mod sure;
#[cfg(test)]
mod tests;
mod texts;
mod token;
mod whole;
mod words;

pub use memory::{MemSink, MemSource};
pub use outside::{Failed, Gate, NoGate, Sink, Source};
pub use refusal::{Deny, Edge, Refusal, Rule, Spot};
pub use scan::{faults_are_unique, lex, places_are_counted, tokens_are_unique};
pub use sqlite_items::{Boxed, Items};
pub use standard::{StdSink, StdSource};
pub use sure::{SureSink, SureSource};
pub use token::{Keyword, Sign, Token, TokenKind};
pub use whole::{Memory, ReadEnd, WriteFault, read_all, write_all};
