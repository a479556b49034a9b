//! What statements need of a state, as laws: from states that agree on what is used a statement goes alike.
#![tactic(auto)]

mod laws;

pub use laws::{acts_read_what_they_use, calls_read_what_they_use, statements_read_what_they_use};
