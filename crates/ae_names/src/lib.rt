//! The names of a call against what is known at a statement, as laws.
#![tactic(auto)]

mod laws;

pub use laws::{declared_names_are_free, names_are_known, names_end_with_a_block};
