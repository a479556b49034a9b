//! How `main` and called methods begin, as laws.
#![tactic(auto)]

mod laws;

pub use laws::{entered_names_are_known, main_begins, names_stand_apart};
