//! Reads a program from its tokens.
#![tactic(auto)]

mod classes;
mod declarations;
mod laws;
mod methods;
mod needs;
mod numbers;
mod params;
mod places;
mod program;

pub use laws::{programs_are_not_refused, refusals_are_unique, tokens_stand_for_one_program};
pub use program::parse;
