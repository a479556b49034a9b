//! What each statement of each block of a method of an accepted program uses.
#![tactic(auto)]

mod blocks;
mod methods;
mod opened;

pub use methods::{method_uses, tabled_of};
