//! Another order of running than the written one.
#![tactic(auto)]

mod course;
mod queue;
mod schedule;

pub use ae_meaning::{Ending, RunReport};
pub use schedule::run;
