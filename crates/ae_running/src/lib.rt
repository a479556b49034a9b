//! A run that is under way, and what is read in it.
#![tactic(auto)]

mod reads;
mod running;

pub use reads::{int_of, reach, truth_of, value_of, walk, walk_noting};
pub use running::Running;
