//! Statements without blocks and calls, done in a run that is under way, as the meaning does them.
#![tactic(auto)]

mod changes;
mod groups;
mod laws;
mod lets;
mod objects;
mod prints;
mod statement;
mod values;

pub use changes::{assign, declare};
pub use laws::acts_are_the_meaning;
pub use statement::act;
