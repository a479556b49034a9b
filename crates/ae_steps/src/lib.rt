//! That what is to be done of a statement is done step by step, as laws on the meaning.
#![tactic(auto)]

mod laws;

pub use laws::{stacks_are_done_step_by_step, steps_come_to_an_end};
