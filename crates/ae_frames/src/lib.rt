//! Calls entered and left, as the meaning does it.
#![tactic(auto)]

mod arguments;
mod binding;
mod callees;
mod collecting;
mod entering;
mod given;
mod gone;
mod granted;
mod handed;
mod laws;
mod leaving;
mod left;
mod lending;
mod opening;
mod restoring;
mod returned;
mod takers;
mod taking;

pub use entering::{Entered, enter};
pub use laws::{calls_are_entered, calls_are_left, needed_groups_stay};
pub use leaving::leave;
pub use left::Left;
