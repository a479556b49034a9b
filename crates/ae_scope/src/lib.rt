//! What is known at a statement: the visible locals with what is held of them, and the known groups.
#![tactic(auto)]

mod regroup;
mod scope;
mod slot;
mod undo;

pub use scope::Scope;
pub use slot::{Change, GroupChange, Mark, Slot, held_of, is_same_held};
