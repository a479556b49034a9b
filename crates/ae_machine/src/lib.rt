//! A program run in source order: the frames of a run that is under way stand on the heap.
#![tactic(auto)]

mod begin;
mod calls;
mod frame;
mod machine;
mod receiving;
mod statements;
mod steps;
mod task;
mod turns;

pub use frame::{Frame, Rest, Target, Turns, Waiting};
pub use machine::{Meant, evaluate};
pub use task::Task;
