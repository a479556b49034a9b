//! Reads calls, right sides, statements and blocks.
#![tactic(auto)]

mod blocks;
mod bodies;
mod calls;
mod decide;
mod deep;
mod led;
mod simple;
mod values;

pub use bodies::body;
