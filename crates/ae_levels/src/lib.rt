//! The levels of a run that is under way, blocks, loops and calls, against what is still to be done, as laws.
#![tactic(auto)]

mod ground;
mod halt;
mod laws;

pub use halt::{Halt, stopped_at};
pub use laws::{
    blocks_open_and_end, calls_come_back, levels_cost_less, loops_turn, runs_mean_so,
    statements_go_on,
};
