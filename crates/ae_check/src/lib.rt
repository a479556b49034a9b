//! The judgement of statements, methods and programs.
#![tactic(auto)]

mod blocks;
mod escapes;
mod laws;
mod methods;
mod program;
mod simple;

pub use blocks::judge_stmt;
pub use laws::judging_stays_ready;
pub use methods::{end_method, judge_method, start};
pub use program::check_program;
pub use simple::{
    judge_assign, judge_freeze, judge_let, judge_return, judge_share, judge_simple, prints, release,
};
