//! The meaning of a program, in source order.
#![tactic(auto)]

mod law;
mod locals;
mod report;
mod run;
mod value;

pub use law::{
    accepted_programs_end, order_is_free, statements_add_to_the_log, statements_apart_commute,
    statements_change_what_they_write, statements_depend_on_what_they_read,
    statements_read_what_they_use, taking_keeps_ending, values_are_told_by_what_is_read,
};
pub use locals::Locals;
pub use report::{Ending, Meant, RunReport};
pub use run::{Running, Stop, evaluate, run_stmt};
