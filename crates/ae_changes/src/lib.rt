//! What an accepted statement changes: only what it writes, as laws on the rules and the meaning.
#![tactic(auto)]

mod laws;

pub use laws::{
    acts_change_as_used, beginnings_are_apart, bodies_change_as_used, calls_begin_apart,
    calls_change_as_used, names_stay_apart, statements_change_as_used, staying_parameters_stay,
    unwritten_groups_stay,
};
