//! Laws on what one part of the language has to do with another.
#![tactic(auto)]

mod laws;

pub use laws::today_is_a_case;
