//! What can be taken of what is held, and what is held once a part is given back.
#![tactic(auto)]

mod share;

pub use share::{give, take};
