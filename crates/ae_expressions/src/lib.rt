//! Reads an expression from its tokens.
#![tactic(auto)]

mod expressions;
mod operators;
mod paths;
mod starts;

pub use expressions::expression;
