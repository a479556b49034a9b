//! What is known of groups, and what the rules ask of them.
#![tactic(auto)]

mod answer;
mod atomic;
mod calls;
mod context;
mod needed;
mod split;
mod start;

pub use answer::deny;
pub use context::GroupContext;
pub use needed::NeededGroups;
pub use start::{permission_at_start, permission_needed};
