//! Values with their heights, the members of groups, and what is bound under names.
#![tactic(auto)]

mod env;
mod laws;
mod places;
mod store;
#[cfg(test)]
mod tests;
mod value;

pub use env::{Bind, Bound, Env, Image, with_perm};
pub use laws::{binds_change_one_name, groups_change, locals_change};
pub use store::Store;
pub use value::{Object, Val};
