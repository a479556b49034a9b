//! The class table of a program: that its declarations go together, and what each name stands for.
#![tactic(auto)]

mod answer;
mod declarations;
mod known;
mod lookups;
mod main_method;
mod members;
mod names;
mod table;
mod tops;
mod types;

pub use known::KnownGroups;
pub use lookups::class_called;
pub use table::build;
pub use types::{forms_kind, forms_perm, forms_type, groups_fit, is_group};
