//! What reading a part of a program means, its single tokens, paths, group names, permissions and types.
#![tactic(auto)]

mod fail;
mod lists;
mod paths;
mod terminals;
mod types;

pub use fail::{Fail, Why};
pub use lists::{groups, in_front, names};
pub use paths::{path, root, step};
pub use terminals::{
    expect_sign, expect_word, is_end_next, is_name_next, is_sign_next, is_word_next, name, next,
    unexpected,
};
pub use types::{kind, permission, type_};
