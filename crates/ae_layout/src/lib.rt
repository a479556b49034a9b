//! The canonical layout of a program, and its laws.
#![tactic(auto)]

mod laws;
mod print_decl;
mod print_expr;
mod print_stmt;
mod spell;

pub use laws::{a_layout_is_read_as_the_program, layout_has_the_tokens_again};
pub use print_decl::print_program;
