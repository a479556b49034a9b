//! A program as a tree and as plain data, the grammar and the limits.
#![tactic(auto)]

mod form;
mod laws;
mod lexeme;
mod limits;
mod tree;
mod types;

pub use form::{Form, Kind, Perm};
pub use laws::{derived_programs_are_well_shaped, this_is_no_declared_name};
pub use lexeme::{Lexeme, Lexical};
pub use limits::Limit;
pub use tree::{
    Block, Call, Class, Decl, Expr, Field, GroupNeed, IO, KindAt, MAIN, Me, Method, Name, NameAt,
    Need, Op, Param, Path, PermAt, Program, Rhs, Stmt, StmtAt, StmtKind, THIS, Ty,
};
pub use types::form_of;
