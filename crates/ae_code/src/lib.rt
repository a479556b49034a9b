//! Accepted programs with their class tables, and the types that the crates above go by.
#![tactic(auto)]

mod checked;

pub use ae_layout::print_program;
pub use ae_rules::{ClassTable, Member};
pub use ae_tree::{
    Block, Call, Class, Decl, Expr, Field, Form, GroupNeed, Kind, KindAt, Me, Method, Name, NameAt,
    Need, Op, Param, Path, Perm, PermAt, Program, Rhs, Stmt, StmtAt, StmtKind, Ty, form_of,
};
pub use checked::Checked;
