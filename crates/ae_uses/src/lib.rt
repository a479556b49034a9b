//! What expressions, calls and statements without blocks use, over a scope.
#![tactic(auto)]

mod calls;
mod footprint;
mod judged;
mod modes;
mod opened;
mod outside;
mod paths;
mod simple;
mod statements;
mod used;
mod values;

pub use modes::compatible;
pub use opened::OpenedBlock;
pub use statements::simple_used;
pub use used::Used;
pub use values::value_used;
