//! What may run together: which statements of a block wait for which, and the text of the graphs of a program.
#![tactic(auto)]

mod block;
mod drawable;
mod preds;
mod rising;
mod succs;
mod text;
mod waits;

pub use ae_rules::{Footprint, Mode, Resource, Use};
pub use ae_uses::compatible;
pub use block::BlockGraph;
pub use text::graph_text;
