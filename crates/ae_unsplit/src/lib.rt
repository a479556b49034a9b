//! Which programs split nothing, and that no text declares the name `this`.
#![tactic(auto)]

mod laws;
mod unsplit;

pub use laws::texts_have_this_free;
pub use unsplit::is_unsplit;
