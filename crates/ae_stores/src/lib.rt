//! Writes to fields and items, and a field's value taken out, in a run that is under way.
#![tactic(auto)]

mod emptying;
mod fields;
mod items;
mod moving;
mod places;
mod reaching;
mod slots;
mod taking;

pub use emptying::{copy_standing, take_standing};
pub use fields::store;
pub use items::store_at;
pub use places::{TOO_HIGH, stays_low, write};
pub use taking::take_field;
