//! Paths walked and expressions evaluated over an environment, as the meaning does it.
#![tactic(auto)]

mod bound;
mod found;
mod laws;
mod numbers;
mod places;
mod sight;
mod stop;
mod values;
mod walks;

pub use bound::local;
pub use found::{
    Base, BoundLocal, FieldFound, Found, MemberOf, Opened, Place, PlaceForm, Reached, Stepped, Tree,
};
pub use laws::reads_see_no_cells;
pub use places::{field_found, open, step};
pub use stop::Stop;
pub use values::{int_of, truth_of, value_of};
pub use walks::{reach, walk, walk_noting};
