//! New objects, calls and right sides, judged by the rules.
#![tactic(auto)]

mod callees;
mod calls;
mod filling;
mod giving;
mod needs;
mod params;
mod rights;
mod roots;

pub use callees::{Callee, judge_callee, method_at};
pub use calls::{Called, judge_call};
pub use filling::{Filled, Made, judge_new};
pub use giving::{Given, ObjectSlot};
pub use needs::needs_met;
pub use params::{GroupsIn, MeSlot, ParamSlot, groups_in, me_slot, param_slot};
pub use rights::judge_right;
pub use roots::Roots;
