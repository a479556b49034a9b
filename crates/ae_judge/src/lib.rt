//! Walks, expressions, what goes into a form, and writes to fields and items, judged by the rules.
#![tactic(auto)]

mod answer;
mod fitting;
mod forms;
mod groups;
mod lookups;
mod stores;
mod tabled;
mod values;
mod walks;

pub use answer::deny;
pub use fitting::{
    Source, into, into_immutable, into_shared, is_held_alone, made_into, may_leave, moves,
    name_into, source_in,
};
pub use forms::{
    bare_names, copy_form, form_with, groups_of, in_place, is_ints, is_object, is_object_of,
    is_same_kind, is_same_names, is_same_perm, is_same_value, is_unique, names_with, perm_with,
};
pub use groups::{forms_type, groups_fit, is_group};
pub use lookups::{
    ClassAt, FieldAt, class_called, class_of, field_called, field_form, field_in, member_called,
};
pub use stores::{judge_store, judge_store_at, judge_take};
pub use tabled::Tabled;
pub use values::{Scalar, expression_spot, holds_nothing, is_value, judge_value};
pub use walks::{
    Place, access, group_access, held_in_field, held_inside, is_name, owner_write_access,
    root_place, step, walk, without_last, write_access,
};
