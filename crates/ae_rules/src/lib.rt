//! The class table, the shares and the judgement of a program, as definitions.
#![tactic(auto)]

mod held;
mod laws;
mod table;
mod uses;

pub use held::{GroupPerm, Held};
pub use laws::{
    a_split_block_is_undone, an_atomic_block_holds_back, broken_rules_are_of_the_language,
    calls_give_back, chains_go_forward, changes_are_used, comparisons_are_exact,
    conflicts_are_first, conflicts_are_ordered, edges_go_forward, effects_are_exact,
    every_block_is_reached, every_slot_is_given, first_broken_rule_is_one, given_away_is_gone,
    held_is_right, judging_keeps_right, lines_add_what_they_declare, mode_tests_are_exact,
    moves_are_told_by_the_text, names_are_of_the_program, nothing_to_take_inside_a_group,
    order_is_of_the_source, order_is_transitive, preds_are_edges, programs_are_accepted_or_broken,
    programs_are_never_both, roots_are_used, statements_are_judged_or_broken,
    statements_are_never_both, statements_keep_what_is_visible, taken_is_given_back,
    taking_tells_permission, uses_are_allowed, uses_inside_are_at_most_the_statements,
    walks_find_no_split, walks_go_by_owners,
};
pub use table::{ClassTable, Member};
pub use uses::{Footprint, Mode, Resource, Use};
