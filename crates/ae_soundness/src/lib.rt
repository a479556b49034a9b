//! What an accepted program never lacks, as laws on the rules and the meaning.
#![tactic(auto)]

mod laws;

pub use laws::{
    accepted_meanings_end, accepted_runs_never_lack, beginnings_fit, calls_are_entered,
    calls_are_left, calls_keep_standing, fields_are_of_groups, fields_are_there, groups_come_back,
    members_may_come_back, methods_give_back, methods_have_members, names_go_away,
    objects_are_reached, paths_are_found, returns_give_results, slots_are_found,
    statements_without_calls_fit, values_are_found, values_come_back, what_goes_in_fits,
};
