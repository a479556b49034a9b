//! Values and the meaning of every form of the language, as definitions.
#![tactic(auto)]

mod laws;
mod report;

pub use laws::{
    answering_keeps_rows_right, asks_are_located, atom_asks_nothing, contexts_are_judged,
    entering_keeps_reached, fitting_answers_are_low, fresh_is_stamped, fresh_rows_are_reached,
    fresh_rows_are_stamped, fresh_rows_stand_for, fresh_stands_for, leaving_out_keeps_reached,
    looping_keeps_reached, more_observations_change_nothing, nothing_begun_is_after_the_ending,
    reported_cells_are_fixed, run_goes_by_its_answers, run_goes_further_with_more,
    runs_go_past_what_stopped, stage_keeps_rows_right, starting_keeps_reached,
    statement_goes_by_its_answers, statement_goes_further_with_more,
    statement_stays_with_more_answers, statements_go_past_what_stopped, step_keeps_reached,
    turning_keeps_reached, watching_changes_nothing,
};
pub use report::{Ending, Piece, TraceLine};
