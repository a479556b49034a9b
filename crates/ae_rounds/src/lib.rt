//! What a round of tasks is, whoever runs it: its events, what holds at each moment, and what may come of it.
#![tactic(auto)]

mod flow;
mod laws;

pub use flow::{
    Meanings, added_entries_are_drawn, begun_were_ready, chains_keep_time, chains_went_through,
    histories_rise,
};
pub use laws::{
    Tasks, begun_never_waits, chains_rise, each_task_begins_once, events_keep_what_is_lawful,
    first_is_lawful, lawful_is_free_of_conflicts, reached_is_free_of_conflicts, sound_is_calm,
};
