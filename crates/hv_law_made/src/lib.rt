//! Which directories a book makes with its compactions, and which files stand then: definitions and laws.
#![tactic(auto)]

mod laws;

pub use laws::{
    asked_stands, books_are_sound, books_go_on, books_have_names, changes_stand, cleaned_stands,
    committed_stands, created_stands, dropped_stands, entries_change, forgotten_stands,
    fronts_recover, given_stands, given_up_go_on, going_recovers, job_steps_stand,
    listed_are_whole, new_names_are_free, none_works_stands, opened_stands, opening_fronts_recover,
    opening_stands, opening_stops_recover, published_names_are_new, published_stands,
    puts_are_unmade, quiet_entries_stand, quiet_keeps_whole, quiet_recovers, quiet_stands,
    recovered_go_on, renames_stand, standing_goes_on, standing_recovers,
};
