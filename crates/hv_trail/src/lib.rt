//! The trail of a house, what each call adds to it, and what lasts of it: definitions and laws, and the trail as a house keeps it.
#![tactic(auto)]

mod kept;
mod lasting;
mod marks;
mod own;
mod serial;
mod steps;
mod trail;
mod worked;

pub use kept::KeptTrail;
pub use lasting::{
    ending_lasts, goes_on_after, marks_last, open_was_open, opening_lasts, others_leave_it,
    start_lasts, write_id_lasts,
};
pub use marks::{book_and_marks_are_the_trail, items_count_once};
pub use own::{own_entries_make_the_record, own_places_rise};
pub use serial::{one_after_another, replies_last};
pub use steps::{a_step_adds_few, steps_add_up};
pub use trail::{Mark, Reader, Renaming, TrailItem};
pub use worked::{worked_marks, worked_places, worked_records, worked_steps};
