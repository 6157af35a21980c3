//! What compactions at work stage, and what cleaners take away, beside the files of a book: definitions and laws.
#![tactic(auto)]

pub use hv_law_marks;

mod laws;

pub use laws::{
    gone_is_filed, gone_stands, job_marks_stand, marked_is_staged, marks_stay, staged_puts_stand,
    what_is_wanted_stays,
};
