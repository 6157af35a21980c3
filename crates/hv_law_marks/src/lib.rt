//! What the marks of a house's trail say of the files in its store.
#![tactic(auto)]

pub use hv_law_filed;

mod laws;

pub use laws::{
    broken_marks_stand, changes_are_open, marks_give_files, noted_marks_stand, opened_marks_stand,
    others_leave_marks, put_marks_stand,
};
