//! What entries leave of transactions, tables and files, and a statement on its way through the book.
#![tactic(auto)]

pub use hv_history;

mod laws;

pub use laws::{
    answers, begins, fitting_books, ids_are_given, others_leave_it, seeing_is_enough,
    soundness_goes_on, statement_files_stay, worked_by_hand,
};
