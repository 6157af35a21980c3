//! What an open transaction needs of the files that stand beside a book, and what it reads: definitions and laws.
#![tactic(auto)]

pub use hv_law_whole;

mod laws;

pub use laws::{
    needed_isnt_spare, needed_stands, needs_last, none_was_spoiled, rows_stood, taken_is_needed,
};
