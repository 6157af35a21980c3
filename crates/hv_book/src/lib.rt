//! The book of entries, and what is kept beside them so that nobody walks it.
#![tactic(auto)]

pub use hv_history;

mod book;
mod index;
mod jobs;
mod names;
mod notes;
mod openings;
mod past;
mod said;

pub use book::Book;
pub use jobs::{JobNote, JobRange, Jobs, Step, stepped};
pub use notes::{End, Held, TableNote, TransactionNote, is_open};
pub use openings::OpeningNotes;
pub use past::{ForgotNote, PastNotes, SpanNote};
