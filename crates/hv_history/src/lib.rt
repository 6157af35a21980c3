//! The warehouse's history: its entries, what they mean, and how they are spelled.
#![tactic(auto)]

pub use hv_built;
pub use hv_meaning;

mod answers;
mod causes;
mod commits;
mod entry;
mod laws;
mod numbers;
mod shown;
mod state;

pub use answers::{counts_line, listing, ok_line};
pub use causes::{cause_text, conflict_text, refusal_name};
pub use commits::{given_in, written_by};
pub use entry::{Cause, Entry, FilePlace, JobCause, JobKind};
pub use laws::{
    answers_stay, entries_keep_what_is, identifiers_differ, other_transactions_stay,
    rows_change_at_commits, state_goes_on,
};
pub use numbers::{numbered, open_place_of, place_of};
pub use shown::Shown;
pub use state::{Ending, Snapshot, Statement, Table, Transaction, Written};
