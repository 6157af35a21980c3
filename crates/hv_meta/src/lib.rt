//! Facts computed from a book.
#![tactic(auto)]

pub use hv_book;

mod catalogs;
mod committing;
mod creating;
mod dropping;
mod facts;
mod fitting;

pub use catalogs::made_shape;
pub use committing::{commit_fits, conflict_fits, conflicts_with, started_place};
pub use creating::{create_fits, has_named};
pub use dropping::drop_fits;
pub use facts::{TxnState, has_room, is_running, is_unended, load, next_txn, note_of, state_of};
pub use fitting::{boot_fits, fault_fits, full_fits, given_fits, lost_fits, opened_fits};
