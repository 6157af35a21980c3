//! A journal that an earlier run left, read as a book.
#![tactic(auto)]

pub use hv_fits;

mod bytes;
mod fault;
mod laws;
mod reading;

pub use bytes::journal_bytes;
pub use fault::OpenFault;
pub use laws::reads_or_is_bad;
pub use reading::{read_book, read_journal};
