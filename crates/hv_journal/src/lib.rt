//! The journal in bytes: records of entries, written and read exactly, and the gates between them.
#![tactic(auto)]

mod appending;
mod fault;
mod journal;
mod laws;
mod lists;
mod reading;
mod writing;

pub use appending::{append, open_empty};
pub use fault::JournalFault;
pub use journal::{next_record, read_records};
pub use laws::{one_book, one_spelling};
pub use reading::records::decode_entry;
pub use writing::lengths::{record_length, records_length};
pub use writing::records::encode_entry;
