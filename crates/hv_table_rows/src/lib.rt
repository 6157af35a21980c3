//! The rows of a table, by the records of its files, and the files of a change, put into a store.
#![tactic(auto)]

mod amiss;
mod placed;
mod putting;
mod rising;
mod row_at;
mod rows;
mod single;

pub use amiss::first_amiss;
pub use putting::{place_of_file, put_file};
pub use row_at::RowAt;
pub use rows::{Partition, push_all_deleted, push_rows, rows_rising};
pub use single::once;
