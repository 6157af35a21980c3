//! What SHOW lists, read off a book as it was before a place of it.
#![tactic(auto)]

pub use hv_earlier;
pub use hv_fits;
pub use hv_tallies;

mod fronts;
mod jobs;
mod locks;
mod marks;
mod partitions;
mod rows;
mod showing;
mod transactions;

pub use jobs::job_names;
pub use locks::{lock_names, put_locks};
pub use partitions::put_touches;
pub use rows::{in_order, one_name, text_row};
pub use showing::{show_at, shown};
pub use transactions::{transaction_names, transaction_row};
