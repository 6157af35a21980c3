//! Which entries fit a book.
#![tactic(auto)]

pub use hv_book;
pub use hv_meta;

mod fitting;
mod locks;
mod requests;

pub use fitting::fits;
pub use locks::{blocked_fits, first_holder, start_fits};
pub use requests::request_fits;
