//! Which entries of compaction and of forgetting fit a book.
#![tactic(auto)]

mod asking;
mod causes;
mod lost;
mod notes;
mod waiting;
mod working;

pub use asking::asked_fits;
pub use lost::forgot_fits;
pub use waiting::picked_fits;
pub use working::{cleaned_fits, empty_fits, failed_fits, published_fits};
