//! The commit that a transaction's touches conflict with.
#![tactic(auto)]

mod finding;
mod laws;
mod meeting;

pub use finding::clash;
pub use laws::clash_fits;
pub use meeting::Clash;
