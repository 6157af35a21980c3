//! A compactor and a cleaner that go on in rounds until they are told to stop, over whoever acts on the house.
#![tactic(auto)]

mod cleaner;
mod compactor;

pub use cleaner::clean_until;
pub use compactor::compact_until;
