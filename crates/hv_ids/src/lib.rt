//! Write ids, kept so that those of one table are found without the others.
#![tactic(auto)]

mod notes;
mod pending;
mod placed;

pub use notes::{IdNote, PlacedId};
pub use pending::PendingIds;
pub use placed::PlacedIds;
