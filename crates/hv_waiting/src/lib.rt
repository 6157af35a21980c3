//! A statement of a session that waits for its locks, over whoever acts on the house: opened in one hold, started in its turn, and ended act by act,
//! so that others may act on the house between. A gate is told where it stands, between its acts.
#![tactic(auto)]

mod ahead;
mod going;
mod laws;
mod opening;
mod passed;
mod starting;
mod taking;

pub use laws::own_entries_are_plain;
pub use starting::StartOrWait;
pub use taking::take_in_turn;
