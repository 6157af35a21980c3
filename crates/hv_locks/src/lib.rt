//! Table locks: which two conflict, and what one who asks for them is told.
#![tactic(auto)]

mod table;

pub use table::{Lock, LockState};
