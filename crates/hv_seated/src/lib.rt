//! A house that threads take in turn, and a seat at that turn as one who acts on the house: each of its steps is one hold.
#![tactic(auto)]

mod accounts;
mod chair;
mod shared;

pub use accounts::{items_are_of_shares, shares_are_apart, shares_divide};
pub use chair::{Chair, SeatKey};
pub use shared::{Origin, Shared};
