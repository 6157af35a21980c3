//! What a started statement does before its end is noted, over whoever acts on the house: it sees its tables, comes to what it means,
//! prepares that, and is refused or aborted where that is due.
#![tactic(auto)]

pub use hv_effect;
pub use hv_table_reader;

mod asking;
mod preparing;
mod putting;
mod ready;
mod refusing;
mod reply;
mod seeing;
mod telling;
mod wanting;

pub use asking::ask;
pub use preparing::prepare;
pub use ready::{End, Ready, Reply, Way};
pub use refusing::end_without;
pub use reply::{Asked, Done, Opened, Outcome, Prepared};
pub use seeing::see;
pub use telling::tell_end;
