//! The warehouse over one store: its journal, its book, and its files, whatever transactions are open.
#![tactic(auto)]

pub use hv_finals;
pub use hv_law_read;
pub use hv_recovery;
pub use hv_table_rows;

mod asking;
mod boot;
mod buffer;
mod calls;
mod ending;
mod failing;
mod fault;
mod files;
mod house;
mod housed;
mod laws;
mod listing;
mod noting;
mod opening;
mod publishing;
mod reading;
mod removing;
mod renaming;

pub use boot::BootFault;
pub use calls::EntryFault;
pub use fault::HouseFault;
pub use house::House;
pub use laws::who_waits_can_start;
pub use listing::{GetFault, ListFault, Listing, take_of};
pub use publishing::PublishFault;
