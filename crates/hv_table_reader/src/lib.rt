//! A table as it stood at a place of the book, read act by act over whoever acts on the house; and what is told of its files where one is
//! damaged, or where they haven't as many records as the commits say.
#![tactic(auto)]

pub use hv_acts;

mod acting;
mod counting;
mod damage;
mod fault;
mod laws;
mod reading;
mod wanting;

pub use acting::{find_table, show_book};
pub use fault::RowFault;
pub use laws::{none_amiss, seen_is_content};
pub use reading::read_rows;
pub use wanting::Wants;
