//! What was known at an earlier place of a book: its catalog and its write id lists.
#![tactic(auto)]

pub use hv_meta;

mod catalogs;
mod counts;
mod earlier;
mod exceptions;
mod fates;

pub use catalogs::{catalog_at, find_at, is_live_at, name_at};
pub use counts::{opened_at, was_live};
pub use earlier::{PastIds, ids_at, list_at};
pub use fates::{Fate, fate_in};
