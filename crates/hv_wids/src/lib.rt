//! Write id lists: which writes to a table a reader sees.
#![tactic(auto)]

mod list;

pub use list::{Exception, Range, WriteIdList};
