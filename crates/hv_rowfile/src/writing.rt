//! Writing at the end of a buffer that has room, so that no call needs memory, and how long what is written
//! is.

pub mod files;
pub mod records;
pub mod values;
