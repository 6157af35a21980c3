//! Writing at the end of a buffer that has room, so that no call needs memory.

pub mod causes;
pub mod entries;
pub mod fields;
pub mod lengths;
pub mod records;
