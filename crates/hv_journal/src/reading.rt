//! Reading from left to right: each call answers a value and the bytes behind it.

pub mod causes;
pub mod entries;
pub mod fields;
pub mod records;
