//! Reading from left to right: each call answers a value and the bytes behind it.

pub mod fields;
pub mod files;
pub mod records;
pub mod values;
