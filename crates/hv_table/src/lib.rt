//! Tables of names, and numbers in fixed width.
#![tactic(auto)]

mod digits;
mod names;

pub use digits::Digits;
pub use names::Names;
