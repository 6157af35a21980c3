//! The functions of SQL on texts. Characters are Unicode code points, and places count characters.
#![tactic(auto)]

mod characters;
mod letters;
mod pattern;
mod places;
mod spaces;
mod substrings;

pub use characters::length;
pub use letters::{lower, upper};
pub use pattern::{Part, like};
pub use places::find;
pub use spaces::trim;
pub use substrings::{substring, substring_from};
