//! The names of a table's directories, as Hive writes them.
#![tactic(auto)]

mod candidate;
mod choice;
mod laws;
mod names;

pub use choice::{Choice, choose};
pub use laws::{own_names_differ, texts_differ};
pub use names::{DirName, own_delta, parse_name, print_name};
