//! Statements by their tokens, and SET by its text.
#![tactic(auto)]

mod asked;
mod changes;
mod laws;
mod parse;
mod setting;
mod tables;

pub use laws::{
    one_statement, one_tree, read_is_spelled, spelled_is_read, spelled_or_faulty, tree_is_spelled,
};
pub use parse::parse_stmt;
pub use setting::{is_set, parse_set};
