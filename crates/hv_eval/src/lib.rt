//! Evaluation of typed expressions: one walk that takes no memory, and one that takes memory where a
//! text or an array is made. Both go by one table, and take a row by itself or among the rows of a group.
#![tactic(auto)]

mod accumulate;
mod frame;
mod held;
mod look;
mod ranks;
mod table;
mod walk;

pub use accumulate::{merge, parts_are_the_whole, start, step};
pub use frame::{Frame, Scope};
pub use look::{seen_at, value_without_memory};
pub use walk::{eval, eval_at, is_true_at};
