//! Typed expressions: the trees that analysis makes of expressions, and what they come to.
//!
//! The trees have few arms, by how many operands a function has. What a function gives is one row of
//! the table in specs/Functions.
#![tactic(auto)]

mod function;
mod laws;
mod tree;

pub use function::{Aggregate, Arithmetic, Many, One, Three, Two};
pub use laws::over_no_rows;
pub use tree::{Branch, Link, TypedExpr};
