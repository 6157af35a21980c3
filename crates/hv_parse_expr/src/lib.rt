//! Expressions and types by their tokens.
#![tactic(auto)]

mod fault;
mod grammar;
mod laws;
mod levels;
mod names;
mod nesting;
mod operators;
mod parse;
mod primary;
mod results;
mod tokens;
mod types;

pub use fault::{ParseFault, ReadFault};
pub use grammar::{Grammar, any_expr, any_expr_up_to, expr, expr_list};
pub use laws::{one_tree, read_is_spelled, spelled_is_read, types_are_exact};
pub use names::{is_name, is_reserved, name};
pub use nesting::{MOST_LEVELS, too_deep};
pub use parse::parse_expr;
pub use results::pushed;
pub use tokens::Tokens;
pub use types::type_name;
