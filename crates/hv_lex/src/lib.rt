//! The lexer: a statement's text as tokens.
#![tactic(auto)]

mod fault;
mod fronts;
mod numbers;
mod pieces;
mod strings;
mod symbols;
mod tokens;
mod words;

pub use fault::LexFault;
pub use fronts::{is_quote, is_space};
pub use numbers::{digits_length, value_of};
pub use strings::{closing, unescaped};
pub use tokens::lex;
pub use words::{begins_word, continues_word, lower_case, word_length};
