//! The grammar of statements: which tokens spell which tree, and how they are read.
#![tactic(auto)]

mod kind;
mod laws;

pub use kind::{Kind, kind_of, same_kind, word_kind};
pub use laws::{expressions_are_read, queries_are_read, statements_are_read, texts_are_read};
