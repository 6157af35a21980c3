//! Tokens and statements as they are written: every form of the language has its tree here.
#![tactic(auto)]

mod change;
mod drops;
mod expr;
mod laws;
mod query;
mod statement;
mod table;
mod token;
mod types;

pub use change::{
    Assignment, Delete, Insert, Merge, MergeAction, MergeClause, PartitionItem, Rows, Truncate,
    Update,
};
pub use drops::discard;
pub use expr::{Arithmetic, Binary, Expr, Literal, Operation, Unary, When};
pub use laws::{nothing_between, places_rise, tokens_or_fault};
pub use query::{
    Explode, From, Item, Join, JoinKind, Key, Lateral, Query, Select, Source, Union, Window,
    WindowFunction,
};
pub use statement::{Setting, Show, Stmt, Transaction};
pub use table::{
    AddColumns, Clustering, ColumnDefinition, Compact, CompactionKind, CreateTable, CreateView,
    DropTable, Property,
};
pub use token::{Lexeme, Symbol, Token};
pub use types::{ScalarName, TypeName};
