//! The definitions of typing: what a statement, a query and an expression are typed as, or their first fault.
//!
//! Types and definitions; the code that gives what they say stands in hv_types, hv_grouping, hv_select, hv_changes
//! and hv_analysis.
#![tactic(auto)]

pub use hv_expr;
pub use hv_logic;

mod asks;
mod change;
mod fault;
mod kinds;
mod listed;
mod logic;
mod merge;
mod names;
mod opened;
mod places;
mod scope;
mod stages;
mod tree;

pub use asks::TypedAsk;
pub use change::{Deletes, Origin, TypedChange};
pub use fault::TypeFault;
pub use kinds::Meeting;
pub use listed::{Listed, Shown, United};
pub use logic::Logic;
pub use merge::{MatchedAction, TypedClauses, TypedMatched, TypedMerge, TypedNewcomers};
pub use names::Function;
pub use opened::{Brought, Opened, Sources};
pub use places::{Gives, Pair, Place};
pub use scope::{Field, Over};
pub use stages::StageKind;
pub use tree::{
    Grouping, JoinKind, OutputColumn, SortKey, TypedFrom, TypedJoin, TypedLateral, TypedQuery,
    TypedSelect, TypedSource, TypedUnion,
};
