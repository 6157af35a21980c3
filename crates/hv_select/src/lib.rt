//! The parts of a query: what FROM brings into scope, a select over it, unions and ORDER BY.
//!
//! A source is brought by the crate above, which alone looks into subqueries.
#![tactic(auto)]

mod grouping;
mod items;
mod laterals;
mod orders;
mod queries;
mod selects;
mod sources;
mod unions;

pub use laterals::all_viewed;
pub use queries::query_over;
pub use selects::select_over;
pub use sources::{first_source, join_onto, opened_none, opened_of, query_brought};
pub use unions::{alone, unite};
