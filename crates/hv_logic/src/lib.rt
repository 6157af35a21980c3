//! What statements mean over tables: the types and the definitions.
#![tactic(auto)]

pub use hv_ast;
pub use hv_value;

mod catalog;
mod effect;
mod found;
mod meaning;
mod seen;
mod shape;
mod sizes;
mod tables;
mod types;

pub use catalog::{Catalog, Column, Shape, TableInfo};
pub use effect::{Effect, Found, TableRows};
pub use found::{compare_found, sort_found};
pub use meaning::Meaning;
pub use seen::Seen;
pub use shape::{bucket_names, bucket_place, shape_of};
pub use sizes::{all_fit, row_fits, values_fit};
pub use tables::named;
pub use types::named_type;
