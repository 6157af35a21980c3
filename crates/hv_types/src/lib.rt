//! From an expression as it is written to the typed one, or its first fault.
#![tactic(auto)]

mod calls;
mod cases;
mod casts;
mod kinds;
mod lists;
mod names;
mod nodes;
mod places;
mod scope;
mod walk;

pub use casts::{as_kind, item_as_kind, placed};
pub use kinds::{kind_of, met, same_type};
pub use names::function_named;
pub use places::asked;
pub use walk::{condition_of, type_expr};
