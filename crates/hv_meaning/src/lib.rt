//! What a statement comes to over the tables that it names: definitions and laws.
#![tactic(auto)]

pub use hv_route;
pub use hv_typing;

mod laws;

pub use laws::{
    asks_are_named, changes_are_named, changes_are_seen, dropped_tables_are_named, forms_mean,
    inserts_delete_nothing, made_tables_are_new, merges_name_the_first, narrow_rows_are_enough,
    rows_are_unseen, typed_values_are_stored,
};
