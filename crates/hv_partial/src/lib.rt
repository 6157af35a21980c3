//! Groups that keep sums in place of their rows: a value for each aggregate and the first row. Expressions over a group are
//! lifted first: each becomes one on a row that has the sums in front of the first row.
#![tactic(auto)]

mod fault;
mod key;
mod lifting;
mod nodes;
mod parts;
mod same;
mod select;
mod shown;
mod sum;
mod summed;
mod values;

pub use key::{SeenKey, seen_key};
pub use parts::{entries_by, merged_by, summed_part, summed_whole};
pub use same::order_of;
pub use select::{Lifted, lift};
pub use shown::shown_of;
pub use sum::{Numeric, Sum};
pub use summed::{Summed, summed_by};
pub use values::item_values;
