//! Which statements run today, and which texts. The language rests on nothing of this.
#![tactic(auto)]

pub use hv_grammar;

mod built;
mod forms;
mod windows;

pub use built::is_built;
