//! The program: its words, its script, and what it asks to be done, one after another.
#![tactic(auto)]

pub use hv_clean;
pub use hv_compact;

mod action;
mod alone;
mod background;
mod held;
mod laws;
mod program;
mod reading;
mod run;
mod stop;

pub use laws::opens_again;
pub use program::{Ended, LIMITS, bad_journal, full_journal, hive, refused_script, status_of};
pub use reading::read_front;
pub use stop::Stop;
