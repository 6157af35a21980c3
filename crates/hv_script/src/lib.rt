//! The words of the command line, and the script: its items, in order.
#![tactic(auto)]

mod actions;
mod items;
mod kinds;
mod reader;
mod reading;
mod script;
mod serving;
mod standing;
mod words;

pub use actions::{Action, Session, Statement};
pub use items::{Item, Move, Stand};
pub use kinds::MAX_NAME;
pub use reading::read_actions;
pub use script::{
    Cut, MAX_SCRIPT, MAX_STATEMENTS, MAX_TEXT, ScriptFault, cut_script, earlier_of, is_directive,
};
pub use serving::read_served;
pub use standing::MAX_SESSIONS;
pub use words::{Command, DEFAULT_WORKERS, read_run, read_words};
