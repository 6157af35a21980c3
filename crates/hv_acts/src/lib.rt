//! What is done to a house in one hold: each act is one call, with the tests before it that the call needs.
#![tactic(auto)]

pub use hv_telling;

mod aborted;
mod aborting;
mod committing;
mod compacting;
mod counting;
mod dropping;
mod ending;
mod fault;
mod finding;
mod getting;
mod giving;
mod laws;
mod listing;
mod making;
mod noting;
mod opening;
mod putting;
mod reading;
mod requesting;
mod showing;
mod starting;
mod told;

pub use aborted::Aborted;
pub use aborting::AbortFor;
pub use committing::{CommitWrites, Committed};
pub use compacting::{AskFor, AskedFor};
pub use counting::CountDues;
pub use dropping::DropTable;
pub use ending::{EndTold, TellEnd};
pub use fault::{ActFault, BeginFault};
pub use finding::FindTable;
pub use getting::GetFile;
pub use giving::{GiveId, Given};
pub use laws::{what_is_asked_lasts, what_is_open_stays_open, what_was_meant_is_meant};
pub use listing::ListTable;
pub use making::{Made, MakeTable};
pub use opening::{Begin, Begun};
pub use putting::PutFile;
pub use reading::{
    places_last, what_was_found_is_there, what_was_listed_is_got, what_was_listed_stands,
    who_is_under_way_reads,
};
pub use requesting::AskAbort;
pub use showing::ShowBook;
pub use starting::{OpenTransaction, StartOrAbort, StartTransaction, Started};
pub use told::ToldHouse;
