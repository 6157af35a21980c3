//! The ground that every crate of the warehouse stands on.
#![tactic(auto)]

mod boxed;
mod duplicate;
mod failure;
mod fault;
mod gate;
mod ids;
mod list;
mod memory_sink;
mod memory_source;
mod refusal;
mod sink;
mod source;
mod text;

pub use boxed::Boxed;
pub use duplicate::Duplicate;
pub use failure::{Failed, NoMemory};
pub use fault::raise;
pub use gate::{Gate, NoGate, Point, Stage};
pub use ids::{JobId, Limits, RowId, TableId, Touch, TxnId, WriteId};
pub use list::List;
pub use memory_sink::MemorySink;
pub use memory_source::MemorySource;
pub use refusal::Refusal;
pub use sink::{Sink, write_all};
pub use source::{ReadFault, Source, read_all};
pub use text::Text;
