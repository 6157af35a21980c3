//! The store: its trait, the definition of what a disk keeps, and a store in memory.
#![tactic(auto)]

mod disk;
mod fault;
mod memory;
mod place;
mod plan;
mod shelf;

pub use disk::MemoryDisk;
pub use fault::ShelfFault;
pub use memory::MemoryShelf;
pub use place::{DirAt, Place};
pub use plan::{Fail, FaultPlan, Op};
pub use shelf::Shelf;
