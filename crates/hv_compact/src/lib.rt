//! Compactions: what is due is asked for, and a job that was asked for is done.
#![tactic(auto)]

pub use hv_job_acts;

mod compacting;
mod fault;
mod initiating;
mod laws;
mod reading;
mod stopping;
mod task;
mod writing;

pub use compacting::{Done, compact_one};
pub use fault::RunFault;
pub use initiating::initiate;
pub use laws::{alone_compacts, alone_initiates};
