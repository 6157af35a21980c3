//! A cleaner: directories that nobody needs any more are taken away, and the book is told.
#![tactic(auto)]

pub use hv_job_acts;

mod cleaning;
mod dirs;
mod fault;
mod forgetting;
mod laws;
mod passing;
mod stopping;
mod sweeping;

pub use fault::{PassFault, Swept};
pub use laws::alone_passes;
pub use passing::clean_pass;
