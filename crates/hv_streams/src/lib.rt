//! The standard streams: as a source and a sink, and their numbers.
#![tactic(auto)]

mod standard;
mod std_sink;
mod std_source;

pub use standard::Standard;
pub use std_sink::StdSink;
pub use std_source::StdSource;
