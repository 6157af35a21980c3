//! What each reader of a partition needs, whatever others need: definitions and laws.
#![tactic(auto)]

mod laws;

pub use laws::{
    a_job_takes_what_it_needs, a_reader_takes_what_it_needs, the_end_takes_what_it_needs,
};
