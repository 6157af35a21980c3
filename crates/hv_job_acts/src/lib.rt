//! What is done to a house in one hold for compactions and cleaners: each act is one call, with the tests before it
//! that the call needs.
#![tactic(auto)]

pub use hv_acts;
pub use hv_job_calls;

mod asking;
mod covering;
mod ending;
mod fault;
mod noting;
mod passing;
mod questions;
mod reading;
mod removing;
mod staging;

pub use asking::{LostId, PartAt};
pub use ending::{EndEmpty, GiveUp};
pub use fault::JobActFault;
pub use noting::{AskDue, AskedJob, PickJob, PickedJob};
pub use questions::{AskBook, Covered, Lost, Parts, Question, Ready, Tables};
pub use reading::{GetJobFile, ListJob, ListPlaces};
pub use removing::{Forget, NoteCleaned, RemoveCovered, RemoveOwn, Sweep};
pub use staging::{Publication, PublishJob, StagePut};
