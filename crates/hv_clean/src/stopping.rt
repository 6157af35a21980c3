//! What a refusal of a cleaner's act comes to.

ghost use Rattle.std.specs.Prelude.{◌≡◌};
ghost use Rattle.hv_clean.specs.Stopping.{house_refused, call_refused, refusal_of, stop_of, stopped};
ghost use Rattle.hv_clean.specs.Removing.{counted_as, unless_stopped};

use crate::fault::{PassFault, Swept, count_fault};
use hv_job_acts::JobActFault;
use hv_job_acts::hv_acts::hv_telling::hv_house::HouseFault;
use hv_job_acts::hv_job_calls::JobFault;

/// Why an act of a cleaner was refusal_of, as far as the pass asks.
#[derive(Clone, Copy)]
pub(crate) enum Refused {
    /// A call on files failed: it is counted, and the pass goes on.
    Failed,
    /// A transaction still needs what was to go.
    Needed,
    /// A directory of the write id is listed still.
    Listed,
    /// What it was for is over, or left to a later pass.
    Over,
    /// The pass ends.
    Stop(PassFault),
}

fn house_refused(why: HouseFault) -> Refused
    ensures { result ≡ house_refused why }
{
    match why {
        HouseFault::Store => Refused::Stop(PassFault::Store),
        HouseFault::NoMemory => Refused::Stop(PassFault::NoMemory),
        HouseFault::Failed { .. } => Refused::Failed,
    }
}

fn call_refused(why: JobFault) -> Refused
    ensures { result ≡ call_refused why }
{
    match why {
        JobFault::Gone => Refused::Over,
        JobFault::Full { entries } => Refused::Stop(PassFault::Full { entries }),
        JobFault::NotFound => Refused::Over,
        JobFault::Needed { .. } => Refused::Needed,
        JobFault::StillListed { .. } => Refused::Listed,
        JobFault::Working { .. } => Refused::Over,
        JobFault::Starved => Refused::Stop(PassFault::NoMemory),
        JobFault::House(fault) => house_refused(fault),
    }
}

pub(crate) fn refusal_of(why: JobActFault) -> Refused
    ensures { result ≡ refusal_of why }
{
    match why {
        JobActFault::Unfit => Refused::Over,
        JobActFault::Broken { .. } => Refused::Over,
        JobActFault::Call(fault) => call_refused(fault),
    }
}

/// What is counted behind a refusal: a call on files that failed.
pub(crate) fn counted(why: Refused, swept: Swept) -> Swept
    ensures { result ≡ counted_as why swept }
{
    match why {
        Refused::Failed => count_fault(swept),
        Refused::Needed => swept,
        Refused::Listed => swept,
        Refused::Over => swept,
        Refused::Stop(_) => swept,
    }
}

/// Whether the pass goes on behind a refusal.
pub(crate) fn unless_stopped(why: Refused) -> Result<(), PassFault>
    ensures { result ≡ unless_stopped why }
{
    match why {
        Refused::Failed => Ok(()),
        Refused::Needed => Ok(()),
        Refused::Listed => Ok(()),
        Refused::Over => Ok(()),
        Refused::Stop(fault) => Err(fault),
    }
}

fn stop_of(why: Refused) -> PassFault
    ensures { result ≡ stop_of why }
{
    match why {
        Refused::Stop(fault) => fault,
        Refused::Failed => PassFault::NoMemory,
        Refused::Needed => PassFault::NoMemory,
        Refused::Listed => PassFault::NoMemory,
        Refused::Over => PassFault::NoMemory,
    }
}

/// What a refusal comes to where the book was only asked.
pub(crate) fn stopped(why: JobActFault) -> PassFault
    ensures { result ≡ stopped why }
{
    stop_of(refusal_of(why))
}
