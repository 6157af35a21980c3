//! What a refusal of an act comes to.

ghost use Rattle.std.specs.Prelude.{◌≡◌};
ghost use Rattle.hv_compact.specs.Stopping.{cause_of, house_stop, call_stop, act_stop, stop_run, act_run};

use crate::fault::{RunFault, Stop};
use hv_history::JobCause;
use hv_job_acts::JobActFault;
use hv_job_acts::hv_acts::hv_telling::hv_house::HouseFault;
use hv_job_acts::hv_job_calls::JobFault;

/// Lets go of a value, in a function without other paths.
pub(crate) fn let_go<T: Drop>(_value: T) {}

fn cause_of(put: bool, count: u64) -> JobCause
    ensures { result ≡ cause_of put count }
{
    if put {
        JobCause::WriteFault { count }
    } else {
        JobCause::ReadFault { count }
    }
}

fn house_stop(put: bool, why: HouseFault) -> Stop
    ensures { result ≡ house_stop put why }
{
    match why {
        HouseFault::Store => Stop::Run(RunFault::Store),
        HouseFault::NoMemory => Stop::GiveUp(JobCause::Memory),
        HouseFault::Failed { count } => Stop::GiveUp(cause_of(put, count)),
    }
}

fn call_stop(put: bool, why: JobFault) -> Stop
    ensures { result ≡ call_stop put why }
{
    match why {
        JobFault::Gone => Stop::GiveUp(JobCause::Gone),
        JobFault::Full { entries } => Stop::Run(RunFault::Full { entries }),
        JobFault::House(fault) => house_stop(put, fault),
        JobFault::NotFound => Stop::Run(RunFault::NoMemory),
        JobFault::Needed { .. } => Stop::Run(RunFault::NoMemory),
        JobFault::StillListed { .. } => Stop::Run(RunFault::NoMemory),
        JobFault::Working { .. } => Stop::Run(RunFault::NoMemory),
        JobFault::Starved => Stop::Run(RunFault::NoMemory),
    }
}

/// What the refusal of an act of a job at work comes to; `put` is whether it was to put a file.
/// What doesn't fit was ended by others, which
/// counts as want of memory.
pub(crate) fn act_stop(put: bool, why: JobActFault) -> Stop
    ensures { result ≡ act_stop put why }
{
    match why {
        JobActFault::Unfit => Stop::Run(RunFault::NoMemory),
        JobActFault::Broken { put, count } => Stop::GiveUp(cause_of(put, count)),
        JobActFault::Call(fault) => call_stop(put, fault),
    }
}

/// What a refusal comes to where nothing is given up.
pub(crate) fn act_run(why: JobActFault) -> RunFault
    ensures { result ≡ act_run why }
{
    match act_stop(false, why) {
        Stop::Run(fault) => fault,
        Stop::GiveUp(cause) => {
            let_go(cause);
            RunFault::NoMemory
        }
    }
}
