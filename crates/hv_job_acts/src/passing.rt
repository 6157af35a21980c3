ghost use Rattle.std.specs.Prelude.{◌≡◌};
ghost use Rattle.hv_job_acts.specs.Answers.{in_act};

use crate::fault::JobActFault;
use hv_job_calls::JobFault;

/// Lets go of a value, in a function without other paths.
pub(crate) fn let_go<T: Drop>(_value: T) {}

/// What a call answered, as an act does.
pub(crate) fn passed<T>(done: Result<T, JobFault>) -> Result<T, JobActFault>
    ensures { result ≡ in_act done }
{
    match done {
        Ok(value) => Ok(value),
        Err(why) => Err(JobActFault::Call(why)),
    }
}
