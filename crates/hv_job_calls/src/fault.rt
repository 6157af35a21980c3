use hv_base::{JobId, Text, TxnId};
use hv_telling::hv_house::HouseFault;

/// Why a call for a compaction, or of a cleaner, was refused.
#[derive(Drop)]
pub enum JobFault {
    /// The job's table, or the one that was handed in, isn't live.
    Gone,
    /// The journal has so many entries, and no room for what the call notes.
    Full { entries: u64 },
    /// No file stands there.
    NotFound,
    /// This open transaction is the lowest below the job's mark.
    Needed { txn: TxnId },
    /// This directory of the write id is listed.
    StillListed { dir: Text },
    /// The job that stages there is at work, and its table is live.
    Working { job: JobId },
    /// Memory lacked when directories had their names already: the house is closed.
    Starved,
    /// A call of the house failed.
    House(HouseFault),
}
