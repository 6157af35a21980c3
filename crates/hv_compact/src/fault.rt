use hv_history::JobCause;

/// Why a run of acts for compactions, or of a cleaner, stopped.
#[derive(Clone, Copy, Debug)]
pub enum RunFault {
    /// The journal failed, or others closed the house.
    Store,
    /// There was no room for its own next entry: the book has so many.
    Full { entries: u64 },
    /// Memory lacked, or others ended what it was at.
    NoMemory,
}

/// Why a job's work stopped: it is given up for a cause, or the run ends.
#[derive(Drop)]
pub(crate) enum Stop {
    GiveUp(JobCause),
    Run(RunFault),
}
