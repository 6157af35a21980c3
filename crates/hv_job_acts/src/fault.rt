use hv_job_calls::JobFault;

/// Why an act for a compaction, or of a cleaner, was refused.
#[derive(Drop)]
pub enum JobActFault {
    /// It does not fit the book: what it asks of its job, or of its write id, isn't so now.
    Unfit,
    /// A call on files failed for its job: whether it was to put a file, and the store's count of faults then.
    Broken { put: bool, count: u64 },
    /// The house's call was refused, or failed. The house's fault in it is `Store` too where the house was closed
    /// before.
    Call(JobFault),
}
