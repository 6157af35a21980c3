use hv_base::JobId;
use hv_history::JobKind;

/// What a job at work merges: the write ids of its range.
#[derive(Clone, Copy)]
pub struct Task {
    pub job: JobId,
    pub kind: JobKind,
    pub low: u64,
    pub high: u64,
}
