ghost use Rattle.std.specs.Prelude.{◌≡◌, ◌↔◌, ◌==◌, IsTrue, not, if◌then◌else◌};
ghost use Rattle.std.specs.List.{list_any};
ghost use Rattle.hv_queue.specs.hv_history.specs.State.{state_of};
ghost use Rattle.hv_queue.specs.hv_history.specs.JobsFit.{JobCauseFits, is_gone_cause};

use hv_queue::hv_history::JobCause;
use hv_queue::hv_tallies::hv_earlier::hv_meta::hv_book::Book;

fn is_kept(kept: &[u64], count: u64) -> bool
    ensures { result ≡ list_any (λ other. other == count) kept.now }
{
    for other in kept {
        if *other == count {
            return true;
        }
    }
    false
}

/// Whether a fault's count was not kept since the store was opened; other causes have none.
pub fn is_fresh(book: &Book, cause: &JobCause) -> bool
    ensures fits { IsTrue result ↔ JobCauseFits (state_of book.now.entries) cause.now }
{
    match cause {
        JobCause::ReadFault { count } => !is_kept(&book.openings().kept, *count),
        JobCause::WriteFault { count } => !is_kept(&book.openings().kept, *count),
        JobCause::Damaged { .. } | JobCause::Gone | JobCause::Memory | JobCause::Lost => true,
    }
}

fn is_gone(cause: &JobCause) -> bool
    ensures { result ≡ is_gone_cause cause.now }
{
    match cause {
        JobCause::Gone => true,
        JobCause::ReadFault { .. } | JobCause::WriteFault { .. } => false,
        JobCause::Damaged { .. } | JobCause::Memory | JobCause::Lost => false,
    }
}

/// Whether the cause says that the table was dropped just where it was.
pub fn says_gone(cause: &JobCause, live: bool) -> bool
    ensures { result ≡ (if is_gone_cause cause.now then not live else live) }
{
    if is_gone(cause) { !live } else { live }
}
