ghost use Rattle.std.specs.Prelude.{◌≡◌, ◌<◌, ◌^◌, ◌∷◌, length};
ghost use Rattle.std.specs.List.{flat_map, AllByRecursion};
ghost use Rattle.hv_history.specs.Spelling.{touch_spelling, touches_spelling, place_spelling, cause_spelling, job_cause_spelling, entry_spelling};
ghost use Rattle.hv_history.specs.Journal.{record_of, place_of};
ghost use Rattle.hv_journal.specs.Writing.{CanPutEntry, gated_record};

use crate::lists::Touches;
use hv_base::{List, Touch};
use hv_bytes::{items_length, text_length};
use hv_history::{Cause, Entry, FilePlace, JobCause};

#[tactic(auto, using(crate::proofs::Room::room), unfolding(hv_history::specs::Spelling::touch_spelling))]
pub fn touch_length(t: &Touch) -> usize
    requires { length (touch_spelling t.now) < 2 ^ 32 }
    ensures { result ≡ length (touch_spelling t.now) }
{
    24 + text_length(&t.partition)
}

#[tactic(auto, using(crate::proofs::Room::room), unfolding(hv_history::specs::Spelling::touches_spelling))]
fn touches_length(touches: &List<Touch>) -> usize
    requires { length (touches_spelling touches.now) < 2 ^ 32 }
    ensures { result ≡ length (touches_spelling touches.now) }
{
    4 + items_length::<Touch, Touches>(touches.as_slice())
}

#[tactic(auto, using(crate::proofs::Room::room), unfolding(hv_history::specs::Spelling::place_spelling))]
fn place_length(place: &FilePlace) -> usize
    requires { length (place_spelling place.now) < 2 ^ 32 }
    ensures { result ≡ length (place_spelling place.now) }
{
    20 + text_length(&place.partition) + text_length(&place.dir)
}

#[tactic(auto, using(crate::proofs::Room::room))]
fn cause_length(cause: &Cause) -> usize
    requires { length (cause_spelling cause.now) < 2 ^ 32 }
    ensures { result ≡ length (cause_spelling cause.now) }
{
    match cause {
        Cause::Refused { .. } => 5,
        Cause::Conflict { partition, .. } => 17 + text_length(partition),
        Cause::Request { .. } => 9,
        Cause::Full => 1,
        Cause::Twice { partition, .. } => 25 + text_length(partition),
        Cause::Blocked { .. } => 9,
        Cause::ReadFault { .. } => 9,
        Cause::WriteFault { .. } => 9,
        Cause::Damaged { place } => 1 + place_length(place),
        Cause::RowLimit => 1,
        Cause::PartitionLimit => 1,
        Cause::Memory => 1,
        Cause::Lost => 1,
        Cause::Rollback => 1,
    }
}

#[tactic(auto, using(crate::proofs::Room::room))]
fn job_cause_length(cause: &JobCause) -> usize
    requires { length (job_cause_spelling cause.now) < 2 ^ 32 }
    ensures { result ≡ length (job_cause_spelling cause.now) }
{
    match cause {
        JobCause::ReadFault { .. } => 9,
        JobCause::WriteFault { .. } => 9,
        JobCause::Damaged { place } => 1 + place_length(place),
        JobCause::Memory => 1,
        JobCause::Lost => 1,
        JobCause::Gone => 1,
    }
}

#[tactic(auto, using(crate::proofs::Room::room))]
pub fn body_length(entry: &Entry) -> usize
    requires { length (entry_spelling entry.now) < 2 ^ 32 }
    ensures { result ≡ length (entry_spelling entry.now) }
{
    match entry {
        Entry::Boot { .. } => 9,
        Entry::Opened { session, text, .. } => 17 + text_length(session) + text_length(text),
        Entry::Start { .. } => 13,
        Entry::Given { .. } => 25,
        Entry::Commit { wrote, .. } => 9 + touches_length(wrote),
        Entry::Abort { cause, .. } => 9 + cause_length(cause),
        Entry::Create { .. } => 17,
        Entry::Drop { .. } => 17,
        Entry::Asked { partition, .. } => 26 + text_length(partition),
        Entry::Picked { .. } => 17,
        Entry::Published { .. } => 33,
        Entry::Empty { .. } => 9,
        Entry::Cleaned { .. } => 9,
        Entry::Failed { cause, .. } => 9 + job_cause_length(cause),
        Entry::Forgot { .. } => 17,
        Entry::Next { text, .. } => 21 + text_length(text),
        Entry::Did { wrote, .. } => 13 + touches_length(wrote),
        Entry::Alter { .. } => 17,
    }
}

/// How many bytes the entry's record has.
#[tactic(auto, using(crate::proofs::Room::room), unfolding(hv_history::specs::Journal::record_of))]
pub fn record_length(entry: &Entry) -> usize
    requires { length (entry_spelling entry.now) < 2 ^ 32 }
    ensures { result ≡ length (record_of entry.now) }
{
    4 + body_length(entry)
}

/// How many bytes an open gate and the entry's record have.
#[tactic(auto, using(crate::proofs::Room::records), unfolding(crate::specs::Writing::gated_record))]
fn gated_length(entry: &Entry) -> usize
    requires { CanPutEntry entry.now }
    ensures { result ≡ length (gated_record entry.now) }
{
    1 + record_length(entry)
}

fn all_gated_length(entries: &[Entry]) -> usize
    requires short { length (flat_map gated_record entries.now) < 2 ^ 63 }
    requires can { AllByRecursion CanPutEntry entries.now }
    ensures { result ≡ length (flat_map gated_record entries.now) }
{
    let mut total = 0;
    for entry in entries {
        total += gated_length(entry);
    }
    total
}

/// How many bytes the records of these entries have, each with a gate.
#[tactic(auto, using(crate::proofs::Room::places))]
pub fn records_length(first: &Entry, more: &[Entry]) -> usize
    requires short { place_of (first.now ∷ more.now) < 2 ^ 63 }
    requires can { AllByRecursion CanPutEntry (first.now ∷ more.now) }
    ensures { result ≡ place_of (first.now ∷ more.now) }
{
    1 + record_length(first) + all_gated_length(more)
}
