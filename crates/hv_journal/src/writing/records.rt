ghost use Rattle.std.specs.Prelude.{◌<◌, ◌^◌, ◌∷◌, length};
ghost use Rattle.std.specs.List.{flat_map, AllByRecursion};
ghost use Rattle.hv_bytes.specs.Writing.{HasRoom, Appends};
ghost use Rattle.hv_history.specs.Spelling.{entry_spelling};
ghost use Rattle.hv_history.specs.Journal.{record_of, HasRecord};
ghost use Rattle.hv_journal.specs.Writing.{CanPutEntry, gated_record, records_of};

use crate::writing::entries::put_entry;
use crate::writing::lengths::body_length;
use hv_bytes::{put_byte, put_u32};
use hv_history::Entry;

/// Appends the entry's record to a buffer that has room for it, and so needs no memory. The record's
/// length must fit its four bytes; all else that a record asks holds of every entry.
#[tactic(auto, using(crate::proofs::Room::room), unfolding(hv_history::specs::Journal::record_of))]
pub fn encode_entry(out: &mut Vec<u8>, entry: &Entry)
    requires room { HasRoom out.old (record_of entry.now) }
    requires short { length (entry_spelling entry.now) < 2 ^ 32 }
    ensures appended { Appends out.old out.new (record_of entry.now) }
    ensures has { HasRecord entry.now }
{
    put_u32(out, body_length(entry) as u32);
    put_entry(out, entry);
}

/// Appends an open gate and the entry's record.
#[tactic(auto, unfolding(crate::specs::Writing::gated_record))]
fn put_gated(out: &mut Vec<u8>, entry: &Entry)
    requires room { HasRoom out.old (gated_record entry.now) }
    requires can { CanPutEntry entry.now }
    ensures appended { Appends out.old out.new (gated_record entry.now) }
    ensures has { HasRecord entry.now }
{
    put_byte(out, 1);
    encode_entry(out, entry);
}

/// Appends the records of these entries, each behind an open gate.
fn put_all_gated(out: &mut Vec<u8>, entries: &[Entry])
    requires room { HasRoom out.old (flat_map gated_record entries.now) }
    requires can { AllByRecursion CanPutEntry entries.now }
    ensures appended { Appends out.old out.new (flat_map gated_record entries.now) }
    ensures has { AllByRecursion HasRecord entries.now }
{
    for entry in entries {
        put_gated(out, entry);
    }
}

/// Appends the records of these entries, with an open gate between each two.
#[tactic(auto, using(crate::proofs::Room::places))]
pub fn encode_entries(out: &mut Vec<u8>, first: &Entry, more: &[Entry])
    requires room { HasRoom out.old (records_of first.now more.now) }
    requires can { AllByRecursion CanPutEntry (first.now ∷ more.now) }
    ensures appended { Appends out.old out.new (records_of first.now more.now) }
    ensures has { AllByRecursion HasRecord (first.now ∷ more.now) }
{
    encode_entry(out, first);
    put_all_gated(out, more);
}
