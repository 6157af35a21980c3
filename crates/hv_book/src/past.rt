ghost use Rattle.std.specs.Prelude.{◌≡◌, ◌+◌, ◌<◌, ◌≤◌, ◌++◌, length, filter, vec_len, vec_capacity};
ghost use Rattle.std.specs.List.{AllByRecursion};
ghost use Rattle.hv_history.specs.State.{changed};
ghost use Rattle.hv_ids.specs.Ids.{is_of_other};
ghost use Rattle.hv_book.specs.Past.{ended_of, drop_span, IsTableThere};

use crate::index::Index;
use crate::notes::{append, is_open};
use hv_base::NoMemory;
use hv_history::{Entry, numbered, place_of};
use hv_ids::{IdNote, PendingIds, PlacedId, PlacedIds};
use std::alloc::Global;

/// A write id that was forgotten, and the place of the entry that says so.
#[derive(Clone, Copy)]
pub struct ForgotNote {
    pub table: u64,
    pub write: u64,
    pub at: u64,
}

/// The place of the entry that made a table, and of the one that dropped it.
#[derive(Clone, Copy)]
pub struct SpanNote {
    pub made: u64,
    pub dropped: Option<u64>,
}

/// What is kept for the earlier places of a book. An id stands among the pending ones until its
/// transaction ends, and goes over to the aborted or the committed ones there. Each that was given stands
/// among the given ones, too, with the place where it was.
#[derive(Drop)]
pub struct PastNotes {
    pub pending: PendingIds,
    pub aborted: PlacedIds,
    pub committed: PlacedIds,
    pub given: PlacedIds,
    pub forgotten: Vec<ForgotNote>,
    pub spans: Vec<SpanNote>,
}

/// Puts the ids of a transaction behind those that ended.
fn end_ids(ids: &[IdNote], ended: &mut PlacedIds, txn: u64, at: u64)
    requires room { length ids.now ≤ ended.old.room }
    requires there { AllByRecursion (IsTableThere ended.old.tables) ids.now }
    ensures items { ended.new.ids ≡ ended.old.ids ++ ended_of txn at ids.now }
    ensures room { ended.new.room + length (ended_of txn at ids.now) ≡ ended.old.room }
    ensures tables { ended.new.tables ≡ ended.old.tables }
    ensures table_room { ended.new.table_room ≡ ended.old.table_room }
{
    for id in ids {
        if id.txn == txn {
            ended.add(PlacedId { id: *id, at });
        }
    }
}

/// Takes the ids of a transaction out of those that are pending, to those that ended.
fn go_over(ids: &mut PendingIds, ended: &mut PlacedIds, txn: u64, at: u64)
    requires room { length ids.old.ids ≤ ended.old.room }
    requires there { AllByRecursion (IsTableThere ended.old.tables) ids.old.ids }
    ensures ids { ids.new.ids ≡ filter (is_of_other txn) ids.old.ids }
    ensures ended { ended.new.ids ≡ ended.old.ids ++ ended_of txn at ids.old.ids }
    ensures less { length ids.new.ids ≤ length ids.old.ids }
    ensures room { ended.new.room + length ids.old.ids ≡ ended.old.room + length ids.new.ids }
    ensures kept { ids.old.room ≤ ids.new.room }
    ensures there { AllByRecursion (IsTableThere ended.old.tables) ids.new.ids }
    ensures tables { ended.new.tables ≡ ended.old.tables }
    ensures table_room { ended.new.table_room ≡ ended.old.table_room }
{
    end_ids(ids.as_slice(), ended, txn, at);
    ids.take_out(txn);
}

#[tactic(auto, unfolding(crate::specs::Past::drop_span))]
fn dropped(span: SpanNote, place: u64) -> SpanNote
    ensures { result ≡ drop_span place span }
{
    SpanNote {
        made: span.made,
        dropped: span.dropped.or(Some(place)),
    }
}

/// Notes that a table was dropped, where it wasn't before.
fn end_span(spans: &mut Vec<SpanNote>, table: u64, place: u64)
    ensures items { spans.new.items ≡ changed (drop_span place) spans.old.items table }
    ensures len { vec_len spans.new ≡ vec_len spans.old }
    ensures capacity { vec_capacity spans.new ≡ vec_capacity spans.old }
{
    if let Some(at) = place_of(spans, table) {
        spans[at] = dropped(spans[at], place);
    }
}

impl PastNotes {
    ghost use Rattle.std.specs.Prelude.{◌≡◌, ℕ, ◌≤◌, ◌<◌, ◌+◌, ◌-◌, ◌^◌, ◌++◌, ◌∷◌, [], length, is_some, OnOk};
    ghost use Rattle.std.specs.List.{AllByRecursion};
    ghost use Rattle.hv_history.specs.State.{numbered};
    ghost use Rattle.hv_book.specs.Notes.{add_if, is_open_in};
    ghost use Rattle.hv_book.specs.Index.{notes_in};
    ghost use Rattle.hv_book.specs.Past.{PastSpares, AreTabled, past_in, no_past, past_behind, past_commit, past_abort, id_given, given_more, new_span, forgot_note};

    /// Those of no entries. It takes no memory.
    pub fn new(alloc: Global) -> PastNotes
        ensures past { past_in result ≡ no_past }
        ensures spares { PastSpares 0 result }
        ensures tables { AreTabled result }
    {
        PastNotes {
            pending: PendingIds::new(alloc),
            aborted: PlacedIds::new(alloc),
            committed: PlacedIds::new(alloc),
            given: PlacedIds::new(alloc),
            forgotten: Vec::new(alloc),
            spans: Vec::new(alloc),
        }
    }

    /// Makes room for so many entries more.
    pub fn reserve(&mut self, more: usize) -> Result<(), NoMemory>
        ensures past { past_in self.new ≡ past_in self.old }
        ensures enough { OnOk result (PastSpares more self.new) }
        ensures spares { (room : ℕ) → PastSpares room self.old → PastSpares room self.new }
        ensures tables { AreTabled self.old → AreTabled self.new }
    {
        let Some(with_pending) = self.pending.as_slice().len().checked_add(more) else {
            return Err(NoMemory);
        };
        self.pending.reserve(more)?;
        self.aborted.reserve(with_pending, more)?;
        self.committed.reserve(with_pending, more)?;
        self.given.reserve(more, more)?;
        self.forgotten.reserve(more)?;
        self.spans.reserve(more)?;
        Ok(())
    }

    fn note_given(&mut self, index: &Index, place: u64, txn: u64, table: u64)
        requires count { length index.now.tables.items ≡ length self.old.spans.items }
        requires spares { PastSpares index.now.room self.old }
        requires tables { AreTabled self.old }
        requires room { 0 < index.now.room }
        requires below { AllByRecursion (λ note. note.high ≤ place) index.now.tables.items }
        requires limit { place + 1 < 2 ^ 64 }
        ensures past { past_in self.new ≡ record (past_in self.old) {
          pending = id_given txn table (numbered (notes_in index.now).tables table) (past_in self.old).pending;
          given = given_more place txn table (numbered (notes_in index.now).tables table) (past_in self.old).given;
        } }
        ensures spares { PastSpares (index.now.room - 1) self.new }
        ensures tables { AreTabled self.new }
    {
        if let Some(note) = numbered(&index.tables, table) {
            let write = note.high + 1;
            let id = IdNote { table, write, txn };
            self.pending.add(id);
            self.given.add(PlacedId { id, at: place });
        }
    }

    fn note_commit(&mut self, index: &Index, place: u64, txn: u64)
        requires spares { PastSpares index.now.room self.old }
        requires tables { AreTabled self.old }
        ensures past { past_in self.new
            ≡ past_commit place (is_open_in (notes_in index.now) txn) txn (past_in self.old) }
        ensures spares { PastSpares index.now.room self.new }
        ensures tables { AreTabled self.new }
    {
        if is_open(&index.transactions, txn) {
            go_over(&mut self.pending, &mut self.committed, txn, place);
        }
    }

    fn note_abort(&mut self, index: &Index, place: u64, txn: u64)
        requires spares { PastSpares index.now.room self.old }
        requires tables { AreTabled self.old }
        ensures past { past_in self.new
            ≡ past_abort place (is_open_in (notes_in index.now) txn) txn (past_in self.old) }
        ensures spares { PastSpares index.now.room self.new }
        ensures tables { AreTabled self.new }
    {
        if is_open(&index.transactions, txn) {
            go_over(&mut self.pending, &mut self.aborted, txn, place);
        }
    }

    fn note_create(&mut self, index: &Index, place: u64, txn: u64)
        requires spares { PastSpares index.now.room self.old }
        requires tables { AreTabled self.old }
        requires room { 0 < index.now.room }
        ensures past { past_in self.new ≡ record
            (past_commit place (is_open_in (notes_in index.now) txn) txn (past_in self.old)) {
              spans = (past_in self.old).spans ++ new_span place ∷ [];
            } }
        ensures spares { PastSpares (index.now.room - 1) self.new }
        ensures tables { AreTabled self.new }
    {
        self.note_commit(index, place, txn);
        self.aborted.add_table();
        self.committed.add_table();
        self.given.add_table();
        append(
            &mut self.spans,
            SpanNote {
                made: place,
                dropped: None,
            },
        );
    }

    fn note_drop(&mut self, index: &Index, place: u64, txn: u64, table: u64)
        requires spares { PastSpares index.now.room self.old }
        requires tables { AreTabled self.old }
        ensures past { past_in self.new ≡ record
            (past_commit place (is_open_in (notes_in index.now) txn) txn (past_in self.old)) {
              spans = changed (drop_span place) (past_in self.old).spans table;
            } }
        ensures spares { PastSpares index.now.room self.new }
        ensures tables { AreTabled self.new }
    {
        self.note_commit(index, place, txn);
        end_span(&mut self.spans, table, place);
    }

    fn note_forgot(&mut self, index: &Index, place: u64, table: u64, write: u64)
        requires spares { PastSpares index.now.room self.old }
        requires tables { AreTabled self.old }
        requires room { 0 < index.now.room }
        ensures past { past_in self.new ≡ record (past_in self.old) {
          forgotten = add_if (is_some (numbered (notes_in index.now).tables table))
              (forgot_note table write place) (past_in self.old).forgotten;
        } }
        ensures spares { PastSpares (index.now.room - 1) self.new }
        ensures tables { AreTabled self.new }
    {
        if numbered(&index.tables, table).is_some() {
            append(
                &mut self.forgotten,
                ForgotNote {
                    table,
                    write,
                    at: place,
                },
            );
        }
    }

    /// Notes an entry at its place, where the index is that of the entries before it.
    pub fn note(&mut self, index: &Index, place: u64, entry: &Entry)
        requires count { length index.now.tables.items ≡ length self.old.spans.items }
        requires spares { PastSpares index.now.room self.old }
        requires tables { AreTabled self.old }
        requires room { 0 < index.now.room }
        requires below { AllByRecursion (λ note. note.high ≤ place) index.now.tables.items }
        requires limit { place + 1 < 2 ^ 64 }
        ensures past { past_in self.new
            ≡ past_behind place (notes_in index.now) entry.now (past_in self.old) }
        ensures spares { PastSpares (index.now.room - 1) self.new }
        ensures tables { AreTabled self.new }
    {
        match entry {
            Entry::Given { txn, table, .. } => self.note_given(index, place, txn.0, table.0),
            Entry::Commit { txn, .. } => self.note_commit(index, place, txn.0),
            Entry::Abort { txn, .. } => self.note_abort(index, place, txn.0),
            Entry::Create { txn, .. } => self.note_create(index, place, txn.0),
            Entry::Drop { txn, table } => self.note_drop(index, place, txn.0, table.0),
            Entry::Forgot { table, write } => self.note_forgot(index, place, table.0, write.0),
            _ => {}
        }
    }
}
