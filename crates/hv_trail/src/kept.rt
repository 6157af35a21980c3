ghost use Rattle.std.specs.Prelude.{◌≡◌, ◌↔◌, ◌+◌, ◌^◌, ◌≤◌, ◌<◌, List, ◌++◌, ◌∷◌, [], length, vec_len, vec_capacity, OnOk, OnErr, IsOk, IsTrue, Some, ◌&&◌, not, true, false, slice_get};
ghost use Rattle.hv_book.specs.hv_history.specs.declared.entry.Entry.{Entry};
ghost use Rattle.hv_book.specs.hv_history.specs.Book.{tree_of_entry};
ghost use Rattle.hv_trail.specs.declared.trail.TrailItem.TheVariants as item;
ghost use Rattle.std.specs.List.{list_any};
ghost use Rattle.hv_trail.specs.Trail.{is_reader, woven_from, broken, HasWritten, HasGone};
ghost use Rattle.hv_trail.specs.Kept.{trail_of, is_fault, fault_of, broken_in, wrote_at, is_written, went_at, is_gone_by};
ghost use Rattle.hv_trail.specs.Spare.{open_count, ends_open, needs_room, HavePlaces, HasPlace};

use crate::trail::{Mark, Reader};
use hv_ast::Stmt;
use hv_base::NoMemory;
use hv_book::hv_history::Entry;
use hv_book::{Book, is_open};
use hv_shelf::{DirAt, Place};
use std::alloc::Global;
use std::marker::Model;

/// The trail of a house: its book, and the marks, each with the number of entries before it. So each entry stands once.
/// It is closed where the journal failed, or where memory lacked in a publication. For each transaction that is open there is
/// room for one entry more, so what ends it asks for no memory.
#[derive(Drop)]
pub struct KeptTrail {
    book: Book,
    marks: Vec<(u64, Mark)>,
    opened: u64,
    closed: bool,
    /// It is closed for want of memory.
    starved: bool,
    /// No call on files failed. So nobody looks through the marks for one that did.
    quiet: bool,
}

impl Model for KeptTrail {
    ghost use Rattle.std.specs.Prelude.{◌-◌, ◌≤◌, vec_len, vec_capacity};
    ghost use Rattle.hv_trail.specs.Kept.{TrailKept, IsWhole, IsQuiet};
    ghost use Rattle.hv_trail.specs.Spare.{open_count};

    ghost Value = { TrailKept };

    ghost view = { λ trail. record {
      entries = trail.book.entries;
      spare = trail.book.spare;
      marks = trail.marks.items;
      room = vec_capacity trail.marks - vec_len trail.marks;
      opened = trail.opened;
      closed = trail.closed;
      starved = trail.starved;
    } };

    ghost invariant = { λ trail. IsWhole trail.book.entries trail.marks.items trail.opened
        × IsQuiet trail.quiet trail.marks.items × open_count trail.book.entries ≤ trail.book.spare };
}

/// Whether two readers are one.
fn is_same(reader: Reader, other: Reader) -> bool
    ensures { result ≡ is_reader reader (Some other) }
{
    match reader {
        Reader::Txn(txn) => match other {
            Reader::Txn(other) => txn.0 == other.0,
            Reader::Job(_) => false,
        },
        Reader::Job(job) => match other {
            Reader::Txn(_) => false,
            Reader::Job(other) => job.0 == other.0,
        },
    }
}

/// Whether no call has failed, behind this mark too.
fn stays_quiet(quiet: bool, mark: &Mark) -> bool
    ensures { result ≡ quiet && not (is_fault mark.now) }
{
    match mark {
        Mark::Wrote { .. } => quiet,
        Mark::Went { .. } => quiet,
        Mark::Broke { .. } => false,
    }
}

/// Whether a call failed for this reader.
fn is_reader(reader: Reader, by: Option<Reader>) -> bool
    ensures { result ≡ is_reader reader by }
{
    match by {
        Some(other) => is_same(reader, other),
        None => false,
    }
}

/// What a mark says of a call that failed for this reader.
fn fault_of(reader: Reader, mark: &Mark) -> Option<(bool, u64)>
    ensures { result ≡ fault_of reader mark.now }
{
    match mark {
        Mark::Wrote { .. } => None,
        Mark::Went { .. } => None,
        Mark::Broke { by, put, count } => {
            if is_reader(reader, *by) {
                Some((*put, *count))
            } else {
                None
            }
        }
    }
}

/// The first call that failed for this reader.
fn first_fault(reader: Reader, marks: &[(u64, Mark)]) -> Option<(bool, u64)>
    ensures { result ≡ broken_in reader marks.now }
{
    for kept in marks {
        if let Some(fault) = fault_of(reader, &kept.1) {
            return Some(fault);
        }
    }
    None
}

/// Whether a mark says that this reader put a file at this place.
fn wrote_at(reader: Reader, place: &Place, mark: &Mark) -> bool
    ensures { result ≡ wrote_at reader place.now mark.now }
{
    match mark {
        Mark::Wrote { by, place: at } => is_same(reader, *by) && *at == *place,
        Mark::Went { .. } => false,
        Mark::Broke { .. } => false,
    }
}

/// Whether this one of the marks says that this reader put a file at this place.
fn is_written(reader: Reader, place: &Place, marks: &[(u64, Mark)], at: usize) -> bool
    ensures exact { result ≡ is_written reader place.now (slice_get marks.now at) }
    ensures within { result ≡ true → at < length marks.now }
{
    match marks.get(at) {
        Some(kept) => wrote_at(reader, place, &kept.1),
        None => false,
    }
}

/// Whether one of the marks says that this reader put a file at this place. The newest are looked at first.
fn any_written(reader: Reader, place: &Place, marks: &[(u64, Mark)]) -> bool
    ensures written { (book : List Entry) → IsTrue result ↔ HasWritten (woven_from 0 book marks.now) reader place.now }
{
    for at in (0..marks.len()).rev() {
        if is_written(reader, place, marks, at) {
            return true;
        }
    }
    false
}

/// Whether a mark says that the files of this directory were taken away.
fn went_at(dir: &DirAt, mark: &Mark) -> bool
    ensures { result ≡ went_at dir.now mark.now }
{
    match mark {
        Mark::Went { dir: at } => {
            at.table.0 == dir.table.0 && (at.partition == dir.partition && at.dir == dir.dir)
        }
        Mark::Wrote { .. } => false,
        Mark::Broke { .. } => false,
    }
}

/// Whether one of the marks says so.
fn any_went(dir: &DirAt, marks: &[(u64, Mark)]) -> bool
    ensures { result ≡ list_any (is_gone_by dir.now) marks.now }
{
    for kept in marks {
        if went_at(dir, &kept.1) {
            return true;
        }
    }
    false
}

/// Whether an entry ends a transaction that is open.
fn ends_open(book: &Book, entry: &Entry) -> bool
    ensures { result ≡ ends_open book.now.entries entry.now }
{
    match entry {
        Entry::Commit { txn, .. } => is_open(book.transactions(), txn.0),
        Entry::Abort { txn, .. } => is_open(book.transactions(), txn.0),
        Entry::Create { txn, .. } => is_open(book.transactions(), txn.0),
        Entry::Drop { txn, .. } => is_open(book.transactions(), txn.0),
        _ => false,
    }
}

/// Whether an entry and so many behind it need room that isn't there yet.
fn needs_room(book: &Book, first: &Entry, more: usize) -> bool
    ensures { result ≡ needs_room book.now.entries first.now more }
{
    more > 0 || !ends_open(book, first)
}

/// Makes room for an entry and so many behind it, where they need any.
#[tactic(auto, using(crate::proofs::SpareLaws::places_stay))]
fn make_room(book: &mut Book, first: &Entry, more: usize) -> Result<(), NoMemory>
    requires few { more < 2 ^ 32 }
    requires spare { open_count book.old.entries ≤ book.old.spare }
    ensures entries { book.new.entries ≡ book.old.entries }
    ensures spare { open_count book.new.entries ≤ book.new.spare }
    ensures places { OnOk result (HavePlaces book.new.entries book.new.spare first.now more) }
    ensures has { needs_room book.old.entries first.now more ≡ false → IsOk result }
{
    if !needs_room(book, first, more) {
        return Ok(());
    }
    let count = book.ongoing().len();
    book.reserve(count + 2 * (1 + more))?;
    Ok(())
}

/// Appends an entry that has its place.
fn put(book: &mut Book, entry: Entry, tree: Option<Stmt>) -> Result<(), NoMemory>
    requires tree { tree ≡ tree_of_entry entry }
    requires spare { open_count book.old.entries ≤ book.old.spare }
    requires place { HasPlace book.old.entries book.old.spare entry }
    ensures ok { OnOk result (book.new.entries ≡ book.old.entries ++ entry ∷ []) }
    ensures err { OnErr result (book.new.entries ≡ book.old.entries) }
    ensures there { IsOk result }
    ensures spare { open_count book.new.entries ≤ book.new.spare }
    ensures taken { book.old.spare ≤ book.new.spare + 1 }
{
    book.put(entry, tree);
    Ok(())
}

fn append(marks: &mut Vec<(u64, Mark)>, before: u64, mark: Mark)
    requires room { vec_len marks.old < vec_capacity marks.old }
    ensures marks { marks.new.items ≡ marks.old.items ++ (before, mark) ∷ [] }
{
    marks.push((before, mark)).unwrap();
}

impl KeptTrail {
    /// The trail of a book, without marks. The book has room for what its open transactions still need.
    pub fn over(alloc: Global, book: Book) -> KeptTrail
        requires places { open_count book.entries ≤ book.spare }
        ensures entries { result.entries ≡ book.entries }
        ensures marks { result.marks ≡ [] }
        ensures opened { result.opened ≡ 0 }
        ensures closed { result.closed ≡ false }
        ensures starved { result.starved ≡ false }
    {
        KeptTrail {
            book,
            marks: Vec::new(alloc),
            opened: 0,
            closed: false,
            starved: false,
            quiet: true,
        }
    }

    pub fn book(&self) -> &Book
        ensures entries { result.now.entries ≡ self.now.entries }
    {
        &self.book
    }

    /// How many items there are.
    pub fn items(&self) -> u64
        ensures items { result ≡ length (trail_of self.now) }
    {
        self.book.entries().len() as u64 + self.marks.len() as u64
    }

    /// How many of them the opening left.
    pub fn opened(&self) -> u64
        ensures opened { result ≡ self.now.opened }
        ensures within { self.now.opened ≤ length (trail_of self.now) }
    {
        self.opened
    }

    /// Takes all items that there are as those of the opening.
    pub fn settle(&mut self)
        ensures opened { self.new.opened ≡ length (trail_of self.old) }
        ensures entries { self.new.entries ≡ self.old.entries }
        ensures spare { self.new.spare ≡ self.old.spare }
        ensures marks { self.new.marks ≡ self.old.marks }
        ensures closed { self.new.closed ≡ self.old.closed }
        ensures starved { self.new.starved ≡ self.old.starved }
    {
        self.opened = self.book.entries().len() as u64 + self.marks.len() as u64;
    }

    /// Closes it: the journal failed.
    pub fn close(&mut self)
        ensures closed { self.new.closed ≡ true }
        ensures starved { self.new.starved ≡ self.old.starved }
        ensures entries { self.new.entries ≡ self.old.entries }
        ensures spare { self.new.spare ≡ self.old.spare }
        ensures marks { self.new.marks ≡ self.old.marks }
        ensures opened { self.new.opened ≡ self.old.opened }
    {
        self.closed = true;
    }

    /// Closes it for want of memory: directories got their names, and the journal wasn't told.
    pub fn starve(&mut self)
        ensures closed { self.new.closed ≡ true }
        ensures starved { self.new.starved ≡ true }
        ensures entries { self.new.entries ≡ self.old.entries }
        ensures spare { self.new.spare ≡ self.old.spare }
        ensures marks { self.new.marks ≡ self.old.marks }
        ensures opened { self.new.opened ≡ self.old.opened }
    {
        self.closed = true;
        self.starved = true;
    }

    pub fn is_closed(&self) -> bool
        ensures closed { result ≡ self.now.closed }
    {
        self.closed
    }

    /// Whether it is closed for want of memory.
    pub fn is_starved(&self) -> bool
        ensures starved { result ≡ self.now.starved }
    {
        self.starved
    }

    /// Makes room for this entry and so many behind it. One that ends an open transaction and stands alone has its place, and
    /// asks for no memory.
    pub fn reserve_for(&mut self, first: &Entry, more: usize) -> Result<(), NoMemory>
        requires few { more < 2 ^ 32 }
        ensures entries { self.new.entries ≡ self.old.entries }
        ensures marks { self.new.marks ≡ self.old.marks }
        ensures opened { self.new.opened ≡ self.old.opened }
        ensures closed { self.new.closed ≡ self.old.closed }
        ensures starved { self.new.starved ≡ self.old.starved }
        ensures places { OnOk result (HavePlaces self.new.entries self.new.spare first.now more) }
        ensures has { needs_room self.old.entries first.now more ≡ false → IsOk result }
    {
        make_room(&mut self.book, first, more)
    }

    /// Appends an entry with its text's tree, which is there exactly where it has a text. Its place was made.
    pub fn push(&mut self, entry: Entry, tree: Option<Stmt>) -> Result<(), NoMemory>
        requires tree { tree ≡ tree_of_entry entry }
        requires place { HasPlace self.old.entries self.old.spare entry }
        ensures ok { OnOk result (self.new.entries ≡ self.old.entries ++ entry ∷ []) }
        ensures trail { OnOk result (trail_of self.new ≡ trail_of self.old ++ item.Noted entry ∷ []) }
        ensures err { OnErr result (self.new.entries ≡ self.old.entries) }
        ensures marks { self.new.marks ≡ self.old.marks }
        ensures opened { self.new.opened ≡ self.old.opened }
        ensures closed { self.new.closed ≡ self.old.closed }
        ensures starved { self.new.starved ≡ self.old.starved }
        ensures spare { self.old.spare ≤ self.new.spare + 1 }
        ensures room { IsOk result }
    {
        put(&mut self.book, entry, tree)?;
        Ok(())
    }

    /// Makes room for one mark more.
    pub fn reserve_mark(&mut self) -> Result<(), NoMemory>
        ensures entries { self.new.entries ≡ self.old.entries }
        ensures marks { self.new.marks ≡ self.old.marks }
        ensures opened { self.new.opened ≡ self.old.opened }
        ensures closed { self.new.closed ≡ self.old.closed }
        ensures starved { self.new.starved ≡ self.old.starved }
        ensures spare { self.new.spare ≡ self.old.spare }
        ensures room { OnOk result (0 < self.new.room) }
    {
        self.marks.reserve(1)?;
        Ok(())
    }

    /// Appends a mark, where there is room.
    pub fn mark(&mut self, mark: Mark)
        requires room { 0 < self.old.room }
        ensures entries { self.new.entries ≡ self.old.entries }
        ensures marks { self.new.marks ≡ self.old.marks ++ (length self.old.entries, mark) ∷ [] }
        ensures trail { trail_of self.new ≡ trail_of self.old ++ item.Marked mark ∷ [] }
        ensures opened { self.new.opened ≡ self.old.opened }
        ensures closed { self.new.closed ≡ self.old.closed }
        ensures starved { self.new.starved ≡ self.old.starved }
        ensures spare { self.new.spare ≡ self.old.spare }
    {
        let before = self.book.entries().len() as u64;
        self.quiet = stays_quiet(self.quiet, &mark);
        append(&mut self.marks, before, mark);
    }

    /// The first call that failed for this reader: whether it was to put a file, and the count behind it.
    pub fn broken(&self, reader: Reader) -> Option<(bool, u64)>
        ensures broken { result ≡ broken reader (trail_of self.now) }
    {
        if self.quiet {
            None
        } else {
            first_fault(reader, &self.marks)
        }
    }

    /// Whether a mark says that this reader put a file at this place.
    pub fn has_written(&self, reader: Reader, place: &Place) -> bool
        ensures written { IsTrue result ↔ HasWritten (trail_of self.now) reader place.now }
    {
        any_written(reader, place, &self.marks)
    }

    /// Whether a mark says that the files of this directory were taken away.
    pub fn has_gone(&self, dir: &DirAt) -> bool
        ensures gone { IsTrue result ↔ HasGone (trail_of self.now) dir.now }
    {
        any_went(dir, &self.marks)
    }
}
