ghost use Rattle.std.specs.Prelude.{◌≡◌, ◌⊎◌, ◌≤◌, ◌+◌, ◌^◌, ◌++◌, ◌∷◌, [], length, map, false, IfOk, OnOk, IfErr, IsErrOf};
ghost use Rattle.hv_base.specs.Told.{Tells, Moves, StaysTold};
ghost use Rattle.hv_history.specs.declared.entry.Entry.TheVariants.{Boot};
ghost use Rattle.hv_history.specs.Journal.{place_of, IsJournal};
ghost use Rattle.hv_history.specs.State.{state_of, nothing_yet};
ghost use Rattle.hv_history.specs.Legal.{AllFit, HasRoom};
ghost use Rattle.hv_journal.specs.Appending.{Holds, KeepsTree};
ghost use Rattle.hv_finals.specs.hv_law_made.specs.Opening.{whole_jobs};
ghost use Rattle.hv_trail.specs.Spare.{open_count};
ghost use Rattle.hv_finals.specs.Finals.{CanName, CallsCause};
ghost use Rattle.hv_house.specs.Faults.{StoreCause, FileCause, JournalCause};
ghost use Rattle.hv_house.specs.House.{entries_of, book_limit, IsKept, IsReadyWithin, IsBeside};
ghost use Rattle.hv_house.specs.Steps.{KeepsMarks, IsOpenedOver};
ghost use Rattle.hv_house.specs.Ending.{EndsBoot, gauged};
ghost use Rattle.hv_house.specs.Booting.{boot_fault, open_fault, look_fault, open_numbers, lost_entry, IsLearned, LosesSome, CutsOpening, IsRaiseFault, Opens, IsBootFault, IsBootStore, StopsOpening, StopsOpen, OpensWhole, KeepsIdle, NotesWithRoom, StopsWithRoom, OpeningStep, read_to, IsRaised, HasStopped, IsRaisedOver, StopsOver, OpeningHard};

use crate::buffer::RecordBuffer;
use crate::fault::HouseFault;
use crate::house::House;
use hv_base::{Limits, NoMemory, TxnId};
use hv_book::Book;
use hv_finals::find_whole;
use hv_history::{Cause, Entry};
use hv_journal::open_empty;
use hv_recovery::hv_fits::hv_meta::has_room;
use hv_recovery::{OpenFault, read_journal};
use hv_shelf::{Shelf, ShelfFault};
use hv_trail::KeptTrail;
use std::alloc::Global;
use std::snapshot::Snapshot;
use thiserror::Error;

/// Why a store was not opened.
#[derive(Clone, Copy, Debug, Error)]
pub enum BootFault {
    /// The journal is bad at this byte: there is no gate, or an open one behind which no record stands
    /// whose entry fits.
    #[error("bad journal at byte {at}")]
    BadJournal { at: u64 },
    /// The journal has so many entries that there is no room for its opening.
    #[error("the journal is full")]
    Full { entries: u64 },
    #[error("the store failed")]
    Store,
    #[error("out of memory")]
    NoMemory,
}

impl From<HouseFault> for BootFault {
    ghost from_gives = { λ fault e. e ≡ boot_fault fault };

    fn from(fault: HouseFault) -> BootFault {
        match fault {
            HouseFault::Store | HouseFault::Failed { .. } => BootFault::Store,
            HouseFault::NoMemory => BootFault::NoMemory,
        }
    }
}

/// More bytes than any journal has that was read into memory.
const MOST_BYTES: u64 = 1 << 62;

/// What is learned of a book that was left: how often it was opened, and which transactions are open. And where its next
/// records are spelled.
#[derive(Drop)]
struct Left {
    runs: u64,
    unended: Vec<u64>,
    buffer: RecordBuffer,
}

/// Learns of a book, and makes room in it for what its open transactions still need.
fn learn(alloc: Global, book: &mut Book) -> Result<Left, NoMemory>
    ensures learned { IfOk result (IsLearned book.old.entries) }
    ensures entries { book.new.entries ≡ book.old.entries }
    ensures places { OnOk result (open_count book.new.entries ≤ book.new.spare) }
{
    let count = book.ongoing().len();
    book.reserve(count)?;
    Ok(Left {
        runs: book.openings().count,
        unended: Vec::from_slice(alloc, book.ongoing())?,
        buffer: RecordBuffer::new(alloc)?,
    })
}

/// What a fault of reading the journal comes to.
fn unread(fault: OpenFault) -> BootFault
    ensures { result ≡ open_fault fault }
{
    match fault {
        OpenFault::BadJournal { at } => BootFault::BadJournal { at },
        OpenFault::Failed => BootFault::Store,
        OpenFault::NoMemory => BootFault::NoMemory,
    }
}

/// What a fault of looking comes to.
fn unlooked(fault: ShelfFault) -> BootFault
    ensures { result ≡ look_fault fault }
{
    match fault {
        ShelfFault::Failed => BootFault::Store,
        ShelfFault::NoMemory => BootFault::NoMemory,
    }
}

impl<D: Shelf + Drop> House<D> {
    /// Makes the journal one of no entry where it has no gate yet.
    fn make_journal(&mut self) -> Result<(), HouseFault>
        requires journal { Tells (D.told self.old.shelf)
            (λ s. IsJournal (entries_of self.old) s.journal) }
        requires place { self.old.place ≡ place_of (entries_of self.old) }
        ensures holds { OnOk result (Holds (D.told self.new.shelf) (entries_of self.old)) }
        ensures beside { IsBeside self.old self.new }
        ensures journal { IfErr result (λ _. Tells (D.told self.new.shelf)
            (λ s. IsJournal (entries_of self.old) s.journal)) }
        ensures tree { Moves KeepsTree (D.told self.old.shelf) (D.told self.new.shelf) }
        ensures marks { KeepsMarks self.old self.new }
        ensures cause { FileCause (D.faults self.old.shelf) (D.faults self.new.shelf) result }
        ensures hard { JournalCause (D.hard self.old.shelf) (D.hard self.new.shelf) result }
    {
        let Ok(length) = self.shelf.journal_len() else {
            return Err(HouseFault::Store);
        };
        if length <= 1 {
            return match open_empty(&mut self.shelf) {
                Ok(()) => Ok(()),
                Err(ShelfFault::Failed) => Err(HouseFault::Store),
                Err(ShelfFault::NoMemory) => Err(HouseFault::NoMemory),
            };
        }
        Ok(())
    }

    /// Aborts these transactions as lost.
    fn lose(&mut self, unended: &[u64]) -> Result<(), HouseFault>
        requires kept { IsKept D.told self.old }
        requires room { length (entries_of self.old) + length unended.now ≤ book_limit }
        ensures kept { OnOk result (IsKept D.told self.new) }
        ensures entries { OnOk result
            (entries_of self.new ≡ entries_of self.old ++ map lost_entry unended.now) }
        ensures tree { Moves KeepsTree (D.told self.old.shelf) (D.told self.new.shelf) }
        ensures halted { IfErr result (λ fault.
            LosesSome D.told fault unended.now self.old self.new) }
        ensures marks { KeepsMarks self.old self.new }
        ensures cause { FileCause (D.faults self.old.shelf) (D.faults self.new.shelf) result }
        ensures hard { JournalCause (D.hard self.old.shelf) (D.hard self.new.shelf) result }
    {
        for i in 0..unended.len() {
            self.add(
                Entry::Abort {
                    txn: TxnId(unended[i]),
                    cause: Cause::Lost,
                },
                None,
            )?;
        }
        Ok(())
    }

    /// Notes the opening of a book that was read, and that what was open is lost.
    fn note_lost(&mut self, runs: u64, unended: &[u64]) -> Result<(), HouseFault>
        requires running { self.old.trail.closed ≡ false }
        requires fed { self.old.trail.starved ≡ false }
        requires near { self.old.place ≤ 2 ^ 62 }
        requires place { self.old.place ≡ place_of (entries_of self.old) }
        requires journal { Tells (D.told self.old.shelf)
            (λ s. IsJournal (entries_of self.old) s.journal) }
        requires room { length (entries_of self.old) + length unended.now + 1 ≤ book_limit }
        ensures kept { OnOk result (IsKept D.told self.new) }
        ensures entries { OnOk result (entries_of self.new
            ≡ entries_of self.old ++ Boot runs ∷ map lost_entry unended.now) }
        ensures tree { Moves KeepsTree (D.told self.old.shelf) (D.told self.new.shelf) }
        ensures halted { IfErr result (λ fault. CutsOpening fault
            (entries_of self.old) (Boot runs ∷ map lost_entry unended.now) (D.told self.new.shelf)) }
        ensures marks { KeepsMarks self.old self.new }
        ensures cause { FileCause (D.faults self.old.shelf) (D.faults self.new.shelf) result }
        ensures hard { JournalCause (D.hard self.old.shelf) (D.hard self.new.shelf) result }
    {
        self.make_journal()?;
        self.add(Entry::Boot { run: runs }, None)?;
        self.lose(unended)
    }

    /// Notes the opening of a book that was read, of which this is learned, and in which these jobs are whole.
    fn note_opening(
        &mut self,
        alloc: Global,
        runs: u64,
        unended: &[u64],
        whole: &[u64],
    ) -> Result<(), BootFault>
        requires running { self.old.trail.closed ≡ false }
        requires fed { self.old.trail.starved ≡ false }
        requires near { self.old.place ≤ 2 ^ 62 }
        requires place { self.old.place ≡ place_of (entries_of self.old) }
        requires journal { Tells (D.told self.old.shelf)
            (λ s. IsJournal (entries_of self.old) s.journal) }
        requires fit { AllFit self.old.limits nothing_yet (entries_of self.old) }
        requires room { HasRoom self.old.limits (state_of (entries_of self.old)) 1 }
        requires within { self.old.limits.entries ≤ book_limit }
        requires runs { runs ≡ (state_of (entries_of self.old)).openings.count }
        requires open_are { unended.now ≡ open_numbers (state_of (entries_of self.old)) }
        ensures step { OpeningStep (gauged D.told D.faults D.hard) whole.now self.old self.new result }
    {
        self.note_lost(runs, unended)?;
        self.end_jobs(alloc, whole)
    }

    /// The numbers of the jobs at work whose directories are all listed.
    fn look(alloc: Global, shelf: &mut D, book: &Book) -> Result<Vec<u64>, BootFault>
        requires named { CanName book.now.entries }
        ensures whole { IfOk result (λ whole. Tells (D.told shelf.old)
            (λ s. whole.items ≡ whole_jobs (state_of book.now.entries) s.tree)) }
        ensures same { D.told shelf.new ≡ D.told shelf.old }
        ensures ends { IfErr result EndsBoot }
        ensures cause { CallsCause (IsErrOf result BootFault.Store)
            (D.faults shelf.old) (D.faults shelf.new) (D.hard shelf.old) (D.hard shelf.new) }
    {
        match find_whole(alloc, shelf, book) {
            Ok(whole) => Ok(whole),
            Err(fault) => Err(unlooked(fault)),
        }
    }

    /// Opens a store over the book that its journal was read to, of which this is learned, and in which these jobs are whole.
    fn open_with(
        alloc: Global,
        start: Snapshot<D>,
        shelf: D,
        book: Book,
        place: u64,
        limits: Limits,
        found: Left,
        whole: &[u64],
    ) -> Result<House<D>, (BootFault, D)>
        requires most { limits.entries ≤ book_limit }
        requires near { place ≤ 2 ^ 62 }
        requires fit { AllFit limits nothing_yet book.entries }
        requires place { place ≡ place_of book.entries }
        requires journal { Tells (D.told shelf) (λ s. IsJournal book.entries s.journal) }
        requires room { HasRoom limits (state_of book.entries) 1 }
        requires learned { IsLearned book.entries found }
        requires places { open_count book.entries ≤ book.spare }
        ensures raised { IfOk result (IsRaised (gauged D.told D.faults D.hard) limits start.value
            (read_to shelf book.entries) whole.now) }
        ensures stopped { IfErr result (λ x. HasStopped (gauged D.told D.faults D.hard) shelf book.entries
            whole.now x) }
    {
        let Left {
            runs,
            unended,
            buffer,
        } = found;
        let mut house = House {
            start,
            shelf,
            place,
            buffer,
            trail: KeptTrail::over(alloc, book),
            limits,
        };
        match house.note_opening(alloc, runs, &unended, whole) {
            Ok(()) => {
                house.trail.settle();
                Ok(house)
            }
            Err(fault) => Err((fault, house.close())),
        }
    }

    /// Opens a store over the book that its journal was read to, of which this is learned.
    fn open_over(
        alloc: Global,
        start: Snapshot<D>,
        shelf: D,
        book: Book,
        place: u64,
        limits: Limits,
        found: Left,
    ) -> Result<House<D>, (BootFault, D)>
        requires most { limits.entries ≤ book_limit }
        requires near { place ≤ 2 ^ 62 }
        requires fit { AllFit limits nothing_yet book.entries }
        requires place { place ≡ place_of book.entries }
        requires journal { Tells (D.told shelf) (λ s. IsJournal book.entries s.journal) }
        requires room { HasRoom limits (state_of book.entries) 1 }
        requires learned { IsLearned book.entries found }
        requires places { open_count book.entries ≤ book.spare }
        ensures raised { IfOk result (IsRaisedOver (gauged D.told D.faults D.hard) limits start.value
            (read_to shelf book.entries)) }
        ensures ends { IfErr result (λ x. EndsBoot x.0) }
        ensures stopped { IfErr result (StopsOver (gauged D.told D.faults D.hard) shelf book.entries) }
    {
        let mut shelf = shelf;
        match House::look(alloc, &mut shelf, &book) {
            Ok(whole) => House::open_with(alloc, start, shelf, book, place, limits, found, &whole),
            Err(fault) => Err((fault, shelf)),
        }
    }

    /// Opens a store over the book that its journal was read to, which has room for its opening.
    fn open_read(
        alloc: Global,
        start: Snapshot<D>,
        shelf: D,
        book: Book,
        place: u64,
        limits: Limits,
    ) -> Result<House<D>, (BootFault, D)>
        requires most { limits.entries ≤ book_limit }
        requires near { place ≤ 2 ^ 62 }
        requires fit { AllFit limits nothing_yet book.entries }
        requires place { place ≡ place_of book.entries }
        requires journal { Tells (D.told shelf) (λ s. IsJournal book.entries s.journal) }
        requires room { HasRoom limits (state_of book.entries) 1 }
        ensures raised { IfOk result (IsRaisedOver (gauged D.told D.faults D.hard) limits start.value
            (read_to shelf book.entries)) }
        ensures ends { IfErr result (λ x. EndsBoot x.0) }
        ensures stopped { IfErr result (StopsOver (gauged D.told D.faults D.hard) shelf book.entries) }
    {
        let mut book = book;
        match learn(alloc, &mut book) {
            Ok(found) => House::open_over(alloc, start, shelf, book, place, limits, found),
            Err(NoMemory) => Err((BootFault::NoMemory, shelf)),
        }
    }

    /// Opens a store over the book that its journal was read to.
    fn raise(
        alloc: Global,
        start: Snapshot<D>,
        shelf: D,
        book: Book,
        place: u64,
        limits: Limits,
    ) -> Result<House<D>, (BootFault, D)>
        requires most { limits.entries ≤ book_limit }
        requires fit { AllFit limits nothing_yet book.entries }
        requires place { place ≡ place_of book.entries }
        requires journal { Tells (D.told shelf) (λ s. IsJournal book.entries s.journal) }
        ensures raised { IfOk result (IsRaisedOver (gauged D.told D.faults D.hard) limits start.value
            (read_to shelf book.entries)) }
        ensures over { IfOk result (IsOpenedOver start.value) }
        ensures room { IfErr result (λ x. HasRoom limits (state_of book.entries) 1 ⊎ (D.told x.1 ≡ D.told shelf)) }
        ensures full { IfErr result (λ x.
            IsRaiseFault limits book.entries (D.told shelf) (D.told x.1) x.0) }
        ensures stopped { IfErr result (StopsOver (gauged D.told D.faults D.hard) shelf book.entries) }
        ensures roomy { IfErr result (λ x. Tells (D.told x.1)
            (λ s. NotesWithRoom limits book.entries s.journal)) }
    {
        if place > MOST_BYTES {
            return Err((BootFault::NoMemory, shelf));
        }
        let room = has_room(&book, &limits, 1);
        if room {
            House::open_read(alloc, start, shelf, book, place, limits)
        } else {
            let entries = book.entries().len() as u64;
            Err((BootFault::Full { entries }, shelf))
        }
    }

    /// Opens a store: the book that its journal reads to goes on by a `Boot`, each transaction that an earlier run left open is aborted as
    /// lost, and each compaction that it left at work ends: where all directories that it is to make have files it is published, else they
    /// are taken away, with what it staged, and it has failed. The house keeps to these limits.
    ///
    /// # Errors
    /// `BadJournal` where the journal is bad, and `Full` where it has no room for its opening; the
    /// store is then as it was. `Store` where the store failed. The store is given back, and opens still where it did. Nothing is
    /// noted where there is no room for the whole opening.
    pub fn boot(alloc: Global, shelf: D, limits: Limits) -> Result<House<D>, (BootFault, D)>
        requires most { limits.entries ≤ book_limit }
        ensures ready { IfOk result (IsReadyWithin limits D.told) }
        ensures opened { IfOk result (λ house. Opens limits (D.told shelf) (entries_of house)) }
        ensures over { IfOk result (IsOpenedOver shelf) }
        ensures whole { IfOk result (λ house. OpensWhole limits (entries_of house) (D.told shelf)
            (D.told house.shelf)) }
        ensures tree { IfOk result (λ house. KeepsIdle limits (D.told shelf) (D.told house.shelf)) }
        ensures bad { IfErr result (λ x. IsBootFault limits (D.told shelf) (D.told x.1) x.0) }
        ensures stopped { IfErr result (λ x. StopsOpening limits (D.told shelf) (D.told x.1) x.0) }
        ensures still { IfErr result (λ x. StopsOpen limits (D.told shelf) (D.told x.1) x.0) }
        ensures same_tree { IfErr result (λ x. KeepsIdle limits (D.told shelf) (D.told x.1)) }
        ensures tells { IfErr result (λ x. StaysTold (D.told shelf) (D.told x.1)) }
        ensures later { IfOk result (λ house. D.faults shelf ≤ D.faults house.shelf) }
        ensures cause { IfErr result (λ x.
            StoreCause (D.faults shelf) (D.faults x.1) (IsBootStore x.0)) }
        ensures hard_later { IfOk result (λ house. D.hard shelf ≤ D.hard house.shelf) }
        ensures hard { IfErr result (λ x. OpeningHard limits (D.told shelf) (D.told x.1)
            (D.hard shelf) (D.hard x.1) (IsBootStore x.0)) }
        ensures roomy { IfErr result (λ x. StopsWithRoom limits (D.told shelf) (D.told x.1)) }
    {
        let start = Snapshot::of(&shelf);
        let mut shelf = shelf;
        match read_journal(alloc, &mut shelf, &limits) {
            Ok((book, place)) => House::raise(alloc, start, shelf, book, place, limits),
            Err(fault) => Err((unread(fault), shelf)),
        }
    }

    /// Gives the store back.
    pub fn close(self) -> D
        ensures { result ≡ self.shelf }
    {
        let House { shelf, .. } = self;
        shelf
    }
}
