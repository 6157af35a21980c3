ghost use Rattle.std.specs.Prelude.{◌≡◌, ◌+◌, ◌≤◌, ◌<◌, ◌∷◌, [], length, sum_by, true, None, OnOk, OnErr, IfErr, IsErrOf};
ghost use Rattle.hv_base.specs.Told.{Moves};
ghost use Rattle.hv_history.specs.Spelling.{entry_spelling};
ghost use Rattle.hv_history.specs.State.{state_of, numbered, nothing_yet};
ghost use Rattle.hv_history.specs.Legal.{AllFit, working_one};
ghost use Rattle.hv_history.specs.Book.{tree_of_entry};
ghost use Rattle.hv_finals.specs.declared.ending.JobEnd.TheVariants as its_end;
ghost use Rattle.hv_finals.specs.Finals.{CanName, works_at, entry_of, end_entries, is_publication, CallsCause, DirsGo, SomeDirsGo};
ghost use Rattle.hv_house.specs.House.{entries_of, entry_limit, book_limit, IsKept, IsBeside};
ghost use Rattle.hv_house.specs.Steps.{KeepsMarks};
ghost use Rattle.hv_house.specs.Ending.{IsSame, JobDirsGo, SomeJobDirsGo, JobGoes, SomeJobGoes, GoesAs, BeginsAs, EndGoes, EndBegins, EndsBoot, gauged, ends_by, EndStep, AllEnd};

use crate::boot::BootFault;
use crate::house::House;
use hv_base::{Failed, JobId, NoMemory, TxnId, WriteId};
use hv_book::JobRange;
use hv_finals::{JobEnd, clear, end_of, failing_dirs};
use hv_history::{Entry, JobCause};
use hv_shelf::{DirAt, Shelf};
use std::alloc::Global;

fn published_entry(number: u64, range: JobRange) -> Entry
    ensures { result ≡ entry_of number (its_end.Published range) }
{
    Entry::Published {
        job: JobId(number),
        low: WriteId(range.low),
        high: WriteId(range.high),
        mark: TxnId(range.mark),
    }
}

fn failed_entry(number: u64, gone: bool) -> Entry
    ensures { result ≡ entry_of number (its_end.Failed gone) }
{
    let job = JobId(number);
    if gone {
        Entry::Failed {
            job,
            cause: JobCause::Gone,
        }
    } else {
        Entry::Failed {
            job,
            cause: JobCause::Lost,
        }
    }
}

impl<D: Shelf + Drop> House<D> {
    /// Takes away the files of these directories.
    fn clear_dirs(&mut self, dirs: &[DirAt]) -> Result<(), BootFault>
        ensures gone { OnOk result (Moves (DirsGo dirs.now) (D.told self.old.shelf) (D.told self.new.shelf)) }
        ensures some { OnErr result (Moves (SomeDirsGo dirs.now) (D.told self.old.shelf) (D.told self.new.shelf)) }
        ensures beside { IsBeside self.old self.new }
        ensures marks { KeepsMarks self.old self.new }
        ensures ends { IfErr result EndsBoot }
        ensures cause { CallsCause (IsErrOf result BootFault.Store) (D.faults self.old.shelf) (D.faults self.new.shelf)
            (D.hard self.old.shelf) (D.hard self.new.shelf) }
    {
        match clear(&mut self.shelf, dirs) {
            Ok(()) => Ok(()),
            Err(Failed) => Err(BootFault::Store),
        }
    }

    /// Takes away what a job at work has made and staged.
    fn clear_job(&mut self, alloc: Global, number: u64) -> Result<(), BootFault>
        requires named { CanName (entries_of self.old) }
        requires works { works_at (numbered (state_of (entries_of self.old)).jobs number) ≡ true }
        ensures gone { OnOk result
            (Moves (JobDirsGo (entries_of self.old) number) (D.told self.old.shelf) (D.told self.new.shelf)) }
        ensures some { OnErr result
            (Moves (SomeJobDirsGo (entries_of self.old) number) (D.told self.old.shelf) (D.told self.new.shelf)) }
        ensures beside { IsBeside self.old self.new }
        ensures marks { KeepsMarks self.old self.new }
        ensures ends { IfErr result EndsBoot }
        ensures cause { CallsCause (IsErrOf result BootFault.Store) (D.faults self.old.shelf) (D.faults self.new.shelf)
            (D.hard self.old.shelf) (D.hard self.new.shelf) }
    {
        match failing_dirs(alloc, self.trail.book(), JobId(number)) {
            Ok(dirs) => self.clear_dirs(&dirs),
            Err(NoMemory) => Err(BootFault::NoMemory),
        }
    }

    /// Adds how a job ended.
    fn note_end(&mut self, entry: Entry) -> Result<(), BootFault>
        requires kept { IsKept D.told self.old }
        requires bare { tree_of_entry entry ≡ None }
        requires short { length (entry_spelling entry) ≤ entry_limit }
        requires room { length (entries_of self.old) < book_limit }
        ensures step { EndStep (gauged D.told D.faults D.hard) (ends_by IsSame IsSame (entry ∷ []))
            self.old self.new result }
    {
        self.add(entry, None)?;
        Ok(())
    }

    /// Gives up a job at work: what it has made and staged goes, and then it has failed.
    fn give_up(&mut self, alloc: Global, number: u64, gone: bool) -> Result<(), BootFault>
        requires kept { IsKept D.told self.old }
        requires named { CanName (entries_of self.old) }
        requires works { works_at (numbered (state_of (entries_of self.old)).jobs number) ≡ true }
        requires room { length (entries_of self.old) < book_limit }
        ensures step { EndStep (gauged D.told D.faults D.hard)
            (ends_by (SomeJobGoes (entries_of self.old) number) (JobGoes (entries_of self.old) number)
            (entry_of number (its_end.Failed gone) ∷ [])) self.old self.new result }
    {
        self.clear_job(alloc, number)?;
        self.note_end(failed_entry(number, gone))
    }

    /// Ends a job at work so.
    fn end_as(&mut self, alloc: Global, number: u64, end: JobEnd) -> Result<(), BootFault>
        requires kept { IsKept D.told self.old }
        requires named { CanName (entries_of self.old) }
        requires works { works_at (numbered (state_of (entries_of self.old)).jobs number) ≡ true }
        requires room { length (entries_of self.old) < book_limit }
        ensures step { EndStep (gauged D.told D.faults D.hard)
            (ends_by (BeginsAs (entries_of self.old) number (is_publication end))
            (GoesAs (entries_of self.old) number (is_publication end)) (entry_of number end ∷ []))
            self.old self.new result }
    {
        match end {
            JobEnd::Published(range) => self.note_end(published_entry(number, range)),
            JobEnd::Failed { gone } => self.give_up(alloc, number, gone),
        }
    }

    /// Ends the job of this number, where it is at work and these are whole.
    fn end_job(&mut self, alloc: Global, whole: &[u64], number: u64) -> Result<(), BootFault>
        requires kept { IsKept D.told self.old }
        requires fit { AllFit self.old.limits nothing_yet (entries_of self.old) }
        requires room { length (entries_of self.old)
            + length (end_entries whole.now (state_of (entries_of self.old)) number
            (numbered (state_of (entries_of self.old)).jobs number)) ≤ book_limit }
        ensures step { EndStep (gauged D.told D.faults D.hard)
            (ends_by (EndBegins whole.now (state_of (entries_of self.old)) number
            (numbered (state_of (entries_of self.old)).jobs number))
            (EndGoes whole.now (state_of (entries_of self.old)) number
            (numbered (state_of (entries_of self.old)).jobs number))
            (end_entries whole.now (state_of (entries_of self.old)) number
            (numbered (state_of (entries_of self.old)).jobs number)))
            self.old self.new result }
    {
        match end_of(self.trail.book(), whole, JobId(number)) {
            Some(end) => self.end_as(alloc, number, end),
            None => Ok(()),
        }
    }

    /// How many jobs the book has.
    fn job_count(&self) -> usize
        ensures count { result ≡ length (state_of (entries_of self.now)).jobs }
    {
        self.trail.book().jobs().len()
    }

    /// Ends each job that was at work, by number: of these numbers, those that have something to merge in a live table are published, and
    /// the others have failed, when what they made is gone.
    pub(crate) fn end_jobs(&mut self, alloc: Global, whole: &[u64]) -> Result<(), BootFault>
        requires kept { IsKept D.told self.old }
        requires fit { AllFit self.old.limits nothing_yet (entries_of self.old) }
        requires room { length (entries_of self.old)
            + sum_by working_one (state_of (entries_of self.old)).jobs ≤ book_limit }
        ensures step { AllEnd (gauged D.told D.faults D.hard) whole.now self.old self.new result }
    {
        for i in 0..self.job_count() {
            self.end_job(alloc, whole, i as u64 + 1)?;
        }
        Ok(())
    }
}
