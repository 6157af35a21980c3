ghost use Rattle.std.specs.Prelude.{◌≡◌, None, IfOk, IfSome, OnOk, IsErr, IsErrOf, string_bytes};
ghost use Rattle.hv_shelf.specs.Causes.{SoftCause, HardCause};
ghost use Rattle.hv_shelf.specs.Places.{dir_named};
ghost use Rattle.hv_files.specs.Acts.{Puts, Stands};
ghost use Rattle.hv_files.specs.Acts.Act.{Gives, Moves, TakesFolder, WritesJournal};
ghost use Rattle.hv_paths.specs.Paths.{tables_path, file_path, working_path, path_of_dir, dir_of};

use crate::counts::Counts;
use crate::home::Home;
use crate::real::RealFiles;
use crate::system::System;
use crate::tree::Tree;
use hv_base::{Failed, TableId, Text};
use hv_paths::{Cause, FileFault, tables_path};
use hv_shelf::{DirAt, Place, Shelf, ShelfFault};
use std::alloc::Global;
use std::fs::File;
use std::rt::Files;

/// A store over the files of one folder, of which one may be open at a time on a machine. It tells
/// nothing. The folder is made with the first change. What a successful call has changed is on the
/// device, but for writes to the journal, which are there behind the next sync. Each call that changes
/// anything first looks whether the folder, its journal and its tables are those that were opened, and
/// fails where one isn't.
#[derive(Drop)]
pub struct FileShelf<S> {
    system: S,
    home: Home,
    tree: Tree,
    /// No sync of the journal has failed: behind one that did none is Ok again, since the system may then
    /// have dropped what it couldn't write.
    sound: bool,
    counts: Counts,
}

impl<R: Files<File = File> + Drop> FileShelf<RealFiles<R>> {
    /// Opens the store in the folder at `path`, or looks whether it can be made there: the folder above
    /// must be there. It is refused where another run has the store open, where tables stand in the
    /// folder and no journal tells of them, and where the path is too long for what is to stand there.
    pub fn at(alloc: Global, rt: R, path: &str) -> Result<FileShelf<RealFiles<R>>, FileFault>
        ensures counts { IfOk result (λ s. (s.counts.faults ≡ 0) × (s.counts.hard ≡ 0)) }
        ensures root { IfOk result (λ s. string_bytes s.tree.root ≡ tables_path path.now) }
        ensures folder { IfOk result (λ s. string_bytes s.home.folder ≡ path.now) }
    {
        FileShelf::over(alloc, RealFiles::new(alloc, rt), path)
    }
}

impl<S: System + Drop> FileShelf<S> {
    /// Opens the store in the folder at `path` of another system's files.
    pub fn over(alloc: Global, mut system: S, path: &str) -> Result<FileShelf<S>, FileFault>
        ensures counts { IfOk result (λ s. (s.counts.faults ≡ 0) × (s.counts.hard ≡ 0)) }
        ensures root { IfOk result (λ s. string_bytes s.tree.root ≡ tables_path path.now) }
        ensures folder { IfOk result (λ s. string_bytes s.home.folder ≡ path.now) }
    {
        let home = Home::open(alloc, &mut system, path)?;
        let root = tables_path(alloc, path)?;
        Ok(FileShelf {
            system,
            home,
            tree: Tree::new(alloc, root),
            sound: true,
            counts: Counts::new(),
        })
    }

    /// The cause of the last failure.
    pub fn last_cause(&self) -> Option<Cause> {
        match self.counts.last {
            Some(FileFault::Device(cause)) => Some(cause),
            _ => None,
        }
    }

    /// Whether this run has made the store, which had no journal before.
    pub fn is_made(&self) -> bool {
        self.home.is_made()
    }

    /// The system over whose files the store stands.
    pub fn system(&self) -> &S {
        &self.system
    }
}

impl<S: System + Drop> Shelf for FileShelf<S> {
    ghost told = { λ _. None };

    ghost unsynced = { λ _ left. left ≡ None };

    ghost faults = { λ s. s.counts.faults };

    ghost hard = { λ s. s.counts.hard };

    fn journal_len(&mut self) -> Result<u64, Failed> {
        let done = self.system.journal_len();
        self.counts.hard_device(done)
    }

    fn journal_read(&mut self, at: u64, out: &mut [u8]) -> Result<usize, Failed> {
        let done = self.system.journal_read(at, out);
        self.counts.hard_device(done)
    }

    #[tactic(auto, using(crate::proofs::ActLemmas::stands_on))]
    fn journal_write(&mut self, at: u64, bytes: &[u8]) -> Result<(), ShelfFault>
        ensures cause { HardCause (IsErrOf result ShelfFault.Failed) self.old.counts.faults
            self.new.counts.faults self.old.counts.hard self.new.counts.hard }
        ensures stays { ¬ (IsErrOf result ShelfFault.Failed)
            → self.new.counts.hard ≡ self.old.counts.hard }
        ensures stood { OnOk result (Stands (S.changes self.old.system) (S.did self.new.system)
            (string_bytes self.old.home.folder)) }
        ensures acts { OnOk result (S.did self.new.system (WritesJournal at bytes.now)) }
        ensures folder { self.new.home.folder ≡ self.old.home.folder }
    {
        match self.home.begin(&mut self.system, true) {
            Ok(()) => {
                let done = self.system.journal_write(at, bytes);
                self.counts.hard(done)
            }
            Err(fault) => self.counts.hard(Err(fault)),
        }
    }

    fn journal_sync(&mut self) -> Result<(), Failed> {
        let done = if self.sound {
            self.system.journal_sync()
        } else {
            Err(FileFault::Device(Cause::Unsynced))
        };
        self.sound = done.is_ok();
        self.counts.hard_device(done)
    }

    fn list(&mut self, alloc: Global, table: TableId) -> Result<Vec<Place>, ShelfFault> {
        let done = self.tree.list(&mut self.system, alloc, table);
        self.counts.soft(done)
    }

    fn get(&mut self, alloc: Global, place: &Place) -> Result<Option<Vec<u8>>, ShelfFault>
        ensures cause { SoftCause (IsErrOf result ShelfFault.Failed) self.old.counts.faults
            self.new.counts.faults self.old.counts.hard self.new.counts.hard }
        ensures stays { ¬ (IsErrOf result ShelfFault.Failed)
            → self.new.counts.hard ≡ self.old.counts.hard }
        ensures acts { IfOk result (λ file. IfSome file (λ bytes. S.did self.new.system
            (Gives (file_path (string_bytes self.old.tree.root) place.now) bytes.items))) }
        ensures root { self.new.tree.root ≡ self.old.tree.root }
    {
        let done = self.tree.get(&mut self.system, alloc, place);
        self.counts.soft(done)
    }

    #[tactic(auto, using(crate::proofs::ActLemmas::stands_on))]
    fn put(&mut self, place: &Place, bytes: &[u8]) -> Result<(), ShelfFault>
        ensures cause { SoftCause (IsErrOf result ShelfFault.Failed) self.old.counts.faults
            self.new.counts.faults self.old.counts.hard self.new.counts.hard }
        ensures stays { ¬ (IsErrOf result ShelfFault.Failed)
            → self.new.counts.hard ≡ self.old.counts.hard }
        ensures stood { OnOk result (Stands (S.changes self.old.system) (S.did self.new.system)
            (string_bytes self.old.home.folder)) }
        ensures acts { OnOk result (Puts (S.did self.new.system)
            (working_path (string_bytes self.old.tree.root) place.now)
            (file_path (string_bytes self.old.tree.root) place.now)
            (path_of_dir (string_bytes self.old.tree.root) (dir_of place.now))
            bytes.now) }
        ensures root { self.new.tree.root ≡ self.old.tree.root }
        ensures folder { self.new.home.folder ≡ self.old.home.folder }
    {
        match self.home.begin(&mut self.system, self.tree.known.sound) {
            Ok(()) => {
                let done = self.tree.put(&mut self.system, place, bytes);
                self.counts.soft(done)
            }
            Err(fault) => self.counts.soft(Err(fault)),
        }
    }

    #[tactic(auto, using(crate::proofs::ActLemmas::stands_on))]
    fn rename(&mut self, from: &DirAt, to: &Text) -> Result<(), ShelfFault>
        ensures cause { HardCause (IsErrOf result ShelfFault.Failed) self.old.counts.faults
            self.new.counts.faults self.old.counts.hard self.new.counts.hard }
        ensures stays { ¬ (IsErrOf result ShelfFault.Failed)
            → self.new.counts.hard ≡ self.old.counts.hard }
        ensures stood { OnOk result (Stands (S.changes self.old.system) (S.did self.new.system)
            (string_bytes self.old.home.folder)) }
        ensures acts { OnOk result (S.did self.new.system
            (Moves (path_of_dir (string_bytes self.old.tree.root) from.now)
            (path_of_dir (string_bytes self.old.tree.root) (dir_named from.now to.now)))) }
        ensures root { self.new.tree.root ≡ self.old.tree.root }
        ensures folder { self.new.home.folder ≡ self.old.home.folder }
    {
        match self.home.begin(&mut self.system, self.tree.known.sound) {
            Ok(()) => {
                let done = self.tree.rename(&mut self.system, from, to);
                self.counts.hard(done)
            }
            Err(fault) => self.counts.hard(Err(fault)),
        }
    }

    /// Where memory runs out this fails, since it has no other answer for that.
    #[tactic(auto, using(crate::proofs::ActLemmas::stands_on))]
    fn remove(&mut self, dir: &DirAt) -> Result<(), Failed>
        ensures cause { SoftCause (IsErr result) self.old.counts.faults
            self.new.counts.faults self.old.counts.hard self.new.counts.hard }
        ensures stays { ¬ (IsErr result)
            → self.new.counts.hard ≡ self.old.counts.hard }
        ensures stood { OnOk result (Stands (S.changes self.old.system) (S.did self.new.system)
            (string_bytes self.old.home.folder)) }
        ensures acts { OnOk result (S.did self.new.system
            (TakesFolder (path_of_dir (string_bytes self.old.tree.root) dir.now))) }
        ensures root { self.new.tree.root ≡ self.old.tree.root }
        ensures folder { self.new.home.folder ≡ self.old.home.folder }
    {
        match self.home.begin(&mut self.system, self.tree.known.sound) {
            Ok(()) => {
                let done = self.tree.remove(&mut self.system, dir);
                self.counts.soft_device(done)
            }
            Err(fault) => self.counts.soft_device(Err(fault)),
        }
    }

    fn fault_count(&self) -> u64 {
        self.counts.faults
    }

    fn hard_count(&self) -> u64 {
        self.counts.hard
    }
}
