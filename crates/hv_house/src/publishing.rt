//! Directories of a compaction get their names, and then the journal is told.
ghost use Rattle.std.specs.Prelude.{◌≡◌, None};
ghost use Rattle.hv_base.specs.declared.ids.Limits.{Limits};
ghost use Rattle.hv_history.specs.Book.{tree_of_entry};
ghost use Rattle.hv_history.specs.State.{state_of};
ghost use Rattle.hv_history.specs.Legal.{Fits};
ghost use Rattle.hv_house.specs.House.{entries_of, IsSmall, IsReadyWithin};
ghost use Rattle.hv_house.specs.Steps.{IsMarked};
ghost use Rattle.hv_house.specs.Publishing.{measured, PublishStepWithin, HardPublish, IsRoomy, IsToldOf, stop_of, StopsRenaming, told_fault, StopsTelling};

use crate::fault::HouseFault;
use crate::house::{House, discard};
use crate::renaming::{RenameFault, rename_all};
use hv_base::NoMemory;
use hv_history::Entry;
use hv_journal::records_length;
use hv_shelf::{Shelf, ShelfFault};
use hv_trail::Renaming;
use thiserror::Error;

/// Why a publication was not noted.
#[derive(Clone, Copy, Debug, Error)]
pub enum PublishFault {
    /// Memory lacked when directories had their names already: the house is closed.
    #[error("out of memory between renamings")]
    Starved,
    /// A call of the house failed, or memory lacked before the first of them had its name.
    #[error("the house failed")]
    House(HouseFault),
}

impl<D: Shelf> House<D> {
    /// Makes room for an entry, in the buffer and behind the book, so that it asks the house for no memory later.
    fn make_room(&mut self, entry: &Entry) -> Result<(), NoMemory>
        requires small { IsSmall entry.now }
        ensures same { IsRoomy self.old self.new }
    {
        self.buffer.reserve(records_length(entry, &[]))?;
        self.trail.reserve_for(entry, 0)
    }

    /// What it is for the house that a directory didn't get its name.
    fn stop_renaming(&mut self, fault: RenameFault) -> PublishFault
        ensures fault { result ≡ stop_of fault }
        ensures stops { StopsRenaming fault self.old self.new }
    {
        match fault.why {
            ShelfFault::Failed => {
                self.trail.close();
                PublishFault::House(HouseFault::Store)
            }
            ShelfFault::NoMemory => {
                if fault.begun {
                    self.trail.starve();
                    PublishFault::Starved
                } else {
                    PublishFault::House(HouseFault::NoMemory)
                }
            }
        }
    }

    /// What it is for the house that the publication of directories that have their names wasn't noted.
    fn stop_telling(&mut self, fault: HouseFault) -> PublishFault
        ensures fault { result ≡ told_fault fault }
        ensures stops { StopsTelling fault self.old self.new }
    {
        match fault {
            HouseFault::NoMemory => {
                self.trail.starve();
                PublishFault::Starved
            }
            HouseFault::Store => PublishFault::House(HouseFault::Store),
            HouseFault::Failed { count } => PublishFault::House(HouseFault::Failed { count }),
        }
    }

    /// Notes the publication of directories that have their names.
    fn tell(&mut self, entry: Entry) -> Result<(), PublishFault>
        ghost limits: { Limits }
        requires ready { IsReadyWithin limits D.told self.old }
        requires textless { tree_of_entry entry ≡ None }
        requires small { IsSmall entry }
        requires fits { Fits limits (state_of (entries_of self.old)) entry }
        requires marked { IsMarked self.old entry }
        ensures told { IsToldOf (measured limits D.told D.faults) entry self.old self.new result }
        ensures hard { HardPublish D.hard self.old self.new }
    {
        match self.note(entry, None) {
            Ok(()) => Ok(()),
            Err(fault) => Err(self.stop_telling(fault)),
        }
    }

    /// Gives directories their names, one after another, and notes an entry for which there is room.
    fn publish_in_room(&mut self, renamings: &[Renaming], entry: Entry) -> Result<(), PublishFault>
        ghost limits: { Limits }
        requires ready { IsReadyWithin limits D.told self.old }
        requires textless { tree_of_entry entry ≡ None }
        requires small { IsSmall entry }
        requires fits { Fits limits (state_of (entries_of self.old)) entry }
        requires marked { IsMarked self.old entry }
        ensures published { PublishStepWithin (measured limits D.told D.faults) renamings.now entry
            self.old self.new result }
        ensures hard { HardPublish D.hard self.old self.new }
    {
        match rename_all(&mut self.shelf, renamings) {
            Ok(()) => self.tell(entry),
            Err(fault) => {
                discard(entry);
                Err(self.stop_renaming(fault))
            }
        }
    }

    /// Gives directories their names, one after another, and notes an entry that fits. It asks for room for the entry before.
    ///
    /// # Errors
    /// `House` with `NoMemory` where memory lacked before the first of them had its name: the house is as it was. `Starved` where it
    /// lacked later, and `House` with `Store` where the store failed: the first ones have their names then, and the house is closed.
    pub fn publish(&mut self, renamings: &[Renaming], entry: Entry) -> Result<(), PublishFault>
        ghost limits: { Limits }
        requires ready { IsReadyWithin limits D.told self.old }
        requires textless { tree_of_entry entry ≡ None }
        requires small { IsSmall entry }
        requires fits { Fits limits (state_of (entries_of self.old)) entry }
        requires marked { IsMarked self.old entry }
        ensures published { PublishStepWithin (measured limits D.told D.faults) renamings.now entry
            self.old self.new result }
        ensures hard { HardPublish D.hard self.old self.new }
    {
        match self.make_room(&entry) {
            Ok(()) => self.publish_in_room(renamings, entry),
            Err(NoMemory) => {
                discard(entry);
                Err(PublishFault::House(HouseFault::NoMemory))
            }
        }
    }
}
