//! What a store asks of the system, by paths.
ghost use Rattle.std.specs.Prelude.{◌≡◌, ℕ, ◌≤◌, length, IfOk, IfSome, IsTrue, OnOk};
ghost use Rattle.hv_files.specs.Acts.{Act, Keeps};
ghost use Rattle.hv_files.specs.Acts.Act.{SyncsFolder, Writes, Gives, Finds, WritesJournal};
ghost use Rattle.hv_files.specs.Parts.{act_of};

use crate::asked::{Change, Part};
use hv_paths::FileFault;
use std::alloc::Global;

/// What stands at a path.
#[derive(Clone, Copy)]
pub enum Stand {
    Nothing,
    Folder,
    File,
    /// A link, a device, or another thing that a store has no use for.
    Other,
}

/// The calls on files that a store makes. `did` tells some of those that succeeded, by the paths that
/// they were given, and `changes` how many changes were made by now. None follows a link at the end of
/// its path. Where the system can, a path that leads through the folder that is held is taken in that
/// very folder, whatever name it has by then.
pub trait System {
    ghost did: { Self → Act → Type 0 };

    ghost changes: { Self → ℕ };

    /// Opens the part that stands at a path, and holds it from then on; whether something stands there.
    /// It fails where another run holds the file, and where something else stands there.
    fn open(&mut self, part: Part, path: &str) -> Result<bool, FileFault>
        ensures keeps { Keeps (did self.old) (did self.new) };

    /// Makes the file of a part where nothing stands, and holds it.
    fn make_file(&mut self, part: Part, path: &str) -> Result<(), FileFault>
        ensures keeps { Keeps (did self.old) (did self.new) };

    /// Whether the part is held.
    fn holds(&self, part: Part) -> bool;

    /// Whether the part that is held, and nothing else, stands at a path; of one that isn't held whether
    /// nothing stands there. A path is asked for by its name here, where it is the folder's own.
    fn is_at(&mut self, part: Part, path: &str) -> Result<bool, FileFault>
        ensures keeps { Keeps (did self.old) (did self.new) }
        ensures counted { changes self.new ≡ changes self.old }
        ensures found { IfOk result (λ is. IsTrue is → did self.new (Finds (changes self.old) path.now)) };

    /// The number of bytes of the journal that is held, 0 where none is.
    fn journal_len(&mut self) -> Result<u64, FileFault>;

    /// Reads bytes of the journal from `at` on into the front of `out`, and says how many: 0 from the
    /// end on.
    fn journal_read(&mut self, at: u64, out: &mut [u8]) -> Result<usize, FileFault>
        ensures room { IfOk result (λ count. count ≤ length out.new) };

    /// Writes all the bytes into the journal that is held, from `at` on.
    fn journal_write(&mut self, at: u64, bytes: &[u8]) -> Result<(), FileFault>
        ensures keeps { Keeps (did self.old) (did self.new) }
        ensures done { OnOk result (did self.new (WritesJournal at bytes.now)) };

    /// Makes all that was written to the journal survive a stop.
    fn journal_sync(&mut self) -> Result<(), FileFault>;

    /// What stands at a path.
    fn stand(&mut self, path: &str) -> Result<Stand, FileFault>
        ensures keeps { Keeps (did self.old) (did self.new) };

    /// Makes a folder, takes a file or an empty folder away, or moves either from a path to another. Whether
    /// it was done: no folder is made where something stands, and nothing is taken or moved where nothing
    /// does.
    fn change(&mut self, kind: Change, path: &str, to: &str) -> Result<bool, FileFault>
        ensures keeps { Keeps (did self.old) (did self.new) }
        ensures done { OnOk result (did self.new (act_of kind path.now to.now)) };

    /// Makes the names in a folder survive a stop.
    fn sync_folder(&mut self, path: &str) -> Result<(), FileFault>
        ensures keeps { Keeps (did self.old) (did self.new) }
        ensures done { OnOk result (did self.new (SyncsFolder path.now)) };

    /// Takes away what a stopped run left at the path, makes a file there that no other run has open,
    /// and writes these bytes. They survive a stop once the folder is synced.
    fn write_new(&mut self, path: &str, bytes: &[u8]) -> Result<(), FileFault>
        ensures keeps { Keeps (did self.old) (did self.new) }
        ensures done { OnOk result (did self.new (Writes path.now bytes.now)) };

    /// The names in a folder that are texts, None where nothing stands at the path.
    fn names_in(&mut self, alloc: Global, path: &str) -> Result<Option<Vec<String>>, FileFault>
        ensures keeps { Keeps (did self.old) (did self.new) };

    /// The bytes of a file, None where nothing stands at the path.
    fn read(&mut self, alloc: Global, path: &str) -> Result<Option<Vec<u8>>, FileFault>
        ensures keeps { Keeps (did self.old) (did self.new) }
        ensures done { IfOk result (λ file. IfSome file
            (λ bytes. did self.new (Gives path.now bytes.items))) };
}
