//! The folder of a store: what is held open of it, and its making.
ghost use Rattle.std.specs.Prelude.{◌≡◌, IfOk, OnOk, string_bytes};
ghost use Rattle.hv_files.specs.Acts.{Keeps, Stands};
ghost use Rattle.hv_files.specs.Acts.Act.{Finds};
ghost use Rattle.hv_files.specs.Parts.{part_path};

use crate::asked::{Change, Part};
use crate::system::{Stand, System};
use hv_base::NoMemory;
use hv_paths::{Cause, FileFault, above, is_table, journal_path, lock_path, path_in, tables_path};
use std::alloc::Global;

/// The most bytes of the folder's path: the system takes 4,095, and 512 are kept for the longest name
/// below the folder.
pub const LONGEST_FOLDER: usize = 3_583;

/// The folder of a store.
#[derive(Drop)]
pub struct Home {
    alloc: Global,
    pub folder: String,
    /// There was no journal when it was opened.
    is_new: bool,
    /// All that belongs into it was made, and is held.
    whole: bool,
    /// Making it failed, perhaps at a sync.
    failed: bool,
}

/// Looks at the folder in which a store's folder is to be made, which a link may lead to.
fn look_above<S: System>(alloc: Global, system: &mut S, folder: &str) -> Result<(), FileFault> {
    let inside = path_in(alloc, above(folder), ".")?;
    match system.stand(inside.as_str()) {
        Ok(Stand::Folder) => Ok(()),
        Ok(_) | Err(FileFault::Device(Cause::NotAFolder)) => {
            Err(FileFault::Device(Cause::NoParent))
        }
        Err(fault) => Err(fault),
    }
}

impl Home {
    /// Looks at the store's folder, and holds what stands there: nothing is made. It fails where another
    /// run holds the store, where anything but its own files and folders stands under their names, where
    /// the path is too long for what is to stand in the folder, and where tables stand in it without a
    /// journal that tells of them.
    pub fn open<S: System>(alloc: Global, system: &mut S, path: &str) -> Result<Home, FileFault>
        ensures folder { IfOk result (λ home. string_bytes home.folder ≡ path.now) }
    {
        if path.len() > LONGEST_FOLDER {
            return Err(FileFault::Device(Cause::LongPath));
        }
        if system.open(Part::Folder, path)? {
            open_parts(alloc, system, path)?;
        } else {
            look_above(alloc, system, path)?;
        }
        Ok(Home {
            alloc,
            folder: String::from_str(alloc, path)?,
            is_new: !system.holds(Part::Journal),
            whole: false,
            failed: false,
        })
    }

    /// Whether this run has made the store.
    pub fn is_made(&self) -> bool {
        self.is_new && self.whole
    }

    /// Fails where the folder, its journal or its tables isn't the one that is held.
    fn test<S: System>(&self, system: &mut S) -> Result<(), FileFault>
        ensures keeps { Keeps (S.did system.old) (S.did system.new) }
        ensures stood { OnOk result
            (Stands (S.changes system.old) (S.did system.new) (string_bytes self.now.folder)) }
    {
        let folder = self.folder.as_str();
        test_part(self.alloc, system, Part::Folder, folder)?;
        test_part(self.alloc, system, Part::Journal, folder)?;
        test_part(self.alloc, system, Part::Tables, folder)
    }

    /// Looks whether what is held stands in its place, and makes what isn't there yet, before a change. It
    /// fails too where making it has failed, or a sync of the tables (`sound`).
    #[tactic(auto, using(crate::proofs::ActLemmas::stands_on))]
    pub fn begin<S: System>(&mut self, system: &mut S, sound: bool) -> Result<(), FileFault>
        ensures stood { OnOk result (Stands (S.changes system.old) (S.did system.new)
            (string_bytes self.old.folder)) }
        ensures folder { self.new.folder ≡ self.old.folder }
    {
        self.test(system)?;
        if self.failed || !sound {
            return Err(FileFault::Device(Cause::Unsynced));
        }
        if self.whole {
            return Ok(());
        }
        let done = make_parts(self.alloc, system, self.folder.as_str());
        self.whole = done.is_ok();
        self.failed = matches!(done, Err(FileFault::Device(_)));
        done
    }
}

/// Where a part of the store in a folder stands.
fn part_path(alloc: Global, folder: &str, part: Part) -> Result<String, NoMemory>
    ensures path { IfOk result (λ path. string_bytes path ≡ part_path part folder.now) }
{
    match part {
        Part::Folder => Ok(String::from_str(alloc, folder)?),
        Part::Tables => tables_path(alloc, folder),
        Part::Lock => lock_path(alloc, folder),
        Part::Journal => journal_path(alloc, folder),
    }
}

/// Holds a part, if something stands at its path.
fn open_part<S: System>(
    alloc: Global,
    system: &mut S,
    part: Part,
    folder: &str,
) -> Result<bool, FileFault>
    ensures keeps { Keeps (S.did system.old) (S.did system.new) }
{
    let path = part_path(alloc, folder, part)?;
    system.open(part, path.as_str())
}

/// Holds what stands in the folder.
fn open_parts<S: System>(alloc: Global, system: &mut S, folder: &str) -> Result<(), FileFault> {
    open_part(alloc, system, Part::Tables, folder)?;
    open_part(alloc, system, Part::Lock, folder)?;
    open_part(alloc, system, Part::Journal, folder)?;
    test_journal(alloc, system, folder)
}

/// Fails where the journal tells of nothing, since it isn't there, has no byte or begins with a closed
/// gate, and a table's folder stands in the folder of all tables.
fn test_journal<S: System>(alloc: Global, system: &mut S, folder: &str) -> Result<(), FileFault> {
    let mut gate = [0];
    let count = system.journal_read(0, &mut gate)?;
    if count > 0 && gate[0] != 0 {
        return Ok(());
    }
    let tables = tables_path(alloc, folder)?;
    let Some(names) = system.names_in(alloc, tables.as_str())? else {
        return Ok(());
    };
    for name in &names {
        if is_table(name.as_str()) {
            return Err(FileFault::Device(Cause::NoJournal));
        }
    }
    Ok(())
}

/// Fails where what is held of a part isn't what stands at its path.
fn test_part<S: System>(
    alloc: Global,
    system: &mut S,
    part: Part,
    folder: &str,
) -> Result<(), FileFault>
    ensures keeps { Keeps (S.did system.old) (S.did system.new) }
    ensures counted { S.changes system.new ≡ S.changes system.old }
    ensures found { OnOk result (S.did system.new (Finds (S.changes system.old) (part_path part folder.now))) }
{
    let path = part_path(alloc, folder, part)?;
    if system.is_at(part, path.as_str())? {
        Ok(())
    } else {
        Err(FileFault::Device(Cause::Exchanged))
    }
}

/// Makes what isn't held yet. The folder's name is to survive a stop: one that stands without a journal
/// may be what a stopped run left, so the folder above is synced then too, if this run may read it.
#[tactic(auto, using(crate::proofs::ActLemmas::keeps_on))]
fn make_parts<S: System>(alloc: Global, system: &mut S, folder: &str) -> Result<(), FileFault>
    ensures keeps { Keeps (S.did system.old) (S.did system.new) }
{
    make_outer(alloc, system, folder)?;
    make_part(alloc, system, Part::Lock, folder)?;
    make_part(alloc, system, Part::Journal, folder)?;
    make_part(alloc, system, Part::Tables, folder)?;
    system.sync_folder(folder)
}

#[tactic(auto, using(crate::proofs::ActLemmas::keeps_on))]
fn make_outer<S: System>(alloc: Global, system: &mut S, folder: &str) -> Result<(), FileFault>
    ensures keeps { Keeps (S.did system.old) (S.did system.new) }
{
    if !system.holds(Part::Folder) {
        make_part(alloc, system, Part::Folder, folder)?;
        return system.sync_folder(above(folder));
    }
    if !system.holds(Part::Journal) {
        let _ = system.sync_folder(above(folder));
    }
    Ok(())
}

/// Makes a part that isn't held yet, and holds it.
fn make_part<S: System>(
    alloc: Global,
    system: &mut S,
    part: Part,
    folder: &str,
) -> Result<(), FileFault>
    ensures keeps { Keeps (S.did system.old) (S.did system.new) }
{
    if system.holds(part) {
        return Ok(());
    }
    let path = part_path(alloc, folder, part)?;
    match part {
        Part::Folder | Part::Tables => make_folder(alloc, system, part, path.as_str()),
        Part::Lock | Part::Journal => system.make_file(part, path.as_str()),
    }
}

/// Makes a folder where nothing stood when the store was opened, and holds it: nothing stands in it yet.
#[tactic(auto, using(crate::proofs::ActLemmas::keeps_on))]
fn make_folder<S: System>(
    alloc: Global,
    system: &mut S,
    part: Part,
    path: &str,
) -> Result<(), FileFault>
    ensures keeps { Keeps (S.did system.old) (S.did system.new) }
{
    if !system.change(Change::MakeFolder, path, "")? {
        return Err(FileFault::Device(Cause::InUse));
    }
    let is_there = system.open(part, path)?;
    match system.names_in(alloc, path)? {
        Some(names) if is_there && names.is_empty() => Ok(()),
        _ => Err(FileFault::Device(Cause::Exchanged)),
    }
}
