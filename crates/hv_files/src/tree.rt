//! The tree of files.
ghost use Rattle.std.specs.Prelude.{◌≡◌, ◌++◌, IfOk, IfSome, OnOk, string_bytes};
ghost use Rattle.hv_shelf.specs.Disk.{IsListing};
ghost use Rattle.hv_files.specs.Acts.{Keeps, Puts};
ghost use Rattle.hv_files.specs.Acts.Act.{Gives, Writes, Moves, TakesFolder};
ghost use Rattle.hv_paths.specs.Paths.{file_path, working_path, path_of_dir, dir_path};

use crate::asked::Change;
use crate::known::Known;
use crate::system::{Stand, System};
use hv_base::{NoMemory, TableId, Text};
use hv_paths::{
    Cause, Entry, FileFault, dir_path, entry_of, file_path, folders_of, is_ours, outer_of, path_in,
    read_bucket, table_path, working_path,
};
use hv_shelf::{DirAt, Place};
use std::alloc::Global;
use std::collections::BTreeSet;

/// The files of all tables, below one folder. A change is asked for only while no sync of its folders has
/// failed, since the system may then have dropped what it couldn't write.
#[derive(Drop)]
pub struct Tree {
    alloc: Global,
    pub root: String,
    pub known: Known,
}

/// A folder in which pieces of a partition's text and directories of files may stand.
#[derive(Drop)]
struct Inside {
    path: String,
    /// The partition's text as far as the folders above and this one go, None in a table's folder.
    partition: Option<String>,
}

impl Tree {
    pub fn new(alloc: Global, root: String) -> Tree
        ensures root { result.root ≡ root }
    {
        Tree {
            alloc,
            root,
            known: Known::new(alloc),
        }
    }

    /// Creates or replaces one file: it is written beside, and renamed into place.
    pub fn put<S: System>(
        &mut self,
        system: &mut S,
        place: &Place,
        bytes: &[u8],
    ) -> Result<(), FileFault>
        ensures keeps { Keeps (S.did system.old) (S.did system.new) }
        ensures done { OnOk result (Puts (S.did system.new)
            (working_path (string_bytes self.old.root) place.now)
            (file_path (string_bytes self.old.root) place.now)
            (dir_path (string_bytes self.old.root) place.now.table.0 place.now.partition
            place.now.dir)
            bytes.now) }
        ensures root { self.new.root ≡ self.old.root }
    {
        let (alloc, root) = (self.alloc, self.root.as_str());
        let folder = dir_path(alloc, root, place.table, &place.partition, &place.dir)?;
        let beside = working_path(alloc, root, place)?;
        let file = file_path(alloc, root, place)?;
        let (partition, dir) = (place.partition.as_str(), place.dir.as_str());
        let names = folders_of(alloc, place.table, partition, dir)?;
        self.known
            .make_folders(system, alloc, root, names.as_slice())?;
        replace(system, beside.as_str(), file.as_str(), bytes)?;
        self.known.sync(system, folder.as_str())
    }

    /// The bytes of the file at `place`.
    pub fn get<S: System>(
        &mut self,
        system: &mut S,
        alloc: Global,
        place: &Place,
    ) -> Result<Option<Vec<u8>>, FileFault>
        ensures keeps { Keeps (S.did system.old) (S.did system.new) }
        ensures done { IfOk result (λ file. IfSome file (λ bytes.
            S.did system.new (Gives (file_path (string_bytes self.old.root) place.now) bytes.items))) }
        ensures root { self.new.root ≡ self.old.root }
    {
        let path = file_path(self.alloc, self.root.as_str(), place)?;
        if self.reach(system, place.table, &place.partition, &place.dir)? {
            system.read(alloc, path.as_str())
        } else {
            Ok(None)
        }
    }

    /// Whether the folders of a directory of files stand, from the folder of all tables on. None of them is a
    /// link.
    fn reach<S: System>(
        &mut self,
        system: &mut S,
        table: TableId,
        partition: &Text,
        dir: &Text,
    ) -> Result<bool, FileFault>
        ensures keeps { Keeps (S.did system.old) (S.did system.new) }
        ensures root { self.new.root ≡ self.old.root }
    {
        let names = folders_of(self.alloc, table, partition.as_str(), dir.as_str())?;
        self.known
            .is_reached(system, self.alloc, self.root.as_str(), names.as_slice())
    }

    /// Takes away all files of `dir`, and the folder. It fails where something else is left in it.
    pub fn remove<S: System>(&mut self, system: &mut S, dir: &DirAt) -> Result<(), FileFault>
        ensures keeps { Keeps (S.did system.old) (S.did system.new) }
        ensures done { OnOk result
            (S.did system.new (TakesFolder (path_of_dir (string_bytes self.old.root) dir.now))) }
        ensures root { self.new.root ≡ self.old.root }
    {
        let (alloc, root) = (self.alloc, self.root.as_str());
        let folder = dir_path(alloc, root, dir.table, &dir.partition, &dir.dir)?;
        if self.reach(system, dir.table, &dir.partition, &dir.dir)? {
            empty(system, alloc, &mut self.known, folder.as_str())?;
        }
        system.change(Change::RemoveFolder, folder.as_str(), "")?;
        self.known.forget(&folder);
        self.known.sync_real(system, outer_of(folder.as_str()))
    }

    /// Moves all files of `from` to the directory's name `to` in the same partition. It fails where a
    /// file stands under `to`.
    pub fn rename<S: System>(
        &mut self,
        system: &mut S,
        from: &DirAt,
        to: &Text,
    ) -> Result<(), FileFault>
        ensures keeps { Keeps (S.did system.old) (S.did system.new) }
        ensures done { OnOk result (S.did system.new
            (Moves (path_of_dir (string_bytes self.old.root) from.now)
            (dir_path (string_bytes self.old.root) from.now.table.0 from.now.partition to.now))) }
        ensures root { self.new.root ≡ self.old.root }
    {
        let (alloc, root) = (self.alloc, self.root.as_str());
        let old = dir_path(alloc, root, from.table, &from.partition, &from.dir)?;
        let new = dir_path(alloc, root, from.table, &from.partition, to)?;
        self.reach(system, from.table, &from.partition, &from.dir)?;
        system.change(Change::Rename, old.as_str(), new.as_str())?;
        self.known.forget(&old);
        self.known.sync_real(system, outer_of(old.as_str()))
    }

    /// The places of one table, rising.
    #[tactic(auto, using(crate::proofs::ActLemmas::keeps_on))]
    pub fn list<S: System>(
        &mut self,
        system: &mut S,
        alloc: Global,
        table: TableId,
    ) -> Result<Vec<Place>, FileFault>
        ensures rising { IfOk result (λ places. IsListing table places.items) }
        ensures keeps { Keeps (S.did system.old) (S.did system.new) }
        ensures root { self.new.root ≡ self.old.root }
    {
        let is_there = self
            .known
            .is_reached(system, self.alloc, self.root.as_str(), &[])?;
        let mut left = Vec::new(self.alloc);
        if is_there {
            left.push(Inside {
                path: table_path(self.alloc, self.root.as_str(), table)?,
                partition: None,
            })?;
        }
        let mut found = BTreeSet::new(self.alloc);
        for _ in 0..u64::MAX {
            let Some(folder) = left.pop() else {
                return Ok(listing_of(alloc, table, found)?);
            };
            self.known
                .look_into(system, self.alloc, table, &folder, &mut left, &mut found)?;
        }
        Err(FileFault::Device(Cause::Other))
    }
}

/// Writes a file beside its place, and moves it there in place of another file.
fn replace<S: System>(
    system: &mut S,
    beside: &str,
    file: &str,
    bytes: &[u8],
) -> Result<(), FileFault>
    ensures keeps { Keeps (S.did system.old) (S.did system.new) }
    ensures writes { OnOk result (S.did system.new (Writes beside.now bytes.now)) }
    ensures moves { OnOk result (S.did system.new (Moves beside.now file.now)) }
{
    match system.stand(file)? {
        Stand::Nothing | Stand::File => {}
        _ => return Err(FileFault::Device(Cause::NotAFile)),
    }
    system.write_new(beside, bytes)?;
    if system.change(Change::Rename, beside, file)? {
        Ok(())
    } else {
        Err(FileFault::Device(Cause::Other))
    }
}

/// Takes away the files of a folder, and what a put that failed has left beside them.
#[tactic(auto, using(crate::proofs::ActLemmas::keeps_on))]
fn empty<S: System>(
    system: &mut S,
    alloc: Global,
    known: &mut Known,
    folder: &str,
) -> Result<(), FileFault>
    ensures keeps { Keeps (S.did system.old) (S.did system.new) }
{
    let Some(names) = system.names_in(alloc, folder)? else {
        return Ok(());
    };
    for name in &names {
        let file = name.strip_prefix('.').unwrap_or(name.as_str());
        if read_bucket(alloc, file)?.is_some() {
            let path = path_in(alloc, folder, name.as_str())?;
            system.change(Change::RemoveFile, path.as_str(), "")?;
        }
    }
    known.sync(system, folder)
}

impl Known {
    /// Finds the files of the directories in a folder, and the folders of further pieces.
    #[tactic(auto, using(crate::proofs::ActLemmas::keeps_on))]
    fn look_into<S: System>(
        &mut self,
        system: &mut S,
        alloc: Global,
        table: TableId,
        folder: &Inside,
        left: &mut Vec<Inside>,
        found: &mut BTreeSet<Place>,
    ) -> Result<(), FileFault>
        ensures keeps { Keeps (S.did system.old) (S.did system.new) }
    {
        let names = self.names_in(system, alloc, &folder.path, true)?;
        for name in &names {
            let path = path_in(alloc, folder.path.as_str(), name.as_str())?;
            match entry_of(name.as_str()) {
                Entry::Piece(piece) => left.push(Inside {
                    path,
                    partition: Some(with_piece(alloc, folder, piece)?),
                })?,
                Entry::Dir(dir) => {
                    let files = self.names_in(system, alloc, &path, is_ours(name.as_str()))?;
                    push_places(alloc, table, folder, dir, files.as_slice(), found)?;
                }
                Entry::Other => {}
            }
        }
        Ok(())
    }
}

/// Finds the files of one directory, which has these names.
fn push_places(
    alloc: Global,
    table: TableId,
    folder: &Inside,
    dir: &str,
    names: &[String],
    found: &mut BTreeSet<Place>,
) -> Result<(), FileFault> {
    let partition = match &folder.partition {
        None => "",
        // The empty text has no folder of its own, so nothing was put here.
        Some(text) if text.is_empty() => return Ok(()),
        Some(text) => text.as_str(),
    };
    for name in names {
        if let Some(bucket) = read_bucket(alloc, name.as_str())? {
            found.insert(Place {
                table,
                partition: Text::of(alloc, partition)?,
                dir: Text::of(alloc, dir)?,
                bucket,
            })?;
        }
    }
    Ok(())
}

/// The partition's text of a folder, with one more piece.
fn with_piece(alloc: Global, folder: &Inside, piece: &str) -> Result<String, NoMemory> {
    match &folder.partition {
        None => Ok(String::from_str(alloc, piece)?),
        Some(text) => path_in(alloc, text.as_str(), piece),
    }
}

/// The places of a table among those found, rising.
fn listing_of(alloc: Global, table: TableId, found: BTreeSet<Place>) -> Result<Vec<Place>, NoMemory>
    ensures rising { IfOk result (λ places. IsListing table places.items) }
{
    let mut places = Vec::new(alloc);
    for place in found {
        if place.table == table {
            places.push(place)?;
        }
    }
    Ok(places)
}
