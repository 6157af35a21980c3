//! The system's own files. Each call goes on where a signal interrupts it.
use crate::asked::{Change, Part};
use crate::held::{
    Held, above_streams, as_seen, held_metadata, is_same, locked, read_at, read_seen, synced,
    test_kind, write_synced,
};
use crate::system::{Stand, System};
use hv_base::NoMemory;
use hv_paths::{Cause, FileFault, cause_of};
use std::alloc::Global;
use std::fs::{self, File, Metadata, OpenOptions};
use std::io::{ErrorKind, Read};
use std::os::unix::fs::FileExt;
use std::rt::Files;

/// How many bytes of names are asked for at a time.
const CHUNK: usize = 4096;

/// The largest offset in a file.
const LAST_OFFSET: u64 = (1 << 63) - 1;

/// The files of the machine. It tells nothing of what was done.
///
/// The folder that is held, and the folder of all tables, are known to the system by their descriptors,
/// and `/proc/self/fd` gives these a path: so what stands in them is asked for in these very folders,
/// though they be moved and others have their names. Where there is no `/proc` a path is taken by its
/// names.
#[derive(Drop)]
pub struct RealFiles<R> {
    rt: R,
    held: Held,
}

impl<R: Files<File = File>> RealFiles<R> {
    pub fn new(alloc: Global, rt: R) -> RealFiles<R> {
        RealFiles {
            rt,
            held: Held::new(alloc),
        }
    }

    /// Takes a path, and tells what the system says of it, without following a link at its end.
    fn look(&mut self, path: &str) -> Result<Option<Metadata>, FileFault> {
        self.held.take(path)?;
        for _ in 0..u64::MAX {
            match fs::symlink_metadata(&self.rt, self.held.by.as_str()) {
                Ok(found) => return Ok(Some(found)),
                Err(error) if error.kind() == ErrorKind::NotFound => return Ok(None),
                Err(error) if error.kind() == ErrorKind::Interrupted => {}
                Err(error) => return Err(FileFault::Device(cause_of(&error))),
            }
        }
        Err(FileFault::Device(Cause::Other))
    }

    /// Opens what stands at the path that was taken, or makes a file where nothing stands.
    fn opened(&self, writes: bool, anew: bool) -> Result<File, FileFault> {
        let mut how = OpenOptions::new();
        how.read(true).write(writes).create_new(anew);
        above_streams(how.open(&self.rt, self.held.by.as_str())?)
    }

    /// Looks whether the system finds the folder that is held by its number.
    fn find(&mut self, path: &str, seen: &Metadata) -> Result<(), NoMemory> {
        self.held.take_held(path)?;
        self.held.finds = match fs::metadata(&self.rt, self.held.by.as_str()) {
            Ok(found) => is_same(&found, seen),
            Err(_) => false,
        };
        Ok(())
    }
}

/// Appends names that each end with a NUL, but for a folder's names for itself and its parent, and those
/// that are no texts.
fn push_names(alloc: Global, names: &mut Vec<String>, bytes: &[u8]) -> Result<(), NoMemory> {
    let mut begin = 0;
    for (at, byte) in bytes.iter().enumerate() {
        if *byte == 0 {
            let name = str::from_utf8(bytes.get(begin..at).unwrap_or(&[])).unwrap_or("");
            if !name.is_empty() && name != "." && name != ".." {
                names.push(String::from_str(alloc, name)?)?;
            }
            begin = at.saturating_add(1);
        }
    }
    Ok(())
}

/// All names that an open folder gives.
fn all_names<D: Read + Drop>(
    alloc: Global,
    mut folder: D,
) -> Result<Option<Vec<String>>, FileFault> {
    let mut chunk = [0; CHUNK];
    let mut names = Vec::new(alloc);
    for _ in 0..u64::MAX {
        match folder.read(&mut chunk) {
            Ok(0) => return Ok(Some(names)),
            Ok(count) => push_names(alloc, &mut names, &chunk[..count])?,
            Err(error) if error.kind() == ErrorKind::Interrupted => {}
            Err(error) => return Err(FileFault::Device(cause_of(&error))),
        }
    }
    Err(FileFault::Device(Cause::Other))
}

/// Opens a folder to read its names, which refuses a link, None where nothing stands at the path.
fn open_folder<R: Files>(rt: &R, path: &str) -> Result<Option<R::Dir>, FileFault> {
    for _ in 0..u64::MAX {
        match rt.open_dir(path) {
            Ok(folder) => return Ok(Some(folder)),
            Err(error) if error.kind() == ErrorKind::NotFound => return Ok(None),
            Err(error) if error.kind() == ErrorKind::Interrupted => {}
            Err(error) => return Err(FileFault::Device(cause_of(&error))),
        }
    }
    Err(FileFault::Device(Cause::Other))
}

impl<R: Files<File = File>> System for RealFiles<R> {
    ghost did = { λ _ _. Unit {0} };

    ghost changes = { λ _. 0 };

    fn open(&mut self, part: Part, path: &str) -> Result<bool, FileFault> {
        let Some(seen) = self.look(path)? else {
            return Ok(false);
        };
        let is_folder = matches!(part, Part::Folder | Part::Tables);
        test_kind(&seen, is_folder)?;
        let file = self.opened(!is_folder, false)?;
        self.held.hold(part, as_seen(file, &seen, !is_folder)?);
        if matches!(part, Part::Folder) {
            self.find(path, &seen)?;
        }
        Ok(true)
    }

    fn make_file(&mut self, part: Part, path: &str) -> Result<(), FileFault> {
        self.held.take(path)?;
        let made = self.opened(true, true)?;
        self.held.hold(part, locked(made)?);
        Ok(())
    }

    fn holds(&self, part: Part) -> bool {
        self.held.file(part).is_some()
    }

    fn is_at(&mut self, part: Part, path: &str) -> Result<bool, FileFault> {
        let found = self.look(path)?;
        self.held.is_found(part, &found)
    }

    fn journal_len(&mut self) -> Result<u64, FileFault> {
        match self.held.file(Part::Journal) {
            Some(file) => Ok(held_metadata(file)?.len()),
            None => Ok(0),
        }
    }

    fn journal_read(&mut self, at: u64, out: &mut [u8]) -> Result<usize, FileFault> {
        match self.held.file(Part::Journal) {
            Some(file) if at <= LAST_OFFSET => read_at(file, at, out),
            _ => Ok(0),
        }
    }

    fn journal_write(&mut self, at: u64, bytes: &[u8]) -> Result<(), FileFault> {
        match self.held.file(Part::Journal) {
            Some(file) => Ok(file.write_all_at(bytes, at)?),
            None => Err(FileFault::Device(Cause::Other)),
        }
    }

    fn journal_sync(&mut self) -> Result<(), FileFault> {
        match self.held.file(Part::Journal) {
            Some(file) => Ok(file.sync_data()?),
            None => Ok(()),
        }
    }

    fn stand(&mut self, path: &str) -> Result<Stand, FileFault> {
        Ok(match self.look(path)? {
            None => Stand::Nothing,
            Some(found) if found.is_dir() => Stand::Folder,
            Some(found) if found.is_file() => Stand::File,
            Some(_) => Stand::Other,
        })
    }

    fn change(&mut self, kind: Change, path: &str, to: &str) -> Result<bool, FileFault> {
        self.held.take_both(path, to)?;
        for _ in 0..u64::MAX {
            let (by, to) = (self.held.by.as_str(), self.held.to.as_str());
            let (done, otherwise) = match kind {
                Change::MakeFolder => (fs::create_dir(&self.rt, by), ErrorKind::AlreadyExists),
                Change::RemoveFile => (fs::remove_file(&self.rt, by), ErrorKind::NotFound),
                Change::RemoveFolder => (fs::remove_dir(&self.rt, by), ErrorKind::NotFound),
                Change::Rename => (fs::rename(&self.rt, by, to), ErrorKind::NotFound),
            };
            match done {
                Ok(()) => return Ok(true),
                Err(error) if error.kind() == otherwise => return Ok(false),
                Err(error) if error.kind() == ErrorKind::Interrupted => {}
                Err(error) => return Err(FileFault::Device(cause_of(&error))),
            }
        }
        Err(FileFault::Device(Cause::Other))
    }

    fn sync_folder(&mut self, path: &str) -> Result<(), FileFault> {
        // A sync that isn't made for want of memory is one that failed: what was done before it may be lost.
        let Ok(()) = self.held.take_folder(path) else {
            return Err(FileFault::Device(Cause::Other));
        };
        let folder = self.opened(false, false)?;
        synced(&folder)
    }

    fn write_new(&mut self, path: &str, bytes: &[u8]) -> Result<(), FileFault> {
        self.change(Change::RemoveFile, path, "")?;
        let done = write_synced(self.opened(true, true)?, bytes);
        if done.is_err() {
            let _ = self.change(Change::RemoveFile, path, "");
        }
        done
    }

    fn names_in(&mut self, alloc: Global, path: &str) -> Result<Option<Vec<String>>, FileFault> {
        self.held.take(path)?;
        match open_folder(&self.rt, self.held.by.as_str())? {
            Some(folder) => all_names(alloc, folder),
            None => Ok(None),
        }
    }

    fn read(&mut self, alloc: Global, path: &str) -> Result<Option<Vec<u8>>, FileFault> {
        let Some(seen) = self.look(path)? else {
            return Ok(None);
        };
        test_kind(&seen, false)?;
        read_seen(alloc, self.opened(false, false)?, &seen)
    }
}
