//! What is held open of a store on the machine, and what is done with open files.
ghost use Rattle.std.specs.Prelude.{◌≤◌, length, IfOk};

use crate::asked::Part;
use hv_base::NoMemory;
use hv_paths::{Cause, FileFault, cause_of, path_in};
use std::alloc::{AllocError, Global};
use std::fs::{File, Metadata, TryLockError};
use std::io::{ErrorKind, Read, Write};
use std::mem;
use std::os::fd::AsRawFd;
use std::os::unix::fs::{FileExt, MetadataExt};

/// How a path goes on from a store's folder to the folder of all tables.
const TABLES: &str = "/tables";

/// The largest number of a standard stream.
const LAST_STREAM: i32 = 2;

/// What is held open of a store. The system's locks on two of the files go with them.
#[derive(Drop)]
pub struct Held {
    alloc: Global,
    folder: Option<File>,
    tables: Option<File>,
    lock: Option<File>,
    journal: Option<File>,
    /// The path at which the folder was opened, and whether the system finds what is open by its number.
    path: String,
    pub finds: bool,
    /// The path by which the system is asked for the one that was taken last, and for the one to which
    /// something is moved.
    pub by: String,
    pub to: String,
}

impl Held {
    pub fn new(alloc: Global) -> Held {
        Held {
            alloc,
            folder: None,
            tables: None,
            lock: None,
            journal: None,
            path: String::new(alloc),
            finds: false,
            by: String::new(alloc),
            to: String::new(alloc),
        }
    }

    pub fn hold(&mut self, part: Part, file: File) {
        match part {
            Part::Folder => self.folder = Some(file),
            Part::Tables => self.tables = Some(file),
            Part::Lock => self.lock = Some(file),
            Part::Journal => self.journal = Some(file),
        }
    }

    pub fn file(&self, part: Part) -> Option<&File> {
        match part {
            Part::Folder => self.folder.as_ref(),
            Part::Tables => self.tables.as_ref(),
            Part::Lock => self.lock.as_ref(),
            Part::Journal => self.journal.as_ref(),
        }
    }

    /// Takes a path: one that leads through the folder of all tables that is held, or else through the
    /// folder that is held, begins there, whatever its name is by then.
    pub fn take(&mut self, path: &str) -> Result<(), AllocError> {
        let below = path.strip_prefix(self.path.as_str()).unwrap_or("");
        let inside = below.strip_prefix(TABLES).unwrap_or("");
        let (number, rest) = match (&self.tables, &self.folder) {
            (Some(tables), _) if self.finds && inside.starts_with('/') => {
                (Some(tables.as_raw_fd()), inside)
            }
            (_, Some(folder)) if self.finds && below.starts_with('/') => {
                (Some(folder.as_raw_fd()), below)
            }
            _ => (None, path),
        };
        let taken = match number {
            Some(number) => format!(in self.alloc; "/proc/self/fd/{number}{rest}"),
            None => String::from_str(self.alloc, rest),
        };
        self.by = taken?;
        Ok(())
    }

    /// Takes a path, and another to which something is moved.
    pub fn take_both(&mut self, path: &str, to: &str) -> Result<(), AllocError> {
        self.take(to)?;
        mem::swap(&mut self.by, &mut self.to);
        self.take(path)
    }

    /// Takes the folder at a path by its name for itself, so that the one that is held is met.
    pub fn take_folder(&mut self, path: &str) -> Result<(), NoMemory> {
        let inside = path_in(self.alloc, path, ".")?;
        Ok(self.take(inside.as_str())?)
    }

    /// Takes the folder that is held, from whose path other paths are to lead.
    pub fn take_held(&mut self, path: &str) -> Result<(), NoMemory> {
        self.path = String::from_str(self.alloc, path)?;
        self.finds = true;
        self.take_folder(path)
    }

    /// Whether what is held of a part is what was found, or there is neither.
    pub fn is_found(&self, part: Part, found: &Option<Metadata>) -> Result<bool, FileFault> {
        match (self.file(part), found) {
            (Some(file), Some(found)) => Ok(is_same(&held_metadata(file)?, found)),
            (None, None) => Ok(true),
            _ => Ok(false),
        }
    }
}

/// What the system says of an open file.
pub fn held_metadata(file: &File) -> Result<Metadata, FileFault> {
    for _ in 0..u64::MAX {
        match file.metadata() {
            Ok(found) => return Ok(found),
            Err(error) if error.kind() == ErrorKind::Interrupted => {}
            Err(error) => return Err(FileFault::Device(cause_of(&error))),
        }
    }
    Err(FileFault::Device(Cause::Other))
}

/// Whether both are said of one file or folder. Of what is held open no other has the number.
pub fn is_same(one: &Metadata, other: &Metadata) -> bool {
    one.dev() == other.dev() && one.ino() == other.ino()
}

/// Fails where something else was seen than a folder, or than a file.
pub fn test_kind(seen: &Metadata, is_folder: bool) -> Result<(), FileFault> {
    let (fits, other) = if is_folder {
        (seen.is_dir(), Cause::NotAFolder)
    } else {
        (seen.is_file(), Cause::NotAFile)
    };
    if fits {
        Ok(())
    } else {
        Err(FileFault::Device(other))
    }
}

/// What was opened, where it is what was seen before and nothing that took its place; locked, for as long
/// as it is open, if it is to be.
pub fn as_seen(file: File, seen: &Metadata, locks: bool) -> Result<File, FileFault> {
    if !is_same(&held_metadata(&file)?, seen) {
        return Err(FileFault::Device(Cause::Exchanged));
    }
    if locks { locked(file) } else { Ok(file) }
}

/// The file, where it doesn't stand in the place of a standard stream that is closed.
pub fn above_streams(file: File) -> Result<File, FileFault> {
    if file.as_raw_fd() > LAST_STREAM {
        Ok(file)
    } else {
        Err(FileFault::Device(Cause::ClosedStream))
    }
}

/// Locks a file for as long as it is open.
pub fn locked(file: File) -> Result<File, FileFault> {
    match file.try_lock() {
        Ok(()) => Ok(file),
        Err(TryLockError::WouldBlock) => Err(FileFault::Device(Cause::InUse)),
        Err(TryLockError::Error(error)) => Err(FileFault::from(error)),
    }
}

/// Makes what an open file or folder has survive a stop.
pub fn synced(file: &File) -> Result<(), FileFault> {
    Ok(file.sync_all()?)
}

/// Writes all of a file that was just made, so that it survives a stop.
pub fn write_synced(mut file: File, bytes: &[u8]) -> Result<(), FileFault> {
    file.write_all(bytes)?;
    synced(&file)
}

/// Reads until the bytes are full. It fails where the file ends before.
fn fill(file: &mut File, bytes: &mut [u8]) -> Result<(), FileFault> {
    Ok(file.read_exact(bytes)?)
}

/// All bytes of a file that was seen.
pub fn read_seen(alloc: Global, file: File, seen: &Metadata) -> Result<Option<Vec<u8>>, FileFault> {
    let mut file = as_seen(file, seen, false)?;
    let mut bytes = vec![in alloc; 0u8; seen.len() as usize]?;
    fill(&mut file, &mut bytes)?;
    Ok(Some(bytes))
}

/// One read of a file from a place on, made again where a signal interrupts it.
pub fn read_at(file: &File, at: u64, out: &mut [u8]) -> Result<usize, FileFault>
    ensures { IfOk result (λ count. count ≤ length out.new) }
{
    for _ in 0..u64::MAX {
        match file.read_at(out, at) {
            Ok(count) => return Ok(count),
            Err(error) if error.kind() == ErrorKind::Interrupted => {}
            Err(error) => return Err(FileFault::from(error)),
        }
    }
    Err(FileFault::Device(Cause::Other))
}
