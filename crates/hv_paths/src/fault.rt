ghost use Rattle.std.specs.Prelude.{◌≡◌};

use hv_base::NoMemory;
use std::alloc::{AllocError, AllocFailed};
use std::io;
use std::io::ErrorKind;

/// Why the system, or this store, refused a call on files.
#[derive(Clone, Copy)]
pub enum Cause {
    /// The folder in which the store's folder is to stand isn't there.
    NoParent,
    /// Something else stands where a folder of the store is to be: a file, or a link.
    NotAFolder,
    /// Something else stands where a file of the store is to be: a folder, a link or a device.
    NotAFile,
    /// The system doesn't permit it, or the device can only be read.
    NotPermitted,
    /// Another run has the store open, or the folder was made meanwhile.
    InUse,
    /// The folder, its journal or its tables isn't the one that was opened: it was moved, exchanged or
    /// taken away.
    Exchanged,
    /// Tables stand in the folder, and the journal that tells of them is missing or empty.
    NoJournal,
    /// The device or a quota is full.
    Full,
    /// A standard stream of the program is closed, so that a file would take its place.
    ClosedStream,
    /// The program, or the machine, may open no further file.
    TooManyOpen,
    /// A name or a path is too long for the system, or the folder's for what is to stand in it.
    LongPath,
    /// What it is to be made in is gone, or takes no files.
    Gone,
    /// An earlier sync failed, so that no change is sure to be kept.
    Unsynced,
    /// Anything else.
    Other,
}

/// Why a call on files was refused.
#[derive(Clone, Copy)]
pub enum FileFault {
    Device(Cause),
    NoMemory,
}

/// The cause of an error of the system.
pub fn cause_of(error: &io::Error) -> Cause {
    match error.kind() {
        ErrorKind::NotADirectory | ErrorKind::FilesystemLoop => Cause::NotAFolder,
        ErrorKind::IsADirectory => Cause::NotAFile,
        ErrorKind::PermissionDenied | ErrorKind::ReadOnlyFilesystem => Cause::NotPermitted,
        ErrorKind::StorageFull | ErrorKind::QuotaExceeded => Cause::Full,
        ErrorKind::InvalidFilename => Cause::LongPath,
        ErrorKind::NotFound => Cause::Gone,
        // A file that is to be new was made by another run meanwhile.
        ErrorKind::AlreadyExists => Cause::InUse,
        _ => match error.raw_os_error() {
            // The numbers that Linux gives where the machine, or the program, has too many files open.
            Some(23 | 24) => Cause::TooManyOpen,
            _ => Cause::Other,
        },
    }
}

impl From<io::Error> for FileFault {
    ghost use Rattle.hv_paths.specs.Faults.{IsDevice};

    ghost from_gives = { λ _ fault. IsDevice fault };

    fn from(error: io::Error) -> FileFault {
        FileFault::Device(cause_of(&error))
    }
}

impl From<NoMemory> for FileFault {
    ghost use Rattle.hv_paths.specs.declared.fault.FileFault.TheVariants as fault;

    ghost from_gives = { λ _ e. e ≡ fault.NoMemory };

    fn from(_refused: NoMemory) -> FileFault {
        FileFault::NoMemory
    }
}

impl From<AllocError> for FileFault {
    ghost use Rattle.hv_paths.specs.declared.fault.FileFault.TheVariants as fault;

    ghost from_gives = { λ _ e. e ≡ fault.NoMemory };

    fn from(_refused: AllocError) -> FileFault {
        FileFault::NoMemory
    }
}

impl<T: Drop> From<AllocFailed<T>> for FileFault {
    ghost use Rattle.hv_paths.specs.declared.fault.FileFault.TheVariants as fault;

    ghost from_gives = { λ _ e. e ≡ fault.NoMemory };

    fn from(_refused: AllocFailed<T>) -> FileFault {
        FileFault::NoMemory
    }
}
