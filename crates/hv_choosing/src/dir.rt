ghost use Rattle.std.specs.Prelude.{◌≡◌, IfOk};
ghost use Rattle.hv_choosing.specs.Dirs.{dir_named, name_of, span_of, IsFoundAt};

use hv_base::{NoMemory, Text, WriteId};
use hv_dirs::{DirName, parse_name};
use std::alloc::Global;

/// A directory that a reader may take: a base, or a delta of one statement or of a range of write ids, of inserts or
/// of deletes.
#[derive(Clone, Copy)]
pub enum Dir {
    Base {
        high: WriteId,
    },
    Own {
        deletes: bool,
        write: WriteId,
        statement: u32,
    },
    Wide {
        deletes: bool,
        low: WriteId,
        high: WriteId,
    },
}

/// Write ids from one to another.
#[derive(Clone, Copy)]
pub struct Span {
    pub low: u64,
    pub high: u64,
}

impl Dir {
    /// The directory of this name, unless a job is at work on it.
    pub fn of(name: &DirName) -> Option<Dir>
        ensures { result ≡ dir_named name.now }
    {
        match name {
            DirName::Base { high } => Some(Dir::Base { high: *high }),
            DirName::Own {
                deletes,
                write,
                statement,
            } => Some(Dir::Own {
                deletes: *deletes,
                write: *write,
                statement: *statement,
            }),
            DirName::Wide { deletes, low, high } => Some(Dir::Wide {
                deletes: *deletes,
                low: *low,
                high: *high,
            }),
            DirName::Staged { .. } => None,
        }
    }

    pub fn name(self) -> DirName
        ensures { result ≡ name_of self }
    {
        match self {
            Dir::Base { high } => DirName::Base { high },
            Dir::Own {
                deletes,
                write,
                statement,
            } => DirName::Own {
                deletes,
                write,
                statement,
            },
            Dir::Wide { deletes, low, high } => DirName::Wide { deletes, low, high },
        }
    }

    /// The write ids under which its records may be.
    pub fn span(self) -> Span
        ensures { result ≡ span_of self }
    {
        match self {
            Dir::Base { high } => Span {
                low: 1,
                high: high.0,
            },
            Dir::Own { write, .. } => Span {
                low: write.0,
                high: write.0,
            },
            Dir::Wide { low, high, .. } => Span {
                low: low.0,
                high: high.0,
            },
        }
    }
}

/// The directory whose name this text is, if a reader may take one of that name.
pub fn dir_at(alloc: Global, text: &Text) -> Result<Option<Dir>, NoMemory>
    ensures { IfOk result (λ dir. IsFoundAt text.now dir) }
{
    match parse_name(alloc, text)? {
        Some(name) => Ok(Dir::of(&name)),
        None => Ok(None),
    }
}
