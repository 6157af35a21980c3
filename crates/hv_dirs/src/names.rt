ghost use Rattle.std.specs.Prelude.{◌≡◌, ◌<◌, IfOk};
ghost use Rattle.hv_dirs.specs.Names.{own_name, write_end, statement_end};

use hv_base::{JobId, NoMemory, Text, WriteId};
use std::alloc::Global;

mod parsing;
mod printing;

pub use parsing::parse_name;
pub use printing::print_name;

/// The name of a directory of a partition. Write ids, jobs and the upper end of a range have at
/// most seven digits and are counted from 1, statements have at most four and are counted from 0.
#[derive(Debug, Drop)]
pub enum DirName {
    /// The rows that are left of the write ids up to `high`.
    Base {
        high: WriteId,
    },
    /// What one statement inserted, or deleted, under a write id.
    Own {
        deletes: bool,
        write: WriteId,
        statement: u32,
    },
    /// What the write ids from `low` to `high` inserted, or deleted.
    Wide {
        deletes: bool,
        low: WriteId,
        high: WriteId,
    },
    /// A directory that a job is at work on, with the name that it gets in the end.
    Staged {
        job: JobId,
        name: Text,
    },
}

/// The name of the directory that holds what a statement inserted under a write id, as in
/// `delta_0000012_0000012_0000`.
pub fn own_delta(alloc: Global, write: u64, statement: u32) -> Result<Text, NoMemory>
    requires write { write < write_end }
    requires statement { statement < statement_end }
    ensures name { IfOk result (λ name. name ≡ own_name write statement) }
{
    let mut bytes = Vec::new(alloc);
    printing::push_own(&mut bytes, write, statement)?;
    Ok(Text::from_bytes(bytes))
}
