//! Compactions are asked for and picked up, by entries that fit. Their directories are laid.
ghost use Rattle.std.specs.Prelude.{◌≤◌, IfOk, length};
ghost use Rattle.tests_house.specs.Asking.{IsOpen, StaysOpen};

use crate::calls::Said;
use crate::house::leave;
use crate::words::{cut, number};
use hv_base::{JobId, TableId, Text, WriteId};
use hv_history::{Entry, JobKind};
use hv_session::hv_beginning::hv_steps::hv_table_reader::hv_acts::hv_telling::hv_house::{
    House, HouseFault,
};
use hv_shelf::Shelf;
use std::alloc::Global;

/// The longest text of a partition.
const MOST_TEXT: usize = 32_768;

/// The kind of this name.
fn kind_of(word: &str) -> JobKind {
    match word {
        "major" => JobKind::Major,
        _ => JobKind::Minor,
    }
}

/// Notes that nobody's compaction is asked for, where that fits.
fn note_asked<D: Shelf>(
    house: &mut House<D>,
    job: JobId,
    table: TableId,
    partition: Text,
    kind: JobKind,
) -> Result<Said, HouseFault>
    requires ready { IsOpen D.told house.old }
    requires short { length partition ≤ 32768 }
    ensures ready { IfOk result (λ _. StaysOpen D.told house.old house.new) }
{
    let entry = Entry::Asked {
        job,
        table,
        partition,
        kind,
        by: 0,
    };
    if !house.fits(&entry, None) {
        leave(entry);
        return Ok(Said::Refused);
    }
    match house.note(entry, None) {
        Ok(()) => Ok(Said::Of("job ", job.0)),
        Err(fault) => Err(fault),
    }
}

/// Asks for a compaction of a partition, as the next job.
pub(crate) fn ask<D: Shelf>(
    alloc: Global,
    house: &mut House<D>,
    kind: &str,
    words: &str,
) -> Result<Said, HouseFault>
    requires ready { IsOpen D.told house.old }
    ensures ready { IfOk result (λ _. StaysOpen D.told house.old house.new) }
{
    let (table, partition) = cut(words, ' ');
    let partition = Text::of(alloc, partition)?;
    if partition.len() > MOST_TEXT {
        return Ok(Said::Refused);
    }
    let job = JobId(house.book().jobs().len() as u64 + 1);
    note_asked(house, job, TableId(number(table)), partition, kind_of(kind))
}

/// Picks a compaction up, to merge write ids up to that one, where that fits.
pub(crate) fn pick<D: Shelf>(
    house: &mut House<D>,
    job: JobId,
    watermark: WriteId,
) -> Result<Said, HouseFault>
    requires ready { IsOpen D.told house.old }
    ensures ready { IfOk result (λ _. StaysOpen D.told house.old house.new) }
{
    let entry = Entry::Picked { job, watermark };
    if !house.fits(&entry, None) {
        leave(entry);
        return Ok(Said::Refused);
    }
    match house.note(entry, None) {
        Ok(()) => Ok(Said::Done),
        Err(fault) => Err(fault),
    }
}
