ghost use Rattle.std.specs.Prelude.{◌≡◌, IfOk};
ghost use Rattle.hv_route.specs.Back.{AreHeld};
ghost use Rattle.hv_route.specs.Routes.{founds_of_run, numbered_rows};

use crate::files::placed_rows;
use crate::held::see_rows;
use crate::runs::{Run, runs_of};
use hv_base::{Duplicate, List, NoMemory, RowId, WriteId};
use hv_logic::{Found, Shape};
use hv_value::Row;
use std::alloc::Global;

// The rows of one partition and bucket, numbered from 0.
fn founds_of_run(
    alloc: Global,
    write: WriteId,
    statement: u32,
    run: Run<Row>,
) -> Result<Vec<Found>, NoMemory>
    ensures { IfOk result (λ founds. founds.items ≡ founds_of_run write.0 statement run) }
{
    let Run {
        partition,
        bucket,
        items,
    } = run;
    let mut founds = Vec::new(alloc);
    for row in items.into_vec() {
        let id = RowId {
            write,
            statement,
            bucket,
            row: founds.len() as u64,
        };
        let partition = partition.duplicate(alloc)?;
        founds.push(Found { partition, id, row })?;
    }
    Ok(founds)
}

/// The rows that a statement inserts into a table of this shape under its write id, as they stand there then: by partition, bucket
/// and the row order, numbered from 0 in each partition and bucket. The rows move; each of their values is one that its type holds.
#[tactic(auto, unfolding(crate::specs::Routes::numbered_rows))]
pub fn number_rows(
    alloc: Global,
    shape: &Shape,
    write: WriteId,
    statement: u32,
    rows: List<Row>,
) -> Result<List<Found>, NoMemory>
    ensures numbered { IfOk result (λ founds. founds ≡ numbered_rows shape.now write.0 statement rows) }
    ensures held { AreHeld rows }
{
    see_rows(rows.as_slice());
    let mut founds = Vec::new(alloc);
    for run in runs_of(alloc, placed_rows(alloc, shape, rows)?)? {
        let mut of_run = founds_of_run(alloc, write, statement, run)?;
        founds.append(&mut of_run)?;
    }
    Ok(List::from_vec(founds))
}
