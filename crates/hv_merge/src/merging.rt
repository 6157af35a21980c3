ghost use Rattle.std.specs.Prelude.{◌≡◌, ◌++◌, IfOk, OnOk, map, None};
ghost use Rattle.std.specs.List.{AllByRecursion};
ghost use Rattle.hv_rowfile.specs.Layout.{RisesFrom};
ghost use Rattle.hv_merge.specs.Merging.{merged};
ghost use Rattle.hv_merge.specs.Steps.{valid_rows, kept_front, kept_run, gone_after, run_of, rest_of};

use crate::deletes::{begins_with, deleted_ids, gone_from};
use crate::heads::{count_of, queues, take_before, take_last, valid_row};
use crate::shown::Shown;
use crate::turns::{is_tied, turn_of};
use hv_base::{NoMemory, RowId};
use hv_rowfile::Rec;
use hv_wids::WriteIdList;
use std::alloc::Global;
use std::collections::VecDeque;

// Pushes the row that was found, if there is one and the deleted identifiers don't begin with its own.
fn push_kept(
    rows: &mut Vec<Shown>,
    gone: &[RowId],
    id: RowId,
    found: Option<Shown>,
) -> Result<(), NoMemory>
    ensures { OnOk result (rows.new.items ≡ rows.old.items ++ kept_front gone.now id found) }
{
    if let Some(shown) = found {
        if !begins_with(gone, id) {
            rows.push(shown)?;
        }
    }
    Ok(())
}

// Moves the rows out of the front of a file that come before the other files' rows, and gives what is left of the deleted identifiers.
fn move_run<'a>(
    rows: &mut Vec<Shown>,
    head: &mut VecDeque<Rec>,
    others: Option<RowId>,
    list: &WriteIdList,
    deleted: &'a [RowId],
) -> Result<&'a [RowId], NoMemory>
    ensures rows { OnOk result (rows.new.items
        ≡ rows.old.items ++ kept_run deleted.now (valid_rows list.now (run_of others head.old.items))) }
    ensures head { OnOk result (head.new.items ≡ rest_of others head.old.items) }
    ensures gone { IfOk result (λ gone. gone.now
        ≡ gone_after deleted.now (valid_rows list.now (run_of others head.old.items))) }
{
    let mut gone = deleted;
    while let Some(rec) = take_before(head, others) {
        let id = rec.id();
        if let Some(shown) = valid_row(rec, list) {
            gone = gone_from(gone, id);
            push_kept(rows, gone, id, Some(shown))?;
        }
    }
    Ok(gone)
}

/// The rows of these files that a reader sees under its list, rising by identifier. The files are those of a bucket in the
/// chosen base and deltas, `deletes` those in the chosen delete deltas. A row that stands in several files comes once.
/// The rows move out of the files.
pub fn merge(
    alloc: Global,
    files: Vec<Vec<Rec>>,
    deletes: &[Vec<Rec>],
    list: &WriteIdList,
) -> Result<Vec<Shown>, NoMemory>
    requires rises { AllByRecursion (RisesFrom None) (map (λ file. file.items) files.items) }
    ensures rows { IfOk result (λ rows. rows.items
        ≡ merged list.now (map (λ file. file.items) files.items) (map (λ file. file.items) deletes.now)) }
{
    let deleted = deleted_ids(alloc, deletes, list)?;
    let mut gone = deleted.as_slice();
    let mut heads = queues(alloc, files)?;
    let mut rows = Vec::with_capacity(alloc, count_of(&heads))?;
    while let Some(turn) = turn_of(&heads) {
        if is_tied(turn) {
            gone = gone_from(gone, turn.least);
            let found = take_last(&mut heads, list, turn.least);
            push_kept(&mut rows, gone, turn.least, found)?;
        } else {
            gone = move_run(&mut rows, &mut heads[turn.place], turn.others, list, gone)?;
        }
    }
    Ok(rows)
}
