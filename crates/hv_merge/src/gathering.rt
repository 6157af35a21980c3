ghost use Rattle.std.specs.Prelude.{◌≡◌, ◌++◌, IfOk, OnOk, map, filter, None};
ghost use Rattle.std.specs.List.{AllByRecursion};
ghost use Rattle.hv_rowfile.specs.Layout.{RisesFrom};
ghost use Rattle.hv_merge.specs.Gathering.{write_of, is_in_range, in_range, gathered, put_all, next_of, first_left, second_left, front_id};

use crate::order::comes_before;
use hv_base::{NoMemory, RowId, WriteId};
use hv_rowfile::Rec;
use std::alloc::Global;
use std::collections::VecDeque;

fn write_of(rec: &Rec) -> u64
    ensures { result ≡ write_of rec.now }
{
    match rec {
        Rec::Insert { id, .. } => id.write.0,
        Rec::Delete { by, .. } => by.0,
    }
}

fn is_in_range(rec: &Rec, low: WriteId, high: WriteId) -> bool
    ensures { result ≡ is_in_range low.0 high.0 rec.now }
{
    let write = write_of(rec);
    low.0 <= write && write <= high.0
}

// The records of the range.
fn in_range(file: Vec<Rec>, low: WriteId, high: WriteId) -> Vec<Rec>
    ensures { result.items ≡ in_range low.0 high.0 file.items }
{
    let mut recs = file;
    recs.retain(|rec| is_in_range(rec, low, high));
    recs
}

fn front_id(head: &VecDeque<Rec>) -> Option<RowId>
    ensures { result ≡ front_id head.now.items }
{
    match head.front() {
        Some(rec) => Some(rec.id()),
        None => None,
    }
}

// Takes the record that comes first, and of two with one identifier the second one.
fn take_next(first: &mut VecDeque<Rec>, second: &mut VecDeque<Rec>) -> Option<Rec>
    ensures next { result ≡ next_of first.old.items second.old.items }
    ensures first { first.new.items ≡ first_left first.old.items second.old.items }
    ensures second { second.new.items ≡ second_left first.old.items second.old.items }
{
    let Some(other) = front_id(second) else {
        return first.pop_front();
    };
    let Some(id) = front_id(first) else {
        return second.pop_front();
    };
    if comes_before(id, other) {
        return first.pop_front();
    }
    if id == other {
        first.pop_front();
    }
    second.pop_front()
}

// Two lists that rise, as one.
fn merge_two(alloc: Global, first: Vec<Rec>, second: Vec<Rec>) -> Result<Vec<Rec>, NoMemory>
    requires first { RisesFrom None first.items }
    requires second { RisesFrom None second.items }
    ensures recs { IfOk result (λ recs. recs.items ≡ put_all first.items second.items) }
    ensures rises { IfOk result (λ recs. RisesFrom None recs.items) }
{
    let mut recs = Vec::with_capacity(alloc, first.len().saturating_add(second.len()))?;
    let mut left = VecDeque::from_vec(first);
    let mut right = VecDeque::from_vec(second);
    while let Some(rec) = take_next(&mut left, &mut right) {
        recs.push(rec)?;
    }
    Ok(recs)
}

/// The records of these files, each of one kind and bucket, whose write ids lie from `low` to `high`, each once and rising by
/// identifier. The records move out of the files.
///
/// # Errors
/// `NoMemory` where memory lacked.
pub fn gather(
    alloc: Global,
    files: Vec<Vec<Rec>>,
    low: WriteId,
    high: WriteId,
) -> Result<Vec<Rec>, NoMemory>
    requires rises { AllByRecursion (RisesFrom None) (map (λ file. file.items) files.items) }
    ensures recs { IfOk result (λ recs. recs.items
        ≡ gathered low.0 high.0 (map (λ file. file.items) files.items)) }
    ensures rising { IfOk result (λ recs. RisesFrom None recs.items) }
{
    let mut rest = files;
    let mut recs = Vec::new(alloc);
    while let Some(file) = rest.pop() {
        recs = merge_two(alloc, in_range(file, low, high), recs)?;
    }
    Ok(recs)
}
