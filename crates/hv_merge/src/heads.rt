ghost use Rattle.std.specs.Prelude.{◌≡◌, IfOk, IsTrue, fold, map};
ghost use Rattle.hv_merge.specs.Steps.{valid_row, count_with, begins_at, front_at, behind_at, later, last_at, taken_before, left_before};

use crate::order::is_before;
use crate::shown::Shown;
use hv_base::{NoMemory, RowId};
use hv_rowfile::Rec;
use hv_wids::WriteIdList;
use std::alloc::Global;
use std::collections::VecDeque;

/// The row of a record, where it is a row and its write is seen.
pub fn valid_row(rec: Rec, list: &WriteIdList) -> Option<Shown>
    ensures { result ≡ valid_row list.now rec }
{
    match rec {
        Rec::Insert { id, row } if list.valid(id.write) => Some(Shown { id, row }),
        _ => None,
    }
}

/// The files, to be taken from the front.
pub fn queues(alloc: Global, files: Vec<Vec<Rec>>) -> Result<Vec<VecDeque<Rec>>, NoMemory>
    ensures { IfOk result (λ heads. map (λ head. head.items) heads.items ≡ map (λ file. file.items) files.items) }
{
    let mut heads = Vec::with_capacity(alloc, files.len())?;
    for file in files {
        heads.push(VecDeque::from_vec(file))?;
    }
    Ok(heads)
}

/// How many records the files have.
pub fn count_of(heads: &[VecDeque<Rec>]) -> usize
    ensures { result ≡ fold count_with 0 (map (λ head. head.items) heads.now) }
{
    let mut count = 0usize;
    for head in heads {
        count = count.saturating_add(head.len());
    }
    count
}

/// Takes the first record, where it comes before the other files' first ones.
pub fn take_before(head: &mut VecDeque<Rec>, others: Option<RowId>) -> Option<Rec>
    ensures taken { result ≡ taken_before others head.old.items }
    ensures left { head.new.items ≡ left_before others head.old.items }
{
    match head.front() {
        Some(rec) if is_before(rec.id(), others) => head.pop_front(),
        _ => None,
    }
}

fn begins_at(head: &VecDeque<Rec>, id: RowId) -> bool
    ensures { result ≡ begins_at id head.now.items }
{
    match head.front() {
        Some(rec) => rec.id() == id,
        None => false,
    }
}

// Takes the first record, which has this identifier.
fn take_front(head: &mut VecDeque<Rec>, list: &WriteIdList, id: RowId) -> Option<Shown>
    requires { IsTrue (begins_at id head.old.items) }
    ensures front { result ≡ front_at list.now id head.old.items }
    ensures behind { head.new.items ≡ behind_at id head.old.items }
{
    match head.pop_front() {
        Some(rec) => valid_row(rec, list),
        None => None,
    }
}

/// Takes each first record that has this identifier, and gives the last row of them.
pub fn take_last(heads: &mut Vec<VecDeque<Rec>>, list: &WriteIdList, id: RowId) -> Option<Shown>
    ensures last { result ≡ last_at list.now id (map (λ head. head.items) heads.old.items) }
    ensures behind { map (λ head. head.items) heads.new.items
        ≡ map (behind_at id) (map (λ head. head.items) heads.old.items) }
{
    let mut last = None;
    for place in 0..heads.len() {
        if !begins_at(&heads[place], id) {
            continue;
        }
        let front = take_front(&mut heads[place], list, id);
        last = later(last, front);
    }
    last
}

fn later(found: Option<Shown>, front: Option<Shown>) -> Option<Shown>
    ensures { result ≡ later found front }
{
    match front {
        Some(shown) => Some(shown),
        None => found,
    }
}
