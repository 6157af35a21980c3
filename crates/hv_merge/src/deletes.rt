ghost use Rattle.std.specs.Prelude.{◌≡◌, ◌++◌, map, IfOk, OnOk, IsPermutation, IsSorted};
ghost use Rattle.std.specs.List.{flat_map, prefix_len};
ghost use Rattle.hv_base.specs.Identifiers.{row_id_cmp};
ghost use Rattle.hv_merge.specs.Steps.{valid_delete, valid_deletes, is_below, gone_from, begins_with};

use crate::order::comes_before;
use hv_base::{NoMemory, RowId};
use hv_rowfile::Rec;
use hv_wids::WriteIdList;
use std::alloc::Global;

fn valid_delete(rec: &Rec, list: &WriteIdList) -> Option<RowId>
    ensures { result ≡ valid_delete list.now rec.now }
{
    match rec {
        Rec::Delete { id, by } if list.valid(*by) => Some(*id),
        _ => None,
    }
}

fn push_deleted(ids: &mut Vec<RowId>, file: &[Rec], list: &WriteIdList) -> Result<(), NoMemory>
    ensures { OnOk result (ids.new.items ≡ ids.old.items ++ valid_deletes list.now file.now) }
{
    for rec in file {
        if let Some(id) = valid_delete(rec, list) {
            ids.push(id)?;
        }
    }
    Ok(())
}

fn collected(alloc: Global, files: &[Vec<Rec>], list: &WriteIdList) -> Result<Vec<RowId>, NoMemory>
    ensures { IfOk result (λ ids.
        ids.items ≡ flat_map (valid_deletes list.now) (map (λ file. file.items) files.now)) }
{
    let mut ids = Vec::new(alloc);
    for file in files {
        push_deleted(&mut ids, file, list)?;
    }
    Ok(ids)
}

/// The rows that a valid write deleted, sorted by identifier.
pub fn deleted_ids(
    alloc: Global,
    files: &[Vec<Rec>],
    list: &WriteIdList,
) -> Result<Vec<RowId>, NoMemory>
    ensures sorted { IfOk result (λ ids. IsSorted row_id_cmp ids.items) }
    ensures same { IfOk result (λ ids.
        IsPermutation (flat_map (valid_deletes list.now) (map (λ file. file.items) files.now)) ids.items) }
{
    let mut ids = collected(alloc, files, list)?;
    ids.sort()?;
    Ok(ids)
}

// How many at the front are below this one.
fn count_below(gone: &[RowId], id: RowId) -> usize
    ensures { result ≡ prefix_len (is_below id) gone.now }
{
    gone.iter()
        .take_while(|other| comes_before(**other, id))
        .count()
}

/// The deleted identifiers without those at the front that are below this one.
pub fn gone_from(gone: &[RowId], id: RowId) -> &[RowId]
    ensures { result.now ≡ gone_from id gone.now }
{
    let below = count_below(gone, id);
    if below < gone.len() {
        &gone[below..]
    } else {
        &[]
    }
}

/// Whether the first one is this one.
pub fn begins_with(gone: &[RowId], id: RowId) -> bool
    ensures { result ≡ begins_with id gone.now }
{
    match gone.first() {
        Some(first) => *first == id,
        None => false,
    }
}
