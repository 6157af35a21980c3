//! The rows that a change deletes.

ghost use Rattle.std.specs.Prelude.{◌≡◌, ◌++◌, ◌∷◌, [], IfOk, OnOk, if◌then◌else◌, drop, filter};
ghost use Rattle.hv_meaning.specs.Meaning.{is_matched, matched, same_parts, is_received, deleted};

use hv_base::{Boxed, Duplicate, NoMemory};
use hv_eval::Frame;
use hv_expr::TypedExpr;
use hv_joins::is_met;
use hv_logic::Found;
use hv_typing::Deletes;
use hv_value::{Row, Value};
use std::alloc::Global;

fn is_matched<'a>(
    alloc: Global,
    condition: &'a Option<Boxed<TypedExpr>>,
    found: &'a Found,
) -> Result<bool, NoMemory>
    ensures { IfOk result (λ met. met ≡ is_matched condition.now found.now) }
{
    is_met(alloc, condition, &Frame::of(found.row.values.as_slice()))
}

fn keep(alloc: Global, kept: &mut Vec<Found>, met: bool, found: &Found) -> Result<(), NoMemory>
    ensures { OnOk result (kept.new.items ≡ kept.old.items ++ (if met then found.now ∷ [] else [])) }
{
    if met {
        kept.push(found.duplicate(alloc)?)?;
    }
    Ok(())
}

fn all_matched<'a>(
    alloc: Global,
    condition: &'a Option<Boxed<TypedExpr>>,
    found: &'a [Found],
) -> Result<Vec<Found>, NoMemory>
    ensures { IfOk result (λ kept. kept.items ≡ filter (is_matched condition.now) found.now) }
{
    let mut kept = Vec::new(alloc);
    for one in found {
        let met = is_matched(alloc, condition, one)?;
        keep(alloc, &mut kept, met, one)?;
    }
    Ok(kept)
}

/// The rows for which its condition is true.
pub(crate) fn matched<'a>(
    alloc: Global,
    deletes: &'a Deletes,
    found: &'a [Found],
) -> Result<Vec<Found>, NoMemory>
    ensures { IfOk result (λ kept. kept.items ≡ matched deletes.now found.now) }
{
    match deletes {
        Deletes::Matching(condition) => all_matched(alloc, condition, found),
        Deletes::Nothing => Ok(Vec::new(alloc)),
        Deletes::Received => Ok(Vec::new(alloc)),
    }
}

fn parts_of(values: &[Value], width: usize) -> &[Value]
    ensures { result.now ≡ drop width values.now }
{
    if width <= values.len() {
        &values[width..]
    } else {
        &[]
    }
}

fn same_parts(width: usize, found: &Found, row: &Row) -> bool
    ensures { result ≡ same_parts width found.now row.now }
{
    let left = parts_of(found.row.values.as_slice(), width);
    let right = parts_of(row.values.as_slice(), width);
    left.cmp(right).is_eq()
}

fn is_received(width: usize, rows: &[Row], found: &Found) -> bool
    ensures { result ≡ is_received width rows.now found.now }
{
    for row in rows {
        if same_parts(width, found, row) {
            return true;
        }
    }
    false
}

fn all_received(
    alloc: Global,
    width: usize,
    rows: &[Row],
    found: &[Found],
) -> Result<Vec<Found>, NoMemory>
    ensures { IfOk result (λ kept. kept.items ≡ filter (is_received width rows.now) found.now) }
{
    let mut kept = Vec::new(alloc);
    for one in found {
        keep(alloc, &mut kept, is_received(width, rows, one), one)?;
    }
    Ok(kept)
}

/// The rows that are deleted: those that were matched, or those of the partitions that get one of these
/// rows. A row's partition stands behind so many values.
pub(crate) fn deleted(
    alloc: Global,
    width: usize,
    deletes: &Deletes,
    rows: &[Row],
    found: &[Found],
    gone: Vec<Found>,
) -> Result<Vec<Found>, NoMemory>
    requires gone { gone.items ≡ matched deletes.now found.now }
    ensures { IfOk result (λ kept. kept.items ≡ deleted width deletes.now rows.now found.now) }
{
    match deletes {
        Deletes::Received => all_received(alloc, width, rows, found),
        Deletes::Matching(_) => Ok(gone),
        Deletes::Nothing => Ok(gone),
    }
}
