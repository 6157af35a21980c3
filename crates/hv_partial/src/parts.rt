//! Groups of parts of the rows, put together.

ghost use Rattle.std.specs.Prelude.{◌≡◌, ◌∷◌, [], List, map, IfOk};
ghost use Rattle.hv_value.specs.declared.value.Value.{Value as ValueOf};
ghost use Rattle.hv_typing.specs.Grouped.{groups};
ghost use Rattle.hv_typing.specs.Rows.{key_of, same_row};
ghost use Rattle.hv_eval.specs.Frames.{frames_values};
ghost use Rattle.hv_partial.specs.Kept.{summed};
ghost use Rattle.hv_partial.specs.Merged.{AreGroupsOf, AreSumsOf, summed_merged};

use crate::key::SeenKey;
use crate::sum::Sum;
use crate::summed::{Summed, Summing};
use hv_base::NoMemory;
use hv_eval::Frame;
use hv_expr::TypedExpr;
use hv_keyed::{Merging, fold_entries, merged_groups};
use std::alloc::Global;

impl<'a> Merging<Summed<'a>> for Summing<'a> {
    ghost merge = { λ by kept other. summed_merged by.sums.now kept other };

    fn merge(
        &self,
        alloc: Global,
        kept: &mut Summed<'a>,
        other: Summed<'a>,
    ) -> Result<(), NoMemory> {
        kept.merge(alloc, self.sums, &other)
    }
}

/// The groups of a part of the rows by keys, each key with what is kept of its rows.
pub fn entries_by<'a>(
    alloc: Global,
    first: &'a TypedExpr,
    more: &'a [TypedExpr],
    sums: &'a [Sum],
    rows: &[Frame<'a>],
) -> Result<Vec<(SeenKey<'a>, Summed<'a>)>, NoMemory>
    ensures { IfOk result (λ found. AreGroupsOf sums.now (first.now ∷ more.now) (frames_values rows.now) found.items) }
{
    let found = fold_entries(alloc, &Summing { first, more, sums }, rows)?;
    Ok(found)
}

/// The groups by keys, in the order in which these first come, by those of parts of the rows, one behind
/// the other.
pub fn merged_by<'a>(
    alloc: Global,
    first: &'a TypedExpr,
    more: &'a [TypedExpr],
    sums: &'a [Sum],
    found: Vec<(SeenKey<'a>, Summed<'a>)>,
) -> Result<Vec<Summed<'a>>, NoMemory>
    ensures { IfOk result (λ kept. (rows : List (List ValueOf)) → AreGroupsOf sums.now (first.now ∷ more.now) rows found.entry.items → kept.items ≡ map (summed sums.now) (groups same_row (key_of (first.now ∷ more.now)) rows)) }
{
    let kept = merged_groups(alloc, &Summing { first, more, sums }, found)?;
    Ok(kept)
}

// ---- all rows as one group

// What is kept of them.
fn summed_rows<'a>(
    alloc: Global,
    sums: &'a [Sum],
    rows: &[Frame<'a>],
) -> Result<Summed<'a>, NoMemory>
    ensures { IfOk result (λ kept. kept ≡ summed sums.now (frames_values rows.now)) }
{
    let mut kept = Summed::new(alloc, sums)?;
    for row in rows {
        kept.add(alloc, sums, row)?;
    }
    Ok(kept)
}

/// What is kept of a part of the rows, as a list.
pub fn summed_part<'a>(
    alloc: Global,
    sums: &'a [Sum],
    rows: &[Frame<'a>],
) -> Result<Vec<Summed<'a>>, NoMemory>
    ensures { IfOk result (λ parts. AreSumsOf sums.now (frames_values rows.now) parts.items) }
{
    let kept = summed_rows(alloc, sums, rows)?;
    let mut parts = Vec::new(alloc);
    parts.push(kept)?;
    Ok(parts)
}

/// What is kept of all rows, by what is kept of their parts, one behind the other: as a list.
pub fn summed_whole<'a>(
    alloc: Global,
    sums: &'a [Sum],
    parts: &[Summed<'a>],
) -> Result<Vec<Summed<'a>>, NoMemory>
    ensures { IfOk result (λ kept. (rows : List (List ValueOf)) → AreSumsOf sums.now rows parts.now → kept.items ≡ summed sums.now rows ∷ []) }
{
    let mut whole = Summed::new(alloc, sums)?;
    for part in parts {
        whole.merge(alloc, sums, part)?;
    }
    let mut kept = Vec::new(alloc);
    kept.push(whole)?;
    Ok(kept)
}
