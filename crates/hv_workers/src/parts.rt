//! Selects by parts of their rows, each by a worker.

ghost use Rattle.std.specs.Prelude.{◌≡◌, ◌≤◌, ◌∷◌, [], None, List, Option, map, filter, if◌then◌else◌, IfOk};
ghost use Rattle.hv_expr.specs.declared.tree.TypedExpr.{TypedExpr as Expr};
ghost use Rattle.hv_typing.specs.Grouped.{groups};
ghost use Rattle.hv_typing.specs.Rows.{key_of, is_met, is_met_over, item_row, group_row, grouped, kept, same_row};
ghost use Rattle.hv_order.specs.First.{IsEnough};
ghost use Rattle.hv_partial.specs.Lifts.{IsLifted};
ghost use Rattle.hv_partial.specs.Merged.{AreGroupsOf, AreSumsOf};
ghost use Rattle.hv_workers.specs.Entries.{pairs_in};
ghost use Rattle.hv_workers.specs.Standing.{frames_between, frames_standing, IsPartly};
ghost use Rattle.hv_exec.specs.Tables.{select_rows};

use crate::standing::{Standing, frames_for};
use hv_base::{Boxed, NoMemory};
use hv_exec::{grouped_rows, item_rows, once, rows_shown};
use hv_expr::TypedExpr;
use hv_order::Front;
use hv_partial::{
    Lifted, SeenKey, Sum, Summed, entries_by, lift, merged_by, summed_part, summed_whole,
};
use hv_shuffle::{by_ranges, joined};
use hv_typing::{Grouping, TypedSelect};
use hv_value::Row;
use std::alloc::Global;
use std::thread::Threads;

// ---- under DISTINCT

// Under DISTINCT all rows are wanted.
fn front_if<'a>(distinct: bool, front: Option<Front<'a>>) -> Option<Front<'a>>
    ensures { result ≡ (if distinct then None else front.entry) }
{
    if distinct { None } else { front }
}

fn kept_if(alloc: Global, distinct: bool, rows: Vec<Row>) -> Result<Vec<Row>, NoMemory>
    ensures { IfOk result (λ found. found.items ≡ kept distinct rows.items) }
{
    if distinct {
        once(alloc, rows)
    } else {
        Ok(rows)
    }
}

// ---- items on each row

fn made_part<'a>(
    alloc: Global,
    standing: &Standing<'a>,
    condition: &'a Option<Boxed<TypedExpr>>,
    items: &'a [TypedExpr],
    distinct: bool,
    front: Option<Front<'a>>,
    from: usize,
    count: usize,
) -> Result<Vec<Row>, NoMemory>
    ensures { IfOk result (λ made. IsPartly distinct front.entry made.items (map (item_row items.now) (filter (is_met condition.now) (frames_between standing.now from count)))) }
{
    let frames = frames_for(alloc, condition, standing, from, count)?;
    let wanted = front_if(distinct, front);
    let rows = item_rows(alloc, &*items, frames.as_slice(), wanted)?;
    let made = kept_if(alloc, distinct, rows)?;
    Ok(made)
}

fn items_on<'a, R: Threads + Sync>(
    rt: &R,
    alloc: Global,
    standing: &Standing<'a>,
    condition: &'a Option<Boxed<TypedExpr>>,
    items: &'a [TypedExpr],
    distinct: bool,
    front: Option<Front<'a>>,
    workers: usize,
) -> Result<Vec<Row>, NoMemory>
    requires { 1 ≤ workers }
    ensures { IfOk result (λ made. IsEnough front.entry made.items (kept distinct (map (item_row items.now) (filter (is_met condition.now) (frames_standing standing.now))))) }
{
    let of_range = |from: usize, count: usize| -> Result<Vec<Row>, NoMemory>
        ensures { IfOk result (λ made. IsPartly distinct front.entry made.items (map (item_row items.entry.now) (filter (is_met condition.entry.now) (frames_between standing.entry.now from count)))) }
    {
        made_part(
            alloc, standing, condition, items, distinct, front, from, count,
        )
    };
    let answers = by_ranges(rt, alloc, standing.len(), workers, &of_range)?;
    let rows = joined(alloc, answers)?;
    let made = kept_if(alloc, distinct, rows)?;
    Ok(made)
}

// ---- groups by keys

// A key with what is kept of it, both at one lifetime: what a closure answers names none.
#[derive(Drop)]
struct Entry<'a> {
    key: SeenKey<'a>,
    kept: Summed<'a>,
}

fn as_entries<'a>(
    alloc: Global,
    found: Vec<(SeenKey<'a>, Summed<'a>)>,
) -> Result<Vec<Entry<'a>>, NoMemory>
    ensures { IfOk result (λ entries. pairs_in entries.items ≡ found.entry.items) }
{
    let mut entries = Vec::with_capacity(alloc, found.len())?;
    for (key, kept) in found {
        entries.push(Entry { key, kept })?;
    }
    Ok(entries)
}

fn as_pairs<'a>(
    alloc: Global,
    entries: Vec<Entry<'a>>,
) -> Result<Vec<(SeenKey<'a>, Summed<'a>)>, NoMemory>
    ensures { IfOk result (λ found. found.items ≡ pairs_in entries.entry.items) }
{
    let mut found = Vec::with_capacity(alloc, entries.len())?;
    for entry in entries {
        let Entry { key, kept } = entry;
        found.push((key, kept))?;
    }
    Ok(found)
}

fn entries_part<'a>(
    alloc: Global,
    standing: &Standing<'a>,
    condition: &'a Option<Boxed<TypedExpr>>,
    first: &'a TypedExpr,
    more: &'a [TypedExpr],
    sums: &'a [Sum],
    from: usize,
    count: usize,
) -> Result<Vec<Entry<'a>>, NoMemory>
    ensures { IfOk result (λ entries. AreGroupsOf sums.now (first.now ∷ more.now) (filter (is_met condition.now) (frames_between standing.now from count)) (pairs_in entries.items)) }
{
    let frames = frames_for(alloc, condition, standing, from, count)?;
    let found = entries_by(alloc, first, more, sums, frames.as_slice())?;
    let entries = as_entries(alloc, found)?;
    Ok(entries)
}

fn entries_on<'a, R: Threads + Sync>(
    rt: &R,
    alloc: Global,
    standing: &Standing<'a>,
    condition: &'a Option<Boxed<TypedExpr>>,
    first: &'a TypedExpr,
    more: &'a [TypedExpr],
    sums: &'a [Sum],
    workers: usize,
) -> Result<Vec<(SeenKey<'a>, Summed<'a>)>, NoMemory>
    requires { 1 ≤ workers }
    ensures { IfOk result (λ found. AreGroupsOf sums.now (first.now ∷ more.now) (filter (is_met condition.now) (frames_standing standing.now)) found.items) }
{
    let of_range = |from: usize, count: usize| -> Result<Vec<Entry>, NoMemory>
        ensures { IfOk result (λ entries. AreGroupsOf sums.entry.now (first.entry.now ∷ more.entry.now) (filter (is_met condition.entry.now) (frames_between standing.entry.now from count)) (pairs_in entries.items)) }
    { entries_part(alloc, standing, condition, first, more, sums, from, count) };
    let answers = by_ranges(rt, alloc, standing.len(), workers, &of_range)?;
    let entries = joined(alloc, answers)?;
    let found = as_pairs(alloc, entries)?;
    Ok(found)
}

fn by_keys_on<'a, R: Threads + Sync>(
    rt: &R,
    alloc: Global,
    standing: &Standing<'a>,
    condition: &'a Option<Boxed<TypedExpr>>,
    lifted: &'a Lifted,
    first: &'a TypedExpr,
    more: &'a [TypedExpr],
    front: Option<Front<'a>>,
    workers: usize,
) -> Result<Vec<Row>, NoMemory>
    requires { 1 ≤ workers }
    ensures { (items : List Expr) (having : Option Expr) → IsLifted items having lifted.now → IfOk result (λ rows. IsEnough front.entry rows.items (map (group_row items) (filter (is_met_over having) (groups same_row (key_of (first.now ∷ more.now)) (filter (is_met condition.now) (frames_standing standing.now)))))) }
{
    let sums = lifted.sums.as_slice();
    let found = entries_on(rt, alloc, standing, condition, first, more, sums, workers)?;
    let groups = merged_by(alloc, first, more, sums, found)?;
    let all = groups.as_slice();
    rows_shown(alloc, &*lifted, all, front)
}

// ---- all rows as one group

fn sums_part<'a>(
    alloc: Global,
    standing: &Standing<'a>,
    condition: &'a Option<Boxed<TypedExpr>>,
    sums: &'a [Sum],
    from: usize,
    count: usize,
) -> Result<Vec<Summed<'a>>, NoMemory>
    ensures { IfOk result (λ parts. AreSumsOf sums.now (filter (is_met condition.now) (frames_between standing.now from count)) parts.items) }
{
    let frames = frames_for(alloc, condition, standing, from, count)?;
    let parts = summed_part(alloc, sums, frames.as_slice())?;
    Ok(parts)
}

fn sums_on<'a, R: Threads + Sync>(
    rt: &R,
    alloc: Global,
    standing: &Standing<'a>,
    condition: &'a Option<Boxed<TypedExpr>>,
    sums: &'a [Sum],
    workers: usize,
) -> Result<Vec<Summed<'a>>, NoMemory>
    requires { 1 ≤ workers }
    ensures { IfOk result (λ parts. AreSumsOf sums.now (filter (is_met condition.now) (frames_standing standing.now)) parts.items) }
{
    let of_range = |from: usize, count: usize| -> Result<Vec<Summed>, NoMemory>
        ensures { IfOk result (λ parts. AreSumsOf sums.entry.now (filter (is_met condition.entry.now) (frames_between standing.entry.now from count)) parts.items) }
    { sums_part(alloc, standing, condition, sums, from, count) };
    let answers = by_ranges(rt, alloc, standing.len(), workers, &of_range)?;
    let parts = joined(alloc, answers)?;
    Ok(parts)
}

fn of_all_on<'a, R: Threads + Sync>(
    rt: &R,
    alloc: Global,
    standing: &Standing<'a>,
    condition: &'a Option<Boxed<TypedExpr>>,
    lifted: &'a Lifted,
    front: Option<Front<'a>>,
    workers: usize,
) -> Result<Vec<Row>, NoMemory>
    requires { 1 ≤ workers }
    ensures { (items : List Expr) (having : Option Expr) → IsLifted items having lifted.now → IfOk result (λ rows. IsEnough front.entry rows.items (map (group_row items) (filter (is_met_over having) (filter (is_met condition.now) (frames_standing standing.now) ∷ [])))) }
{
    let sums = lifted.sums.as_slice();
    let parts = sums_on(rt, alloc, standing, condition, sums, workers)?;
    let groups = summed_whole(alloc, sums, parts.as_slice())?;
    let all = groups.as_slice();
    rows_shown(alloc, &*lifted, all, front)
}

// ---- groups

fn lifted_on<'a, R: Threads + Sync>(
    rt: &R,
    alloc: Global,
    standing: &Standing<'a>,
    condition: &'a Option<Boxed<TypedExpr>>,
    lifted: &'a Lifted,
    keys: &'a [TypedExpr],
    front: Option<Front<'a>>,
    workers: usize,
) -> Result<Vec<Row>, NoMemory>
    requires { 1 ≤ workers }
    ensures { (items : List Expr) (having : Option Expr) → IsLifted items having lifted.now → IfOk result (λ rows. IsEnough front.entry rows.items (map (group_row items) (filter (is_met_over having) (grouped keys.now (filter (is_met condition.now) (frames_standing standing.now)))))) }
{
    match keys {
        [] => of_all_on(rt, alloc, standing, condition, lifted, front, workers),
        [first, more @ ..] => by_keys_on(
            rt, alloc, standing, condition, lifted, first, more, front, workers,
        ),
    }
}

// Groups of which the rows themselves are kept, by one worker.
fn grouped_whole<'a>(
    alloc: Global,
    standing: &Standing<'a>,
    condition: &'a Option<Boxed<TypedExpr>>,
    items: &'a [TypedExpr],
    grouping: &'a Grouping,
    front: Option<Front<'a>>,
) -> Result<Vec<Row>, NoMemory>
    ensures { IfOk result (λ rows. IsEnough front.entry rows.items (map (group_row items.now) (filter (is_met_over grouping.now.having) (grouped grouping.now.keys (filter (is_met condition.now) (frames_standing standing.now)))))) }
{
    let frames = frames_for(alloc, condition, standing, 0, standing.len())?;
    let rows = grouped_rows(alloc, &*items, &*grouping, frames.as_slice(), front)?;
    Ok(rows)
}

fn grouped_on<'a, R: Threads + Sync>(
    rt: &R,
    alloc: Global,
    standing: &Standing<'a>,
    condition: &'a Option<Boxed<TypedExpr>>,
    items: &'a [TypedExpr],
    grouping: &'a Grouping,
    front: Option<Front<'a>>,
    workers: usize,
) -> Result<Vec<Row>, NoMemory>
    requires { 1 ≤ workers }
    ensures { IfOk result (λ rows. IsEnough front.entry rows.items (map (group_row items.now) (filter (is_met_over grouping.now.having) (grouped grouping.now.keys (filter (is_met condition.now) (frames_standing standing.now)))))) }
{
    let keys = grouping.keys.as_slice();
    match lift(alloc, items, &grouping.having)? {
        None => grouped_whole(alloc, standing, condition, items, grouping, front),
        Some(lifted) => lifted_on(
            rt,
            alloc,
            &*standing,
            &*condition,
            &lifted,
            &*keys,
            front,
            workers,
        ),
    }
}

fn grouped_once<'a, R: Threads + Sync>(
    rt: &R,
    alloc: Global,
    select: &'a TypedSelect,
    standing: &Standing<'a>,
    grouping: &'a Grouping,
    front: Option<Front<'a>>,
    workers: usize,
) -> Result<Vec<Row>, NoMemory>
    requires { 1 ≤ workers }
    ensures { IfOk result (λ rows. IsEnough front.entry rows.items (kept select.now.distinct (map (group_row select.now.items) (filter (is_met_over grouping.now.having) (grouped grouping.now.keys (filter (is_met select.now.filter) (frames_standing standing.now))))))) }
{
    let items = select.items.as_slice();
    let wanted = front_if(select.distinct, front);
    let found = grouped_on(
        rt,
        alloc,
        standing,
        &select.filter,
        items,
        grouping,
        wanted,
        workers,
    )?;
    let rows = kept_if(alloc, select.distinct, found)?;
    Ok(rows)
}

/// What a select makes of the rows of its FROM, as far as it is wanted.
#[tactic(auto, unfolding(hv_exec::specs::Tables::select_rows))]
pub(crate) fn select_rows_on<'a, R: Threads + Sync>(
    rt: &R,
    alloc: Global,
    select: &'a TypedSelect,
    standing: &Standing<'a>,
    front: Option<Front<'a>>,
    workers: usize,
) -> Result<Vec<Row>, NoMemory>
    requires { 1 ≤ workers }
    ensures { IfOk result (λ rows. IsEnough front.entry rows.items (select_rows select.now (frames_standing standing.now))) }
{
    match &select.groups {
        Some(grouping) => grouped_once(rt, alloc, select, standing, grouping, front, workers),
        None => items_on(
            rt,
            alloc,
            standing,
            &select.filter,
            select.items.as_slice(),
            select.distinct,
            front,
            workers,
        ),
    }
}
