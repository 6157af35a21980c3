//! Sorts by several workers: rows are dealt into ranges of their numbers, and each range is sorted by
//! itself. So there is no merge of all. How rows are dealt rests on nothing that is proved: where two
//! ranges don't follow one another, one worker sorts all again.

ghost use Rattle.std.specs.Prelude.{◌≡◌, ◌≤◌, ◌<◌, ◌-◌, ◌++◌, ◌∷◌, [], length, slice_get, IsTrue, IsPermutation, IsSorted, OnOk, IfOk};
ghost use Rattle.hv_typing.specs.Order.{order_cmp, ordered, limited};
ghost use Rattle.hv_shuffle.specs.Calls.{JoinsTo};
ghost use Rattle.hv_order.specs.Parts.{rows_in, seam_holds, AllSorted};

use crate::ranks::Ranks;
use crate::{compare, ordered_rows, sort};
use hv_base::NoMemory;
use hv_shuffle::{Cut, by_jobs, by_parts, joined};
use hv_typing::SortKey;
use hv_value::Row;
use std::alloc::Global;
use std::thread::Threads;

// ---- the ranges

// So many rows are looked at for numbers that cut all into ranges.
const SAMPLES: usize = 1024;

fn ranks_on<R: Threads + Sync>(
    rt: &R,
    alloc: Global,
    keys: &[SortKey],
    rows: &[Row],
    workers: usize,
) -> Result<Ranks, NoMemory>
    requires { 1 ≤ workers }
{
    let of_part = |part: &[Row]| -> Ranks { Ranks::of_part(keys, rows, part) };
    let mut ranks = Ranks::of_part(keys, rows, &[]);
    for found in by_parts(rt, alloc, rows, workers, &of_part)? {
        ranks = ranks.least(found);
    }
    Ok(ranks)
}

// The numbers of some rows, rising.
fn sampled(alloc: Global, ranks: &Ranks, rows: &[Row]) -> Result<Vec<(u64, u64)>, NoMemory> {
    let step = (rows.len() / SAMPLES).max(1);
    let mut numbers = Vec::with_capacity(alloc, SAMPLES)?;
    for i in 0..SAMPLES {
        if let Some(row) = rows.get(i.saturating_mul(step)) {
            numbers.push(ranks.numbers(row))?;
        }
    }
    numbers.sort()?;
    Ok(numbers)
}

// Numbers between so many ranges of about as many rows.
fn cuts_of(
    alloc: Global,
    samples: &[(u64, u64)],
    ranges: usize,
) -> Result<Vec<(u64, u64)>, NoMemory> {
    let step = (samples.len() / ranges.max(1)).max(1);
    let mut cuts = Vec::new(alloc);
    for i in 1..ranges {
        if let Some(numbers) = samples.get(i.saturating_mul(step)) {
            cuts.push(*numbers)?;
        }
    }
    Ok(cuts)
}

fn range_of(cuts: &[(u64, u64)], numbers: (u64, u64)) -> usize {
    let mut range: usize = 0;
    for cut in cuts {
        if *cut <= numbers {
            range = range.saturating_add(1);
        }
    }
    range
}

fn ranges_in(
    alloc: Global,
    ranks: &Ranks,
    cuts: &[(u64, u64)],
    rows: &[Row],
) -> Result<Vec<usize>, NoMemory> {
    let mut ranges = Vec::with_capacity(alloc, rows.len())?;
    for row in rows {
        ranges.push(range_of(cuts, ranks.numbers(row)))?;
    }
    Ok(ranges)
}

fn ranges_on<R: Threads + Sync>(
    rt: &R,
    alloc: Global,
    ranks: &Ranks,
    cuts: &[(u64, u64)],
    rows: &[Row],
    workers: usize,
) -> Result<Vec<usize>, NoMemory>
    requires { 1 ≤ workers }
{
    let of_part = |part: &[Row]| -> Result<Vec<usize>, NoMemory> {
        ranges_in(alloc, ranks, cuts, part)
    };
    let found = by_parts(rt, alloc, rows, workers, &of_part)?;
    joined(alloc, found)
}

// The range of each row.
fn ranges_for<R: Threads + Sync>(
    rt: &R,
    alloc: Global,
    keys: &[SortKey],
    rows: &[Row],
    workers: usize,
) -> Result<Vec<usize>, NoMemory>
    requires { 1 ≤ workers }
{
    let ranks = ranks_on(rt, alloc, keys, rows, workers)?;
    let samples = sampled(alloc, &ranks, rows)?;
    let cuts = cuts_of(alloc, samples.as_slice(), workers)?;
    ranges_on(rt, alloc, &ranks, cuts.as_slice(), rows, workers)
}

// ---- rows in the lists of their ranges

fn empty_lists(alloc: Global, count: usize) -> Result<Vec<Vec<Row>>, NoMemory>
    ensures none { IfOk result (λ lists. rows_in lists.items ≡ []) }
    ensures count { IfOk result (λ lists. length lists.items ≡ count) }
{
    let mut lists = Vec::with_capacity(alloc, count)?;
    for _list in 0..count {
        lists.push(Vec::new(alloc))?;
    }
    Ok(lists)
}

fn put_into(lists: &mut Vec<Vec<Row>>, range: usize, row: Row) -> Result<(), NoMemory>
    requires { 0 < length lists.old.items }
    ensures moves { OnOk result (IsPermutation (rows_in lists.old.items ++ row ∷ []) (rows_in lists.new.items)) }
    ensures count { OnOk result (length lists.new.items ≡ length lists.old.items) }
{
    let within = range.min(lists.len() - 1);
    lists[within].push(row)?;
    Ok(())
}

fn range_at(ranges: &[usize], place: usize) -> usize {
    match ranges.get(place) {
        Some(range) => *range,
        None => 0,
    }
}

fn dealt(
    alloc: Global,
    count: usize,
    ranges: &[usize],
    rows: Vec<Row>,
) -> Result<Vec<Vec<Row>>, NoMemory>
    requires { 1 ≤ count }
    ensures { IfOk result (λ lists. IsPermutation rows.items (rows_in lists.items)) }
{
    let mut lists = empty_lists(alloc, count)?;
    let mut place: usize = 0;
    for row in rows {
        put_into(&mut lists, range_at(ranges, place), row)?;
        place = place.saturating_add(1);
    }
    Ok(lists)
}

fn dealt_on<R: Threads + Sync>(
    rt: &R,
    alloc: Global,
    keys: &[SortKey],
    rows: Vec<Row>,
    workers: usize,
) -> Result<Vec<Vec<Row>>, NoMemory>
    requires { 1 ≤ workers }
    ensures { IfOk result (λ lists. IsPermutation rows.items (rows_in lists.items)) }
{
    let ranges = ranges_for(rt, alloc, keys, rows.as_slice(), workers)?;
    dealt(alloc, workers, ranges.as_slice(), rows)
}

// ---- the lists, sorted, behind one another

fn sorted_list(keys: &[SortKey], list: Vec<Row>) -> Result<Vec<Row>, NoMemory>
    ensures { IfOk result (λ sorted. sorted.items ≡ ordered keys.now list.items) }
{
    let mut rows = list;
    sort(keys, &mut rows)?;
    Ok(rows)
}

// Whether rows may stand behind others, where both are sorted.
fn follows(keys: &[SortKey], before: &[Row], behind: &[Row]) -> bool
    ensures { result ≡ seam_holds keys.now (slice_get before.now (length before.now - 1)) (slice_get behind.now 0) }
{
    match before.last() {
        None => true,
        Some(last) => match behind.first() {
            None => true,
            Some(first) => !compare(keys, first, last).is_lt(),
        },
    }
}

// Lists behind one another, and whether each may stand behind those before it.
#[derive(Drop)]
struct Together {
    rows: Vec<Row>,
    in_order: bool,
}

fn put_together(
    alloc: Global,
    keys: &[SortKey],
    answers: Vec<Result<Vec<Row>, NoMemory>>,
) -> Result<Together, NoMemory>
    ensures joined { IfOk result (λ found. JoinsTo answers.items found.rows.items) }
    ensures sorted { IfOk result (λ found. IsTrue found.in_order → AllSorted keys.now answers.items → IsSorted (order_cmp keys.now) found.rows.items) }
{
    let mut rows = Vec::new(alloc);
    let mut in_order = true;
    for answer in answers {
        let mut list = answer?;
        in_order &= follows(keys, rows.as_slice(), list.as_slice());
        rows.append(&mut list)?;
    }
    Ok(Together { rows, in_order })
}

fn lists_sorted<R: Threads + Sync>(
    rt: &R,
    alloc: Global,
    keys: &[SortKey],
    lists: Vec<Vec<Row>>,
) -> Result<Together, NoMemory>
    ensures moves { IfOk result (λ found. IsPermutation (rows_in lists.items) found.rows.items) }
    ensures sorted { IfOk result (λ found. IsTrue found.in_order → IsSorted (order_cmp keys.now) found.rows.items) }
{
    let sorted = |list: Vec<Row>| -> Result<Vec<Row>, NoMemory>
        ensures { IfOk result (λ sorted. sorted.items ≡ ordered keys.entry.now list.items) }
    { sorted_list(keys, list) };
    let answers = by_jobs(rt, lists, &sorted)?;
    put_together(alloc, keys, answers)
}

fn sorted_on<R: Threads + Sync>(
    rt: &R,
    alloc: Global,
    keys: &[SortKey],
    rows: Vec<Row>,
    workers: usize,
) -> Result<Vec<Row>, NoMemory>
    requires { 1 ≤ workers }
    ensures { IfOk result (λ sorted. sorted.items ≡ ordered keys.now rows.items) }
{
    let lists = dealt_on(rt, alloc, keys, rows, workers)?;
    let together = lists_sorted(rt, alloc, keys, lists)?;
    let Together { rows, in_order } = together;
    if in_order {
        return Ok(rows);
    }
    sorted_list(keys, rows)
}

/// The rows in order, as many as are wanted: what `ordered_rows` gives, by several workers where all are
/// wanted.
pub fn ordered_rows_on<R: Threads + Sync>(
    rt: &R,
    alloc: Global,
    keys: &[SortKey],
    limit: Option<u64>,
    rows: Vec<Row>,
    cut: Cut,
) -> Result<Vec<Row>, NoMemory>
    ensures { IfOk result (λ sorted. sorted.items ≡ limited limit (ordered keys.now rows.items)) }
{
    let workers = cut.workers_for(rows.len());
    match limit {
        None if workers > 1 => sorted_on(rt, alloc, keys, rows, workers),
        _ => ordered_rows(alloc, keys, limit, rows),
    }
}
