ghost use Rattle.std.specs.Prelude.{◌≡◌, ◌+◌, ◌<◌, ◌≤◌, length, OnOk};
ghost use Rattle.std.specs.List.Sorted.{IsPermutation, IsSortedByClosure, IsStableByClosure};
ghost use Rattle.std.specs.Thread.{IsSync, IsSend};

use hv_base::NoMemory;
use std::alloc::Global;
use std::cmp::Ordering;
use std::thread::{Threads, join_mut};

// A list shorter than this is not worth a thread.
const LEAST: usize = 4096;

/// Sorts by what `compare` answers, in at most `workers` threads, and keeps equal items in their
/// order. Where memory lacks their order is left open.
pub fn sort_in_parts<R: Threads + Sync, T: Send, F: FnMut(&T, &T) -> Ordering + Copy + Send + Sync>(
    rt: &R,
    alloc: Global,
    items: &mut [T],
    workers: usize,
    compare: F,
) -> Result<(), NoMemory>
    requires { F.IsAlwaysCallable compare }
    ensures permutation { IsPermutation items.old items.new }
    ensures len { length items.new ≡ length items.old }
    ensures sorted { OnOk result (IsSortedByClosure F.FnMut compare items.new) }
    ensures stable { IsStableByClosure F.FnMut compare items.old items.new }
{
    sort_cut(rt, alloc, workers, compare, items)
}

// Each part goes to threads of its own, and then the sorted parts are sorted as one, which merges them.
#[cycle(halves)]
fn sort_cut<R: Threads + Sync, T: Send, F: FnMut(&T, &T) -> Ordering + Copy + Send + Sync>(
    rt: &R,
    alloc: Global,
    workers: usize,
    compare: F,
    items: &mut [T],
) -> Result<(), NoMemory>
    requires { F.IsAlwaysCallable compare }
    ensures permutation { IsPermutation items.old items.new }
    ensures len { length items.new ≡ length items.old }
    ensures sorted { OnOk result (IsSortedByClosure F.FnMut compare items.new) }
    ensures stable { IsStableByClosure F.FnMut compare items.old items.new }
{
    if workers > 1 && items.len() >= LEAST {
        let (low, high) = items.split_at_mut(cut_place(items.len(), workers));
        sort_both(rt, alloc, workers, compare, low, high);
    }
    items.sort_by(alloc, compare)?;
    Ok(())
}

#[cycle(halves)]
fn sort_both<R: Threads + Sync, T: Send, F: FnMut(&T, &T) -> Ordering + Copy + Send + Sync>(
    rt: &R,
    alloc: Global,
    workers: usize,
    compare: F,
    low: &mut [T],
    high: &mut [T],
)
    requires workers { 1 < workers }
    requires compare { F.IsAlwaysCallable compare }
    ensures low_same { IsPermutation low.old low.new }
    ensures low_stable { IsStableByClosure F.FnMut compare low.old low.new }
    ensures high_same { IsPermutation high.old high.new }
    ensures high_stable { IsStableByClosure F.FnMut compare high.old high.new }
{
    let mut below = || -> Result<(), NoMemory>
        requires { IsSync R.row × IsSend T.row × IsSend F.row × IsSync F.row × (1 < workers) × F.IsAlwaysCallable compare }
        ensures { IsPermutation low.entry.now low.exit.now × IsStableByClosure F.FnMut compare low.entry.now low.exit.now }
    { sort_cut(rt, alloc, workers / 2, compare, low) };
    let mut above = || -> Result<(), NoMemory>
        requires { IsSync R.row × IsSend T.row × IsSend F.row × IsSync F.row × (1 < workers) × F.IsAlwaysCallable compare }
        ensures { IsPermutation high.entry.now high.exit.now × IsStableByClosure F.FnMut compare high.entry.now high.exit.now }
    { sort_cut(rt, alloc, workers - workers / 2, compare, high) };
    let _whether_they_sorted = join_mut(rt, &mut below, &mut above);
}

// The place at which the parts of half the workers end.
fn cut_place(len: usize, workers: usize) -> usize
    requires { 1 < workers }
    ensures { result ≤ len }
{
    len / workers * (workers / 2)
}
