ghost use Rattle.std.specs.Prelude.{◌≡◌, ℕ, ◌*◌, ◌-◌, ◌<◌, ◌≤◌, IfOk, List, length, take, drop, min, vec_len};
ghost use Rattle.std.specs.Borrow.{Bor};
ghost use Rattle.std.specs.Fn.{FnReturns, FnReturnsAt};
ghost use Rattle.std.specs.List.{AllZip};
ghost use Rattle.hv_shuffle.specs.Calls.{JobGives};
ghost use Rattle.hv_shuffle.specs.Parts.{AreOfParts, AreOfRanges, IsPartOf};

use hv_base::NoMemory;
use std::alloc::Global;
use std::thread;
use std::thread::Threads;

/// How work is cut: at most so many workers, none of which has fewer than the least number of items.
#[derive(Clone, Copy)]
pub struct Cut {
    pub workers: usize,
    pub least: usize,
}

impl Cut {
    /// How many workers so many items are worth, one at least.
    pub fn workers_for(self, len: usize) -> usize
        ensures { 1 ≤ result }
    {
        let worth = len / self.least.max(1);
        self.workers.min(worth).max(1)
    }
}

/// Calls `f` with the first place and the length of ranges that follow one another and make up
/// `0..len`, at most `workers` of them, each in a thread of its own where one can be made, and gives
/// what the calls answer, in the order of the ranges. With one worker it calls `f` once and starts no
/// thread.
///
/// What `f` answers may borrow from what `f` looks at.
pub fn by_ranges<R: Threads + Sync, X: Send + Drop, F: Fn(usize, usize) -> X + Sync>(
    rt: &R,
    alloc: Global,
    len: usize,
    workers: usize,
    f: &F,
) -> Result<Vec<X>, NoMemory>
    requires workers { 1 ≤ workers }
    requires takes { (from count : ℕ) → from ≤ len → count ≤ len - from → F.pre f.now from count }
    ensures ranges { IfOk result (λ answers. AreOfRanges (λ from count answer. FnReturns F.Fn f.now (from, (count, tt)) answer) len answers.items) }
    ensures few { IfOk result (λ answers. vec_len answers ≤ workers) }
{
    if workers == 1 || len <= 1 {
        let mut answers = Vec::new(alloc);
        answers.push(f(0, len))?;
        return Ok(answers);
    }
    let size = part_size(len, workers);
    let answer = move |number: usize| -> X
        requires { (number * size ≤ len) × ((from count : ℕ) → from ≤ len → count ≤ len - from → F.pre f.now from count) }
        ensures { FnReturns F.Fn f.entry.now (number * size, (min size (len - number * size), tt)) result }
    { f(number * size, size.min(len - number * size)) };
    Ok(thread::map_indices(rt, alloc, part_count(len, size), &answer)?)
}

/// Calls `f` on parts of `items` that follow one another, at most `workers` of them, each in a thread
/// of its own where one can be made, and gives what the calls answer, in the order of the parts.
/// With one worker it calls `f` once, on all items, and starts no thread.
///
/// What `f` answers can't borrow from `items`, but from what its items refer to, or see `by_ranges`.
pub fn by_parts<R: Threads + Sync, T: Sync, X: Send + Drop, F: Fn(&[T]) -> X + Sync>(
    rt: &R,
    alloc: Global,
    items: &[T],
    workers: usize,
    f: &F,
) -> Result<Vec<X>, NoMemory>
    requires workers { 1 ≤ workers }
    requires takes { (part : Bor (List T)) → IsPartOf part.now items.now → F.pre f.now part }
    ensures parts { IfOk result (λ answers. AreOfParts (FnReturnsAt F.Fn f.now) items.now answers.items) }
    ensures few { IfOk result (λ answers. vec_len answers ≤ workers) }
{
    let answer = move |from: usize, count: usize| -> X
        requires { (from ≤ length items.now) × (count ≤ length items.now - from) × ((part : Bor (List T)) → IsPartOf part.now items.now → F.pre f.now part) }
        ensures { FnReturnsAt F.Fn f.entry.now (take count (drop from items.entry.now)) result }
    { f(part_at(items, from, count)) };
    by_ranges(rt, alloc, items.len(), workers, &answer)
}

/// Calls `f` with each job, each call in a thread of its own where one can be made, and gives what the
/// calls answer, in the order of the jobs. Where memory lacks jobs are let go of.
pub fn by_jobs<R: Threads + Sync, J: Send + Drop, X: Send + Drop, F: Fn(J) -> X + Sync>(
    rt: &R,
    jobs: Vec<J>,
    f: &F,
) -> Result<Vec<X>, NoMemory>
    requires { F.IsAlwaysCallable f.now }
    ensures { IfOk result (λ answers. AllZip (JobGives F.Fn f.now) jobs.items answers.items) }
{
    let answers = thread::map_vec(rt, jobs, f)?;
    Ok(answers)
}

/// The part of `items` that begins at `from`.
pub fn part_at<T>(items: &[T], from: usize, count: usize) -> &[T]
    requires from { from ≤ length items.now }
    requires count { count ≤ length items.now - from }
    ensures value { result.now ≡ take count (drop from items.now) }
    ensures part { IsPartOf result.now items.now }
{
    let (_, rest) = items.split_at(from);
    let (part, _) = rest.split_at(count);
    part
}

/// The part of `items` that begins at `from`, of so many items as far as there are so many.
pub fn part_of<T>(items: &[T], from: usize, count: usize) -> &[T]
    ensures { result.now ≡ take count (drop from items.now) }
{
    let within = from.min(items.len());
    let (_, rest) = items.split_at(within);
    let most = count.min(rest.len());
    let (part, _) = rest.split_at(most);
    part
}

// So many items in each part that `workers` parts have all.
fn part_size(len: usize, workers: usize) -> usize
    requires some { 0 < len }
    requires workers { 0 < workers }
    ensures some { 0 < result }
    ensures all { len ≤ workers * result }
{
    len.div_ceil(workers)
}

fn part_count(len: usize, size: usize) -> usize
    requires { 0 < size }
    ensures all { len ≤ result * size }
    ensures inside { (number : ℕ) → number < result → number * size < len }
{
    len.div_ceil(size)
}
