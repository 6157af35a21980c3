ghost use Rattle.std.specs.Prelude.{◌-◌, ◌≤◌, length};

use hv_base::NoMemory;
use hv_shuffle::{by_parts, by_ranges, part_at, sort_in_parts};
use std::alloc::Global;
use std::cmp::Ordering;
use std::thread::Threads;

// So many numbers that a sort of them is cut.
const COUNT: u64 = 20_000;

// Numbers in no order, each several times.
fn mixed(alloc: Global) -> Result<Vec<u64>, NoMemory> {
    let mut numbers = Vec::new(alloc);
    for place in 0..COUNT {
        numbers.push(place.wrapping_mul(7_919) % 9_973)?;
    }
    Ok(numbers)
}

/// Whether a sort by so many workers is as a sort by one.
pub fn are_sorted<R: Threads + Sync>(
    rt: &R,
    alloc: Global,
    workers: usize,
) -> Result<bool, NoMemory> {
    let mut numbers = mixed(alloc)?;
    let mut sorted = mixed(alloc)?;
    sorted.sort()?;
    let compare = |left: &u64, right: &u64| -> Ordering { left.cmp(right) };
    sort_in_parts(rt, alloc, numbers.as_mut_slice(), workers, compare)?;
    Ok(numbers == sorted)
}

fn sum(numbers: &[u64]) -> u64 {
    numbers
        .iter()
        .fold(0u64, |sum, number| sum.wrapping_add(*number))
}

/// The sum of the sums of parts, and of the sums of ranges.
pub fn total<R: Threads + Sync>(rt: &R, alloc: Global, workers: usize) -> Result<u64, NoMemory> {
    if workers == 0 {
        return Ok(0);
    }
    let numbers = mixed(alloc)?;
    let all = numbers.as_slice();
    let of_part = |part: &[u64]| -> u64 { sum(part) };
    let of_range = |from: usize, count: usize| -> u64
        requires { (from ≤ length all.now) × (count ≤ length all.now - from) }
    { sum(part_at(all, from, count)) };
    let parts = by_parts(rt, alloc, all, workers, &of_part)?;
    let ranges = by_ranges(rt, alloc, all.len(), workers, &of_range)?;
    Ok(sum(parts.as_slice()).wrapping_add(sum(ranges.as_slice())))
}
