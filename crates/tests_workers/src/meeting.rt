use hv_base::NoMemory;
use hv_shuffle::map_shuffle_reduce;
use std::alloc::Global;
use std::sync::atomic::{AtomicU64, Ordering};
use std::thread;
use std::thread::Threads;

// How often a mapper looks for the other's flag.
const TURNS: u64 = 100_000_000;

// Sets the flag of this call, and looks for the other's. 1 where it was seen.
fn meet(flags: &[AtomicU64; 2], own: usize) -> u64 {
    let own = own % 2;
    flags[own].store(1, Ordering::SeqCst);
    for _ in 0..TURNS {
        if flags[1 - own].load(Ordering::SeqCst) == 1 {
            return 1;
        }
        thread::yield_now();
    }
    0
}

fn one_pair(alloc: Global, saw: u64) -> Result<Vec<(u64, u64)>, NoMemory> {
    let mut pairs = Vec::new(alloc);
    pairs.push((0, saw))?;
    Ok(pairs)
}

fn added(ones: &[u64]) -> u64 {
    ones.iter().fold(0u64, |sum, one| sum.wrapping_add(*one))
}

/// How many of two mapper calls saw the other's flag, with two workers.
pub fn two_mappers_meet<R: Threads + Sync>(rt: &R, alloc: Global) -> Result<Vec<u64>, NoMemory> {
    let flags = [AtomicU64::new(0), AtomicU64::new(0)];
    let mapper = |own: &usize| -> Result<Vec<(u64, u64)>, NoMemory> {
        one_pair(alloc, meet(&flags, *own))
    };
    let reducer = |_key: &u64, seen: &[u64]| -> Result<u64, NoMemory> { Ok(added(seen)) };
    map_shuffle_reduce(rt, &[0usize, 1], &mapper, &reducer, 2, alloc)
}
