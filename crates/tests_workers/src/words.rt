use hv_base::NoMemory;
use hv_shuffle::map_shuffle_reduce;
use std::alloc::Global;
use std::collections::BTreeMap;
use std::io;
use std::thread::Threads;

static LINES: [&str; 7] = [
    "the quick brown fox",
    "jumps over the lazy dog",
    "",
    "the dog sleeps",
    "fox and dog and fox",
    "over and over",
    "the end",
];

// Each word of a line, with 1.
fn words_of(alloc: Global, line: &str) -> Result<Vec<(String, u64)>, NoMemory> {
    let mut words = Vec::new(alloc);
    for word in line.split_whitespace() {
        words.push((String::from_str(alloc, word)?, 1))?;
    }
    Ok(words)
}

// A word, and how often it stands.
fn count_of(alloc: Global, word: &String, ones: &[u64]) -> Result<(String, u64), NoMemory> {
    let count = ones
        .iter()
        .fold(0u64, |count, one| count.wrapping_add(*one));
    Ok((String::from_str(alloc, word.as_str())?, count))
}

fn counted<R: Threads + Sync>(
    rt: &R,
    alloc: Global,
    workers: usize,
) -> Result<Vec<(String, u64)>, NoMemory> {
    if workers == 0 {
        return Ok(Vec::new(alloc));
    }
    let mapper = |line: &&str| -> Result<Vec<(String, u64)>, NoMemory> { words_of(alloc, line) };
    let reducer = |word: &String, ones: &[u64]| -> Result<(String, u64), NoMemory> {
        count_of(alloc, word, ones)
    };
    map_shuffle_reduce(rt, &LINES, &mapper, &reducer, workers, alloc)
}

/// The words with their counts, by a plain fold.
pub fn folded(alloc: Global) -> Result<Vec<(String, u64)>, NoMemory> {
    let mut counts: BTreeMap<String, u64> = BTreeMap::new(alloc);
    for line in &LINES {
        for word in line.split_whitespace() {
            let had = counts.get(word).copied().unwrap_or(0);
            counts.insert(String::from_str(alloc, word)?, had.wrapping_add(1))?;
        }
    }
    let mut pairs = Vec::new(alloc);
    for (word, count) in counts {
        pairs.push((word, count))?;
    }
    Ok(pairs)
}

/// Whether so many workers count as the plain fold does.
pub fn are_same<R: Threads + Sync>(
    rt: &R,
    alloc: Global,
    workers: usize,
    plain: &Vec<(String, u64)>,
) -> Result<bool, NoMemory> {
    Ok(counted(rt, alloc, workers)? == *plain)
}

pub fn print_counts(rt: &impl Print, counts: &[(String, u64)]) -> io::Result<()> {
    for (word, count) in counts {
        println!(rt; "{word} {count}")?;
    }
    Ok(())
}
