ghost use Rattle.std.specs.Prelude.{◌≡◌, ◌&&◌, ◌||◌};
ghost use Rattle.hv_jobs.specs.hv_history.specs.Jobs.{larger};
ghost use Rattle.hv_tallies.specs.Tallies.{no_tally, least, noted_open, one_more, first_if};

/// Up to which write ids a walk counts: the end of the last base, the greatest end of any compaction, and the
/// mark up to which it counts at all; and how many write ids were given, above which no count goes.
#[derive(Clone, Copy)]
pub struct Reach {
    pub base: u64,
    pub compacted: u64,
    pub mark: u64,
    pub given: u64,
}

/// What a walk over the write ids of a table has found, whatever order it goes in: the least one whose
/// transaction is open; and of one partition the deltas and the delete deltas above all compactions, whether
/// compactions merged some above the base, the least and the greatest id, and how many rows were inserted and
/// deleted up to the base and written above it. A number that is `u64::MAX` may be greater.
#[derive(Clone, Copy)]
pub struct Tally {
    pub unended: Option<u64>,
    pub ins: u64,
    pub del: u64,
    pub merged_ins: bool,
    pub merged_del: bool,
    pub first: Option<u64>,
    pub high: u64,
    pub kept: u64,
    pub gone: u64,
    pub above: u64,
}

pub fn no_tally() -> Tally
    ensures { result ≡ no_tally }
{
    Tally {
        unended: None,
        ins: 0,
        del: 0,
        merged_ins: false,
        merged_del: false,
        first: None,
        high: 0,
        kept: 0,
        gone: 0,
        above: 0,
    }
}

fn least(found: Option<u64>, write: u64) -> Option<u64>
    ensures { result ≡ least found write }
{
    match found {
        Some(before) => { if write < before { Some(write) } else { found } }
        None => Some(write),
    }
}

/// Notes whether the transaction of a write id is open.
pub fn noted_open(is_open: bool, write: u64, tally: Tally) -> Tally
    ensures { result ≡ noted_open is_open write tally }
{
    let mut next = tally;
    if is_open {
        next.unended = least(tally.unended, write);
    }
    next
}

pub fn one_more(given: u64, test: bool, count: u64) -> u64
    ensures { result ≡ one_more given test count }
{
    if test && count < given {
        count + 1
    } else {
        count
    }
}

pub fn first_if(test: bool, write: u64, first: Option<u64>) -> Option<u64>
    ensures { result ≡ first_if test write first }
{
    if test { least(first, write) } else { first }
}

/// Whether both hold, without a branch for who asks.
pub fn both(a: bool, b: bool) -> bool
    ensures { result ≡ (a && b) }
{
    a && b
}

/// Whether one of the two holds.
pub fn either(a: bool, b: bool) -> bool
    ensures { result ≡ (a || b) }
{
    a || b
}

pub fn larger(a: u64, b: u64) -> u64
    ensures { result ≡ larger a b }
{
    if a < b { b } else { a }
}
