ghost use Rattle.std.specs.Prelude.{◌≡◌, ◌≤◌, IsTrue, IfOk, All};
ghost use Rattle.std.specs.List.{list_any};
ghost use Rattle.std.specs.List.Sorted.{IsStrictlyIncreasing};
ghost use Rattle.hv_wids.specs.Between.{IsCountBetween};
ghost use Rattle.hv_wids.specs.WriteIds.{ids_of, is_open_by};

use hv_base::{Duplicate, List, NoMemory, WriteId};
use std::alloc::Global;
use std::marker::Model;

/// A write that isn't seen, since its transaction was open or had been aborted.
#[derive(Clone, Copy, Debug)]
pub struct Exception {
    pub write: WriteId,
    /// Whether the transaction had been aborted. Otherwise it was open.
    pub aborted: bool,
}

impl Duplicate for Exception {
    fn duplicate(&self, _alloc: Global) -> Result<Exception, NoMemory> {
        Ok(*self)
    }
}

/// How much of a range of writes is seen.
#[derive(Clone, Copy, Debug)]
pub enum Range {
    All,
    Zero,
    Part,
}

/// The writes to one table that a reader sees: those up to a high watermark, without exceptions.
#[derive(Debug, Drop)]
pub struct WriteIdList {
    high: WriteId,
    exceptions: List<Exception>,
}

impl Model for WriteIdList {
    ghost use Rattle.hv_wids.specs.WriteIds.{WriteIds, IsInOrder};

    ghost Value = { WriteIds };

    ghost view = { λ list. record { high = list.high; exceptions = list.exceptions } };

    ghost invariant = { λ list.
        IsInOrder (record { high = list.high; exceptions = list.exceptions }) };

    ghost inverse = { λ list. record { high = list.high; exceptions = list.exceptions } };
}

/// How many exceptions have an id from `low` to `last`.
fn count_between(exceptions: &[Exception], low: WriteId, last: WriteId) -> usize
    requires rises { IsStrictlyIncreasing (ids_of exceptions.now) }
    requires order { low.0 ≤ last.0 }
    ensures { IsCountBetween low.0 last.0 (ids_of exceptions.now) result }
{
    let from = exceptions.partition_point(|exception| exception.write.0 < low.0);
    let to = exceptions.partition_point(|exception| exception.write.0 <= last.0);
    to - from
}

/// Whether an exception up to `high` was open.
fn has_open(exceptions: &[Exception], high: WriteId) -> bool
    ensures { result ≡ list_any (is_open_by high.0) exceptions.now }
{
    exceptions.iter().any(|exception| exception.write.0 <= high.0 && !exception.aborted)
}

impl WriteIdList {
    ghost use Rattle.hv_wids.specs.WriteIds.{is_valid, range_of, IsRangeOf, is_valid_base};

    /// The list of a table whose highest write is `high`. It takes no memory.
    pub fn new(high: WriteId, exceptions: Vec<Exception>) -> WriteIdList
        requires rises { IsStrictlyIncreasing (ids_of exceptions.items) }
        requires within { All (λ exception. exception.write.0 ≤ high.0) exceptions.items }
        ensures { result ≡ record { high = high; exceptions = exceptions.items } }
    {
        WriteIdList {
            high,
            exceptions: List::from_vec(exceptions),
        }
    }

    /// Whether the write is seen.
    pub fn valid(&self, write: WriteId) -> bool
        ensures { result ≡ is_valid self.now write.0 }
    {
        write <= self.high && count_between(self.exceptions.as_slice(), write, write) == 0
    }

    /// How many of the writes from `low` to `high` are seen.
    pub fn range(&self, low: WriteId, high: WriteId) -> Range
        requires { low.0 ≤ high.0 }
        ensures value { result ≡ range_of self.now low.0 high.0 }
        ensures each { IsRangeOf self.now low.0 high.0 result }
    {
        let last = high.0.min(self.high.0);
        if last < low.0 {
            return Range::Zero;
        }
        let within = count_between(self.exceptions.as_slice(), low, WriteId(last));
        if within as u64 > last - low.0 {
            Range::Zero
        } else if within == 0 && last == high.0 {
            Range::All
        } else {
            Range::Part
        }
    }

    /// Whether a base that holds every write up to `high` may be read.
    pub fn valid_base(&self, high: WriteId) -> bool
        ensures { result ≡ is_valid_base self.now high.0 }
    {
        high <= self.high && !has_open(self.exceptions.as_slice(), high)
    }
}

impl Duplicate for WriteIdList {
    fn duplicate(&self, alloc: Global) -> Result<WriteIdList, NoMemory> {
        Ok(WriteIdList {
            high: self.high,
            exceptions: self.exceptions.duplicate(alloc)?,
        })
    }
}
