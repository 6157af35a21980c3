ghost use Rattle.std.specs.Prelude.{◌≡◌, ◌≤◌, None, false, All, IfOk};
ghost use Rattle.hv_dirs.specs.Candidates.{best_from, better, IsProper, candidates_from, places_from};
ghost use Rattle.hv_dirs.specs.Choice.{AreAt, IsChosen, base_named, chosen_above, deltas_in, sight_of};
ghost use Rattle.hv_dirs.specs.Names.{IsName};

use crate::candidate::Candidate;
use crate::names::DirName;
use hv_base::{NoMemory, WriteId};
use hv_wids::{Range, WriteIdList};
use std::alloc::Global;

/// The directories of a partition that a reader takes, by the places of their names.
#[derive(Drop)]
pub struct Choice {
    pub base: Option<usize>,
    pub deltas: Vec<usize>,
    pub deletes: Vec<usize>,
}

/// Whether some write of a range is seen.
fn has_some(list: &WriteIdList, low: u64, high: u64) -> bool
    requires { low ≤ high }
    ensures { result ≡ (sight_of list.now).has_some low high }
{
    match list.range(WriteId(low), WriteId(high)) {
        Range::Zero => false,
        Range::All => true,
        Range::Part => true,
    }
}

/// The better of a base that was found, with its place, and the base of this name, if it is one
/// and may be read.
fn better(
    list: &WriteIdList,
    dir: &DirName,
    place: usize,
    found: (u64, Option<usize>),
) -> (u64, Option<usize>)
    ensures { result ≡ better (sight_of list.now) place found (base_named dir.now) }
{
    match dir {
        DirName::Base { high } if found.0 < high.0 && list.valid_base(*high) => {
            (high.0, Some(place))
        }
        _ => found,
    }
}

/// The greatest base that may be read, with its place: 0 and `None` where there is none.
fn best_base(list: &WriteIdList, dirs: &[DirName]) -> (u64, Option<usize>)
    ensures { result ≡ best_from (sight_of list.now) 0 (0, None) dirs.now }
{
    let mut found = (0, None);
    for (place, dir) in dirs.iter().enumerate() {
        found = better(list, dir, place, found);
    }
    found
}

/// The deltas of a kind, with the places of their names.
fn candidates_of(alloc: Global, dirs: &[DirName], deletes: bool) -> Result<Vec<Candidate>, NoMemory>
    ensures { IfOk result (λ found. found.items ≡ candidates_from deletes 0 dirs.now) }
{
    let mut found = Vec::new(alloc);
    for (place, dir) in dirs.iter().enumerate() {
        if let Some(candidate) = Candidate::of(dir, deletes, place) {
            found.push(candidate)?;
        }
    }
    Ok(found)
}

/// The places of those of the sorted deltas that are taken above a base.
fn take_above(
    alloc: Global,
    list: &WriteIdList,
    base: u64,
    candidates: &[Candidate],
) -> Result<Vec<usize>, NoMemory>
    requires { All IsProper candidates.now }
    ensures { IfOk result (λ places. places.items
        ≡ places_from (sight_of list.now) base false candidates.now) }
{
    let mut places = Vec::new(alloc);
    let mut top = base;
    let mut own = false;
    for candidate in candidates {
        if has_some(list, candidate.low, candidate.high) {
            if top < candidate.high {
                top = candidate.high;
                own = candidate.rank == 1;
                places.push(candidate.place)?;
            } else if own && candidate.low == top && candidate.high == top {
                places.push(candidate.place)?;
            }
        }
    }
    Ok(places)
}

/// The places of the deltas of a kind that are chosen above a base.
fn deltas_above(
    alloc: Global,
    dirs: &[DirName],
    list: &WriteIdList,
    deletes: bool,
    base: u64,
) -> Result<Vec<usize>, NoMemory>
    requires { All IsName dirs.now }
    ensures { IfOk result (λ places. AreAt deletes dirs.now
        (chosen_above (sight_of list.now) base (deltas_in deletes dirs.now)) places.items) }
{
    let mut candidates = candidates_of(alloc, dirs, deletes)?;
    candidates.sort()?;
    take_above(alloc, list, base, &candidates)
}

/// The directories that a reader takes under its list. Where no name stands twice there is one
/// such choice.
pub fn choose(alloc: Global, dirs: &[DirName], list: &WriteIdList) -> Result<Choice, NoMemory>
    requires { All IsName dirs.now }
    ensures { IfOk result (λ choice. IsChosen (sight_of list.now) dirs.now
        choice.base choice.deltas.items choice.deletes.items) }
{
    let (high, base) = best_base(list, dirs);
    Ok(Choice {
        base,
        deltas: deltas_above(alloc, dirs, list, false, high)?,
        deletes: deltas_above(alloc, dirs, list, true, high)?,
    })
}
