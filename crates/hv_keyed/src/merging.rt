//! Groups of parts of the rows, put together.

ghost use Rattle.std.specs.Prelude.{◌≡◌, ◌++◌, ◌<◌, [], not, length, set, get_or, IfOk, OnOk};
ghost use Rattle.std.specs.List.{list_any, position_or_len, zip};
ghost use Rattle.hv_typing.specs.Grouped.{keep_new};
ghost use Rattle.hv_keyed.specs.Parts.{groups_in, put_beside, put_groups, with_value};

use crate::grouping::{GroupFold, Groups, fold_groups};
use hv_base::NoMemory;
use indexmap::IndexSet;
use std::alloc::Global;
use std::hash::Hash;

/// How what is kept of two parts of a group comes to what is kept of both.
pub trait Merging<A> {
    ghost merge: { Self → A → A → A };

    fn merge(&self, alloc: Global, kept: &mut A, other: A) -> Result<(), NoMemory>
        ensures { OnOk result (kept.new ≡ merge self.now kept.old other) };
}

// ---- the groups of a part

fn add_entry<K: Drop, A: Drop>(
    entries: &mut Vec<(K, A)>,
    key: K,
    value: Option<A>,
) -> Result<(), NoMemory>
    ensures { OnOk result (entries.new.items ≡ entries.old.items ++ with_value key value) }
{
    match value {
        None => Ok(()),
        Some(value) => {
            entries.push((key, value))?;
            Ok(())
        }
    }
}

// Each key beside what is kept of it.
fn entries_of<K: Eq + Hash + Drop, A: Drop>(
    alloc: Global,
    groups: Groups<K, A>,
) -> Result<Vec<(K, A)>, NoMemory>
    requires fits { length groups.kept.items ≡ length groups.keys.keys }
    ensures { IfOk result (λ entries. entries.items ≡ zip groups.keys.keys groups.kept.items) }
{
    let Groups { keys, kept } = groups;
    let mut left = keys;
    let mut rest = kept;
    let mut entries = Vec::new(alloc);
    while let Some(key) = left.pop() {
        add_entry(&mut entries, key, rest.pop())?;
    }
    entries.reverse();
    Ok(entries)
}

/// The keys of rows in the order in which they first come, each with what is kept of its rows.
pub fn fold_entries<R, K: Eq + Hash + Drop, A: Drop, G: GroupFold<R, K, A>>(
    alloc: Global,
    grouping: &G,
    rows: &[R],
) -> Result<Vec<(K, A)>, NoMemory>
    ensures { IfOk result (λ groups. groups.items ≡ groups_in K.eq (G.key_of grouping.now) (G.start grouping.now) (G.step grouping.now) rows.now) }
{
    let groups = fold_groups(alloc, grouping, rows)?;
    let found = entries_of(alloc, groups)?;
    Ok(found)
}

// ---- the groups of all parts

// The number of a key among those that were met, and whether it is new.
fn entered<K: Eq + Hash + Drop>(keys: &mut IndexSet<K>, key: K) -> Result<(usize, bool), NoMemory>
    ensures keys { OnOk result (keys.new.keys ≡ keep_new K.eq keys.old.keys key) }
    ensures number { IfOk result (λ entered. entered.0 ≡ position_or_len (K.eq key) keys.old.keys) }
    ensures added { IfOk result (λ entered. entered.1 ≡ not (list_any (K.eq key) keys.old.keys)) }
{
    let entered = keys.insert_full(key)?;
    Ok(entered)
}

// Puts what is kept of a key together with what is kept of it already.
fn merge_at<A: Drop, M: Merging<A>>(
    alloc: Global,
    merging: &M,
    kept: &mut Vec<A>,
    number: usize,
    value: A,
) -> Result<(), NoMemory>
    requires { number < length kept.old.items }
    ensures { OnOk result (kept.new.items ≡ set kept.old.items number (M.merge merging.now (get_or kept.old.items number value) value)) }
{
    merging.merge(alloc, &mut kept[number], value)?;
    Ok(())
}

// One group more: it goes to the one of its key, or behind all.
fn put_group<K: Eq + Hash + Drop, A: Drop, M: Merging<A>>(
    alloc: Global,
    merging: &M,
    keys: &mut IndexSet<K>,
    kept: &mut Vec<A>,
    key: K,
    value: A,
) -> Result<(), NoMemory>
    requires fits { length kept.old.items ≡ length keys.old.keys }
    ensures keys { OnOk result (keys.new.keys ≡ keep_new K.eq keys.old.keys key) }
    ensures kept { OnOk result (kept.new.items ≡ put_beside (M.merge merging.now) (not (list_any (K.eq key) keys.old.keys)) (position_or_len (K.eq key) keys.old.keys) value kept.old.items) }
{
    let (number, added) = entered(keys, key)?;
    if added {
        kept.push(value)?;
        return Ok(());
    }
    merge_at(alloc, merging, kept, number, value)
}

/// What is kept of each key, in the order in which the keys first come, by the groups of all parts,
/// one behind the other.
pub fn merged_groups<K: Eq + Hash + Drop, A: Drop, M: Merging<A>>(
    alloc: Global,
    merging: &M,
    groups: Vec<(K, A)>,
) -> Result<Vec<A>, NoMemory>
    ensures { IfOk result (λ kept. kept.items ≡ (put_groups K.eq (M.merge merging.now) ([], []) groups.items).1) }
{
    let mut keys = IndexSet::new(alloc);
    let mut kept = Vec::new(alloc);
    for (key, value) in groups {
        put_group(alloc, merging, &mut keys, &mut kept, key, value)?;
    }
    Ok(kept)
}
