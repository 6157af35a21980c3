ghost use Rattle.std.specs.Prelude.{◌≡◌, ◌<◌, not, length, IfOk, OnOk};
ghost use Rattle.std.specs.List.{list_any, position_or_len};
ghost use Rattle.hv_typing.specs.Grouped.{keep_new, keys_in};
ghost use Rattle.hv_keyed.specs.Folds.{with_new, folds};

use hv_base::NoMemory;
use indexmap::IndexSet;
use std::alloc::Global;
use std::hash::Hash;

/// What rows are grouped by, and what is kept of each group: a fold over its rows.
pub trait GroupFold<R, K, A> {
    ghost key_of: { Self → R → K };

    ghost start: { Self → A };

    ghost step: { Self → A → R → A };

    fn key_of(&self, alloc: Global, row: &R) -> Result<K, NoMemory>
        ensures { IfOk result (λ key. key ≡ key_of self.now row.now) };

    fn start(&self, alloc: Global) -> Result<A, NoMemory>
        ensures { IfOk result (λ kept. kept ≡ start self.now) };

    fn step(&self, alloc: Global, kept: &mut A, row: &R) -> Result<(), NoMemory>
        ensures { OnOk result (kept.new ≡ step self.now kept.old row.now) };
}

// The number of a key among those that were met; a new one is kept with the start.
fn enter<R, K: Eq + Hash + Drop, A: Drop, G: GroupFold<R, K, A>>(
    alloc: Global,
    grouping: &G,
    keys: &mut IndexSet<K>,
    kept: &mut Vec<A>,
    key: K,
) -> Result<usize, NoMemory>
    ensures keys { OnOk result (keys.new.keys ≡ keep_new K.eq keys.old.keys key) }
    ensures kept { OnOk result (kept.new.items ≡ with_new (G.start grouping.now) (not (list_any (K.eq key) keys.old.keys)) kept.old.items) }
    ensures number { IfOk result (λ number. number ≡ position_or_len (K.eq key) keys.old.keys) }
    ensures within { IfOk result (λ number. number < length keys.new.keys) }
{
    let (number, added) = keys.insert_full(key)?;
    if added {
        kept.push(grouping.start(alloc)?)?;
    }
    Ok(number)
}

/// The number of a key among those that were met, with room for what is kept of a new one.
pub fn enter_with<K: Eq + Hash + Drop, A: Drop>(
    keys: &mut IndexSet<K>,
    kept: &mut Vec<A>,
    key: K,
    start: A,
) -> Result<usize, NoMemory>
    ensures keys { OnOk result (keys.new.keys ≡ keep_new K.eq keys.old.keys key) }
    ensures kept { OnOk result (kept.new.items ≡ with_new start (not (list_any (K.eq key) keys.old.keys)) kept.old.items) }
    ensures number { IfOk result (λ number. number ≡ position_or_len (K.eq key) keys.old.keys) }
    ensures within { IfOk result (λ number. number < length keys.new.keys) }
{
    let (number, added) = keys.insert_full(key)?;
    if added {
        kept.push(start)?;
    }
    Ok(number)
}

/// The keys in the order in which they first come, and beside each what is kept of its rows.
#[derive(Drop)]
pub struct Groups<K: Eq + Hash, A> {
    pub keys: IndexSet<K>,
    pub kept: Vec<A>,
}

pub fn fold_groups<R, K: Eq + Hash + Drop, A: Drop, G: GroupFold<R, K, A>>(
    alloc: Global,
    grouping: &G,
    rows: &[R],
) -> Result<Groups<K, A>, NoMemory>
    ensures keys { IfOk result (λ groups. groups.keys.keys ≡ keys_in K.eq (G.key_of grouping.now) rows.now) }
    ensures kept { IfOk result (λ groups. groups.kept.items ≡ folds K.eq (G.key_of grouping.now) (G.start grouping.now) (G.step grouping.now) rows.now) }
{
    let mut keys = IndexSet::new(alloc);
    let mut kept = Vec::new(alloc);
    for row in rows {
        let key = grouping.key_of(alloc, row)?;
        let number = enter(alloc, grouping, &mut keys, &mut kept, key)?;
        grouping.step(alloc, &mut kept[number], row)?;
    }
    Ok(Groups { keys, kept })
}
