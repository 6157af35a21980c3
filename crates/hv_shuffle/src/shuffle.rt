ghost use Rattle.std.specs.Prelude.{◌≡◌, ◌≤◌, List as ListOf, [], ◌∷◌, ◌++◌, IfOk, OnOk, All, fold};
ghost use Rattle.std.specs.List.{AllZip, flat_map};
ghost use Rattle.std.specs.List.Sorted.{IsSortedBy, IsStableBy};
ghost use Rattle.std.specs.Borrow.{Bor};
ghost use Rattle.hv_shuffle.specs.Parts.{IsPartOf};
ghost use Rattle.hv_shuffle.specs.Shuffled.{IsShuffled, before, grouped, keyed};
ghost use Rattle.hv_shuffle.specs.Calls.{IsFixed, IsMade, MapsTo, ReducesTo, TakesAt, JoinsTo, StandsSorted};

use crate::parts::by_parts;
use hv_base::{List, NoMemory};
use std::alloc::Global;
use std::cmp::{Ord, Ordering};
use std::thread::Threads;

/// Maps each input to pairs of a key and a value, and reduces each distinct key with its values: the
/// answers stand in the rising order of the keys, and a key's values in the order of the inputs. Each
/// step is done by at most `workers` workers, and the answers are the same for any number of them.
pub fn map_shuffle_reduce<
    R: Threads + Sync,
    T: Sync,
    K: Ord + Send + Sync + Drop,
    V: Send + Sync + Drop,
    O: Send + Drop,
    M: Fn(&T) -> Result<Vec<(K, V)>, NoMemory> + Sync,
    F: Fn(&K, &[V]) -> Result<O, NoMemory> + Sync,
>(
    rt: &R,
    inputs: &[T],
    mapper: &M,
    reducer: &F,
    workers: usize,
    alloc: Global,
) -> Result<Vec<O>, NoMemory>
    requires workers { 1 ≤ workers }
    requires maps { All (TakesAt M.Fn mapper.now) inputs.now }
    requires reduces { F.IsAlwaysCallable reducer.now }
    ensures list { IfOk result (λ answers. IsShuffled (MapsTo M.Fn mapper.now) (ReducesTo F.Fn reducer.now) K.cmp inputs.now answers.items) }

    // No other list is shuffled, where the answer of a call is fixed.
    ensures one { IfOk result (λ answers. IsFixed (MapsTo M.Fn mapper.now) → IsFixed (ReducesTo F.Fn reducer.now) → (other : ListOf O) → IsShuffled (MapsTo M.Fn mapper.now) (ReducesTo F.Fn reducer.now) K.cmp inputs.now other → answers.items ≡ other) }
{
    let groups = shuffled(rt, alloc, inputs, mapper, workers)?;
    let reduced = |part: &[(K, List<V>)]| -> Result<Vec<O>, NoMemory>
        requires { F.IsAlwaysCallable reducer.now }
        ensures { IfOk result (λ answers. AllZip (ReducesTo F.Fn reducer.entry.now) part.now answers.items) }
    { reduced_part(alloc, part, reducer) };
    let answers = by_parts(rt, alloc, groups.as_slice(), workers, &reduced)?;
    joined(alloc, answers)
}

// The keys with their values, of all inputs.
fn shuffled<
    R: Threads + Sync,
    T: Sync,
    K: Ord + Send + Sync + Drop,
    V: Send + Sync + Drop,
    M: Fn(&T) -> Result<Vec<(K, V)>, NoMemory> + Sync,
>(
    rt: &R,
    alloc: Global,
    inputs: &[T],
    mapper: &M,
    workers: usize,
) -> Result<Vec<(K, List<V>)>, NoMemory>
    requires workers { 1 ≤ workers }
    requires maps { All (TakesAt M.Fn mapper.now) inputs.now }
    ensures { IfOk result (λ groups. (found : ListOf (ListOf (K × V))) × AllZip (MapsTo M.Fn mapper.now) inputs.now found × (groups.items ≡ keyed K.cmp (flat_map (λ pairs. pairs) found))) }
{
    let mapped = |part: &[T]| -> Result<Vec<(K, V)>, NoMemory>
        requires { All (TakesAt M.Fn mapper.now) part.now }
        ensures { IfOk result (λ pairs. StandsSorted (MapsTo M.Fn mapper.entry.now) K.cmp part.now pairs.items) }
    { mapped_part(alloc, part, mapper) };
    let found = by_parts(rt, alloc, inputs, workers, &mapped)?;
    let pairs = joined(alloc, found)?;
    gathered(alloc, pairs)
}

// What the mapper finds at a part of the inputs, sorted by key.
fn mapped_part<T, K: Ord + Drop, V: Drop, M: Fn(&T) -> Result<Vec<(K, V)>, NoMemory>>(
    alloc: Global,
    part: &[T],
    mapper: &M,
) -> Result<Vec<(K, V)>, NoMemory>
    requires { All (TakesAt M.Fn mapper.now) part.now }
    ensures { IfOk result (λ pairs. StandsSorted (MapsTo M.Fn mapper.now) K.cmp part.now pairs.items) }
{
    let mut pairs = Vec::new(alloc);
    for input in part {
        let mut found = pairs_at(mapper, input)?;
        pairs.append(&mut found)?;
    }
    sort_pairs(&mut pairs)?;
    Ok(pairs)
}

// What the reducer answers at a part of the keys.
fn reduced_part<K, V, O: Drop, F: Fn(&K, &[V]) -> Result<O, NoMemory>>(
    alloc: Global,
    part: &[(K, List<V>)],
    reducer: &F,
) -> Result<Vec<O>, NoMemory>
    requires { F.IsAlwaysCallable reducer.now }
    ensures { IfOk result (λ answers. AllZip (ReducesTo F.Fn reducer.now) part.now answers.items) }
{
    let mut answers = Vec::with_capacity(alloc, part.len())?;
    for (key, values) in part {
        answers.push(answer_at(reducer, key, values.as_slice())?)?;
    }
    Ok(answers)
}

fn pairs_at<T, P, M: Fn(&T) -> Result<Vec<P>, NoMemory>>(
    mapper: &M,
    input: &T,
) -> Result<Vec<P>, NoMemory>
    requires { TakesAt M.Fn mapper.now input.now }
    ensures { IfOk result (λ pairs. MapsTo M.Fn mapper.now input.now pairs.items) }
{
    mapper(input)
}

fn answer_at<K, V, O, F: Fn(&K, &[V]) -> Result<O, NoMemory>>(
    reducer: &F,
    key: &K,
    values: &[V],
) -> Result<O, NoMemory>
    requires { F.IsAlwaysCallable reducer.now }
    ensures { IfOk result (λ answer. ReducesTo F.Fn reducer.now (key.now, values.now) answer) }
{
    reducer(key, values)
}

// Sorts pairs by their keys, pairs of one key in their order.
fn sort_pairs<K: Ord, V>(pairs: &mut Vec<(K, V)>) -> Result<(), NoMemory>
    ensures { OnOk result (IsSortedBy (before K.cmp) pairs.new.items × IsStableBy (before K.cmp) pairs.old.items pairs.new.items) }
{
    pairs.sort_by(
        |left: &(K, V), right: &(K, V)| -> Ordering
            ensures { result ≡ K.cmp left.now.0 right.now.0 }
        { left.0.cmp(&right.0) },
    )?;
    Ok(())
}

// The keys with their values, of pairs of which those of one key stand in order.
fn gathered<K: Ord + Drop, V: Drop>(
    alloc: Global,
    mut pairs: Vec<(K, V)>,
) -> Result<Vec<(K, List<V>)>, NoMemory>
    ensures { IfOk result (λ groups. (found : ListOf (K × V)) → IsStableBy (before K.cmp) found pairs.items → groups.items ≡ keyed K.cmp found) }
{
    sort_pairs(&mut pairs)?;
    groups_of(alloc, pairs)
}

// Pairs that stand in the order of their keys, as keys with their values.
fn groups_of<K: Ord + Drop, V: Drop>(
    alloc: Global,
    pairs: Vec<(K, V)>,
) -> Result<Vec<(K, List<V>)>, NoMemory>
    ensures { IfOk result (λ groups. groups.items ≡ fold (grouped K.cmp) [] pairs.items) }
{
    let mut groups = Vec::new(alloc);
    for (key, value) in pairs {
        put_behind(alloc, &mut groups, key, value)?;
    }
    Ok(groups)
}

// Puts a value into the last group if that has its key, else into a group of its own.
fn put_behind<K: Ord + Drop, V: Drop>(
    alloc: Global,
    groups: &mut Vec<(K, List<V>)>,
    key: K,
    value: V,
) -> Result<(), NoMemory>
    ensures { OnOk result (groups.new.items ≡ grouped K.cmp groups.old.items (key, value)) }
{
    match groups.pop() {
        None => start_group(alloc, groups, key, value),
        Some((last, held)) => put_after(alloc, groups, last, held, key, value),
    }
}

// The same, where the last group is at hand.
fn put_after<K: Ord + Drop, V: Drop>(
    alloc: Global,
    groups: &mut Vec<(K, List<V>)>,
    last: K,
    held: List<V>,
    key: K,
    value: V,
) -> Result<(), NoMemory>
    ensures { OnOk result (groups.new.items ≡ grouped K.cmp (groups.old.items ++ (last, held) ∷ []) (key, value)) }
{
    let same = key.cmp(&last).is_eq();
    if same {
        return put_in(groups, last, held, value);
    }
    groups.push((last, held))?;
    start_group(alloc, groups, key, value)
}

fn put_in<K: Drop, V: Drop>(
    groups: &mut Vec<(K, List<V>)>,
    key: K,
    held: List<V>,
    value: V,
) -> Result<(), NoMemory>
    ensures { OnOk result (groups.new.items ≡ groups.old.items ++ (key, held ++ value ∷ []) ∷ []) }
{
    let mut values = held.into_vec();
    values.push(value)?;
    groups.push((key, List::from_vec(values)))?;
    Ok(())
}

fn start_group<K: Drop, V: Drop>(
    alloc: Global,
    groups: &mut Vec<(K, List<V>)>,
    key: K,
    value: V,
) -> Result<(), NoMemory>
    ensures { OnOk result (groups.new.items ≡ groups.old.items ++ (key, value ∷ []) ∷ []) }
{
    let mut values = Vec::new(alloc);
    values.push(value)?;
    groups.push((key, List::from_vec(values)))?;
    Ok(())
}

/// The lists of all answers, one behind the other: what the calls of `by_parts` or `by_ranges` made,
/// put together.
pub fn joined<X: Drop>(
    alloc: Global,
    answers: Vec<Result<Vec<X>, NoMemory>>,
) -> Result<Vec<X>, NoMemory>
    ensures { IfOk result (λ all. JoinsTo answers.items all.items) }
{
    let mut all = Vec::new(alloc);
    for answer in answers {
        let mut list = answer?;
        all.append(&mut list)?;
    }
    Ok(all)
}

/// What the calls of `by_parts` or `by_ranges` made, where each made it.
pub fn unwrapped<X: Drop>(
    alloc: Global,
    answers: Vec<Result<X, NoMemory>>,
) -> Result<Vec<X>, NoMemory>
    ensures { IfOk result (λ all. AllZip IsMade answers.items all.items) }
{
    let mut all = Vec::new(alloc);
    for answer in answers {
        let made = answer?;
        all.push(made)?;
    }
    Ok(all)
}
