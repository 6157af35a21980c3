ghost use Rattle.std.specs.Prelude.{◌≡◌, ◌++◌, [], ◌∷◌, map, option_map, IfOk, OnOk};
ghost use Rattle.hv_typing.specs.Grouped.{groups};
ghost use Rattle.hv_typing.specs.Rows.{key_of, same_row};
ghost use Rattle.hv_seen.specs.Seen.{seen_value};
ghost use Rattle.hv_eval.specs.Frames.{frame_values, frames_values};
ghost use Rattle.hv_partial.specs.Sums.{sums_over};
ghost use Rattle.hv_partial.specs.Kept.{each_more, first_or, summed, summed_more};
ghost use Rattle.hv_partial.specs.Merged.{each_merged, or_first, summed_merged};

use crate::key::{SeenKey, seen_key};
use crate::sum::Sum;
use hv_base::NoMemory;
use hv_eval::Frame;
use hv_expr::TypedExpr;
use hv_keyed::{GroupFold, Groups, fold_groups};
use hv_seen::{Seen, owned};
use hv_value::Value;
use std::alloc::Global;
use std::marker::Model;

/// A group of which its first row and its sums are kept. Contracts see both by their values.
#[derive(Drop)]
pub struct Summed<'a> {
    first: Option<Frame<'a>>,
    sums: Vec<Seen<'a>>,
}

impl<'a> Model for Summed<'a> {
    ghost use Rattle.std.specs.Prelude.{List, Option, map, option_map};
    ghost use Rattle.std.specs.Coded.{coded×, coded_list, coded_option};
    ghost use Rattle.hv_value.specs.declared.value.Value.{Value as ValueOf};
    ghost use Rattle.hv_value.specs.contracts.value.Value as value;
    ghost use Rattle.hv_seen.specs.Seen.{seen_value};
    ghost use Rattle.hv_eval.specs.Frames.{frame_values};

    ghost Value = { Option (List ValueOf) × List ValueOf };

    ghost coded = { coded× (coded_option (coded_list value.the_row.coded)) (coded_list value.the_row.coded) };

    ghost view = { λ kept. (option_map frame_values kept.first, map seen_value kept.sums.items) };
}

// The sums over no rows.
fn begun<'a>(alloc: Global, sums: &[Sum]) -> Result<Vec<Seen<'a>>, NoMemory>
    ensures { IfOk result (λ kept. map seen_value kept.items ≡ sums_over sums.now []) }
{
    let mut kept = Vec::with_capacity(alloc, sums.len())?;
    for sum in sums {
        kept.push(sum.begin())?;
    }
    Ok(kept)
}

// Each sum with one row more.
fn each_more<'a>(
    alloc: Global,
    sums: &'a [Sum],
    kept: &mut Vec<Seen<'a>>,
    row: &Frame<'a>,
) -> Result<(), NoMemory>
    ensures { OnOk result (map seen_value kept.new.items ≡ each_more sums.now (map seen_value kept.old.items) (frame_values row.now)) }
{
    let count = sums.len().min(kept.len());
    for place in 0..count {
        let next = sums[place].more(alloc, &kept[place], row)?;
        kept[place] = next;
    }
    Ok(())
}

// The first row, with one row more.
fn first_or<'a>(first: &Option<Frame<'a>>, row: &Frame<'a>) -> Frame<'a>
    ensures { frame_values result ≡ first_or (option_map frame_values first.now) (frame_values row.now) }
{
    match first {
        None => *row,
        Some(first) => *first,
    }
}

impl<'a> Summed<'a> {
    /// A group of no rows.
    pub(crate) fn new(alloc: Global, sums: &'a [Sum]) -> Result<Summed<'a>, NoMemory>
        ensures { IfOk result (λ kept. kept ≡ summed sums.now []) }
    {
        let sums = begun(alloc, sums)?;
        Ok(Summed { first: None, sums })
    }

    /// The group with one row more.
    #[tactic(auto, unfolding(crate::specs::Kept::summed_more))]
    pub(crate) fn add(
        &mut self,
        alloc: Global,
        sums: &'a [Sum],
        row: &Frame<'a>,
    ) -> Result<(), NoMemory>
        ensures { OnOk result (self.new ≡ summed_more sums.now self.old (frame_values row.now)) }
    {
        each_more(alloc, sums, &mut self.sums, row)?;
        self.first = Some(first_or(&self.first, row));
        Ok(())
    }
}

// ---- the rows of two groups

// The sums of both.
fn add_merged<'a>(
    sums: &[Sum],
    kept: &[Seen<'a>],
    others: &[Seen<'a>],
    made: &mut Vec<Seen<'a>>,
) -> Result<(), NoMemory>
    ensures { OnOk result (map seen_value made.new.items ≡ map seen_value made.old.items ++ each_merged sums.now (map seen_value kept.now) (map seen_value others.now)) }
{
    let [sum, sums @ ..] = sums else {
        return Ok(());
    };
    let [one, kept @ ..] = kept else {
        return Ok(());
    };
    let [other, others @ ..] = others else {
        return Ok(());
    };
    made.push(sum.both(one, other))?;
    add_merged(sums, kept, others, made)
}

// The first row of both.
fn first_of<'a>(first: &Option<Frame<'a>>, later: &Option<Frame<'a>>) -> Option<Frame<'a>>
    ensures { option_map frame_values result ≡ or_first (option_map frame_values first.now) (option_map frame_values later.now) }
{
    match first {
        None => *later,
        Some(first) => Some(*first),
    }
}

impl<'a> Summed<'a> {
    /// The group with the rows of another behind its own.
    #[tactic(auto, unfolding(crate::specs::Merged::summed_merged))]
    pub(crate) fn merge(
        &mut self,
        alloc: Global,
        sums: &[Sum],
        other: &Summed<'a>,
    ) -> Result<(), NoMemory>
        ensures { OnOk result (self.new ≡ summed_merged sums.now self.old other.now) }
    {
        let mut merged = Vec::with_capacity(alloc, sums.len())?;
        add_merged(
            sums,
            self.sums.as_slice(),
            other.sums.as_slice(),
            &mut merged,
        )?;
        self.sums = merged;
        self.first = first_of(&self.first, &other.first);
        Ok(())
    }
}

// ---- the sums as values

// Puts the values of sums in place of what was there.
fn put_values(alloc: Global, sums: &[Seen], values: &mut Vec<Value>) -> Result<(), NoMemory>
    ensures { OnOk result (values.new.items ≡ map seen_value sums.now) }
{
    values.clear();
    for sum in sums {
        values.push(owned(alloc, sum)?)?;
    }
    Ok(())
}

impl<'a> Summed<'a> {
    /// Puts the sums, as values, in place of what was there.
    pub(crate) fn put_values(&self, alloc: Global, values: &mut Vec<Value>) -> Result<(), NoMemory>
        ensures { OnOk result (values.new.items ≡ self.now.1) }
    {
        put_values(alloc, self.sums.as_slice(), values)
    }

    /// The first row. Of no rows there is none.
    pub(crate) fn first_row(&self) -> Option<Frame<'a>>
        ensures { option_map frame_values result ≡ self.now.0 }
    {
        self.first
    }
}

/// The keys of GROUP BY, and what is kept of each group.
#[derive(Drop)]
pub(crate) struct Summing<'a> {
    pub first: &'a TypedExpr,
    pub more: &'a [TypedExpr],
    pub sums: &'a [Sum],
}

impl<'a> GroupFold<Frame<'a>, SeenKey<'a>, Summed<'a>> for Summing<'a> {
    ghost key_of = { λ by frame. key_of (by.first.now ∷ by.more.now) (frame_values frame) };

    ghost start = { λ by. summed by.sums.now [] };

    ghost step = { λ by kept frame. summed_more by.sums.now kept (frame_values frame) };

    fn key_of(&self, alloc: Global, row: &Frame<'a>) -> Result<SeenKey<'a>, NoMemory>
        ensures { IfOk result (λ key. key ≡ key_of (self.now.first.now ∷ self.now.more.now) (frame_values row.now)) }
    {
        seen_key(alloc, self.first, self.more, row)
    }

    fn start(&self, alloc: Global) -> Result<Summed<'a>, NoMemory>
        ensures { IfOk result (λ kept. kept ≡ summed self.now.sums.now []) }
    {
        Summed::new(alloc, self.sums)
    }

    fn step(&self, alloc: Global, kept: &mut Summed<'a>, row: &Frame<'a>) -> Result<(), NoMemory>
        ensures { OnOk result (kept.new ≡ summed_more self.now.sums.now kept.old (frame_values row.now)) }
    {
        kept.add(alloc, self.sums, row)
    }
}

/// The groups by keys, in the order in which these first come.
pub fn summed_by<'a>(
    alloc: Global,
    first: &'a TypedExpr,
    more: &'a [TypedExpr],
    sums: &'a [Sum],
    rows: &[Frame<'a>],
) -> Result<Vec<Summed<'a>>, NoMemory>
    ensures { IfOk result (λ kept. kept.items ≡ map (summed sums.now) (groups same_row (key_of (first.now ∷ more.now)) (frames_values rows.now))) }
{
    let groups = fold_groups(alloc, &Summing { first, more, sums }, rows)?;
    let Groups { kept, .. } = groups;
    Ok(kept)
}
