ghost use Rattle.std.specs.Prelude.{◌≡◌, ◌++◌, ◌∷◌, [], List, Option, map, filter, flat_map, IfOk, OnOk};
ghost use Rattle.hv_expr.specs.declared.tree.TypedExpr.{TypedExpr as Expr};
ghost use Rattle.hv_value.specs.declared.row.Row.{Row as RowOf};
ghost use Rattle.hv_order.specs.First.{IsEnough, IsSound};
ghost use Rattle.hv_keyed.specs.Folds.{added};
ghost use Rattle.hv_typing.specs.Grouped.{groups};
ghost use Rattle.hv_typing.specs.Rows.{key_of, is_met_over, group_row, grouped, same_row};
ghost use Rattle.hv_eval.specs.Frames.{frame_values, frames_values};
ghost use Rattle.hv_partial.specs.Lifts.{IsLifted};
ghost use Rattle.hv_partial.specs.Kept.{rows_shown, shown_by};

use hv_base::{Boxed, NoMemory};
use hv_eval::{Frame, Scope, is_true_at};
use hv_expr::TypedExpr;
use hv_keyed::{Chain, GroupFold, Groups, fold_groups};
use hv_order::{Front, Kept};
use hv_partial::{Lifted, SeenKey, Summed, item_values, lift, seen_key, shown_of, summed_by};
use hv_typing::Grouping;
use hv_value::{Row, Value};
use std::alloc::Global;

// The keys of GROUP BY.
#[derive(Drop)]
struct ByKeys<'a> {
    first: &'a TypedExpr,
    more: &'a [TypedExpr],
}

impl<'a> GroupFold<Frame<'a>, SeenKey<'a>, Chain<Frame<'a>>> for ByKeys<'a> {
    ghost key_of = { λ by frame. key_of (by.first.now ∷ by.more.now) (frame_values frame) };

    ghost start = { λ by. [] };

    ghost step = { λ by. added };

    fn key_of(&self, alloc: Global, row: &Frame<'a>) -> Result<SeenKey<'a>, NoMemory>
        ensures { IfOk result (λ key. key ≡ key_of (self.now.first.now ∷ self.now.more.now) (frame_values row.now)) }
    {
        seen_key(alloc, self.first, self.more, row)
    }

    fn start(&self, alloc: Global) -> Result<Chain<Frame<'a>>, NoMemory>
        ensures { IfOk result (λ kept. kept ≡ []) }
    {
        Ok(Chain::new(alloc))
    }

    fn step(
        &self,
        _alloc: Global,
        kept: &mut Chain<Frame<'a>>,
        row: &Frame<'a>,
    ) -> Result<(), NoMemory>
        ensures { OnOk result (kept.new ≡ kept.old ++ row.now ∷ []) }
    {
        kept.push(*row)
    }
}

// Whether HAVING holds over a group.
fn is_met_over<'a>(
    alloc: Global,
    having: &'a Option<Boxed<TypedExpr>>,
    group: &'a [Frame<'a>],
) -> Result<bool, NoMemory>
    ensures { IfOk result (λ met. met ≡ is_met_over having.now (frames_values group.now)) }
{
    match having {
        None => Ok(true),
        Some(condition) => is_true_at(alloc, condition.get(), &Scope::over(group)),
    }
}

fn group_row<'a>(
    alloc: Global,
    items: &'a [TypedExpr],
    group: &'a [Frame<'a>],
) -> Result<Row, NoMemory>
    ensures { IfOk result (λ row. row ≡ group_row items.now (frames_values group.now)) }
{
    Ok(Row {
        values: item_values(alloc, items, &Scope::over(group))?,
    })
}

// The row of one group more, if HAVING holds.
fn add_group<'a>(
    alloc: Global,
    items: &'a [TypedExpr],
    having: &'a Option<Boxed<TypedExpr>>,
    group: &'a [Frame<'a>],
    front: Option<Front<'a>>,
    kept: &mut Kept,
) -> Result<(), NoMemory>
    requires sound { IsSound front kept.old }
    ensures enough { (all : List RowOf) → IsEnough front.entry kept.old.rows.items all → OnOk result (IsEnough front.entry kept.new.rows.items (all ++ map (group_row items.now) (filter (is_met_over having.now) (frames_values group.now ∷ [])))) }
    ensures sound { OnOk result (IsSound front.entry kept.new) }
{
    if is_met_over(alloc, having, group)? {
        let row = group_row(alloc, items, group)?;
        return kept.push(front, row);
    }
    Ok(())
}

// The rows of groups.
fn group_rows<'a>(
    alloc: Global,
    items: &'a [TypedExpr],
    having: &'a Option<Boxed<TypedExpr>>,
    groups: Vec<Chain<Frame<'a>>>,
    front: Option<Front<'a>>,
) -> Result<Vec<Row>, NoMemory>
    ensures { IfOk result (λ rows. IsEnough front.entry rows.items (map (group_row items.now) (filter (is_met_over having.now) (map frames_values groups.entry.items)))) }
{
    let mut kept = Kept::with_room(alloc, 0)?;
    for group in groups.as_slice() {
        add_group(alloc, &*items, &*having, group.as_slice(), front, &mut kept)?;
    }
    let Kept { rows, .. } = kept;
    Ok(rows)
}

// The rows of each key.
#[tactic(auto, using(crate::proofs::Grouped::chains_are_groups))]
fn chains_by<'a>(
    alloc: Global,
    first: &'a TypedExpr,
    more: &'a [TypedExpr],
    frames: &'a [Frame<'a>],
) -> Result<Vec<Chain<Frame<'a>>>, NoMemory>
    ensures { IfOk result (λ chains. map frames_values chains.items ≡ groups same_row (key_of (first.now ∷ more.now)) (frames_values frames.now)) }
{
    let groups = fold_groups(alloc, &ByKeys { first, more }, frames)?;
    let Groups { kept, .. } = groups;
    Ok(kept)
}

// The items over each group of which the rows themselves are kept.
fn chained_rows<'a>(
    alloc: Global,
    items: &'a [TypedExpr],
    first: &'a TypedExpr,
    more: &'a [TypedExpr],
    having: &'a Option<Boxed<TypedExpr>>,
    frames: &'a [Frame<'a>],
    front: Option<Front<'a>>,
) -> Result<Vec<Row>, NoMemory>
    ensures { IfOk result (λ rows. IsEnough front.entry rows.items (map (group_row items.now) (filter (is_met_over having.now) (groups same_row (key_of (first.now ∷ more.now)) (frames_values frames.now))))) }
{
    let chains = chains_by(alloc, first, more, frames)?;
    group_rows(alloc, items, having, chains, front)
}

// ---- groups of which sums are kept

// The row of one group more, if HAVING holds.
fn add_summed<'a>(
    alloc: Global,
    lifted: &Lifted,
    group: &Summed,
    front: Option<Front<'a>>,
    values: &mut Vec<Value>,
    kept: &mut Kept,
) -> Result<(), NoMemory>
    requires sound { IsSound front kept.old }
    ensures enough { (all : List RowOf) → IsEnough front.entry kept.old.rows.items all → OnOk result (IsEnough front.entry kept.new.rows.items (all ++ rows_shown (shown_by lifted.now group.now))) }
    ensures sound { OnOk result (IsSound front.entry kept.new) }
{
    match shown_of(alloc, lifted, group, values)? {
        None => Ok(()),
        Some(values) => kept.push(front, Row { values }),
    }
}

/// The rows of groups of which sums are kept.
pub fn rows_shown<'a>(
    alloc: Global,
    lifted: &Lifted,
    groups: &[Summed],
    front: Option<Front<'a>>,
) -> Result<Vec<Row>, NoMemory>
    ensures { IfOk result (λ rows. IsEnough front.entry rows.items (flat_map (λ group. rows_shown (shown_by lifted.now group)) groups.now)) }
{
    let mut kept = Kept::with_room(alloc, 0)?;
    let mut values = Vec::new(alloc);
    for group in groups {
        add_summed(alloc, &*lifted, group, front, &mut values, &mut kept)?;
    }
    let Kept { rows, .. } = kept;
    Ok(rows)
}

fn summed_rows<'a>(
    alloc: Global,
    lifted: &'a Lifted,
    first: &'a TypedExpr,
    more: &'a [TypedExpr],
    frames: &[Frame<'a>],
    front: Option<Front<'a>>,
) -> Result<Vec<Row>, NoMemory>
    ensures { (items : List Expr) (having : Option Expr) → IsLifted items having lifted.now → IfOk result (λ rows. IsEnough front.entry rows.items (map (group_row items) (filter (is_met_over having) (groups same_row (key_of (first.now ∷ more.now)) (frames_values frames.now))))) }
{
    let sums = lifted.sums.as_slice();
    let groups = summed_by(alloc, first, more, sums, frames)?;
    let all = groups.as_slice();
    rows_shown(alloc, &*lifted, all, front)
}

// The items over each group by keys.
fn rows_by<'a>(
    alloc: Global,
    items: &'a [TypedExpr],
    first: &'a TypedExpr,
    more: &'a [TypedExpr],
    having: &'a Option<Boxed<TypedExpr>>,
    frames: &'a [Frame<'a>],
    front: Option<Front<'a>>,
) -> Result<Vec<Row>, NoMemory>
    ensures { IfOk result (λ rows. IsEnough front.entry rows.items (map (group_row items.now) (filter (is_met_over having.now) (groups same_row (key_of (first.now ∷ more.now)) (frames_values frames.now))))) }
{
    match lift(alloc, items, having)? {
        None => chained_rows(alloc, items, first, more, having, frames, front),
        Some(lifted) => summed_rows(alloc, &lifted, &*first, &*more, &*frames, front),
    }
}

// The items over all rows as one group.
fn rows_of_all<'a>(
    alloc: Global,
    items: &'a [TypedExpr],
    having: &'a Option<Boxed<TypedExpr>>,
    frames: &'a [Frame<'a>],
    front: Option<Front<'a>>,
) -> Result<Vec<Row>, NoMemory>
    ensures { IfOk result (λ rows. IsEnough front.entry rows.items (map (group_row items.now) (filter (is_met_over having.now) (frames_values frames.now ∷ [])))) }
{
    let mut kept = Kept::with_room(alloc, 1)?;
    add_group(alloc, items, having, frames, front, &mut kept)?;
    let Kept { rows, .. } = kept;
    Ok(rows)
}

/// The items over each group for which HAVING holds, as far as they are wanted. All rows as one group stand as they are.
pub fn grouped_rows<'a>(
    alloc: Global,
    items: &'a [TypedExpr],
    grouping: &'a Grouping,
    frames: &'a [Frame<'a>],
    front: Option<Front<'a>>,
) -> Result<Vec<Row>, NoMemory>
    ensures { IfOk result (λ rows. IsEnough front.entry rows.items (map (group_row items.now) (filter (is_met_over grouping.now.having) (grouped grouping.now.keys (frames_values frames.now))))) }
{
    let having = &grouping.having;
    match grouping.keys.as_slice() {
        [] => rows_of_all(alloc, items, having, frames, front),
        [first, more @ ..] => rows_by(alloc, items, first, more, having, frames, front),
    }
}
