ghost use Rattle.std.specs.Prelude.{IfOk};
ghost use Rattle.hv_eval.specs.Frames.{frames_values};
ghost use Rattle.hv_order.specs.First.{IsEnough};
ghost use Rattle.hv_typing.specs.Rows.{kept, shown};
ghost use Rattle.hv_exec.specs.Tables.{select_rows};

use crate::distinct::once;
use crate::groups::grouped_rows;
use crate::items::{filtered, item_rows};
use hv_base::NoMemory;
use hv_eval::Frame;
use hv_expr::TypedExpr;
use hv_order::Front;
use hv_typing::{Grouping, TypedSelect};
use hv_value::Row;
use std::alloc::Global;

fn shown<'a>(
    alloc: Global,
    items: &'a [TypedExpr],
    groups: &'a Option<Grouping>,
    frames: Vec<Frame<'a>>,
    front: Option<Front<'a>>,
) -> Result<Vec<Row>, NoMemory>
    ensures { IfOk result (λ rows. IsEnough front.entry rows.items (shown items.now groups.now (frames_values frames.entry.items))) }
{
    match groups {
        None => item_rows(alloc, &*items, frames.as_slice(), front),
        Some(grouping) => grouped_rows(alloc, &*items, &*grouping, frames.as_slice(), front),
    }
}

/// What a select makes of the rows of its FROM on which WHERE is true, as far as it is wanted.
pub(crate) fn rows_over<'a>(
    alloc: Global,
    select: &'a TypedSelect,
    met: Vec<Frame<'a>>,
    front: Option<Front<'a>>,
) -> Result<Vec<Row>, NoMemory>
    ensures { IfOk result (λ rows. IsEnough front.entry rows.items (kept select.now.distinct (shown select.now.items select.now.groups (frames_values met.entry.items)))) }
{
    let items = select.items.as_slice();
    if select.distinct {
        let rows = shown(alloc, items, &select.groups, met, None)?;
        return once(alloc, rows);
    }
    shown(alloc, items, &select.groups, met, front)
}

/// What a select makes of the rows of its FROM, as far as it is wanted.
#[tactic(auto, unfolding(crate::specs::Tables::select_rows))]
pub(crate) fn select_rows<'a>(
    alloc: Global,
    select: &'a TypedSelect,
    frames: Vec<Frame<'a>>,
    front: Option<Front<'a>>,
) -> Result<Vec<Row>, NoMemory>
    ensures { IfOk result (λ rows. IsEnough front.entry rows.items (select_rows select.now (frames_values frames.entry.items))) }
{
    let met = filtered(alloc, &select.filter, frames)?;
    rows_over(alloc, select, met, front)
}
