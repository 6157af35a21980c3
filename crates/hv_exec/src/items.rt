ghost use Rattle.std.specs.Prelude.{◌≡◌, ◌++◌, ◌∷◌, [], List, map, filter, IfOk, OnOk, if◌then◌else◌};
ghost use Rattle.hv_expr.specs.declared.tree.TypedExpr.{TypedExpr as Expr};
ghost use Rattle.hv_value.specs.declared.row.Row.{Row as RowOf};
ghost use Rattle.hv_order.specs.First.{IsEnough, IsSound};
ghost use Rattle.hv_typing.specs.Rows.{is_met, item_row};
ghost use Rattle.hv_eval.specs.Frames.{frame_values, frames_values};

use crate::wanted::is_needless;
use hv_base::{Boxed, NoMemory};
use hv_eval::{Frame, Scope};
use hv_expr::TypedExpr;
use hv_joins::is_met;
use hv_order::{Front, Kept};
use hv_partial::item_values;
use hv_value::Row;
use std::alloc::Global;

fn keep_if<'a>(kept: &mut Vec<Frame<'a>>, frame: Frame<'a>, keeps: bool) -> Result<(), NoMemory>
    ensures { OnOk result (kept.new.items ≡ kept.old.items ++ (if keeps then frame.entry ∷ [] else [])) }
{
    if keeps {
        kept.push(frame)?;
    }
    Ok(())
}

/// The rows on which a condition is true.
pub fn filtered<'a>(
    alloc: Global,
    condition: &'a Option<Boxed<TypedExpr>>,
    frames: Vec<Frame<'a>>,
) -> Result<Vec<Frame<'a>>, NoMemory>
    ensures { IfOk result (λ kept. frames_values kept.items ≡ filter (is_met condition.now) (frames_values frames.entry.items)) }
{
    if condition.is_none() {
        return Ok(frames);
    }
    let mut kept = Vec::new(alloc);
    for frame in frames.as_slice() {
        let keeps = is_met(alloc, condition, frame)?;
        keep_if(&mut kept, *frame, keeps)?;
    }
    Ok(kept)
}

#[tactic(auto, unfolding(hv_expr::specs::Evaluation::value_of))]
fn item_row<'a>(alloc: Global, items: &'a [TypedExpr], frame: &Frame<'a>) -> Result<Row, NoMemory>
    ensures { IfOk result (λ row. row ≡ item_row items.now (frame_values frame.now)) }
{
    Ok(Row {
        values: item_values(alloc, items, &Scope::alone(*frame))?,
    })
}

// The items on one row more. A row that is seen not to be wanted isn't made.
fn add_row<'a>(
    alloc: Global,
    items: &'a [TypedExpr],
    frame: &Frame<'a>,
    front: Option<Front<'a>>,
    kept: &mut Kept,
) -> Result<(), NoMemory>
    requires sound { IsSound front kept.old }
    ensures enough { (all : List RowOf) → IsEnough front.entry kept.old.rows.items all → OnOk result (IsEnough front.entry kept.new.rows.items (all ++ item_row items.now (frame_values frame.now) ∷ [])) }
    ensures sound { OnOk result (IsSound front.entry kept.new) }
{
    if is_needless(items, frame, front, kept) {
        return Ok(());
    }
    let row = item_row(alloc, items, frame)?;
    kept.push(front, row)
}

/// The items on each row by itself, as far as they are wanted.
pub fn item_rows<'a>(
    alloc: Global,
    items: &'a [TypedExpr],
    frames: &'a [Frame<'a>],
    front: Option<Front<'a>>,
) -> Result<Vec<Row>, NoMemory>
    ensures { IfOk result (λ rows. IsEnough front.entry rows.items (map (item_row items.now) (frames_values frames.now))) }
{
    let room = if front.is_none() { frames.len() } else { 0 };
    let mut kept = Kept::with_room(alloc, room)?;
    for frame in frames {
        add_row(alloc, items, frame, front, &mut kept)?;
    }
    let Kept { rows, .. } = kept;
    Ok(rows)
}
