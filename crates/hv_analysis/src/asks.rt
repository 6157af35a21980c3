//! ALTER TABLE COMPACT.

ghost use Rattle.std.specs.Prelude.{◌≡◌, Some};
ghost use Rattle.hv_typing.specs.Faults.{Types};
ghost use Rattle.hv_typing.specs.Asks.{asked, asked_as};

use crate::creates::place_of;
use hv_ast::Compact;
use hv_base::{Duplicate, Refusal};
use hv_changes::list_typed;
use hv_logic::TableInfo;
use hv_typing::{Logic, TypeFault, TypedAsk};
use std::alloc::Global;

const NO_TABLE: TypeFault = TypeFault::Refused(Refusal::NoTable);

fn asked_as(alloc: Global, compact: &Compact, info: &TableInfo) -> Result<Logic, TypeFault>
    ensures { Types result (asked_as compact.now (Some info.now)) }
{
    let parts = info.shape.parts.as_slice();
    let values = list_typed(alloc, parts, compact.partition.as_slice())?;
    let table = info.duplicate(alloc)?;
    Ok(Logic::Ask(TypedAsk {
        table,
        values,
        kind: compact.kind,
    }))
}

/// The table of that name, with the partition that the list means, or the first fault.
#[tactic(auto, unfolding(hv_typing::specs::Asks::asked))]
pub(crate) fn asked(
    alloc: Global,
    tables: &[TableInfo],
    compact: &Compact,
) -> Result<Logic, TypeFault>
    ensures { Types result (asked tables.now compact.now) }
{
    let Some(place) = place_of(&compact.table, tables) else {
        return Err(NO_TABLE);
    };
    let Some(info) = tables.get(place) else {
        return Err(NO_TABLE);
    };
    asked_as(alloc, compact, info)
}
