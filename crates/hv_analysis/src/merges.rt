//! MERGE over the live tables.

ghost use Rattle.std.specs.Prelude.{◌≡◌, Some};
ghost use Rattle.hv_typing.specs.Faults.{Types};
ghost use Rattle.hv_typing.specs.Merges.{merged_table, merged};

use crate::creates::place_of;
use crate::queries::brought;
use hv_ast::Merge;
use hv_base::Refusal;
use hv_logic::TableInfo;
use hv_merges::merge_over;
use hv_typing::{TypeFault, TypedMerge};
use std::alloc::Global;

const NO_TABLE: TypeFault = TypeFault::Refused(Refusal::NoTable);

// Places are numbers of 32 bits: there is no memory for more tables.
fn merged_table(
    alloc: Global,
    tables: &[TableInfo],
    merge: &Merge,
    place: usize,
    info: &TableInfo,
) -> Result<TypedMerge, TypeFault>
    ensures { Types result (merged_table tables.now merge.now place (Some info.now)) }
{
    let Ok(place) = u32::try_from(place) else {
        return Err(TypeFault::NoMemory);
    };
    let source = brought(alloc, &merge.source, tables)?;
    merge_over(alloc, place, &info.shape, merge, source)
}

/// The typed MERGE, or its first fault: of its target, its source, and what the two are to each other.
#[tactic(auto, unfolding(hv_typing::specs::Merges::merged))]
pub(crate) fn merged(
    alloc: Global,
    tables: &[TableInfo],
    merge: &Merge,
) -> Result<TypedMerge, TypeFault>
    ensures { Types result (merged tables.now merge.now) }
{
    let Some(place) = place_of(&merge.table, tables) else {
        return Err(NO_TABLE);
    };
    let Some(info) = tables.get(place) else {
        return Err(NO_TABLE);
    };
    merged_table(alloc, tables, merge, place, info)
}
