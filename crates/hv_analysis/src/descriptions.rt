//! DESCRIBE.

ghost use Rattle.std.specs.Prelude.{◌≡◌, Some};
ghost use Rattle.hv_typing.specs.Faults.{Types};
ghost use Rattle.hv_typing.specs.Descriptions.{described, described_as};

use crate::creates::place_of;
use hv_base::{Refusal, Text};
use hv_changes::columns_of;
use hv_logic::TableInfo;
use hv_typing::{Logic, TypeFault};
use std::alloc::Global;

const NO_TABLE: TypeFault = TypeFault::Refused(Refusal::NoTable);

fn described_as(alloc: Global, info: &TableInfo) -> Result<Logic, TypeFault>
    ensures { Types result (described_as (Some info.now)) }
{
    Ok(Logic::Describe(columns_of(alloc, &info.shape)?))
}

/// The columns of the table of that name, or its fault.
#[tactic(auto, unfolding(hv_typing::specs::Descriptions::described))]
pub(crate) fn described(
    alloc: Global,
    tables: &[TableInfo],
    name: &Text,
) -> Result<Logic, TypeFault>
    ensures { Types result (described tables.now name.now) }
{
    let Some(place) = place_of(name, tables) else {
        return Err(NO_TABLE);
    };
    let Some(info) = tables.get(place) else {
        return Err(NO_TABLE);
    };
    described_as(alloc, info)
}
