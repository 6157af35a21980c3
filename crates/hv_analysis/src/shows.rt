//! SHOW.

ghost use Rattle.std.specs.Prelude.{◌≡◌, Some};
ghost use Rattle.hv_typing.specs.Faults.{Types};
ghost use Rattle.hv_typing.specs.Shows.{partitions_as, partitions_shown, show_analysed};

use crate::creates::place_of;
use hv_ast::Show;
use hv_base::{Refusal, Text};
use hv_logic::TableInfo;
use hv_typing::{Logic, TypeFault};

const NO_TABLE: TypeFault = TypeFault::Refused(Refusal::NoTable);

fn partitions_as(info: &TableInfo) -> Result<Logic, TypeFault>
    ensures { Types result (partitions_as (Some info.now)) }
{
    if info.shape.parts.is_empty() {
        return Err(TypeFault::Refused(Refusal::BadCount));
    }
    Ok(Logic::Nothing)
}

/// Nothing, where the table of that name has partition columns, or its fault.
#[tactic(auto, unfolding(hv_typing::specs::Shows::partitions_shown))]
fn partitions_shown(tables: &[TableInfo], name: &Text) -> Result<Logic, TypeFault>
    ensures { Types result (partitions_shown tables.now name.now) }
{
    let Some(place) = place_of(name, tables) else {
        return Err(NO_TABLE);
    };
    let Some(info) = tables.get(place) else {
        return Err(NO_TABLE);
    };
    partitions_as(info)
}

/// Nothing, or the fault of a SHOW.
#[tactic(auto, unfolding(hv_typing::specs::Shows::show_analysed))]
pub(crate) fn show_analysed(tables: &[TableInfo], show: &Show) -> Result<Logic, TypeFault>
    ensures { Types result (show_analysed tables.now show.now) }
{
    match show {
        Show::Partitions(name) => partitions_shown(tables, name),
        Show::Tables | Show::Transactions | Show::Locks | Show::Compactions => Ok(Logic::Nothing),
    }
}
