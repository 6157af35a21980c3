//! DROP TABLE.

ghost use Rattle.std.specs.Prelude.{◌≡◌, None};
ghost use Rattle.hv_typing.specs.Faults.{Types};
ghost use Rattle.hv_typing.specs.Drops.{dropped, dropped_as};

use crate::creates::place_of;
use hv_ast::DropTable;
use hv_base::Refusal;
use hv_logic::TableInfo;
use hv_typing::{Logic, TypeFault};

/// What the statement comes to where no table has its name.
fn dropped_nothing(if_exists: bool) -> Result<Logic, TypeFault>
    ensures { Types result (dropped_as if_exists None) }
{
    if if_exists {
        Ok(Logic::Nothing)
    } else {
        Err(TypeFault::Refused(Refusal::NoTable))
    }
}

/// The table of that name, nothing under IF EXISTS, or its fault.
#[tactic(auto, unfolding(hv_typing::specs::Drops::dropped))]
pub(crate) fn dropped(tables: &[TableInfo], drop: &DropTable) -> Result<Logic, TypeFault>
    ensures { Types result (dropped tables.now drop.now) }
{
    let Some(place) = place_of(&drop.table, tables) else {
        return dropped_nothing(drop.if_exists);
    };
    let Some(info) = tables.get(place) else {
        return dropped_nothing(drop.if_exists);
    };
    Ok(Logic::Unmake(info.table))
}
