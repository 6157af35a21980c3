ghost use Rattle.std.specs.Prelude.{◌≡◌, slice_get};
ghost use Rattle.hv_typing.specs.Rows.{values_in};
ghost use Rattle.hv_logic.specs.Rows.{rows_in};
ghost use Rattle.hv_joins.specs.Sources.{row_values};
ghost use Rattle.hv_exec.specs.Tables.{tables_in};

use hv_logic::{Found, TableRows};

// The rows that stand in a table; a table that isn't there has none.
pub(crate) fn found_in<'a>(place: u32, tables: &'a [TableRows]) -> &'a [Found]
    ensures { row_values (rows_in result.now) ≡ values_in (slice_get (tables_in tables.now) place) }
{
    match tables.get(place as usize) {
        Some(table) => table.rows.as_slice(),
        None => &[],
    }
}
