//! Laws of typed queries: what the sources of a query mean.
#![tactic(auto)]

ghost use Rattle.std.specs.Prelude.{◌≡◌, map, slice_get};
ghost use Rattle.hv_value.specs.declared.row.Row.{Row as RowOf};
ghost use Rattle.hv_typing.specs.declared.tree.TypedSource.TheVariants as source;
ghost use Rattle.hv_typing.specs.Rows.{Tables, values_in, source_frames, rows_of};

use hv_typing::TypedQuery;

/// A source that is a table has that table's rows, and none where there is no such table.
#[tactic(auto, using(crate::proofs::Rows::sources))]
pub fn table_has_its_rows(place: u32)
    ensures { (tables : Tables) → source_frames (source.Table place) tables ≡ values_in (slice_get tables place) }
{}

/// A source that is a query has the rows of that query.
#[tactic(auto, using(crate::proofs::Rows::sources))]
pub fn query_has_its_rows(query: &TypedQuery)
    ensures { (tables : Tables) → source_frames (source.Query query.now) tables
        ≡ map (λ (row : RowOf). row.values) (rows_of query.now tables) }
{}
