//! Whether a query's widths are those of the tables that it was typed over.

ghost use Rattle.std.specs.Prelude.{◌≡◌, IsTrue, Some, slice_get};
ghost use Rattle.hv_typing.specs.Rows.{Tables};
ghost use Rattle.hv_rewrite.specs.Wide.{joins_wide, from_wide, select_wide, unions_wide, query_wide, is_wide};
ghost use Rattle.hv_rewrite.specs.Fits.{fits_at, source_fits, fits, HaveCounts};

use crate::widths::shows;
use hv_typing::{TypedFrom, TypedJoin, TypedQuery, TypedSelect, TypedSource, TypedUnion};

// Whether the rows of the table with that place have so many values.
fn table_fits(width: usize, place: u32, counts: &[usize]) -> bool
    ensures { result ≡ fits_at (slice_get counts.now place) width }
{
    match counts.get(place as usize) {
        Some(count) => *count == width,
        None => false,
    }
}

#[cycle(fitting)]
#[tactic(auto, using(crate::proofs::FitNodes::fits))]
fn source_fits(source: &TypedSource, width: u32, counts: &[usize]) -> bool
    ensures { result ≡ source_fits counts.now source.now width }
{
    match source {
        TypedSource::Table(place) => table_fits(width as usize, *place, counts),
        TypedSource::Query(query) => {
            shows(width as usize, query.get()) && query_fits(query.get(), counts)
        }
    }
}

#[cycle(fitting)]
fn joins_fit(joins: &[TypedJoin], counts: &[usize]) -> bool
    ensures { result ≡ joins_wide (source_fits counts.now) joins.now }
{
    for join in joins {
        if !source_fits(&join.source, join.width, counts) {
            return false;
        }
    }
    true
}

#[cycle(fitting)]
fn from_fits(from: &TypedFrom, counts: &[usize]) -> bool
    ensures { result ≡ from_wide (source_fits counts.now) (Some from.now) }
{
    source_fits(&from.source, from.width, counts) && joins_fit(from.joins.as_slice(), counts)
}

#[cycle(fitting)]
fn select_fits(select: &TypedSelect, counts: &[usize]) -> bool
    ensures { result ≡ select_wide (source_fits counts.now) select.now }
{
    match &select.from {
        None => true,
        Some(from) => from_fits(from, counts),
    }
}

#[cycle(fitting)]
fn unions_fit(unions: &[TypedUnion], counts: &[usize]) -> bool
    ensures { result ≡ unions_wide (source_fits counts.now) unions.now }
{
    for next in unions {
        if !select_fits(&next.select, counts) {
            return false;
        }
    }
    true
}

#[cycle(fitting)]
fn query_fits(query: &TypedQuery, counts: &[usize]) -> bool
    ensures { result ≡ query_wide (source_fits counts.now) query.now }
{
    select_fits(&query.select, counts) && unions_fit(query.unions.as_slice(), counts)
}

/// Whether the query's widths are those of the tables that it was typed over, of which each has rows of so many values. Then
/// its sources are as wide as it says (`are_wide`), whichever rows these tables have.
pub fn widths_fit(query: &TypedQuery, counts: &[usize]) -> bool
    ensures fits { result ≡ fits query.now counts.now }
    ensures wide { IsTrue result → (tables : Tables) → HaveCounts counts.now tables → IsTrue (is_wide query.now tables) }
{
    query_fits(query, counts)
}
