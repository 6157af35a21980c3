//! Whether rows are as wide as analysis says.

ghost use Rattle.std.specs.Prelude.{◌≡◌, Some, slice_get};
ghost use Rattle.std.specs.List.{list_all};
ghost use Rattle.hv_logic.specs.Rows.{rows_in};
ghost use Rattle.hv_typing.specs.Rows.{values_in};
ghost use Rattle.hv_rewrite.specs.Wide.{tables_in, all_have_width, has_items, union_has_items, shows, joins_wide, from_wide, select_wide, unions_wide, query_wide, source_wide, is_wide};

use hv_logic::{Found, TableRows};
use hv_typing::{TypedFrom, TypedJoin, TypedQuery, TypedSelect, TypedSource, TypedUnion};

fn rows_wide(width: usize, found: &[Found]) -> bool
    ensures { result ≡ all_have_width width (values_in (Some (rows_in found.now))) }
{
    for one in found {
        if one.row.values.len() != width {
            return false;
        }
    }
    true
}

// Whether the rows of the table with that place have so many values.
fn table_wide(width: usize, place: u32, tables: &[TableRows]) -> bool
    ensures { result ≡ all_have_width width (values_in (slice_get (tables_in tables.now) place)) }
{
    match tables.get(place as usize) {
        Some(table) => rows_wide(width, table.rows.as_slice()),
        None => true,
    }
}

fn has_items(width: usize, select: &TypedSelect) -> bool
    ensures { result ≡ has_items width select.now }
{
    select.items.len() == width
}

fn unions_have_items(width: usize, unions: &[TypedUnion]) -> bool
    ensures { result ≡ list_all (union_has_items width) unions.now }
{
    for next in unions {
        if !has_items(width, &next.select) {
            return false;
        }
    }
    true
}

/// Whether each select of the query shows so many values.
pub(crate) fn shows(width: usize, query: &TypedQuery) -> bool
    ensures { result ≡ shows width query.now }
{
    has_items(width, &query.select) && unions_have_items(width, query.unions.as_slice())
}

#[cycle(widths)]
#[tactic(auto, using(crate::proofs::WideNodes::widths))]
fn source_wide(source: &TypedSource, width: u32, tables: &[TableRows]) -> bool
    ensures { result ≡ source_wide (tables_in tables.now) source.now width }
{
    match source {
        TypedSource::Table(place) => table_wide(width as usize, *place, tables),
        TypedSource::Query(query) => {
            shows(width as usize, query.get()) && query_wide(query.get(), tables)
        }
    }
}

#[cycle(widths)]
fn joins_wide(joins: &[TypedJoin], tables: &[TableRows]) -> bool
    ensures { result ≡ joins_wide (source_wide (tables_in tables.now)) joins.now }
{
    for join in joins {
        if !source_wide(&join.source, join.width, tables) {
            return false;
        }
    }
    true
}

#[cycle(widths)]
fn from_wide(from: &TypedFrom, tables: &[TableRows]) -> bool
    ensures { result ≡ from_wide (source_wide (tables_in tables.now)) (Some from.now) }
{
    source_wide(&from.source, from.width, tables) && joins_wide(from.joins.as_slice(), tables)
}

#[cycle(widths)]
fn select_wide(select: &TypedSelect, tables: &[TableRows]) -> bool
    ensures { result ≡ select_wide (source_wide (tables_in tables.now)) select.now }
{
    match &select.from {
        None => true,
        Some(from) => from_wide(from, tables),
    }
}

#[cycle(widths)]
fn unions_wide(unions: &[TypedUnion], tables: &[TableRows]) -> bool
    ensures { result ≡ unions_wide (source_wide (tables_in tables.now)) unions.now }
{
    for next in unions {
        if !select_wide(&next.select, tables) {
            return false;
        }
    }
    true
}

#[cycle(widths)]
fn query_wide(query: &TypedQuery, tables: &[TableRows]) -> bool
    ensures { result ≡ query_wide (source_wide (tables_in tables.now)) query.now }
{
    select_wide(&query.select, tables) && unions_wide(query.unions.as_slice(), tables)
}

/// Whether each row of each source has as many values as analysis says, so that a place in an expression means the
/// value that it was typed for: the rows of a table those of the table's columns, those of a query in FROM its items.
#[tactic(auto, unfolding(crate::specs::Wide::is_wide))]
pub fn are_wide(query: &TypedQuery, tables: &[TableRows]) -> bool
    ensures { result ≡ is_wide query.now (tables_in tables.now) }
{
    query_wide(query, tables)
}
