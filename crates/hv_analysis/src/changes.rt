//! INSERT, UPDATE, DELETE and TRUNCATE over the live tables.

ghost use Rattle.std.specs.Prelude.{◌≡◌, Some};
ghost use Rattle.hv_typing.specs.Faults.{Types};
ghost use Rattle.hv_typing.specs.Changes.{source_inserted, inserted, changing, changing_table, change_of};

use crate::creates::place_of;
use crate::queries::selected;
use hv_ast::{Insert, Rows, Stmt};
use hv_base::{Refusal, Text};
use hv_changes::{deleted, query_inserted, rows_inserted, targets_of, truncated, updated};
use hv_logic::{Column, Shape, TableInfo};
use hv_typing::{TypeFault, TypedChange};
use std::alloc::Global;

const NO_TABLE: TypeFault = TypeFault::Refused(Refusal::NoTable);

#[tactic(auto, unfolding(hv_typing::specs::Changes::source_inserted))]
fn source_inserted(
    alloc: Global,
    tables: &[TableInfo],
    place: u32,
    shape: &Shape,
    insert: &Insert,
    targets: &[Column],
) -> Result<TypedChange, TypeFault>
    ensures { Types result (source_inserted tables.now place shape.now insert.now insert.now.rows targets.now) }
{
    match &insert.rows {
        Rows::Values(rows) => rows_inserted(alloc, place, shape, insert, targets, rows.as_slice()),
        Rows::Query(query) => {
            let query = selected(alloc, tables, query)?;
            query_inserted(alloc, place, shape, insert, targets, query)
        }
    }
}

#[tactic(auto, unfolding(hv_typing::specs::Changes::inserted))]
fn inserted(
    alloc: Global,
    tables: &[TableInfo],
    place: u32,
    shape: &Shape,
    insert: &Insert,
) -> Result<TypedChange, TypeFault>
    ensures { Types result (inserted tables.now place shape.now insert.now) }
{
    let items = insert.partition.as_slice();
    let targets = targets_of(alloc, shape, items, insert.columns.as_slice())?;
    source_inserted(alloc, tables, place, shape, insert, targets.as_slice())
}

#[tactic(auto, unfolding(hv_typing::specs::Changes::changing))]
fn changing(
    alloc: Global,
    tables: &[TableInfo],
    place: u32,
    shape: &Shape,
    tree: &Stmt,
) -> Result<TypedChange, TypeFault>
    ensures { Types result (changing tables.now place shape.now tree.now) }
{
    match tree {
        Stmt::Insert(insert) => inserted(alloc, tables, place, shape, insert),
        Stmt::Update(update) => updated(alloc, place, shape, update),
        Stmt::Delete(delete) => deleted(alloc, place, shape, delete),
        Stmt::Truncate(truncate) => truncated(alloc, place, shape, truncate),
        _ => Err(TypeFault::Refused(Refusal::Syntax)),
    }
}

// Places are numbers of 32 bits: there is no memory for more tables.
fn changing_table(
    alloc: Global,
    tables: &[TableInfo],
    tree: &Stmt,
    place: usize,
    info: &TableInfo,
) -> Result<TypedChange, TypeFault>
    ensures { Types result (changing_table tables.now tree.now place (Some info.now)) }
{
    let Ok(place) = u32::try_from(place) else {
        return Err(TypeFault::NoMemory);
    };
    changing(alloc, tables, place, &info.shape, tree)
}

/// The typed change of the table of that name, or its first fault.
#[tactic(auto, unfolding(hv_typing::specs::Changes::change_of))]
pub(crate) fn change_of(
    alloc: Global,
    tables: &[TableInfo],
    name: &Text,
    tree: &Stmt,
) -> Result<TypedChange, TypeFault>
    ensures { Types result (change_of tables.now name.now tree.now) }
{
    let Some(place) = place_of(name, tables) else {
        return Err(NO_TABLE);
    };
    let Some(info) = tables.get(place) else {
        return Err(NO_TABLE);
    };
    changing_table(alloc, tables, tree, place, info)
}
