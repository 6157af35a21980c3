//! Queries over the live tables, with their subqueries.

ghost use Rattle.std.specs.Prelude.{◌≡◌, IfOk};
ghost use Rattle.hv_typing.specs.Faults.{Types};
ghost use Rattle.hv_typing.specs.Sources.{all_joined, opened};
ghost use Rattle.hv_typing.specs.Queries.{select_typed, all_united, query_typed};
ghost use Rattle.hv_typing.specs.Creates.{place_of};
ghost use Rattle.hv_typing.specs.Subqueries.{or_name, table_brought, place_brought, brought, selected};

use crate::creates::place_of;
use hv_ast::{From, Join, Query, Select, Source, Union};
use hv_base::{Boxed, Duplicate, NoMemory, Refusal, Text};
use hv_changes::{columns_of, fields_named};
use hv_logic::{Column, TableInfo};
use hv_select::{
    all_viewed, alone, first_source, join_onto, opened_none, opened_of, query_brought, query_over,
    select_over, unite,
};
use hv_typing::{Brought, Listed, Opened, Sources, TypeFault, TypedQuery, TypedSource, United};
use std::alloc::Global;

const NO_TABLE: TypeFault = TypeFault::Refused(Refusal::NoTable);

fn table_brought(
    alloc: Global,
    place: usize,
    alias: &Text,
    columns: &[Column],
) -> Result<Boxed<Brought>, NoMemory>
    ensures { IfOk result (λ brought. brought ≡ table_brought place alias.now columns.now) }
{
    let Ok(place) = u32::try_from(place) else {
        return Err(NoMemory);
    };
    let fields = fields_named(alloc, alias, columns)?;
    let alias = alias.duplicate(alloc)?;
    Boxed::new(
        alloc,
        Brought {
            source: TypedSource::Table(place),
            alias,
            fields,
        },
    )
}

fn place_brought(
    alloc: Global,
    tables: &[TableInfo],
    name: &Text,
    alias: &Text,
) -> Result<Boxed<Brought>, TypeFault>
    ensures { Types result (place_brought tables.now (place_of name.now tables.now) alias.now) }
{
    let Some(place) = place_of(name, tables) else {
        return Err(NO_TABLE);
    };
    let Some(info) = tables.get(place) else {
        return Err(NO_TABLE);
    };
    let columns = columns_of(alloc, &info.shape)?;
    Ok(table_brought(alloc, place, alias, columns.as_slice())?)
}

fn table_named(
    alloc: Global,
    tables: &[TableInfo],
    name: &Text,
    alias: &Option<Text>,
) -> Result<Boxed<Brought>, TypeFault>
    ensures { Types result (place_brought tables.now (place_of name.now tables.now) (or_name alias.now name.now)) }
{
    match alias {
        None => place_brought(alloc, tables, name, name),
        Some(alias) => place_brought(alloc, tables, name, alias),
    }
}

/// What stands in FROM or behind USING, and the columns that it has, or its first fault.
#[cycle(queries)]
#[tactic(auto, using(hv_typing::proofs::Layers::sources))]
pub(crate) fn brought(
    alloc: Global,
    source: &Source,
    tables: &[TableInfo],
) -> Result<Boxed<Brought>, TypeFault>
    ensures { Types result (brought tables.now source.now) }
{
    match source {
        Source::Table(name, alias) => table_named(alloc, tables, name, alias),
        Source::Query(query, alias) => {
            let typed = query_typed(alloc, query.get(), tables)?;
            Ok(query_brought(alloc, alias, typed)?)
        }
    }
}

#[cycle(queries)]
#[tactic(auto, unfolding(hv_typing::specs::Sources::all_joined))]
fn all_joined(
    alloc: Global,
    joins: &[Join],
    first: Boxed<Sources>,
    tables: &[TableInfo],
) -> Result<Boxed<Sources>, TypeFault>
    ensures { Types result (all_joined (brought tables.now) first joins.now) }
{
    let mut sources = first;
    for join in joins {
        let right = brought(alloc, &join.source, tables)?;
        sources = join_onto(alloc, sources, join.kind, &join.on, right)?;
    }
    Ok(sources)
}

#[cycle(queries)]
#[tactic(auto, using(hv_typing::proofs::Layers::opens))]
fn opened(
    alloc: Global,
    from: &Option<From>,
    tables: &[TableInfo],
) -> Result<Boxed<Opened>, TypeFault>
    ensures { Types result (opened (brought tables.now) from.now) }
{
    match from {
        None => Ok(opened_none(alloc)?),
        Some(from) => {
            let first = first_source(alloc, brought(alloc, &from.source, tables)?)?;
            let sources = all_joined(alloc, from.joins.as_slice(), first, tables)?;
            let sources = all_viewed(alloc, sources, from.laterals.as_slice())?;
            Ok(opened_of(alloc, sources)?)
        }
    }
}

#[cycle(queries)]
#[tactic(auto, using(hv_typing::proofs::Layers::selects))]
fn select_typed(
    alloc: Global,
    select: &Select,
    tables: &[TableInfo],
) -> Result<Boxed<Listed>, TypeFault>
    ensures { Types result (select_typed (brought tables.now) select.now) }
{
    let opened = opened(alloc, &select.from, tables)?;
    select_over(alloc, select, opened)
}

#[cycle(queries)]
#[tactic(auto, unfolding(hv_typing::specs::Queries::all_united))]
fn all_united(
    alloc: Global,
    unions: &[Union],
    first: Boxed<United>,
    tables: &[TableInfo],
) -> Result<Boxed<United>, TypeFault>
    ensures { Types result (all_united (brought tables.now) first unions.now) }
{
    let mut united = first;
    for union in unions {
        let next = select_typed(alloc, &union.select, tables)?;
        let Listed { select, .. } = next.into_inner();
        united = unite(alloc, united, union.all, select)?;
    }
    Ok(united)
}

#[cycle(queries)]
#[tactic(auto, using(hv_typing::proofs::Layers::queries))]
fn query_typed(
    alloc: Global,
    query: &Query,
    tables: &[TableInfo],
) -> Result<Boxed<TypedQuery>, TypeFault>
    ensures { Types result (query_typed (brought tables.now) query.now) }
{
    let first = select_typed(alloc, &query.select, tables)?;
    let united = alone(alloc, first.get().columns.as_slice())?;
    let united = all_united(alloc, query.unions.as_slice(), united, tables)?;
    query_over(alloc, query, first, united)
}

/// The typed query, or its first fault.
pub(crate) fn selected(
    alloc: Global,
    tables: &[TableInfo],
    query: &Query,
) -> Result<Boxed<TypedQuery>, TypeFault>
    ensures { Types result (selected tables.now query.now) }
{
    query_typed(alloc, query, tables)
}
