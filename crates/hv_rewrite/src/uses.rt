//! The places at which a table stands in a query, with the conditions that its rows have to meet there.

ghost use Rattle.std.specs.Prelude.{◌≡◌, ◌++◌, ◌∷◌, [], ◌==◌, if◌then◌else◌, map, flat_map, Some, IfOk, OnOk};
ghost use Rattle.hv_typing.specs.Rows.{width_behind};
ghost use Rattle.hv_rewrite.specs.Conditions.{conjuncts_of};
ghost use Rattle.hv_rewrite.specs.Reach.{spot_at, joined_spots, from_spots, select_spots, union_spots};
ghost use Rattle.hv_rewrite.specs.Pruned.{placed_uses, uses_at, uses_of, keeps, spot_seen, uses_seen, PrunedKeepsRows, MatchingRowsAreKept};

use crate::conditions::put_conjuncts;
use crate::keeping::{PartitionTest, TableUse};
use crate::places::places_at;
use crate::reach::{first_use, joined_use};
use hv_base::{Boxed, NoMemory};
use hv_expr::TypedExpr;
use hv_typing::{JoinKind, TypedFrom, TypedJoin, TypedQuery, TypedSelect, TypedSource, TypedUnion};
use std::alloc::Global;

/// How many values a row has behind a join.
pub(crate) fn width_behind(width: usize, join: &TypedJoin) -> Result<usize, NoMemory>
    ensures { IfOk result (λ sum. sum ≡ width_behind join.now.kind width join.now.width) }
{
    match join.kind {
        JoinKind::LeftSemi => Ok(width),
        JoinKind::Inner | JoinKind::Left | JoinKind::Right | JoinKind::Full => {
            width.checked_add(join.width as usize).ok_or(NoMemory)
        }
    }
}

fn put_if<'a>(
    stands: bool,
    one: TableUse<'a>,
    found: &mut Vec<TableUse<'a>>,
) -> Result<(), NoMemory>
    ensures { OnOk result (map spot_seen found.new.items
        ≡ map spot_seen found.old.items ++ (if stands then spot_seen one.entry ∷ [] else [])) }
{
    if stands {
        found.push(one)?;
    }
    Ok(())
}

#[cycle(uses)]
#[tactic(auto, using(crate::proofs::UseNodes::uses))]
fn put_source<'a>(
    alloc: Global,
    source: &'a TypedSource,
    wanted: usize,
    one: TableUse<'a>,
    found: &mut Vec<TableUse<'a>>,
) -> Result<(), NoMemory>
    ensures { OnOk result (map spot_seen found.new.items
        ≡ map spot_seen found.old.items ++ uses_at wanted source.now (spot_seen one.entry)) }
{
    match source {
        TypedSource::Table(place) => put_if(*place as usize == wanted, one, found),
        TypedSource::Query(query) => put_query(alloc, query.get(), wanted, found),
    }
}

// The sources of joins behind rows of so many values.
#[cycle(uses)]
fn put_joined<'a>(
    alloc: Global,
    width: u32,
    joins: &'a [TypedJoin],
    condition: &'a Option<Boxed<TypedExpr>>,
    wanted: usize,
    found: &mut Vec<TableUse<'a>>,
) -> Result<(), NoMemory>
    ensures { OnOk result (map spot_seen found.new.items
        ≡ map spot_seen found.old.items ++ flat_map (placed_uses wanted) (joined_spots width joins.now condition.now)) }
{
    let mut base = width as usize;
    for (place, join) in joins.iter().enumerate() {
        let one = joined_use(alloc, base, join, &joins[place + 1..], condition)?;
        put_source(alloc, &join.source, wanted, one, found)?;
        let behind = width_behind(base, join)?;
        base = behind;
    }
    Ok(())
}

#[cycle(uses)]
fn put_from<'a>(
    alloc: Global,
    from: &'a TypedFrom,
    condition: &'a Option<Boxed<TypedExpr>>,
    wanted: usize,
    found: &mut Vec<TableUse<'a>>,
) -> Result<(), NoMemory>
    ensures { OnOk result (map spot_seen found.new.items
        ≡ map spot_seen found.old.items ++ flat_map (placed_uses wanted) (from_spots (Some from.now) condition.now)) }
{
    let joins = from.joins.as_slice();
    let first = first_use(alloc, from.width, joins, condition)?;
    put_source(alloc, &from.source, wanted, first, found)?;
    put_joined(alloc, from.width, joins, condition, wanted, found)
}

#[cycle(uses)]
fn put_select<'a>(
    alloc: Global,
    select: &'a TypedSelect,
    wanted: usize,
    found: &mut Vec<TableUse<'a>>,
) -> Result<(), NoMemory>
    ensures { OnOk result (map spot_seen found.new.items
        ≡ map spot_seen found.old.items ++ flat_map (placed_uses wanted) (select_spots select.now)) }
{
    match &select.from {
        None => Ok(()),
        Some(from) => put_from(alloc, from, &select.filter, wanted, found),
    }
}

#[cycle(uses)]
fn put_unions<'a>(
    alloc: Global,
    unions: &'a [TypedUnion],
    wanted: usize,
    found: &mut Vec<TableUse<'a>>,
) -> Result<(), NoMemory>
    ensures { OnOk result (map spot_seen found.new.items
        ≡ map spot_seen found.old.items ++ flat_map (placed_uses wanted) (flat_map union_spots unions.now)) }
{
    for next in unions {
        put_select(alloc, &next.select, wanted, found)?;
    }
    Ok(())
}

#[cycle(uses)]
#[tactic(auto, unfolding(crate::specs::Pruned::uses_of))]
fn put_query<'a>(
    alloc: Global,
    query: &'a TypedQuery,
    wanted: usize,
    found: &mut Vec<TableUse<'a>>,
) -> Result<(), NoMemory>
    ensures { OnOk result (map spot_seen found.new.items
        ≡ map spot_seen found.old.items ++ uses_of wanted query.now) }
{
    put_select(alloc, &query.select, wanted, found)?;
    put_unions(alloc, query.unions.as_slice(), wanted, found)
}

/// Which partitions the query, as it was typed, needs of the table with that place in the list of tables that it is run
/// over. Where the rows of its sources are as wide as analysis says (`are_wide`), it has the same rows without those of
/// the table that stand in a partition which isn't kept, whatever number of partition columns the table has.
pub fn prune<'a>(
    alloc: Global,
    query: &'a TypedQuery,
    source: usize,
) -> Result<PartitionTest<'a>, NoMemory>
    ensures uses { IfOk result (λ test. uses_seen test ≡ uses_of source query.now) }
    ensures rows { IfOk result (λ test. PrunedKeepsRows query.now source (keeps (uses_seen test))) }
{
    let mut uses = Vec::new(alloc);
    put_query(alloc, query, source, &mut uses)?;
    Ok(PartitionTest { uses })
}

/// Which partitions hold rows, of so many values, on which the condition is true: what a statement needs of the table
/// whose rows it changes where a condition is true.
pub fn prune_rows<'a>(
    alloc: Global,
    condition: &'a Option<Boxed<TypedExpr>>,
    width: u32,
) -> Result<PartitionTest<'a>, NoMemory>
    ensures uses { IfOk result (λ test. uses_seen test ≡ spot_at 0 width (conjuncts_of condition.now) ∷ []) }
    ensures rows { IfOk result (λ test. MatchingRowsAreKept condition.now width (keeps (uses_seen test))) }
{
    let places = places_at(0, width)?;
    let mut conditions = Vec::new(alloc);
    put_conjuncts(condition, places, &mut conditions)?;
    let mut uses = Vec::new(alloc);
    uses.push(TableUse {
        base: 0,
        width: width as usize,
        conditions,
    })?;
    Ok(PartitionTest { uses })
}
