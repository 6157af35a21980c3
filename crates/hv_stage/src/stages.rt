//! The stages that carry out a query.

ghost use Rattle.std.specs.Prelude.{◌≡◌, ◌++◌, flat_map, IfOk, OnOk, Some};
ghost use Rattle.hv_typing.specs.Stages.{join_stages, group_stages, once_stages, order_stages, shown_stages, source_of_join, build_of_join, from_stages, select_stages, union_stages, source_stages, stages_of};

use hv_base::{List, NoMemory};
use hv_typing::{
    Grouping, JoinKind, SortKey, StageKind, TypedFrom, TypedJoin, TypedQuery, TypedSelect,
    TypedSource, TypedUnion,
};
use std::alloc::Global;

/// The stages that carry out a query.
#[derive(Drop)]
pub struct Stages<'a> {
    pub query: &'a TypedQuery,
    /// In the order in which they are done.
    pub kinds: List<StageKind>,
}

// ---- the stages of a part of a query

static BUILD: [StageKind; 3] = [StageKind::Map, StageKind::Shuffle, StageKind::Reduce];

static WHOLE_AND_BUILD: [StageKind; 4] = [
    StageKind::Map,
    StageKind::Map,
    StageKind::Shuffle,
    StageKind::Reduce,
];

static GROUPED: [StageKind; 2] = [StageKind::Shuffle, StageKind::Reduce];

static ONCE: [StageKind; 1] = [StageKind::Reduce];

static SORTED: [StageKind; 2] = [StageKind::Map, StageKind::Reduce];

fn put(more: &[StageKind], kinds: &mut Vec<StageKind>) -> Result<(), NoMemory>
    ensures { OnOk result (kinds.new.items ≡ kinds.old.items ++ more.now) }
{
    for kind in more {
        kinds.push(*kind)?;
    }
    Ok(())
}

fn join_stages(kind: JoinKind) -> &'static [StageKind]
    ensures { result.now ≡ join_stages kind }
{
    match kind {
        JoinKind::Inner => &BUILD,
        JoinKind::Left => &BUILD,
        JoinKind::Right => &WHOLE_AND_BUILD,
        JoinKind::Full => &WHOLE_AND_BUILD,
        JoinKind::LeftSemi => &BUILD,
    }
}

fn group_stages(groups: &Option<Grouping>) -> &'static [StageKind]
    ensures { result.now ≡ group_stages groups.now }
{
    match groups {
        None => &[],
        Some(_) => &GROUPED,
    }
}

fn once_stages(once: bool) -> &'static [StageKind]
    ensures { result.now ≡ once_stages once }
{
    if once { &ONCE } else { &[] }
}

fn order_stages(keys: &[SortKey]) -> &'static [StageKind]
    ensures { result.now ≡ order_stages keys.now }
{
    match keys {
        [] => &[],
        _ => &SORTED,
    }
}

// Of a select, behind its joins.
fn put_shown(select: &TypedSelect, kinds: &mut Vec<StageKind>) -> Result<(), NoMemory>
    ensures { OnOk result (kinds.new.items ≡ kinds.old.items ++ shown_stages select.now.distinct select.now.groups) }
{
    put(&[StageKind::Map], kinds)?;
    put(group_stages(&select.groups), kinds)?;
    put(once_stages(select.distinct), kinds)
}

fn put_builds(joins: &[TypedJoin], kinds: &mut Vec<StageKind>) -> Result<(), NoMemory>
    ensures { OnOk result (kinds.new.items ≡ kinds.old.items ++ flat_map (build_of_join source_stages) joins.now) }
{
    for join in joins {
        put(join_stages(join.kind), kinds)?;
    }
    Ok(())
}

// ---- queries

#[cycle(stages)]
#[tactic(auto, using(crate::proofs::StageNodes::stages))]
fn put_source(source: &TypedSource, kinds: &mut Vec<StageKind>) -> Result<(), NoMemory>
    ensures { OnOk result (kinds.new.items ≡ kinds.old.items ++ source_stages source.now) }
{
    match source {
        TypedSource::Table(_) => Ok(()),
        TypedSource::Query(query) => put_query(query.get(), kinds),
    }
}

#[cycle(stages)]
fn put_sources(joins: &[TypedJoin], kinds: &mut Vec<StageKind>) -> Result<(), NoMemory>
    ensures { OnOk result (kinds.new.items ≡ kinds.old.items ++ flat_map (source_of_join source_stages) joins.now) }
{
    for join in joins {
        put_source(&join.source, kinds)?;
    }
    Ok(())
}

#[cycle(stages)]
fn put_from(from: &TypedFrom, kinds: &mut Vec<StageKind>) -> Result<(), NoMemory>
    ensures { OnOk result (kinds.new.items ≡ kinds.old.items ++ from_stages source_stages (Some from.now)) }
{
    put_source(&from.source, kinds)?;
    put_sources(from.joins.as_slice(), kinds)?;
    put_builds(from.joins.as_slice(), kinds)
}

#[cycle(stages)]
fn put_select(select: &TypedSelect, kinds: &mut Vec<StageKind>) -> Result<(), NoMemory>
    ensures { OnOk result (kinds.new.items ≡ kinds.old.items ++ select_stages source_stages select.now) }
{
    match &select.from {
        None => put_shown(select, kinds),
        Some(from) => {
            put_from(from, kinds)?;
            put_shown(select, kinds)
        }
    }
}

#[cycle(stages)]
fn put_unions(unions: &[TypedUnion], kinds: &mut Vec<StageKind>) -> Result<(), NoMemory>
    ensures { OnOk result (kinds.new.items ≡ kinds.old.items ++ flat_map (union_stages source_stages) unions.now) }
{
    for next in unions {
        put_select(&next.select, kinds)?;
        put(once_stages(!next.all), kinds)?;
    }
    Ok(())
}

#[cycle(stages)]
#[tactic(auto, unfolding(hv_typing::specs::Stages::stages_of))]
fn put_query(query: &TypedQuery, kinds: &mut Vec<StageKind>) -> Result<(), NoMemory>
    ensures { OnOk result (kinds.new.items ≡ kinds.old.items ++ stages_of query.now) }
{
    put_select(&query.select, kinds)?;
    put_unions(query.unions.as_slice(), kinds)?;
    put(order_stages(query.order.as_slice()), kinds)
}

/// The stages that carry out the query: of each select, from the left, those of the queries in its FROM, then those of
/// its joins, and then its own; behind a UNION that keeps one of equal rows, and for ORDER BY, those that do so.
pub fn plan_stages<'a>(alloc: Global, query: &'a TypedQuery) -> Result<Stages<'a>, NoMemory>
    ensures query { IfOk result (λ stages. stages.query.now ≡ query.now) }
    ensures kinds { IfOk result (λ stages. stages.kinds ≡ stages_of query.now) }
{
    let mut kinds = Vec::new(alloc);
    put_query(query, &mut kinds)?;
    Ok(Stages {
        query,
        kinds: List::from_vec(kinds),
    })
}
