//! What is printed of a query that has more than one table: its sources, its items, its groups.

use hv_base::{Boxed, NoMemory};
use hv_expr::{One, TypedExpr};
use hv_typing::{
    JoinKind, SortKey, TypedFrom, TypedJoin, TypedLateral, TypedQuery, TypedSelect, TypedSource,
    TypedUnion,
};
use std::alloc::Global;

type Out = Result<(), NoMemory>;

fn text(text: &str, out: &mut Vec<u8>) -> Out {
    Ok(out.extend_from_slice(text.as_bytes())?)
}

fn number(alloc: Global, before: &str, number: u64, out: &mut Vec<u8>) -> Out {
    let made = format!(in alloc; "{before}{number}")?;
    text(made.as_str(), out)
}

/// A column by its place, a conversion, an aggregate, anything else.
fn expr(alloc: Global, expr: &TypedExpr, out: &mut Vec<u8>) -> Out {
    match expr {
        TypedExpr::Column(place, _) => number(alloc, " @", u64::from(*place), out),
        TypedExpr::One(One::Cast, _, _) => text(" cast", out),
        TypedExpr::CountRows => text(" count", out),
        TypedExpr::Aggregate { .. } => text(" aggregate", out),
        _ => text(" other", out),
    }
}

fn exprs(alloc: Global, exprs: &[TypedExpr], out: &mut Vec<u8>) -> Out {
    for one in exprs {
        expr(alloc, one, out)?;
    }
    Ok(())
}

/// The values of a new row.
pub(crate) fn values(alloc: Global, values: &[TypedExpr], out: &mut Vec<u8>) -> Out {
    exprs(alloc, values, out)
}

fn kind(kind: JoinKind) -> &'static str {
    match kind {
        JoinKind::Inner => " inner",
        JoinKind::Left => " left",
        JoinKind::Right => " right",
        JoinKind::Full => " full",
        JoinKind::LeftSemi => " semi",
    }
}

fn lateral(alloc: Global, lateral: &TypedLateral, out: &mut Vec<u8>) -> Out {
    text(" view", out)?;
    if lateral.outer {
        text(" outer", out)?;
    }
    if lateral.positions {
        text(" positions", out)?;
    }
    expr(alloc, &lateral.array, out)
}

fn laterals(alloc: Global, laterals: &[TypedLateral], out: &mut Vec<u8>) -> Out {
    for one in laterals {
        lateral(alloc, one, out)?;
    }
    Ok(())
}

fn on(on: &Option<Boxed<TypedExpr>>, out: &mut Vec<u8>) -> Out {
    match on {
        None => Ok(()),
        Some(_) => text(" on", out),
    }
}

fn rest(alloc: Global, select: &TypedSelect, out: &mut Vec<u8>) -> Out {
    if select.filter.is_some() {
        text(" where", out)?;
    }
    if let Some(grouping) = &select.groups {
        text(" group", out)?;
        exprs(alloc, grouping.keys.as_slice(), out)?;
        if grouping.having.is_some() {
            text(" having", out)?;
        }
    }
    text(" show", out)?;
    if select.distinct {
        text(" distinct", out)?;
    }
    exprs(alloc, select.items.as_slice(), out)
}

fn keys(alloc: Global, keys: &[SortKey], out: &mut Vec<u8>) -> Out {
    if !keys.is_empty() {
        text(" order", out)?;
    }
    for key in keys {
        number(alloc, " ", u64::from(key.place), out)?;
        if key.descending {
            text("d", out)?;
        }
    }
    Ok(())
}

#[cycle(plan)]
fn source(source: &TypedSource, alloc: Global, width: u32, out: &mut Vec<u8>) -> Out {
    match source {
        TypedSource::Table(place) => number(alloc, " #", u64::from(*place), out)?,
        TypedSource::Query(query) => {
            text(" (", out)?;
            plan(query.get(), alloc, out)?;
            text(" )", out)?;
        }
    }
    number(alloc, "/", u64::from(width), out)
}

#[cycle(plan)]
fn joins(joins: &[TypedJoin], alloc: Global, out: &mut Vec<u8>) -> Out {
    for join in joins {
        text(kind(join.kind), out)?;
        source(&join.source, alloc, join.width, out)?;
        on(&join.on, out)?;
    }
    Ok(())
}

#[cycle(plan)]
fn from(from: &TypedFrom, alloc: Global, out: &mut Vec<u8>) -> Out {
    text(" from", out)?;
    source(&from.source, alloc, from.width, out)?;
    joins(from.joins.as_slice(), alloc, out)?;
    laterals(alloc, from.laterals.as_slice(), out)
}

#[cycle(plan)]
fn select(select: &TypedSelect, alloc: Global, out: &mut Vec<u8>) -> Out {
    match &select.from {
        None => rest(alloc, select, out),
        Some(sources) => {
            from(sources, alloc, out)?;
            rest(alloc, select, out)
        }
    }
}

#[cycle(plan)]
fn unions(unions: &[TypedUnion], alloc: Global, out: &mut Vec<u8>) -> Out {
    for union in unions {
        text(if union.all { " all" } else { " union" }, out)?;
        select(&union.select, alloc, out)?;
    }
    Ok(())
}

/// The sources with the places of their tables, or in brackets what was made of a query among them, and their widths; joins, lateral
/// views, conditions, groups, items, unions, keys and limit of a query.
#[cycle(plan)]
pub(crate) fn plan(query: &TypedQuery, alloc: Global, out: &mut Vec<u8>) -> Out {
    select(&query.select, alloc, out)?;
    unions(query.unions.as_slice(), alloc, out)?;
    keys(alloc, query.order.as_slice(), out)?;
    match query.limit {
        None => Ok(()),
        Some(limit) => number(alloc, " limit ", limit, out),
    }
}
