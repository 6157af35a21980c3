//! What is printed of a query: its sources by place and width, its joins, and its conditions by the places that they
//! look at.

use hv_base::{Boxed, NoMemory};
use hv_expr::{Many, TypedExpr};
use hv_typing::{JoinKind, TypedFrom, TypedJoin, TypedQuery, TypedSelect, TypedSource, TypedUnion};
use std::alloc::Global;

type Out = Result<(), NoMemory>;

fn text(text: &str, out: &mut Vec<u8>) -> Out {
    Ok(out.extend_from_slice(text.as_bytes())?)
}

fn number(alloc: Global, before: &str, number: u32, out: &mut Vec<u8>) -> Out {
    let made = format!(in alloc; "{before}{number}")?;
    text(made.as_str(), out)
}

fn many(function: Many) -> &'static str {
    match function {
        Many::And => "and(",
        Many::Or => "or(",
        Many::Coalesce => "coalesce(",
        Many::Concat => "concat(",
        Many::Array => "array(",
    }
}

/// A column by its place, `#` for a literal, and what is made of them.
#[cycle(conditions)]
fn shown(expr: &TypedExpr, alloc: Global, out: &mut Vec<u8>) -> Out {
    match expr {
        TypedExpr::Column(place, _) => number(alloc, "@", *place, out),
        TypedExpr::Literal(..) => text("#", out),
        TypedExpr::One(_, _, operand) => {
            text("f", out)?;
            shown(operand.get(), alloc, out)
        }
        TypedExpr::Two(_, _, left, right) => {
            text("(", out)?;
            shown(left.get(), alloc, out)?;
            text(" ", out)?;
            shown(right.get(), alloc, out)?;
            text(")", out)
        }
        TypedExpr::Three(..) => text("three", out),
        TypedExpr::Many(function, _, operands) => {
            text(many(*function), out)?;
            all_shown(operands.as_slice(), alloc, out)?;
            text(")", out)
        }
        TypedExpr::In { .. } => text("in", out),
        TypedExpr::Chain(..) => text("chain", out),
        TypedExpr::Case { .. } => text("case", out),
        TypedExpr::CountRows => text("count", out),
        TypedExpr::Aggregate { .. } => text("aggregate", out),
    }
}

#[cycle(conditions)]
fn all_shown(exprs: &[TypedExpr], alloc: Global, out: &mut Vec<u8>) -> Out {
    for (place, one) in exprs.iter().enumerate() {
        if place > 0 {
            text(" ", out)?;
        }
        shown(one, alloc, out)?;
    }
    Ok(())
}

fn condition(
    alloc: Global,
    word: &str,
    condition: &Option<Boxed<TypedExpr>>,
    out: &mut Vec<u8>,
) -> Out {
    match condition {
        None => Ok(()),
        Some(condition) => {
            text(word, out)?;
            shown(condition.get(), alloc, out)
        }
    }
}

fn kind(kind: JoinKind) -> &'static str {
    match kind {
        JoinKind::Inner => " inner ",
        JoinKind::Left => " left ",
        JoinKind::Right => " right ",
        JoinKind::Full => " full ",
        JoinKind::LeftSemi => " semi ",
    }
}

#[cycle(plan)]
fn source(source: &TypedSource, alloc: Global, width: u32, out: &mut Vec<u8>) -> Out {
    match source {
        TypedSource::Table(place) => number(alloc, "#", *place, out)?,
        TypedSource::Query(query) => {
            text("(", out)?;
            plan(query.get(), alloc, out)?;
            text(")", out)?;
        }
    }
    number(alloc, "/", width, out)
}

#[cycle(plan)]
fn joins(joins: &[TypedJoin], alloc: Global, out: &mut Vec<u8>) -> Out {
    for join in joins {
        text(kind(join.kind), out)?;
        source(&join.source, alloc, join.width, out)?;
        condition(alloc, " on ", &join.on, out)?;
    }
    Ok(())
}

#[cycle(plan)]
fn from(from: &TypedFrom, alloc: Global, out: &mut Vec<u8>) -> Out {
    source(&from.source, alloc, from.width, out)?;
    joins(from.joins.as_slice(), alloc, out)?;
    if from.laterals.is_empty() {
        return Ok(());
    }
    text(" view", out)
}

#[cycle(plan)]
fn select(select: &TypedSelect, alloc: Global, out: &mut Vec<u8>) -> Out {
    match &select.from {
        None => condition(alloc, " where ", &select.filter, out),
        Some(sources) => {
            from(sources, alloc, out)?;
            condition(alloc, " where ", &select.filter, out)
        }
    }
}

#[cycle(plan)]
fn unions(unions: &[TypedUnion], alloc: Global, out: &mut Vec<u8>) -> Out {
    for union in unions {
        text(if union.all { " all " } else { " union " }, out)?;
        select(&union.select, alloc, out)?;
    }
    Ok(())
}

/// The sources with the places of their tables, or in brackets what was made of a query among them, and their widths;
/// joins with the conditions of their ON, and the conditions of WHERE.
#[cycle(plan)]
pub(crate) fn plan(query: &TypedQuery, alloc: Global, out: &mut Vec<u8>) -> Out {
    select(&query.select, alloc, out)?;
    unions(query.unions.as_slice(), alloc, out)
}
