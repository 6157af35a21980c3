//! What the rows of a source have to meet, of the conditions of its select.

ghost use Rattle.std.specs.Prelude.{◌≡◌, ◌++◌, IfOk, OnOk};
ghost use Rattle.hv_rewrite.specs.Conditions.{conjuncts_of, only_within};
ghost use Rattle.hv_rewrite.specs.Reach.{passes, met_behind, known_right, known, spot_at};
ghost use Rattle.hv_rewrite.specs.Pruned.{exprs_seen, spot_seen};

use crate::conditions::put_conjuncts;
use crate::keeping::TableUse;
use crate::places::{Places, places_at};
use hv_base::{Boxed, NoMemory};
use hv_expr::TypedExpr;
use hv_typing::{JoinKind, TypedJoin};
use std::alloc::Global;

/// Whether each row behind the join is one of its left rows, alone or with what is joined to it.
pub(crate) fn passes(kind: JoinKind) -> bool
    ensures { result ≡ passes kind }
{
    match kind {
        JoinKind::Inner => true,
        JoinKind::Left => true,
        JoinKind::Right => false,
        JoinKind::Full => false,
        JoinKind::LeftSemi => true,
    }
}

// Puts the conjuncts of ON that each row behind the join meets behind the others.
fn put_met<'a>(
    join: &'a TypedJoin,
    places: Places,
    found: &mut Vec<&'a TypedExpr>,
) -> Result<(), NoMemory>
    ensures { OnOk result (exprs_seen found.new.items
        ≡ exprs_seen found.old.items ++ only_within places.from places.to
        (met_behind join.now.kind (conjuncts_of join.now.on))) }
{
    match join.kind {
        JoinKind::Inner => put_conjuncts(&join.on, places, found),
        JoinKind::Left => Ok(()),
        JoinKind::Right => Ok(()),
        JoinKind::Full => Ok(()),
        JoinKind::LeftSemi => put_conjuncts(&join.on, places, found),
    }
}

// Puts what rows in front of these joins have to meet behind the others.
fn put_known<'a>(
    joins: &'a [TypedJoin],
    condition: &'a Option<Boxed<TypedExpr>>,
    places: Places,
    found: &mut Vec<&'a TypedExpr>,
) -> Result<(), NoMemory>
    ensures { OnOk result (exprs_seen found.new.items
        ≡ exprs_seen found.old.items ++ only_within places.from places.to (known joins.now condition.now)) }
{
    for join in joins {
        if !passes(join.kind) {
            return Ok(());
        }
        put_met(join, places, found)?;
    }
    put_conjuncts(condition, places, found)
}

// Puts what the rows of a join's own source have to meet behind the others. These joins stand behind it.
fn put_needed<'a>(
    join: &'a TypedJoin,
    later: &'a [TypedJoin],
    condition: &'a Option<Boxed<TypedExpr>>,
    places: Places,
    found: &mut Vec<&'a TypedExpr>,
) -> Result<(), NoMemory>
    ensures { OnOk result (exprs_seen found.new.items
        ≡ exprs_seen found.old.items ++ only_within places.from places.to
        (known_right join.now.kind (conjuncts_of join.now.on) (known later.now condition.now))) }
{
    match join.kind {
        JoinKind::Inner => {
            put_conjuncts(&join.on, places, found)?;
            put_known(later, condition, places, found)
        }
        JoinKind::Left => put_conjuncts(&join.on, places, found),
        JoinKind::Right => Ok(()),
        JoinKind::Full => Ok(()),
        JoinKind::LeftSemi => put_conjuncts(&join.on, places, found),
    }
}

/// The first source of a FROM, whose rows have so many values.
pub(crate) fn first_use<'a>(
    alloc: Global,
    width: u32,
    joins: &'a [TypedJoin],
    condition: &'a Option<Boxed<TypedExpr>>,
) -> Result<TableUse<'a>, NoMemory>
    ensures { IfOk result (λ one. spot_seen one ≡ spot_at 0 width (known joins.now condition.now)) }
{
    let places = places_at(0, width)?;
    let mut conditions = Vec::new(alloc);
    put_known(joins, condition, places, &mut conditions)?;
    Ok(TableUse {
        base: 0,
        width: width as usize,
        conditions,
    })
}

/// The source of a join behind rows of so many values. These joins stand behind it.
pub(crate) fn joined_use<'a>(
    alloc: Global,
    base: usize,
    join: &'a TypedJoin,
    later: &'a [TypedJoin],
    condition: &'a Option<Boxed<TypedExpr>>,
) -> Result<TableUse<'a>, NoMemory>
    ensures { IfOk result (λ one. spot_seen one ≡ spot_at base join.now.width
        (known_right join.now.kind (conjuncts_of join.now.on) (known later.now condition.now))) }
{
    let places = places_at(base, join.width)?;
    let mut conditions = Vec::new(alloc);
    put_needed(join, later, condition, places, &mut conditions)?;
    Ok(TableUse {
        base,
        width: join.width as usize,
        conditions,
    })
}
