//! The conjuncts of conditions that stand elsewhere.

ghost use Rattle.std.specs.Prelude.{◌≡◌, ◌++◌, ◌∷◌, [], OnOk};
ghost use Rattle.hv_rewrite.specs.Conditions.{operands_or, conjuncts, conjuncts_of, only_within};
ghost use Rattle.hv_rewrite.specs.Pruned.{exprs_seen};

use crate::places::{Places, looks_only};
use hv_base::{Boxed, NoMemory};
use hv_expr::{Many, TypedExpr};

// Puts the condition behind the others if it looks at these places alone.
fn put_within<'a>(
    condition: &'a TypedExpr,
    places: Places,
    found: &mut Vec<&'a TypedExpr>,
) -> Result<(), NoMemory>
    ensures { OnOk result (exprs_seen found.new.items
        ≡ exprs_seen found.old.items ++ only_within places.from places.to (condition.now ∷ [])) }
{
    if looks_only(condition, places) {
        found.push(condition)?;
    }
    Ok(())
}

fn put_all<'a>(
    conditions: &'a [TypedExpr],
    places: Places,
    found: &mut Vec<&'a TypedExpr>,
) -> Result<(), NoMemory>
    ensures { OnOk result (exprs_seen found.new.items
        ≡ exprs_seen found.old.items ++ only_within places.from places.to conditions.now) }
{
    for condition in conditions {
        put_within(condition, places, found)?;
    }
    Ok(())
}

fn put_operands<'a>(
    condition: &'a TypedExpr,
    function: Many,
    operands: &'a [TypedExpr],
    places: Places,
    found: &mut Vec<&'a TypedExpr>,
) -> Result<(), NoMemory>
    ensures { OnOk result (exprs_seen found.new.items
        ≡ exprs_seen found.old.items ++ only_within places.from places.to
        (operands_or condition.now function operands.now)) }
{
    match function {
        Many::And => put_all(operands, places, found),
        _ => put_within(condition, places, found),
    }
}

#[tactic(auto, using(crate::proofs::Truths::apart))]
fn put_condition<'a>(
    condition: &'a TypedExpr,
    places: Places,
    found: &mut Vec<&'a TypedExpr>,
) -> Result<(), NoMemory>
    ensures { OnOk result (exprs_seen found.new.items
        ≡ exprs_seen found.old.items ++ only_within places.from places.to (conjuncts condition.now)) }
{
    match condition {
        TypedExpr::Many(function, _, operands) => {
            put_operands(condition, *function, operands.as_slice(), places, found)
        }
        _ => put_within(condition, places, found),
    }
}

/// Puts the conjuncts that look at these places alone behind the others.
pub(crate) fn put_conjuncts<'a>(
    condition: &'a Option<Boxed<TypedExpr>>,
    places: Places,
    found: &mut Vec<&'a TypedExpr>,
) -> Result<(), NoMemory>
    ensures { OnOk result (exprs_seen found.new.items
        ≡ exprs_seen found.old.items ++ only_within places.from places.to (conjuncts_of condition.now)) }
{
    match condition {
        None => Ok(()),
        Some(condition) => put_condition(condition.get(), places, found),
    }
}
