//! Keys of groups, as they are seen. What is made of them for a hasher and what is equal are a row's.

ghost use Rattle.std.specs.Prelude.{◌≡◌, ◌∷◌, IfOk};
ghost use Rattle.std.specs.Ordering.{eq_by_cmp, is_eq};
ghost use Rattle.std.specs.Cmp.{eq_by_cmp_equiv, partial_equiv_from_equiv};
ghost use Rattle.std.specs.Cmp.Lexicographic.{slice_cmp};
ghost use Rattle.std.specs.List.{fold, flat_map};
ghost use Rattle.hv_value.specs.Order.{value_cmp, row_cmp};
ghost use Rattle.hv_value.specs.OrderLaws.{row_cmp_total};
ghost use Rattle.hv_value.specs.Hashing.{value_writes, row_writes};
ghost use Rattle.hv_value.specs.HashingLaws.{row_hash};
ghost use Rattle.hv_typing.specs.Rows.{key_of};
ghost use Rattle.hv_seen.specs.Seen.{seen_value};
ghost use Rattle.hv_eval.specs.Frames.{value_at, values_at, frame_values};
ghost use Rattle.hv_partial.specs.Keys.{part_value, key_values};

use crate::same::same_seen;
use hv_base::NoMemory;
use hv_eval::{Frame, Scope, eval_at, seen_at};
use hv_expr::TypedExpr;
use hv_seen::{Seen, view};
use hv_value::Value;
use std::alloc::Global;
use std::hash::{Hash, Hasher};
use std::marker::Model;

// A value of a key, made where that takes memory.
#[derive(Drop)]
enum KeyPart<'a> {
    Seen(Seen<'a>),
    Made(Value),
}

impl<'a> KeyPart<'a> {
    fn seen(&self) -> Seen<'_>
        ensures { seen_value result ≡ part_value self.now }
    {
        match self {
            KeyPart::Seen(seen) => *seen,
            KeyPart::Made(value) => view(value),
        }
    }
}

/// The key of a row, as it is seen. Contracts see the row of its values.
#[derive(Drop)]
pub struct SeenKey<'a> {
    first: KeyPart<'a>,
    more: Vec<KeyPart<'a>>,
}

impl<'a> Model for SeenKey<'a> {
    ghost use Rattle.std.specs.Prelude.{◌∷◌};
    ghost use Rattle.hv_value.specs.declared.row.Row.{Row};
    ghost use Rattle.hv_value.specs.contracts.row.Row as row;
    ghost use Rattle.hv_partial.specs.Keys.{part_value, key_values};

    ghost Value = { Row };

    ghost coded = { row.the_row.coded };

    ghost view = { λ key. record { values = part_value key.first ∷ key_values key.more.items } };
}

fn part_at<'a>(alloc: Global, expr: &'a TypedExpr, at: &Scope<'a>) -> Result<KeyPart<'a>, NoMemory>
    ensures { IfOk result (λ part. part_value part ≡ value_at at.now expr.now) }
{
    match seen_at(expr, at) {
        Some(seen) => Ok(KeyPart::Seen(seen)),
        None => Ok(KeyPart::Made(eval_at(alloc, expr, at)?)),
    }
}

fn parts_at<'a>(
    alloc: Global,
    exprs: &'a [TypedExpr],
    at: &Scope<'a>,
) -> Result<Vec<KeyPart<'a>>, NoMemory>
    ensures { IfOk result (λ parts. key_values parts.items ≡ values_at exprs.now at.now) }
{
    let mut parts = Vec::new(alloc);
    for expr in exprs {
        parts.push(part_at(alloc, expr, at)?)?;
    }
    Ok(parts)
}

/// What these come to on a row. One that takes no memory takes none as a key.
#[tactic(auto, unfolding(hv_expr::specs::Evaluation::value_of))]
pub fn seen_key<'a>(
    alloc: Global,
    first: &'a TypedExpr,
    more: &'a [TypedExpr],
    row: &Frame<'a>,
) -> Result<SeenKey<'a>, NoMemory>
    ensures { IfOk result (λ key. key ≡ key_of (first.now ∷ more.now) (frame_values row.now)) }
{
    let at = Scope::alone(*row);
    let more = parts_at(alloc, more, &at)?;
    let first = part_at(alloc, first, &at)?;
    Ok(SeenKey { first, more })
}

#[tactic(auto, using(crate::proofs::KeyLaws::sames))]
fn same_parts(left: &[KeyPart], right: &[KeyPart]) -> bool
    ensures { result ≡ is_eq (slice_cmp value_cmp (key_values left.now) (key_values right.now)) }
{
    let [one, others @ ..] = left else {
        return right.is_empty();
    };
    let [other, rest @ ..] = right else {
        return false;
    };
    same_seen(&one.seen(), &other.seen()) && same_parts(others, rest)
}

impl<'a> PartialEq for SeenKey<'a> {
    ghost eq = { eq_by_cmp row_cmp };

    ghost laws = { partial_equiv_from_equiv (eq_by_cmp_equiv row_cmp_total) };

    #[tactic(auto, using(crate::proofs::KeyLaws::sames), unfolding(hv_value::specs::Order::row_cmp))]
    fn eq(&self, other: &SeenKey<'a>) -> bool {
        same_seen(&self.first.seen(), &other.first.seen())
            && same_parts(self.more.as_slice(), other.more.as_slice())
    }
}

impl<'a> Eq for SeenKey<'a> {
    ghost laws = { eq_by_cmp_equiv row_cmp_total };
}

fn hash_seen<H: Hasher>(value: &Seen, state: &mut H)
    ensures { state.new ≡ fold H.write state.old (value_writes (seen_value value.now)) }
{
    match value {
        Seen::Null => state.write_u8(0),
        Seen::False => {
            state.write_u8(1);
            false.hash(state);
        }
        Seen::True => {
            state.write_u8(1);
            true.hash(state);
        }
        Seen::Int(number) => {
            state.write_u8(2);
            number.hash(state);
        }
        Seen::Big(number) => {
            state.write_u8(3);
            number.hash(state);
        }
        Seen::Str(text) => {
            state.write_u8(4);
            (*text).hash(state);
        }
        Seen::Day(number) => {
            state.write_u8(5);
            number.hash(state);
        }
        Seen::Array(items) => {
            state.write_u8(6);
            (*items).hash(state);
        }
    }
}

fn hash_parts<H: Hasher>(parts: &[KeyPart], state: &mut H)
    ensures { state.new ≡ fold H.write state.old (flat_map value_writes (key_values parts.now)) }
{
    for part in parts {
        hash_seen(&part.seen(), state);
    }
}

impl<'a> Hash for SeenKey<'a> {
    ghost hash_input = { row_writes };

    ghost respects_eq = { row_hash.fed };

    fn hash<H: Hasher>(&self, state: &mut H) {
        state.write_usize(self.more.len() + 1);
        hash_seen(&self.first.seen(), state);
        hash_parts(self.more.as_slice(), state);
    }
}
