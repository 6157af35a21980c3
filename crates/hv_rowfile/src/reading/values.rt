ghost use Rattle.std.specs.Prelude.{◌≡◌, ◌∷◌, ◌++◌, IfOk};
ghost use Rattle.hv_bytes.specs.Reading.{Gives};
ghost use Rattle.hv_rowfile.specs.Layout.{element_spelling, value_spelling, ElementIsTaken, ElementFits, ValueIsTaken, ValueFits};
ghost use Rattle.hv_rowfile.specs.Reading.{bool_value_at, int_value_at, big_value_at, text_value_at, day_value_at, flat_at, element_at, array_value_at, value_at};

use crate::forms::Elements;
use crate::reading::fields::{read_big, read_int, read_truth};
use hv_base::List;
use hv_bytes::{FieldFault, read_items, read_text, read_u32};
use hv_value::{Value, is_day};
use std::alloc::Global;

#[tactic(auto, unfolding(crate::specs::Reading::bool_value_at), using(crate::proofs::Values::read_elements))]
fn read_bool(bytes: &[u8]) -> Result<(Value, &[u8]), FieldFault>
    ensures exact { Gives (λ x. (x.0, x.1.now)) result (bool_value_at bytes.now) }
    ensures found { IfOk result (λ x. ElementIsTaken x.0 × ElementFits x.0
        × (1 ∷ bytes.now ≡ element_spelling x.0 ++ x.1.now)) }
{
    let (truth, rest) = read_truth(bytes)?;
    Ok((Value::Bool(truth), rest))
}

#[tactic(auto, unfolding(crate::specs::Reading::int_value_at), using(crate::proofs::Values::read_elements))]
fn read_int_value(bytes: &[u8]) -> Result<(Value, &[u8]), FieldFault>
    ensures exact { Gives (λ x. (x.0, x.1.now)) result (int_value_at bytes.now) }
    ensures found { IfOk result (λ x. ElementIsTaken x.0 × ElementFits x.0
        × (2 ∷ bytes.now ≡ element_spelling x.0 ++ x.1.now)) }
{
    let (number, rest) = read_int(bytes)?;
    Ok((Value::Int(number), rest))
}

#[tactic(auto, unfolding(crate::specs::Reading::big_value_at), using(crate::proofs::Values::read_elements))]
fn read_big_value(bytes: &[u8]) -> Result<(Value, &[u8]), FieldFault>
    ensures exact { Gives (λ x. (x.0, x.1.now)) result (big_value_at bytes.now) }
    ensures found { IfOk result (λ x. ElementIsTaken x.0 × ElementFits x.0
        × (3 ∷ bytes.now ≡ element_spelling x.0 ++ x.1.now)) }
{
    let (number, rest) = read_big(bytes)?;
    Ok((Value::Big(number), rest))
}

#[tactic(auto, unfolding(crate::specs::Reading::text_value_at), using(crate::proofs::Values::read_elements))]
fn read_text_value(alloc: Global, bytes: &[u8]) -> Result<(Value, &[u8]), FieldFault>
    ensures exact { Gives (λ x. (x.0, x.1.now)) result (text_value_at bytes.now) }
    ensures found { IfOk result (λ x. ElementIsTaken x.0 × ElementFits x.0
        × (4 ∷ bytes.now ≡ element_spelling x.0 ++ x.1.now)) }
{
    let (text, rest) = read_text(alloc, bytes)?;
    Ok((Value::Str(text), rest))
}

#[tactic(auto, unfolding(crate::specs::Reading::day_value_at), using(crate::proofs::Values::read_elements))]
fn read_day(bytes: &[u8]) -> Result<(Value, &[u8]), FieldFault>
    ensures exact { Gives (λ x. (x.0, x.1.now)) result (day_value_at bytes.now) }
    ensures found { IfOk result (λ x. ElementIsTaken x.0 × ElementFits x.0
        × (5 ∷ bytes.now ≡ element_spelling x.0 ++ x.1.now)) }
{
    let (day, rest) = read_int(bytes)?;
    if !is_day(day) {
        return Err(FieldFault::Damaged);
    }
    Ok((Value::Day(day), rest))
}

/// The value that stands behind this tag, no array.
#[tactic(auto, using(crate::proofs::Values::read_elements))]
fn read_flat(alloc: Global, tag: u8, rest: &[u8]) -> Result<(Value, &[u8]), FieldFault>
    ensures exact { Gives (λ x. (x.0, x.1.now)) result (flat_at tag rest.now) }
    ensures found { IfOk result (λ x. ElementIsTaken x.0 × ElementFits x.0
        × (tag ∷ rest.now ≡ element_spelling x.0 ++ x.1.now)) }
{
    match tag {
        0 => Ok((Value::Null, rest)),
        1 => read_bool(rest),
        2 => read_int_value(rest),
        3 => read_big_value(rest),
        4 => read_text_value(alloc, rest),
        5 => read_day(rest),
        _ => Err(FieldFault::Damaged),
    }
}

#[tactic(auto, unfolding(crate::specs::Reading::element_at))]
pub fn read_element(alloc: Global, bytes: &[u8]) -> Result<(Value, &[u8]), FieldFault>
    ensures exact { Gives (λ x. (x.0, x.1.now)) result (element_at bytes.now) }
    ensures found { IfOk result (λ x. ElementIsTaken x.0 × ElementFits x.0
        × (bytes.now ≡ element_spelling x.0 ++ x.1.now)) }
{
    match bytes {
        [] => Err(FieldFault::Damaged),
        [tag, rest @ ..] => read_flat(alloc, *tag, rest),
    }
}

#[tactic(auto, unfolding(crate::specs::Reading::array_value_at))]
fn read_array(alloc: Global, bytes: &[u8]) -> Result<(Value, &[u8]), FieldFault>
    ensures exact { Gives (λ x. (x.0, x.1.now)) result (array_value_at bytes.now) }
    ensures found { IfOk result (λ x. ValueIsTaken x.0 × ValueFits x.0
        × (6 ∷ bytes.now ≡ value_spelling x.0 ++ x.1.now)) }
{
    let (count, rest) = read_u32(bytes)?;
    let (items, rest) = read_items::<Value, Elements>(alloc, count, rest)?;
    Ok((Value::Array(List::from_vec(items)), rest))
}

/// The value that stands behind this tag in a row, no array.
fn read_flat_value(alloc: Global, tag: u8, rest: &[u8]) -> Result<(Value, &[u8]), FieldFault>
    ensures exact { Gives (λ x. (x.0, x.1.now)) result (flat_at tag rest.now) }
    ensures found { IfOk result (λ x. ValueIsTaken x.0 × ValueFits x.0
        × (tag ∷ rest.now ≡ value_spelling x.0 ++ x.1.now)) }
{
    let (value, after) = read_flat(alloc, tag, rest)?;
    Ok((value, after))
}

#[tactic(auto, unfolding(crate::specs::Reading::value_at))]
pub fn read_value(alloc: Global, bytes: &[u8]) -> Result<(Value, &[u8]), FieldFault>
    ensures exact { Gives (λ x. (x.0, x.1.now)) result (value_at bytes.now) }
    ensures found { IfOk result (λ x. ValueIsTaken x.0 × ValueFits x.0
        × (bytes.now ≡ value_spelling x.0 ++ x.1.now)) }
{
    match bytes {
        [] => Err(FieldFault::Damaged),
        [6, rest @ ..] => read_array(alloc, rest),
        [tag, rest @ ..] => read_flat_value(alloc, *tag, rest),
    }
}
