ghost use Rattle.std.specs.Prelude.{◌≡◌, length};
ghost use Rattle.hv_bytes.specs.Writing.{HasRoom, Appends};
ghost use Rattle.hv_rowfile.specs.Layout.{element_spelling, value_spelling, ElementFits, ValueFits};
ghost use Rattle.hv_rowfile.specs.Writing.{IsElement, IsValue, CanPutElement, CanPutValue};

use crate::forms::Elements;
use hv_base::Text;
use hv_bytes::{items_length, put_byte, put_items, put_text, put_u32, put_u64, text_length};
use hv_value::Value;

/// How many bytes spell an element of an array.
#[tactic(auto, using(crate::proofs::Values::lengths))]
pub fn element_length(value: &Value) -> usize
    requires { CanPutElement value.now }
    ensures { result ≡ length (element_spelling value.now) }
{
    match value {
        Value::Null => 1,
        Value::Bool(_) => 2,
        Value::Int(_) => 5,
        Value::Big(_) => 9,
        Value::Str(text) => 1 + text_length(text),
        Value::Day(_) => 5,
        Value::Array(_) => 0,
    }
}

/// How many bytes spell a value of a row.
#[tactic(auto, using(crate::proofs::Values::lengths))]
pub fn value_length(value: &Value) -> usize
    requires { CanPutValue value.now }
    ensures { result ≡ length (value_spelling value.now) }
{
    match value {
        Value::Array(items) => 5 + items_length::<Value, Elements>(items.as_slice()),
        _ => element_length(value),
    }
}

#[inline]
#[tactic(auto, using(crate::proofs::Values::lengths, crate::proofs::Values::elements))]
fn put_truth(out: &mut Vec<u8>, truth: bool)
    requires { HasRoom out.old (element_spelling (Value.Bool truth)) }
    ensures appended { Appends out.old out.new (element_spelling (Value.Bool truth)) }
    ensures fits { ElementFits (Value.Bool truth) }
{
    put_byte(out, 1);
    put_byte(out, u8::from(truth));
}

#[inline]
#[tactic(auto, using(crate::proofs::Values::lengths, crate::proofs::Values::elements))]
fn put_int(out: &mut Vec<u8>, n: &i32)
    requires { HasRoom out.old (element_spelling (Value.Int n.now)) }
    ensures appended { Appends out.old out.new (element_spelling (Value.Int n.now)) }
    ensures fits { ElementFits (Value.Int n.now) }
{
    put_byte(out, 2);
    put_u32(out, n.cast_unsigned());
}

#[inline]
#[tactic(auto, using(crate::proofs::Values::lengths, crate::proofs::Values::elements))]
fn put_big(out: &mut Vec<u8>, n: &i64)
    requires { HasRoom out.old (element_spelling (Value.Big n.now)) }
    ensures appended { Appends out.old out.new (element_spelling (Value.Big n.now)) }
    ensures fits { ElementFits (Value.Big n.now) }
{
    put_byte(out, 3);
    put_u64(out, n.cast_unsigned());
}

#[inline]
#[tactic(auto, using(crate::proofs::Values::lengths, crate::proofs::Values::elements))]
fn put_string(out: &mut Vec<u8>, text: &Text)
    requires room { HasRoom out.old (element_spelling (Value.Str text.now)) }
    requires can { CanPutElement (Value.Str text.now) }
    ensures appended { Appends out.old out.new (element_spelling (Value.Str text.now)) }
    ensures fits { ElementFits (Value.Str text.now) }
{
    put_byte(out, 4);
    put_text(out, text);
}

#[inline]
#[tactic(auto, using(crate::proofs::Values::lengths, crate::proofs::Values::elements))]
fn put_day(out: &mut Vec<u8>, day: &i32)
    requires { HasRoom out.old (element_spelling (Value.Day day.now)) }
    ensures appended { Appends out.old out.new (element_spelling (Value.Day day.now)) }
    ensures fits { ElementFits (Value.Day day.now) }
{
    put_byte(out, 5);
    put_u32(out, day.cast_unsigned());
}

/// Writes a value that is no array.
#[tactic(auto, using(crate::proofs::Values::lengths, crate::proofs::Values::elements))]
pub fn put_element(out: &mut Vec<u8>, value: &Value)
    requires room { HasRoom out.old (element_spelling value.now) }
    requires can { CanPutElement value.now }
    ensures appended { Appends out.old out.new (element_spelling value.now) }
    ensures has { IsElement value.now }
{
    match value {
        Value::Null => put_byte(out, 0),
        Value::Bool(truth) => put_truth(out, *truth),
        Value::Int(number) => put_int(out, number),
        Value::Big(number) => put_big(out, number),
        Value::Str(text) => put_string(out, text),
        Value::Day(day) => put_day(out, day),
        Value::Array(_) => {}
    }
}

#[tactic(auto, using(crate::proofs::Values::lengths, crate::proofs::Values::elements))]
fn put_array(out: &mut Vec<u8>, items: &[Value])
    requires room { HasRoom out.old (value_spelling (Value.Array items.now)) }
    requires can { CanPutValue (Value.Array items.now) }
    ensures appended { Appends out.old out.new (value_spelling (Value.Array items.now)) }
    ensures fits { ValueFits (Value.Array items.now) }
{
    put_byte(out, 6);
    put_u32(out, items.len() as u32);
    put_items::<Value, Elements>(out, items);
}

pub fn put_value(out: &mut Vec<u8>, value: &Value)
    requires room { HasRoom out.old (value_spelling value.now) }
    requires can { CanPutValue value.now }
    ensures appended { Appends out.old out.new (value_spelling value.now) }
    ensures has { IsValue value.now }
{
    match value {
        Value::Array(items) => put_array(out, items.as_slice()),
        _ => put_element(out, value),
    }
}
