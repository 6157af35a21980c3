ghost use Rattle.std.specs.Int.{w32, w64};
ghost use Rattle.std.specs.List.{AllByRecursion};
ghost use Rattle.std.specs.Prelude.{FitsSigned};
ghost use Rattle.hv_route.specs.Back.{IsHeld, AreHeld};
ghost use Rattle.hv_value.specs.declared.value.Value.TheVariants as value;

use hv_base::Text;
use hv_value::{Row, Value};

// Reading a value shows what its type holds.

fn int_fits(_number: i32)
    ensures { FitsSigned w32 _number }
{}

fn big_fits(_number: i64)
    ensures { FitsSigned w64 _number }
{}

#[tactic(auto, using(crate::proofs::HeldLemmas::held))]
fn see_int(number: &i32)
    ensures { IsHeld (value.Int number.now) }
{
    int_fits(*number);
}

#[tactic(auto, using(crate::proofs::HeldLemmas::held))]
fn see_big(number: &i64)
    ensures { IsHeld (value.Big number.now) }
{
    big_fits(*number);
}

#[tactic(auto, using(crate::proofs::HeldLemmas::held))]
fn see_text(text: &Text)
    ensures { IsHeld (value.Str text.now) }
{
    text.bytes();
}

#[tactic(auto, using(crate::proofs::HeldLemmas::held))]
fn see_value(value: &Value)
    ensures { IsHeld value.now }
{
    match value {
        Value::Int(number) => see_int(number),
        Value::Big(number) => see_big(number),
        Value::Str(text) => see_text(text),
        Value::Null => {}
        Value::Bool(_) => {}
        Value::Day(_) => {}
        Value::Array(_) => {}
    }
}

fn see_values(values: &[Value])
    ensures { AllByRecursion IsHeld values.now }
{
    for value in values {
        see_value(value);
    }
}

/// Each value of these rows is one that its type holds: a number of its width, a text in UTF-8. It takes no memory.
pub fn see_rows(rows: &[Row])
    ensures { AreHeld rows.now }
{
    for row in rows {
        see_values(row.values.as_slice());
    }
}
