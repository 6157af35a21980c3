ghost use Rattle.std.specs.Prelude.{◌≡◌, length};
ghost use Rattle.std.specs.Hash as fed;
ghost use Rattle.std.specs.List.{fold, flat_map};
ghost use Rattle.hv_value.specs.Hashing.{value_writes, row_writes};
ghost use Rattle.hv_value.specs.HashingLaws.{value_hash, row_hash};

use crate::row::Row;
use crate::value::Value;
use std::hash::{Hash, Hasher};

#[cycle(value_hashes)]
fn hash_value<H: Hasher>(value: &Value, state: &mut H)
    ensures { state.new ≡ fold H.write state.old (value_writes value.now) }
{
    match value {
        Value::Null => state.write_u8(0),
        Value::Bool(truth) => {
            state.write_u8(1);
            truth.hash(state);
        }
        Value::Int(number) => {
            state.write_u8(2);
            number.hash(state);
        }
        Value::Big(number) => {
            state.write_u8(3);
            number.hash(state);
        }
        Value::Str(text) => {
            state.write_u8(4);
            text.hash(state);
        }
        Value::Day(day) => {
            state.write_u8(5);
            day.hash(state);
        }
        Value::Array(items) => {
            state.write_u8(6);
            state.write_usize(items.len());
            hash_all(items.as_slice(), state);
        }
    }
}

#[cycle(value_hashes)]
fn hash_all<H: Hasher>(values: &[Value], state: &mut H)
    ensures { state.new ≡ fold H.write state.old (flat_map value_writes values.now) }
{
    for value in values {
        hash_value(value, state);
    }
}

impl Hash for Value {
    ghost hash_input = { value_writes };

    ghost respects_eq = { value_hash.fed };

    fn hash<H: Hasher>(&self, state: &mut H) {
        hash_value(self, state);
    }
}

impl Hash for Row {
    ghost hash_input = { row_writes };

    ghost respects_eq = { row_hash.fed };

    fn hash<H: Hasher>(&self, state: &mut H) {
        state.write_usize(self.values.len());
        hash_all(self.values.as_slice(), state);
    }
}
