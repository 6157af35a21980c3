ghost use Rattle.hv_rowfile.specs.Layout.{element_spelling, value_spelling};
ghost use Rattle.hv_rowfile.specs.Writing.{IsElement, IsValue, CanPutElement, CanPutValue};
ghost use Rattle.hv_rowfile.specs.Reading.{element_at, value_at};

use crate::reading::values::{read_element, read_value};
use crate::writing::values::{element_length, put_element, put_value, value_length};
use hv_bytes::{Field, FieldFault};
use hv_value::Value;
use std::alloc::Global;

/// The form of an array's elements, which are no arrays.
pub struct Elements;

impl Field<Value> for Elements {
    ghost spelling = { element_spelling };

    ghost at = { element_at };

    ghost Has = { IsElement };

    ghost CanPut = { CanPutElement };

    fn read(alloc: Global, bytes: &[u8]) -> Result<(Value, &[u8]), FieldFault> {
        read_element(alloc, bytes)
    }

    fn byte_count(item: &Value) -> usize {
        element_length(item)
    }

    fn put(out: &mut Vec<u8>, item: &Value) {
        put_element(out, item);
    }
}

/// The form of a row's values.
pub struct Values;

impl Field<Value> for Values {
    ghost spelling = { value_spelling };

    ghost at = { value_at };

    ghost Has = { IsValue };

    ghost CanPut = { CanPutValue };

    fn read(alloc: Global, bytes: &[u8]) -> Result<(Value, &[u8]), FieldFault> {
        read_value(alloc, bytes)
    }

    fn byte_count(item: &Value) -> usize {
        value_length(item)
    }

    fn put(out: &mut Vec<u8>, item: &Value) {
        put_value(out, item);
    }
}
