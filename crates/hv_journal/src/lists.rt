ghost use Rattle.hv_history.specs.Spelling.{touch_spelling, TouchHasSpelling};
ghost use Rattle.hv_journal.specs.Reading.{touch_at};
ghost use Rattle.hv_journal.specs.Writing.{CanPutTouch};

use crate::reading::fields::read_touch;
use crate::writing::fields::put_touch;
use crate::writing::lengths::touch_length;
use hv_base::Touch;
use hv_bytes::{Field, FieldFault};
use std::alloc::Global;

/// The form of what a transaction wrote.
pub struct Touches;

impl Field<Touch> for Touches {
    ghost spelling = { touch_spelling };

    ghost at = { touch_at };

    ghost Has = { TouchHasSpelling };

    ghost CanPut = { CanPutTouch };

    fn read(alloc: Global, bytes: &[u8]) -> Result<(Touch, &[u8]), FieldFault> {
        read_touch(alloc, bytes)
    }

    fn byte_count(item: &Touch) -> usize {
        touch_length(item)
    }

    fn put(out: &mut Vec<u8>, item: &Touch) {
        put_touch(out, item);
    }
}
