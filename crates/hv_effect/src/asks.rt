//! A compaction that is asked for.

ghost use Rattle.std.specs.Prelude.{◌≡◌, IfOk, nat_le, length};
ghost use Rattle.hv_route.specs.Touching.{text_limit};
ghost use Rattle.hv_meaning.specs.Meaning.{asked_partition, asking, unless_long};

use crate::rows::row_over_none;
use crate::touching::{Touching, untouched};
use hv_base::{NoMemory, Text};
use hv_logic::Meaning;
use hv_route::partition_text;
use hv_typing::TypedAsk;
use std::alloc::Global;

const TEXT_LIMIT: usize = 240;

/// The text of the partition that the values give.
fn asked_partition(alloc: Global, ask: &TypedAsk) -> Result<Text, NoMemory>
    ensures { IfOk result (λ text. text ≡ asked_partition ask.now) }
{
    let parts = ask.table.shape.parts.as_slice();
    let row = row_over_none(alloc, parts, ask.values.as_slice())?;
    let text = partition_text(alloc, parts, row.values.as_slice())?;
    Ok(text)
}

fn is_short(text: &Text) -> bool
    ensures { result ≡ nat_le (length text.now) text_limit }
{
    text.len() <= TEXT_LIMIT
}

fn unless_long(alloc: Global, ask: &TypedAsk, text: Text) -> Touching
    ensures { result ≡ unless_long ask.now text }
{
    if is_short(&text) {
        untouched(alloc, Meaning::Ask(ask.table.table, text, ask.kind))
    } else {
        untouched(alloc, Meaning::PartitionLimit)
    }
}

/// What it comes to.
pub(crate) fn asking(alloc: Global, ask: &TypedAsk) -> Result<Touching, NoMemory>
    ensures { IfOk result (λ meaning. meaning ≡ asking ask.now) }
{
    let text = asked_partition(alloc, ask)?;
    Ok(unless_long(alloc, ask, text))
}
