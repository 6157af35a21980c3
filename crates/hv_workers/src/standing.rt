//! Rows in front of WHERE, where they stand, and parts of them.

ghost use Rattle.std.specs.Prelude.{◌≡◌, length, filter, IfOk};
ghost use Rattle.hv_typing.specs.Rows.{is_met};
ghost use Rattle.hv_eval.specs.Frames.{frames_values};
ghost use Rattle.hv_chunks.specs.Chunks.{chunks_seen};
ghost use Rattle.hv_workers.specs.Standing.{frames_between, units_in};

use hv_base::{Boxed, NoMemory};
use hv_eval::Frame;
use hv_exec::filtered;
use hv_expr::TypedExpr;
use hv_joins::{Line, SourceRows, frames_met_at, frames_of_lines, size_of};
use hv_shuffle::part_of;
use std::alloc::Global;

/// The rows of one source, or joined ones in chunks.
#[derive(Clone, Copy)]
pub(crate) enum Standing<'a> {
    Source(&'a SourceRows<'a>),
    Chunks(&'a [Vec<Line<'a>>]),
}

impl<'a> Standing<'a> {
    /// How many rows there are, or chunks.
    #[tactic(auto, using(crate::proofs::StandingLaws::lengths))]
    pub(crate) fn len(&self) -> usize
        ensures { result ≡ length (units_in self.now) }
    {
        match self {
            Standing::Source(source) => size_of(source),
            Standing::Chunks(chunks) => chunks.len(),
        }
    }
}

fn frames_of_chunks<'a>(
    alloc: Global,
    chunks: &'a [Vec<Line<'a>>],
) -> Result<Vec<Frame<'a>>, NoMemory>
    ensures { IfOk result (λ frames. frames_values frames.items ≡ chunks_seen chunks.now) }
{
    let mut frames = Vec::new(alloc);
    for chunk in chunks {
        let mut more = frames_of_lines(alloc, chunk.as_slice())?;
        frames.append(&mut more)?;
    }
    Ok(frames)
}

fn frames_in_chunks<'a>(
    alloc: Global,
    condition: &'a Option<Boxed<TypedExpr>>,
    chunks: &'a [Vec<Line<'a>>],
) -> Result<Vec<Frame<'a>>, NoMemory>
    ensures { IfOk result (λ frames. frames_values frames.items ≡ filter (is_met condition.now) (chunks_seen chunks.now)) }
{
    let frames = frames_of_chunks(alloc, chunks)?;
    let met = filtered(alloc, condition, frames)?;
    Ok(met)
}

/// The rows of a range on which the condition is true, as expressions see them.
pub(crate) fn frames_for<'a>(
    alloc: Global,
    condition: &'a Option<Boxed<TypedExpr>>,
    standing: &Standing<'a>,
    from: usize,
    count: usize,
) -> Result<Vec<Frame<'a>>, NoMemory>
    ensures { IfOk result (λ frames. frames_values frames.items ≡ filter (is_met condition.now) (frames_between standing.now from count)) }
{
    match standing {
        Standing::Source(source) => frames_met_at(alloc, condition, *source, from, count),
        Standing::Chunks(chunks) => {
            frames_in_chunks(alloc, condition, part_of(*chunks, from, count))
        }
    }
}
