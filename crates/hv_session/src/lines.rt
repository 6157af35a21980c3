//! Replies to statements that were never opened.

ghost use Rattle.std.specs.Prelude.{◌≡◌, List, ℕ, IfOk, None};
ghost use Rattle.hv_history.specs.Answers.{failed_line, cause_text};
ghost use Rattle.hv_history.specs.declared.entry.Cause.TheVariants as cause;
ghost use Rattle.hv_reading.specs.Faults.{IsRefusalOf};
ghost use Rattle.hv_session.specs.Faults.{IsFaultLine, placed_line};
ghost use Rattle.hv_session.specs.Lines.{IsLine, IsTextLine, IsFullLine};

use hv_base::{List, NoMemory, Refusal};
use hv_beginning::hv_steps::Reply;
use hv_history::{Cause, cause_text};
use hv_reading::TextFault;
use std::alloc::Global;

/// The line of a refusal of this number, and what it names.
#[tactic(auto, unfolding(hv_history::specs::Answers::failed_line))]
fn failed_line(alloc: Global, number: u32, text: &str) -> Result<Vec<u8>, NoMemory>
    ensures { IfOk result (λ line. line.items ≡ failed_line number text.now) }
{
    let line = format!(in alloc; "FAILED {number} {text}\n")?;
    Ok(line.into_bytes())
}

/// The line of a refusal at a place of the text.
#[tactic(auto, unfolding(crate::specs::Faults::placed_line))]
fn placed_line(alloc: Global, refusal: Refusal, at: u64) -> Result<Vec<u8>, NoMemory>
    ensures { IfOk result (λ line. line.items ≡ placed_line refusal at) }
{
    let name = refusal.name();
    let text = format!(in alloc; "{name} at {at}")?;
    failed_line(alloc, refusal.number(), text.as_str())
}

/// The line of a text that is refused.
#[tactic(auto, unfolding(crate::specs::Faults::fault_line))]
fn fault_line(alloc: Global, fault: TextFault) -> Result<Vec<u8>, NoMemory>
    ensures line { IfOk result (λ line. (text : List ℕ) → IsRefusalOf fault text
        → IsFaultLine text line.items) }
{
    match fault {
        TextFault::BadCharacter { at } => placed_line(alloc, Refusal::BadCharacter, at),
        TextFault::OpenString { at } => placed_line(alloc, Refusal::OpenString, at),
        TextFault::WideNumber { at } => placed_line(alloc, Refusal::WideNumber, at),
        TextFault::Syntax => failed_line(alloc, Refusal::Syntax.number(), Refusal::Syntax.name()),
        TextFault::Nesting { at } => placed_line(alloc, Refusal::Nesting, at),
        TextFault::NoMemory => Err(NoMemory),
    }
}

fn refused(line: Vec<u8>) -> Reply
    ensures line { IsLine line.items result }
{
    Reply {
        text: List::from_vec(line),
        refused: true,
        ended: None,
    }
}

/// The reply where memory lacks.
pub fn memory_reply(alloc: Global) -> Result<Reply, NoMemory>
    ensures line { IfOk result (IsLine (cause_text None cause.Memory)) }
{
    Ok(refused(cause_text(alloc, &None, &Cause::Memory)?))
}

/// The reply where the journal has no room for the statement; that of want of memory where there is none for the reply.
pub fn full_reply(alloc: Global) -> Result<Reply, NoMemory>
    ensures line { IfOk result IsFullLine }
{
    match cause_text(alloc, &None, &Cause::Full) {
        Ok(line) => Ok(refused(line)),
        Err(NoMemory) => memory_reply(alloc),
    }
}

/// The reply to a text that doesn't run; that of want of memory where it couldn't be read, or there is none for the reply.
pub fn text_reply(alloc: Global, fault: TextFault) -> Result<Reply, NoMemory>
    ensures line { IfOk result (λ reply. (text : List ℕ) → IsRefusalOf fault text → IsTextLine text reply) }
{
    match fault_line(alloc, fault) {
        Ok(line) => Ok(refused(line)),
        Err(NoMemory) => memory_reply(alloc),
    }
}
