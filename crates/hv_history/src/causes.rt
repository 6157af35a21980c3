ghost use Rattle.std.specs.Prelude.{◌≡◌, ◌++◌, IfOk, string_bytes, codes};
ghost use Rattle.std.specs.Fmt.{decimal};
ghost use Rattle.hv_base.specs.declared.refusal.Refusal.TheVariants as refusal;
ghost use Rattle.hv_history.specs.Answers.{refusal_name, failed_line, refused_line, conflict_text, after_space, name_at, row_text, five_digits, place_text, cause_text};

use crate::entry::{Cause, FilePlace};
use crate::numbers::numbered;
use crate::state::Snapshot;
use hv_base::{NoMemory, Refusal, RowId, Text};
use std::alloc::Global;

/// The name of the refusal of a number, empty where there is none.
pub fn refusal_name(number: u32) -> &'static str
    ensures { result.now ≡ refusal_name number }
{
    match Refusal::of_number(number) {
        Some(refusal) => refusal.name(),
        None => "",
    }
}

#[tactic(auto, unfolding(crate::specs::Answers::failed_line))]
fn failed_line(alloc: Global, number: u32, text: &str) -> Result<Vec<u8>, NoMemory>
    ensures { IfOk result (λ line. line.items ≡ failed_line number text.now) }
{
    let line = format!(in alloc; "FAILED {number} {text}\n")?;
    Ok(line.into_bytes())
}

// A space and the text, where there is one.
fn after_space(alloc: Global, text: &Text) -> Result<String, NoMemory>
    ensures { IfOk result (λ spaced. string_bytes spaced ≡ after_space text.now) }
{
    if text.is_empty() {
        Ok(String::new(alloc))
    } else {
        Ok(format!(in alloc; " {text}")?)
    }
}

fn name_at(snapshot: &Option<Snapshot>, table: u64) -> &str
    ensures { result.now ≡ name_at snapshot.now table }
{
    match snapshot {
        Some(snapshot) => match numbered(snapshot.tables.as_slice(), table) {
            Some(table) => table.info.shape.name.as_str(),
            None => "",
        },
        None => "",
    }
}

fn row_text(alloc: Global, id: &RowId) -> Result<String, NoMemory>
    ensures { IfOk result (λ text. string_bytes text ≡ row_text id.now) }
{
    let write = id.write.0;
    let statement = id.statement;
    let bucket = id.bucket;
    let row = id.row;
    Ok(format!(in alloc; "{write}:{statement}:{bucket}:{row}")?)
}

// The last five digits of a number.
fn five_digits(alloc: Global, number: u32) -> Result<String, NoMemory>
    ensures { IfOk result (λ text. string_bytes text ≡ five_digits number) }
{
    let first = number / 10_000 % 10;
    let second = number / 1000 % 10;
    let third = number / 100 % 10;
    let fourth = number / 10 % 10;
    let fifth = number % 10;
    Ok(format!(in alloc; "{first}{second}{third}{fourth}{fifth}")?)
}

fn place_text(alloc: Global, place: &FilePlace) -> Result<String, NoMemory>
    ensures { IfOk result (λ text. string_bytes text ≡ place_text place.now) }
{
    let dir = place.dir.as_str();
    let bucket = five_digits(alloc, place.bucket)?;
    Ok(format!(in alloc; "{dir}/bucket_{bucket}")?)
}

// The line of a refusal, with what stands behind its name.
fn refused_line(alloc: Global, refusal: Refusal, more: &str) -> Result<Vec<u8>, NoMemory>
    ensures { IfOk result (λ line. line.items ≡ refused_line refusal more.now) }
{
    let name = refusal.name();
    let text = format!(in alloc; "{name}{more}")?;
    failed_line(alloc, refusal.number(), text.as_str())
}

// The same with words and a number.
fn counted_line(
    alloc: Global,
    refusal: Refusal,
    words: &str,
    count: u64,
) -> Result<Vec<u8>, NoMemory>
    ensures { IfOk result (λ line. line.items ≡ refused_line refusal (words.now ++ decimal count)) }
{
    let more = format!(in alloc; "{words}{count}")?;
    refused_line(alloc, refusal, more.as_str())
}

/// What is printed for a conflict with this transaction, in a partition of the table of this name.
pub fn conflict_text(
    alloc: Global,
    by: u64,
    table: &str,
    partition: &Text,
) -> Result<Vec<u8>, NoMemory>
    ensures { IfOk result (λ line. line.items ≡ conflict_text by table.now partition.now) }
{
    let place = after_space(alloc, partition)?;
    let more = format!(in alloc; " with {by} on {table}{place}")?;
    refused_line(alloc, Refusal::Conflict, more.as_str())
}

fn twice_line(alloc: Global, id: &RowId, partition: &Text) -> Result<Vec<u8>, NoMemory>
    ensures { IfOk result (λ line. line.items
        ≡ refused_line refusal.MergeTwice (codes " " ++ row_text id.now ++ after_space partition.now)) }
{
    let row = row_text(alloc, id)?;
    let place = after_space(alloc, partition)?;
    let more = format!(in alloc; " {row}{place}")?;
    refused_line(alloc, Refusal::MergeTwice, more.as_str())
}

fn damaged_line(alloc: Global, place: &FilePlace) -> Result<Vec<u8>, NoMemory>
    ensures { IfOk result (λ line. line.items ≡ refused_line refusal.Damaged (codes " "
        ++ place_text place.now ++ codes " at " ++ decimal place.now.at)) }
{
    let file = place_text(alloc, place)?;
    let at = place.at;
    let more = format!(in alloc; " {file} at {at}")?;
    refused_line(alloc, Refusal::Damaged, more.as_str())
}

/// What is printed for a transaction that ended of this cause.
#[tactic(auto, unfolding(crate::specs::Answers::cause_text))]
pub fn cause_text(
    alloc: Global,
    snapshot: &Option<Snapshot>,
    cause: &Cause,
) -> Result<Vec<u8>, NoMemory>
    ensures { IfOk result (λ text. text.items ≡ cause_text snapshot.now cause.now) }
{
    match cause {
        Cause::Refused { number } => failed_line(alloc, *number, refusal_name(*number)),
        Cause::Conflict {
            with,
            table,
            partition,
        } => conflict_text(alloc, with.0, name_at(snapshot, table.0), partition),
        Cause::Request { by } => counted_line(alloc, Refusal::Aborted, " by ", by.0),
        Cause::Full => refused_line(alloc, Refusal::JournalFull, ""),
        Cause::Twice { partition, row } => twice_line(alloc, row, partition),
        Cause::Blocked { holder } => counted_line(alloc, Refusal::Blocked, " by ", holder.0),
        Cause::ReadFault { count } => counted_line(alloc, Refusal::ReadFault, " ", *count),
        Cause::WriteFault { count } => counted_line(alloc, Refusal::WriteFault, " ", *count),
        Cause::Damaged { place } => damaged_line(alloc, place),
        Cause::RowLimit => refused_line(alloc, Refusal::RowLimit, ""),
        Cause::PartitionLimit => refused_line(alloc, Refusal::PartitionLimit, ""),
        Cause::Memory => refused_line(alloc, Refusal::NoMemory, ""),
        Cause::Lost | Cause::Rollback => Ok(Vec::new(alloc)),
    }
}
