//! What is printed.

use hv_ast::CompactionKind;
use hv_base::{NoMemory, Refusal, Text};
use hv_logic::Found;
use hv_value::{Row, print_value};
use std::alloc::Global;

pub(crate) fn refusal(alloc: Global, refusal: Refusal, out: &mut Vec<u8>) -> Result<(), NoMemory> {
    let number = refusal.number();
    let name = refusal.name();
    let text = format!(in alloc; "{number} {name}")?;
    Ok(out.extend_from_slice(text.as_bytes())?)
}

/// The names of columns, with commas between them.
pub(crate) fn names(names: &[Text], out: &mut Vec<u8>) -> Result<(), NoMemory> {
    for (i, name) in names.iter().enumerate() {
        if i > 0 {
            out.extend_from_slice(b", ")?;
        }
        out.extend_from_slice(name.as_str().as_bytes())?;
    }
    Ok(out.extend_from_slice(b":")?)
}

fn row(row: &Row, out: &mut Vec<u8>) -> Result<(), NoMemory> {
    out.extend_from_slice(b" (")?;
    for (i, value) in row.values.as_slice().iter().enumerate() {
        if i > 0 {
            out.extend_from_slice(b", ")?;
        }
        print_value(value, out)?;
    }
    Ok(out.extend_from_slice(b")")?)
}

/// Rows, each behind a space.
pub(crate) fn rows(rows: &[Row], out: &mut Vec<u8>) -> Result<(), NoMemory> {
    for one in rows {
        row(one, out)?;
    }
    Ok(())
}

/// Deleted rows, where there are any.
pub(crate) fn deletes(deletes: &[Found], out: &mut Vec<u8>) -> Result<(), NoMemory> {
    if deletes.is_empty() {
        return Ok(());
    }
    out.extend_from_slice(b" deleted")?;
    for found in deletes {
        row(&found.row, out)?;
    }
    Ok(())
}

fn kind_of(kind: CompactionKind) -> &'static str {
    match kind {
        CompactionKind::Minor => "minor",
        CompactionKind::Major => "major",
    }
}

/// A compaction that is asked for: its kind, and the partition's text.
pub(crate) fn asked(
    alloc: Global,
    partition: &Text,
    kind: CompactionKind,
    out: &mut Vec<u8>,
) -> Result<(), NoMemory> {
    let kind = kind_of(kind);
    let text = format!(in alloc; "asked {kind} [{partition}]")?;
    Ok(out.extend_from_slice(text.as_bytes())?)
}
