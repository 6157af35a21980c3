ghost use Rattle.std.specs.Prelude.{◌≡◌, ◌++◌, ◌∷◌, [], if◌then◌else◌, IfOk, OnOk, map, sum_by};
ghost use Rattle.std.specs.List.{join_with_byte};
ghost use Rattle.hv_value.specs.Printing.{printed};
ghost use Rattle.hv_base.specs.declared.ids.Touch.{Touch};
ghost use Rattle.hv_history.specs.Answers.{tab, row_line, listing, counts_line, ok_line};

use hv_base::{NoMemory, Text, Touch};
use hv_value::{Row, Value, print_value};
use std::alloc::Global;

fn put(bytes: &[u8], out: &mut Vec<u8>) -> Result<(), NoMemory>
    ensures { OnOk result (out.new.items ≡ out.old.items ++ bytes.now) }
{
    out.extend_from_slice(bytes)?;
    Ok(())
}

// What stands before a piece of a line.
fn put_tab(first: bool, out: &mut Vec<u8>) -> Result<(), NoMemory>
    ensures { OnOk result (out.new.items ≡ out.old.items ++ (if first then [] else tab ∷ [])) }
{
    if first { Ok(()) } else { put(b"\t", out) }
}

// The names of a query's columns, with a tab between two.
fn put_names(names: &[Text], out: &mut Vec<u8>) -> Result<(), NoMemory>
    ensures { OnOk result (out.new.items ≡ out.old.items ++ join_with_byte tab names.now) }
{
    for i in 0..names.len() {
        put_tab(i == 0, out)?;
        put(names[i].bytes(), out)?;
    }
    Ok(())
}

fn put_values(values: &[Value], out: &mut Vec<u8>) -> Result<(), NoMemory>
    ensures { OnOk result (out.new.items
        ≡ out.old.items ++ join_with_byte tab (map printed values.now)) }
{
    for i in 0..values.len() {
        put_tab(i == 0, out)?;
        print_value(&values[i], out)?;
    }
    Ok(())
}

fn put_row(row: &Row, out: &mut Vec<u8>) -> Result<(), NoMemory>
    ensures { OnOk result (out.new.items ≡ out.old.items ++ row_line row.now) }
{
    put_values(row.values.as_slice(), out)?;
    put(b"\n", out)
}

/// What a query prints: the names of its columns, and its rows.
#[tactic(auto, unfolding(crate::specs::Answers::listing))]
pub fn listing(alloc: Global, names: &[Text], rows: &[Row]) -> Result<Vec<u8>, NoMemory>
    ensures { IfOk result (λ text. text.items ≡ listing names.now rows.now) }
{
    let mut out = Vec::new(alloc);
    put_names(names, &mut out)?;
    put(b"\n", &mut out)?;
    for row in rows {
        put_row(row, &mut out)?;
    }
    Ok(out)
}

fn inserted_rows(wrote: &[Touch]) -> u128
    ensures { result ≡ sum_by (λ (touch : Touch). touch.inserted) wrote.now }
{
    let mut count: u128 = 0;
    for touch in wrote {
        count += u128::from(touch.inserted);
    }
    count
}

fn deleted_rows(wrote: &[Touch]) -> u128
    ensures { result ≡ sum_by (λ (touch : Touch). touch.deleted) wrote.now }
{
    let mut count: u128 = 0;
    for touch in wrote {
        count += u128::from(touch.deleted);
    }
    count
}

/// What a change of rows prints: how many it inserted and deleted.
#[tactic(auto, unfolding(crate::specs::Answers::counts_line))]
pub fn counts_line(alloc: Global, wrote: &[Touch]) -> Result<Vec<u8>, NoMemory>
    ensures { IfOk result (λ text. text.items ≡ counts_line wrote.now) }
{
    let inserted = inserted_rows(wrote);
    let deleted = deleted_rows(wrote);
    let line = format!(in alloc; "OK inserted {inserted} deleted {deleted}\n")?;
    Ok(line.into_bytes())
}

/// What a statement prints that changes no rows.
#[tactic(auto, unfolding(crate::specs::Answers::ok_line))]
pub fn ok_line(alloc: Global) -> Result<Vec<u8>, NoMemory>
    ensures { IfOk result (λ text. text.items ≡ ok_line) }
{
    Ok(Vec::from_slice(alloc, b"OK\n")?)
}
