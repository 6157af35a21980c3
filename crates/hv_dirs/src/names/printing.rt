ghost use Rattle.std.specs.Prelude.{◌≡◌, ◌<◌, ◌++◌, codes, IfOk, OnOk};
ghost use Rattle.hv_table.specs.Decimal.{fixed_digits};
ghost use Rattle.hv_dirs.specs.Names.{base_name, kind_mark, own_name, wide_name, IsName, text_of, write_end, statement_end};

use crate::names::DirName;
use hv_base::{NoMemory, Text};
use hv_table::Digits;
use std::alloc::Global;

/// Appends a number of seven digits.
fn push_number(bytes: &mut Vec<u8>, number: u64) -> Result<(), NoMemory>
    requires { number < write_end }
    ensures { OnOk result (bytes.new.items ≡ bytes.old.items ++ fixed_digits 7 number) }
{
    bytes.extend_from_slice(&Digits::<7>::print(number))?;
    Ok(())
}

/// Appends what stands before the name of a delta, if it is one of deletes.
fn push_kind(bytes: &mut Vec<u8>, deletes: bool) -> Result<(), NoMemory>
    ensures { OnOk result (bytes.new.items ≡ bytes.old.items ++ kind_mark deletes) }
{
    if deletes {
        bytes.extend_from_slice(b"delete_")?;
    }
    Ok(())
}

/// Appends the name of a base.
#[tactic(auto, unfolding(crate::specs::Names::base_name))]
fn push_base(bytes: &mut Vec<u8>, high: u64) -> Result<(), NoMemory>
    requires { high < write_end }
    ensures { OnOk result (bytes.new.items ≡ bytes.old.items ++ base_name high) }
{
    bytes.extend_from_slice(b"base_")?;
    push_number(bytes, high)
}

/// Appends the name of an own delta.
#[tactic(auto, unfolding(crate::specs::Names::own_name))]
pub fn push_own(bytes: &mut Vec<u8>, write: u64, statement: u32) -> Result<(), NoMemory>
    requires write { write < write_end }
    requires statement { statement < statement_end }
    ensures { OnOk result (bytes.new.items ≡ bytes.old.items ++ own_name write statement) }
{
    bytes.extend_from_slice(b"delta_")?;
    push_number(bytes, write)?;
    bytes.extend_from_slice(b"_")?;
    push_number(bytes, write)?;
    bytes.extend_from_slice(b"_")?;
    bytes.extend_from_slice(&Digits::<4>::print(u64::from(statement)))?;
    Ok(())
}

/// Appends the name of a delta of a range.
#[tactic(auto, unfolding(crate::specs::Names::wide_name))]
fn push_wide(bytes: &mut Vec<u8>, low: u64, high: u64) -> Result<(), NoMemory>
    requires low { low < write_end }
    requires high { high < write_end }
    ensures { OnOk result (bytes.new.items ≡ bytes.old.items ++ wide_name low high) }
{
    bytes.extend_from_slice(b"delta_")?;
    push_number(bytes, low)?;
    bytes.extend_from_slice(b"_")?;
    push_number(bytes, high)
}

/// Appends the text of a name.
#[tactic(auto, unfolding(crate::specs::Names::staged_name))]
fn push_name(bytes: &mut Vec<u8>, name: &DirName) -> Result<(), NoMemory>
    requires { IsName name.now }
    ensures { OnOk result (bytes.new.items ≡ bytes.old.items ++ text_of name.now) }
{
    match name {
        DirName::Base { high } => push_base(bytes, high.0),
        DirName::Own {
            deletes,
            write,
            statement,
        } => {
            push_kind(bytes, *deletes)?;
            push_own(bytes, write.0, *statement)
        }
        DirName::Wide { deletes, low, high } => {
            push_kind(bytes, *deletes)?;
            push_wide(bytes, low.0, high.0)
        }
        DirName::Staged { job, name } => {
            bytes.extend_from_slice(b".stage_")?;
            push_number(bytes, job.0)?;
            bytes.extend_from_slice(b"_")?;
            bytes.extend_from_slice(name.bytes())?;
            Ok(())
        }
    }
}

/// The text of a name.
pub fn print_name(alloc: Global, name: &DirName) -> Result<Text, NoMemory>
    requires { IsName name.now }
    ensures { IfOk result (λ text. text ≡ text_of name.now) }
{
    let mut bytes = Vec::new(alloc);
    push_name(&mut bytes, name)?;
    Ok(Text::from_bytes(bytes))
}
