ghost use Rattle.std.specs.Prelude.{◌≡◌, IfOk};
ghost use Rattle.hv_text.specs.Characters.{lowered, raised};

use crate::characters::split_first;
use hv_base::{NoMemory, Text};
use std::alloc::Global;

/// The text with ASCII letters in lower case, and every other character as it is.
pub fn lower(alloc: Global, text: &str) -> Result<Text, NoMemory>
    ensures { IfOk result (λ made. made ≡ lowered text.now) }
{
    let mut made = String::with_capacity(alloc, text.len())?;
    let mut rest = text;
    while let Some((first, behind)) = split_first(rest) {
        made.push(first.to_ascii_lowercase())?;
        rest = behind;
    }
    Ok(Text::from_bytes(made.into_bytes()))
}

/// The text with ASCII letters in upper case, and every other character as it is.
pub fn upper(alloc: Global, text: &str) -> Result<Text, NoMemory>
    ensures { IfOk result (λ made. made ≡ raised text.now) }
{
    let mut made = String::with_capacity(alloc, text.len())?;
    let mut rest = text;
    while let Some((first, behind)) = split_first(rest) {
        made.push(first.to_ascii_uppercase())?;
        rest = behind;
    }
    Ok(Text::from_bytes(made.into_bytes()))
}
