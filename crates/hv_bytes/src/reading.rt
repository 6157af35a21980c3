ghost use Rattle.std.specs.Prelude.{◌≡◌, ◌<◌, ◌^◌, ◌++◌, length, IfOk, IfErr};
ghost use Rattle.hv_bytes.specs.Spelling.{two_bytes, four_bytes, eight_bytes, text_spelling, IsText};
ghost use Rattle.hv_bytes.specs.Reading.{Gives, two_at, four_at, eight_at, text_at};

use crate::fault::FieldFault;
use hv_base::Text;
use std::alloc::Global;

/// The number that the first two bytes spell, and the bytes behind them.
#[inline]
#[tactic(auto, unfolding(crate::specs::Reading::two_at))]
pub fn read_u16(bytes: &[u8]) -> Result<(u16, &[u8]), FieldFault>
    ensures exact { Gives (λ x. (x.0, x.1.now)) result (two_at bytes.now) }
    ensures found { IfOk result (λ x. (x.0 < 2 ^ 16) × (bytes.now ≡ two_bytes x.0 ++ x.1.now)) }
{
    if bytes.len() < 2 {
        return Err(FieldFault::Damaged);
    }
    let (front, rest) = bytes.split_at(2);
    let number = u16::from_be_bytes([front[0], front[1]]);
    Ok((number, rest))
}

/// The number that the first four bytes spell, and the bytes behind them.
#[inline]
#[tactic(auto, unfolding(crate::specs::Reading::four_at))]
pub fn read_u32(bytes: &[u8]) -> Result<(u32, &[u8]), FieldFault>
    ensures exact { Gives (λ x. (x.0, x.1.now)) result (four_at bytes.now) }
    ensures found { IfOk result (λ x. (x.0 < 2 ^ 32) × (bytes.now ≡ four_bytes x.0 ++ x.1.now)) }
    ensures cut { IfErr result (λ _. length bytes.now < 4) }
{
    if bytes.len() < 4 {
        return Err(FieldFault::Damaged);
    }
    let (front, rest) = bytes.split_at(4);
    let number = u32::from_be_bytes([front[0], front[1], front[2], front[3]]);
    Ok((number, rest))
}

/// The number that the first eight bytes spell, and the bytes behind them.
#[inline]
#[tactic(auto, unfolding(crate::specs::Reading::eight_at))]
pub fn read_u64(bytes: &[u8]) -> Result<(u64, &[u8]), FieldFault>
    ensures exact { Gives (λ x. (x.0, x.1.now)) result (eight_at bytes.now) }
    ensures found { IfOk result (λ x. (x.0 < 2 ^ 64) × (bytes.now ≡ eight_bytes x.0 ++ x.1.now)) }
    ensures cut { IfErr result (λ _. length bytes.now < 8) }
{
    if bytes.len() < 8 {
        return Err(FieldFault::Damaged);
    }
    let (front, rest) = bytes.split_at(8);
    let number = u64::from_be_bytes([
        front[0], front[1], front[2], front[3], front[4], front[5], front[6], front[7],
    ]);
    Ok((number, rest))
}

/// The text that the bytes begin with, its length before it, and the bytes behind it. Memory is taken only
/// where a text stands there.
#[inline]
#[tactic(auto, unfolding(crate::specs::Reading::text_at))]
pub fn read_text(alloc: Global, bytes: &[u8]) -> Result<(Text, &[u8]), FieldFault>
    ensures exact { Gives (λ x. (x.0, x.1.now)) result (text_at bytes.now) }
    ensures found { IfOk result (λ x. IsText x.0 × (bytes.now ≡ text_spelling x.0 ++ x.1.now)) }
{
    let (len, rest) = read_u32(bytes)?;
    let len = len as usize;
    if rest.len() < len {
        return Err(FieldFault::Damaged);
    }
    let (front, rest) = rest.split_at(len);
    let Ok(text) = str::from_utf8(front) else {
        return Err(FieldFault::Damaged);
    };
    let text = Text::of(alloc, text)?;
    Ok((text, rest))
}
