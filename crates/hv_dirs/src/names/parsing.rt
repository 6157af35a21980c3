ghost use Rattle.std.specs.Prelude.{◌≡◌, ◌≢◌, ◌<◌, ◌≤◌, ◌^◌, ◌++◌, ℕ, List, Some, codes, IfOk, IfSome, IfNone};
ghost use Rattle.hv_table.specs.Decimal.{fixed_digits};
ghost use Rattle.hv_dirs.specs.declared.names.DirName.{DirName};
ghost use Rattle.hv_dirs.specs.Names.{kind_mark, is_compacted, staged_name, IsName, IsPlain, IsDelta, IsStagedAs, text_of, write_end, statement_end};

use crate::names::DirName;
use hv_base::{JobId, NoMemory, Text, WriteId};
use hv_table::Digits;
use std::alloc::Global;

/// The number at the front, of `W` digits, and what stands behind it.
fn number_of<const W: usize>(bytes: &[u8]) -> Option<(u64, &[u8])>
    requires { W ≤ 18 }
    ensures found { IfSome result (λ x. (x.0 < 10 ^ W)
        × (bytes.now ≡ fixed_digits W x.0 ++ x.1.now)) }
    ensures none { IfNone result ((number : ℕ) (after : List ℕ) → number < 10 ^ W
        → bytes.now ≢ fixed_digits W number ++ after) }
{
    let (front, rest) = bytes.split_first_chunk::<W>()?;
    let number = Digits::<W>::read(front)?;
    Some((number, rest))
}

/// Two numbers of seven digits at the front, and what stands behind them.
fn range_of(bytes: &[u8]) -> Option<(u64, u64, &[u8])>
    ensures found { IfSome result (λ x. (x.0 < write_end) × (x.1 < write_end)
        × (bytes.now ≡ fixed_digits 7 x.0 ++ (codes "_" ++ (fixed_digits 7 x.1 ++ x.2.now)))) }
    ensures none { IfNone result ((low high : ℕ) (after : List ℕ)
        → low < write_end → high < write_end
        → bytes.now ≢ fixed_digits 7 low ++ (codes "_" ++ (fixed_digits 7 high ++ after))) }
{
    let (low, rest) = number_of::<7>(bytes)?;
    let rest = rest.strip_prefix(b"_")?;
    let (high, rest) = number_of::<7>(rest)?;
    Some((low, high, rest))
}

/// The statement, where nothing stands behind it.
fn statement_of(bytes: &[u8]) -> Option<u32>
    ensures found { IfSome result (λ statement. (statement < statement_end)
        × (bytes.now ≡ codes "_" ++ fixed_digits 4 statement)) }
    ensures none { IfNone result ((statement : ℕ) → statement < statement_end
        → bytes.now ≢ codes "_" ++ fixed_digits 4 statement) }
{
    let rest = bytes.strip_prefix(b"_")?;
    let (statement, rest) = number_of::<4>(rest)?;
    if rest.is_empty() {
        Some(statement as u32)
    } else {
        None
    }
}

/// The delta, of this kind, of which these bytes stand behind `delta_`.
fn delta_of(deletes: bool, bytes: &[u8]) -> Option<DirName>
    ensures found { IfSome result (λ name. IsDelta deletes name
        × (kind_mark deletes ++ (codes "delta_" ++ bytes.now) ≡ text_of name)) }
    ensures none { IfNone result ((name : DirName) → IsDelta deletes name
        → kind_mark deletes ++ (codes "delta_" ++ bytes.now) ≢ text_of name) }
{
    let (low, high, rest) = range_of(bytes)?;
    if low == 0 || high < low {
        return None;
    }
    if rest.is_empty() {
        return Some(DirName::Wide {
            deletes,
            low: WriteId(low),
            high: WriteId(high),
        });
    }
    if low < high {
        return None;
    }
    let statement = statement_of(rest)?;
    Some(DirName::Own {
        deletes,
        write: WriteId(low),
        statement,
    })
}

/// The base of which these bytes stand behind `base_`.
fn base_of(bytes: &[u8]) -> Option<DirName>
    ensures found { IfSome result (λ name. IsPlain name
        × (codes "base_" ++ bytes.now ≡ text_of name)) }
    ensures none { IfNone result ((name : DirName) → IsPlain name
        → codes "base_" ++ bytes.now ≢ text_of name) }
{
    let (high, rest) = number_of::<7>(bytes)?;
    if high == 0 {
        return None;
    }
    if rest.is_empty() {
        Some(DirName::Base {
            high: WriteId(high),
        })
    } else {
        None
    }
}

/// The name of this text that isn't staged.
fn plain_of(bytes: &[u8]) -> Option<DirName>
    ensures found { IfSome result (λ name. IsPlain name × (bytes.now ≡ text_of name)) }
    ensures none { IfNone result ((name : DirName) → IsPlain name → bytes.now ≢ text_of name) }
{
    if let Some(rest) = bytes.strip_prefix(b"base_") {
        return base_of(rest);
    }
    if let Some(rest) = bytes.strip_prefix(b"delta_") {
        return delta_of(false, rest);
    }
    let rest = bytes.strip_prefix(b"delete_delta_")?;
    delta_of(true, rest)
}

fn is_compacted(name: &DirName) -> bool
    ensures { result ≡ is_compacted name.now }
{
    match name {
        DirName::Base { .. } | DirName::Wide { .. } => true,
        DirName::Own { .. } | DirName::Staged { .. } => false,
    }
}

/// The job, and the name in the end, of the staged directory of which these bytes stand behind
/// `.stage_`.
fn staged_of(bytes: &[u8]) -> Option<(u64, &[u8])>
    ensures found { IfSome result (λ x. IsStagedAs x.0 x.1.now
        × (codes ".stage_" ++ bytes.now ≡ staged_name x.0 x.1.now)) }
    ensures none { IfNone result ((job : ℕ) (name : List ℕ) → IsStagedAs job name
        → codes ".stage_" ++ bytes.now ≢ staged_name job name) }
{
    let (job, rest) = number_of::<7>(bytes)?;
    let rest = rest.strip_prefix(b"_")?;
    if job == 0 {
        return None;
    }
    let made = plain_of(rest)?;
    if !is_compacted(&made) {
        return None;
    }
    Some((job, rest))
}

/// The name of this text, None exactly where there is no such name.
pub fn parse_name(alloc: Global, text: &Text) -> Result<Option<DirName>, NoMemory>
    ensures found { IfOk result (λ found. IfSome found (λ name. IsName name
        × (text_of name ≡ text.now))) }
    ensures every { IfOk result (λ found. (name : DirName) → IsName name → text_of name ≡ text.now
        → found ≡ Some name) }
{
    let bytes = text.bytes();
    if let Some(rest) = bytes.strip_prefix(b".stage_") {
        let Some((job, name)) = staged_of(rest) else {
            return Ok(None);
        };
        let name = Text::from_bytes(Vec::from_slice(alloc, name)?);
        return Ok(Some(DirName::Staged {
            job: JobId(job),
            name,
        }));
    }
    Ok(plain_of(bytes))
}
