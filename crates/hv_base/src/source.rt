ghost use Rattle.std.specs.Prelude.{◌≡◌, ℕ, ◌+◌, ◌≤◌, List, length, Option, IfOk, OnErr, IsErrOf, vec_len};
ghost use Rattle.hv_base.specs.Faults.{HasCause, Rose, one_more};
ghost use Rattle.hv_base.specs.Source.{GivesNext, GivesAll, PassesLimit, LosesFront};
ghost use Rattle.hv_base.specs.Told.{Moves};

use crate::failure::Failed;
use std::alloc::{AllocError, Global};
use thiserror::Error;

/// How many bytes are asked for at a time.
const CHUNK: usize = 65536;

/// Bytes that come from outside, in order. What is left may be told (`left`) or not.
pub trait Source {
    ghost left: { Self → Option (List ℕ) };

    ghost faults: { Self → ℕ };

    ghost reads: { Self → ℕ };

    /// Reads the next bytes of what is left into the front of `out`: at least one where `out`
    /// isn't empty and bytes are left, and 0 at the end. What stands in `out` behind the bytes
    /// read, and in all of it after a failure, isn't said. A failed read takes nothing. `reads`
    /// counts the reads, up to 2^64 - 1.
    fn read(&mut self, out: &mut [u8]) -> Result<usize, Failed>
        ensures bound { IfOk result (λ count. count ≤ length out.new) }
        ensures done { IfOk result (λ count. Moves (GivesNext count out.new) (left self.old) (left self.new)) }
        ensures failed { OnErr result (left self.new ≡ left self.old) }
        ensures cause { HasCause (faults self.old) (faults self.new) result }
        ensures counted { reads self.new ≡ one_more (reads self.old) };
}

/// Why the bytes of a source were not read to its end.
#[derive(Clone, Copy, Debug, PartialEq, Eq, Error)]
pub enum ReadFault {
    /// The source failed.
    #[error("the source failed")]
    Failed,
    /// The source has more bytes than the limit.
    #[error("the source has more bytes than the limit")]
    TooLong,
    #[error("out of memory")]
    NoMemory,
}

impl From<Failed> for ReadFault {
    ghost use Rattle.hv_base.specs.declared.source.ReadFault.TheVariants as fault;

    ghost from_gives = { λ _ e. e ≡ fault.Failed };

    fn from(_fault: Failed) -> ReadFault {
        ReadFault::Failed
    }
}

impl From<AllocError> for ReadFault {
    ghost use Rattle.hv_base.specs.declared.source.ReadFault.TheVariants as fault;

    ghost from_gives = { λ _ e. e ≡ fault.NoMemory };

    fn from(_refused: AllocError) -> ReadFault {
        ReadFault::NoMemory
    }
}

/// Reads a source to its end, which comes within `limit` bytes, in chunks. Where more is left
/// than the limit the answer is `TooLong` (or another refusal), and no more than one byte past
/// the limit was taken. Memory is taken in proportion to what was read.
pub fn read_all<S: Source>(
    alloc: Global,
    source: &mut S,
    limit: usize,
) -> Result<Vec<u8>, ReadFault>
    ensures within { IfOk result (λ bytes. vec_len bytes ≤ limit) }
    ensures done { IfOk result (λ bytes. Moves (GivesAll bytes.items) (S.left source.old) (S.left source.new)) }
    ensures too_long { IsErrOf result ReadFault.TooLong → Moves (PassesLimit limit) (S.left source.old) (S.left source.new) }
    ensures taken { Moves LosesFront (S.left source.old) (S.left source.new) }
    ensures later { S.faults source.old ≤ S.faults source.new }
    ensures failed { IsErrOf result ReadFault.Failed → Rose (S.faults source.old) (S.faults source.new) }
    ensures reads { S.reads source.new ≤ S.reads source.old + limit + 1 }
{
    let mut memory = vec![in alloc; 0u8; CHUNK]?;
    let chunk = memory.as_mut_slice();
    let mut bytes = Vec::new(alloc);
    loop {
        let room = limit - bytes.len();
        let count = source.read(&mut chunk[..room.min(CHUNK - 1) + 1])?;
        if count == 0 {
            return Ok(bytes);
        }
        if count > room {
            return Err(ReadFault::TooLong);
        }
        bytes.extend_from_slice(&chunk[..count])?;
    }
}
