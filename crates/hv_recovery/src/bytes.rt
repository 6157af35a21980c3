ghost use Rattle.std.specs.Prelude.{◌≡◌, IfOk, IsErrOf};
ghost use Rattle.hv_base.specs.Told.{Tells};
ghost use Rattle.hv_shelf.specs.Causes.{HardCause};

use hv_shelf::{Shelf, ShelfFault};
use std::alloc::Global;

/// How many bytes are asked for at a time.
const BLOCK: usize = 65_536;

/// All of the journal's bytes, read in blocks up to the first read that gives none.
pub fn journal_bytes<D: Shelf>(alloc: Global, shelf: &mut D) -> Result<Vec<u8>, ShelfFault>
    ensures whole { IfOk result (λ bytes.
        Tells (D.told shelf.old) (λ s. s.journal ≡ bytes.items)) }
    ensures same { D.told shelf.new ≡ D.told shelf.old }
    ensures cause { HardCause (IsErrOf result ShelfFault.Failed)
        (D.faults shelf.old) (D.faults shelf.new) (D.hard shelf.old) (D.hard shelf.new) }
{
    let mut memory = vec![in alloc; 0u8; BLOCK]?;
    let block = memory.as_mut_slice();
    let mut bytes = Vec::new(alloc);
    loop {
        let count = shelf.journal_read(bytes.len() as u64, block)?;
        if count == 0 {
            return Ok(bytes);
        }
        bytes.extend_from_slice(&block[..count])?;
    }
}
