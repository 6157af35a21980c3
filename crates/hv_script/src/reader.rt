ghost use Rattle.std.specs.Prelude.{◌≡◌, ◌+◌, ◌<◌, ◌≤◌, ◌^◌, [], ℕ, List as ListOf, length, OnOk, IfOk};
ghost use Rattle.hv_script.specs.Items.{items_of, line_behind};
ghost use Rattle.hv_script.specs.Reading.{Acted, Finished, Took, given};

use crate::items::{Item, Move, Stand, step};
use hv_base::{List, NoMemory};
use std::alloc::Global;
use std::mem;

/// A script that is read up to some byte.
#[derive(Drop)]
pub struct Reader {
    items: Vec<Item>,
    stand: Stand,
    /// The line of the next byte, from 1.
    line: u64,
    /// The line on which the last item began, and its bytes so far.
    begun: u64,
    bytes: Vec<u8>,
}

/// The line behind a byte.
pub fn next_line(line: u64, byte: u8) -> u64
    requires room { line + 1 < 2 ^ 64 }
    ensures value { result ≡ line_behind line byte }
{
    if byte == b'\n' { line + 1 } else { line }
}

impl Reader {
    fn new(alloc: Global) -> Reader
        ensures start { (rest : ListOf ℕ) → given result rest ≡ items_of rest }
        ensures line { result.line ≡ 1 }
    {
        Reader {
            items: Vec::new(alloc),
            stand: Stand::Between,
            line: 1,
            begun: 1,
            bytes: Vec::new(alloc),
        }
    }

    /// Moves the item that was read to the items.
    fn finish(&mut self, alloc: Global) -> Result<(), NoMemory>
        ensures finished { OnOk result (Finished self.old self.new) }
    {
        let bytes = mem::replace(&mut self.bytes, Vec::new(alloc));
        self.items.push(Item {
            line: self.begun,
            bytes: List::from_vec(bytes),
        })?;
        Ok(())
    }

    /// What the next byte does to the items, where it is so much to them.
    fn act(&mut self, alloc: Global, moved: Move, byte: u8) -> Result<(), NoMemory>
        ensures acted { OnOk result (Acted self.old self.new moved byte) }
    {
        match moved {
            Move::Skip(stand) => {
                self.stand = stand;
                Ok(())
            }
            Move::Begin(stand) => {
                self.stand = stand;
                self.begun = self.line;
                self.bytes.clear();
                self.bytes.push(byte)?;
                Ok(())
            }
            Move::Keep(stand) => {
                self.stand = stand;
                self.bytes.push(byte)?;
                Ok(())
            }
            Move::Finish => {
                self.finish(alloc)?;
                self.stand = Stand::Between;
                Ok(())
            }
            Move::Lone => {
                self.begun = self.line;
                self.bytes.clear();
                self.stand = Stand::Between;
                self.items.push(Item {
                    line: self.line,
                    bytes: List::empty(alloc),
                })?;
                Ok(())
            }
        }
    }

    /// Takes the next byte of the script, which has this one behind it.
    fn take(&mut self, alloc: Global, byte: u8, next: Option<u8>) -> Result<(), NoMemory>
        requires room { self.old.line + 1 < 2 ^ 64 }
        ensures taken { OnOk result (Took self.old self.new byte next) }
        ensures line { OnOk result (self.new.line ≤ self.old.line + 1) }
    {
        let line = next_line(self.line, byte);
        self.act(alloc, step(self.stand, byte, next), byte)?;
        self.line = line;
        Ok(())
    }

    /// Takes the script's end.
    fn end(mut self, alloc: Global) -> Result<Vec<Item>, NoMemory>
        ensures ended { IfOk result (λ items. items.items ≡ given self []) }
    {
        match self.stand {
            Stand::Between | Stand::Skipped => {}
            _ => self.finish(alloc)?,
        }
        let Reader {
            items,
            stand: _,
            line: _,
            begun: _,
            bytes: _,
        } = self;
        Ok(items)
    }
}

/// The items of a script, in order.
pub fn items(alloc: Global, script: &[u8]) -> Result<Vec<Item>, NoMemory>
    requires short { length script.now < 2 ^ 63 }
    ensures value { IfOk result (λ found. found.items ≡ items_of script.now) }
{
    let mut reader = Reader::new(alloc);
    for (place, byte) in script.iter().enumerate() {
        reader.take(alloc, *byte, script.get(place + 1).copied())?;
    }
    reader.end(alloc)
}
