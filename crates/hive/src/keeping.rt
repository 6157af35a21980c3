use hv_base::{Failed, Source};
use std::alloc::Global;

/// A source that keeps what it gave, so that a statement can be told by its line.
#[derive(Drop)]
pub struct Keeping<I> {
    source: I,
    bytes: Vec<u8>,
    /// Memory was found for all of it.
    whole: bool,
}

impl<I> Keeping<I> {
    pub fn new(alloc: Global, source: I) -> Keeping<I> {
        Keeping {
            source,
            bytes: Vec::new(alloc),
            whole: true,
        }
    }

    /// What the source gave, None where memory was missing for it.
    pub fn script(&self) -> Option<&[u8]> {
        if self.whole {
            Some(self.bytes.as_slice())
        } else {
            None
        }
    }
}

impl<I: Source> Source for Keeping<I> {
    ghost left = { λ s. I.left s.source };

    ghost faults = { λ s. I.faults s.source };

    ghost reads = { λ s. I.reads s.source };

    fn read(&mut self, out: &mut [u8]) -> Result<usize, Failed> {
        let count = self.source.read(out)?;
        self.whole &= self.bytes.extend_from_slice(&out[..count]).is_ok();
        Ok(count)
    }
}
