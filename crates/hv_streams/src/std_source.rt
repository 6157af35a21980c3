ghost use Rattle.std.specs.Prelude.{◌≡◌, ◌≤◌, length, None, IfOk, is_ok, if◌then◌else◌};
ghost use Rattle.std.specs.Io.KnownBytes.{ReadConsumes};
ghost use Rattle.hv_base.specs.Faults.{HasCause, one_more};

use hv_base::{Failed, Source, raise};
use std::io::{ErrorKind, Read};

/// A reader as a source, made for the standard input. It tells nothing of what is left. A read that a
/// signal interrupts is made again, and counts once.
#[derive(Drop)]
pub struct StdSource<R> {
    reader: R,
    reads: u64,
    faults: u64,
}

impl<R: Read> StdSource<R> {
    /// No read was made yet.
    pub fn new(reader: R) -> StdSource<R>
        ensures reads { result.reads ≡ 0 }
        ensures faults { result.faults ≡ 0 }
    {
        StdSource {
            reader,
            reads: 0,
            faults: 0,
        }
    }
}

/// One read, made again where a signal interrupts it.
fn read_once<R: Read>(reader: &mut R, out: &mut [u8]) -> Result<usize, Failed>
    ensures bound { IfOk result (λ count. count ≤ length out.new) }
    ensures bytes { ReadConsumes (R.remaining reader.old) (R.remaining reader.new) result out.new }
{
    for _ in 0..u64::MAX {
        match reader.read(out) {
            Ok(count) => return Ok(count),
            Err(error) if error.kind() == ErrorKind::Interrupted => {}
            Err(_) => return Err(Failed),
        }
    }
    Err(Failed)
}

impl<R: Read> Source for StdSource<R> {
    ghost left = { λ _. None };

    ghost faults = { λ s. s.faults };

    ghost reads = { λ s. s.reads };

    /// Gives what one read of the reader gives.
    fn read(&mut self, out: &mut [u8]) -> Result<usize, Failed>
        ensures bound { IfOk result (λ count. count ≤ length out.new) }
        ensures cause { HasCause self.old.faults self.new.faults result }
        ensures counted { self.new.reads ≡ one_more self.old.reads }

        // What the reader is known to have left.
        ensures bytes { ReadConsumes (R.remaining self.old.reader) (R.remaining self.new.reader)
            result out.new }
        ensures exact { self.new.faults
            ≡ (if is_ok result then self.old.faults else one_more self.old.faults) }
    {
        raise(&mut self.reads);
        let answer = read_once(&mut self.reader, out);
        if answer.is_err() {
            raise(&mut self.faults);
        }
        answer
    }
}
