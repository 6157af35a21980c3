ghost use Rattle.std.specs.Prelude.{◌≡◌, ℕ, ◌<◌, ◌≤◌, List, take, length, Option, IfOk, OnOk, OnErr};
ghost use Rattle.hv_base.specs.Faults.{HasCause};
ghost use Rattle.hv_base.specs.Sink.{Gains, GainsPart};
ghost use Rattle.hv_base.specs.Told.{Moves};

use crate::failure::Failed;

/// Takes bytes to the outside, in order. What was written may be told (`written`) or not.
pub trait Sink {
    ghost written: { Self → Option (List ℕ) };

    ghost faults: { Self → ℕ };

    /// Writes a front of `bytes` behind what was written and says how long it is: at least one
    /// byte where `bytes` isn't empty. A failed write writes nothing.
    fn write(&mut self, bytes: &[u8]) -> Result<usize, Failed>
        ensures bound { IfOk result (λ count. count ≤ length bytes.now) }
        ensures some { IfOk result (λ count. 0 < length bytes.now → 0 < count) }
        ensures done { IfOk result (λ n. Moves (Gains (take n bytes.now)) (written self.old) (written self.new)) }
        ensures failed { OnErr result (written self.new ≡ written self.old) }
        ensures cause { HasCause (faults self.old) (faults self.new) result };
}

/// Writes all of `bytes`. After a failure a front of them was written, and not all.
pub fn write_all<K: Sink>(sink: &mut K, bytes: &[u8]) -> Result<(), Failed>
    ensures done { OnOk result (Moves (Gains bytes.now) (K.written sink.old) (K.written sink.new)) }
    ensures failed { OnErr result (Moves (GainsPart bytes.now) (K.written sink.old) (K.written sink.new)) }
    ensures cause { HasCause (K.faults sink.old) (K.faults sink.new) result }
{
    let mut done = 0;
    while done < bytes.len() {
        done += sink.write(&bytes[done..])?;
    }
    Ok(())
}
