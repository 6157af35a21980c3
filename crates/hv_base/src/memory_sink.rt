ghost use Rattle.std.specs.Prelude.{◌≡◌, ℕ, ◌+◌, ◌<◌, ◌≤◌, ◌++◌, [], List, length, take, Option, Some, IfOk, OnOk, OnErr, IsErr, is_ok, Contains, if◌then◌else◌};
ghost use Rattle.hv_base.specs.Faults.{HasCause, one_more};
ghost use Rattle.hv_base.specs.Memory.{Output};
ghost use Rattle.hv_base.specs.Sink.{Gains};
ghost use Rattle.hv_base.specs.Told.{Moves};

use crate::failure::Failed;
use crate::fault::raise;
use crate::sink::Sink;
use std::marker::Model;

/// A sink in memory. It fails at the writes whose numbers are listed, and elsewhere only where
/// it finds no memory for the bytes, since a write has no other answer for that.
#[derive(Drop)]
pub struct MemorySink {
    written: Vec<u8>,
    fail: Vec<u64>,
    calls: u64,
    faults: u64,
}

impl Model for MemorySink {
    ghost use Rattle.std.specs.Prelude.{◌-◌, vec_len, vec_capacity};
    ghost use Rattle.hv_base.specs.Memory.{Output};

    ghost Value = { Output };

    ghost view = { λ s. record { written = s.written.items; calls = s.calls; fail = s.fail.items; faults = s.faults; room = vec_capacity s.written - vec_len s.written } };
}

impl MemorySink {
    /// A sink that fails at the writes listed in `fail`, numbered from 0.
    pub fn new(fail: Vec<u64>) -> MemorySink
        ensures written { result.written ≡ [] }
        ensures fail { result.fail ≡ fail.items }
        ensures calls { result.calls ≡ 0 }
        ensures faults { result.faults ≡ 0 }
    {
        let written = Vec::new(*fail.allocator());
        MemorySink {
            written,
            fail,
            calls: 0,
            faults: 0,
        }
    }

    /// All that was written.
    pub fn written(&self) -> &[u8]
        ensures { result.now ≡ self.now.written }
    {
        &self.written
    }
}

impl Sink for MemorySink {
    ghost written = { λ s. Some s.written };

    ghost faults = { λ s. s.faults };

    /// Takes all the bytes.
    fn write(&mut self, bytes: &[u8]) -> Result<usize, Failed>
        ensures bound { IfOk result (λ count. count ≤ length bytes.now) }
        ensures some { IfOk result (λ count. 0 < length bytes.now → 0 < count) }
        ensures done { IfOk result (λ n. Moves (Gains (take n bytes.now)) (Some self.old.written) (Some self.new.written)) }
        ensures failed { OnErr result (Some self.new.written ≡ Some self.old.written) }
        ensures cause { HasCause self.old.faults self.new.faults result }

        ensures listed { Contains self.old.fail self.old.calls → IsErr result }
        ensures unlisted { OnErr result (¬ Contains self.old.fail self.old.calls → self.old.room < length bytes.now) }
        ensures whole { OnOk result (self.new.written ≡ self.old.written ++ bytes.now) }
        ensures calls { self.new.calls ≡ one_more self.old.calls }
        ensures faults { self.new.faults ≡ (if is_ok result then self.old.faults else one_more self.old.faults) }
        ensures fail { self.new.fail ≡ self.old.fail }
    {
        let fails = self.fail.contains(&self.calls);
        raise(&mut self.calls);
        if fails {
            raise(&mut self.faults);
            return Err(Failed);
        }
        if self.written.extend_from_slice(bytes).is_err() {
            raise(&mut self.faults);
            return Err(Failed);
        }
        Ok(bytes.len())
    }
}
