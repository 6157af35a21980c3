ghost use Rattle.std.specs.Prelude.{◌≡◌, ℕ, ◌+◌, ◌≤◌, ◌↔◌, [], List, length, min, Option, Some, IfOk, OnErr, IsErr, Contains};
ghost use Rattle.hv_base.specs.Faults.{HasCause, one_more};
ghost use Rattle.hv_base.specs.Memory.{Input, input_after_read, input_after_failure};
ghost use Rattle.hv_base.specs.Source.{GivesNext};
ghost use Rattle.hv_base.specs.Told.{Moves};

use crate::failure::Failed;
use crate::fault::raise;
use crate::source::Source;
use std::marker::Model;

/// A source in memory. It fails at the reads whose numbers are listed, and at no other.
#[derive(Drop)]
pub struct MemorySource {
    bytes: Vec<u8>,
    at: usize,
    fail: Vec<u64>,
    calls: u64,
    faults: u64,
}

impl Model for MemorySource {
    ghost use Rattle.std.specs.Prelude.{◌≤◌, drop, vec_len};
    ghost use Rattle.hv_base.specs.Memory.{Input};

    ghost Value = { Input };

    ghost view = { λ s. record { left = drop s.at s.bytes.items; calls = s.calls; fail = s.fail.items; faults = s.faults } };

    ghost invariant = { λ s. s.at ≤ vec_len s.bytes };
}

impl MemorySource {
    /// A source of these bytes that fails at the reads listed in `fail`, numbered from 0.
    pub fn new(bytes: Vec<u8>, fail: Vec<u64>) -> MemorySource
        ensures { result ≡ record { left = bytes.items; calls = 0; fail = fail.items; faults = 0 } }
    {
        MemorySource {
            bytes,
            at: 0,
            fail,
            calls: 0,
            faults: 0,
        }
    }
}

impl Source for MemorySource {
    ghost left = { λ s. Some s.left };

    ghost faults = { λ s. s.faults };

    ghost reads = { λ s. s.calls };

    /// Gives as many bytes as are left and fit.
    fn read(&mut self, out: &mut [u8]) -> Result<usize, Failed>
        ensures bound { IfOk result (λ count. count ≤ length out.new) }
        ensures done { IfOk result (λ count. Moves (GivesNext count out.new) (Some self.old.left) (Some self.new.left)) }
        ensures failed { OnErr result (Some self.new.left ≡ Some self.old.left) }
        ensures cause { HasCause self.old.faults self.new.faults result }
        ensures counted { self.new.calls ≡ one_more self.old.calls }

        ensures listed { IsErr result ↔ Contains self.old.fail self.old.calls }
        ensures count { IfOk result (λ count. count ≡ min (length out.new) (length self.old.left)) }
        ensures after_read { IfOk result (λ count. self.new ≡ input_after_read self.old count) }
        ensures after_failure { OnErr result (self.new ≡ input_after_failure self.old) }
    {
        let fails = self.fail.contains(&self.calls);
        raise(&mut self.calls);
        if fails {
            raise(&mut self.faults);
            return Err(Failed);
        }
        let left = &self.bytes[self.at..];
        let count = out.len().min(left.len());
        out[..count].copy_from_slice(&left[..count]);
        self.at += count;
        Ok(count)
    }
}
