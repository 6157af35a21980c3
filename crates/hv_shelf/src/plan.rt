ghost use Rattle.std.specs.Prelude.{◌≡◌, ◌↔◌, ℕ, ◌<◌, IsTrue, IsErr};
ghost use Rattle.hv_shelf.specs.Causes.{SoftCause, HardCause};
ghost use Rattle.hv_shelf.specs.Plan.{Plan, number_of, calls_after, new_plan, IsDue, IsCall};

use hv_base::{Failed, raise};
use std::marker::Model;

/// A call of a store that can fail.
#[derive(Clone, Copy, Debug, PartialEq)]
pub enum Op {
    JournalLen,
    JournalRead,
    JournalWrite,
    JournalSync,
    List,
    Get,
    Put,
    Rename,
    Remove,
}

/// A call that is to fail: the one with number `nth`, from 0, among the calls of `op`.
#[derive(Clone, Copy, PartialEq)]
pub struct Fail {
    pub op: Op,
    pub nth: u64,
}

/// Which calls of a store in memory fail, and its counts of calls and of faults.
#[derive(Drop)]
pub struct FaultPlan {
    fail: Vec<Fail>,
    calls: [u64; 9],
    faults: u64,
    hard: u64,
}

impl Model for FaultPlan {
    ghost use Rattle.hv_shelf.specs.Plan.{Plan, plan_code};

    ghost Value = { Plan };

    ghost coded = { plan_code };

    ghost view = { λ p.
        record { fail = p.fail.items; calls = p.calls; faults = p.faults; hard = p.hard } };
}

impl Op {
    fn number(self) -> usize
        ensures value { result ≡ number_of self }
        ensures within { result < 9 }
    {
        self as usize
    }
}

impl FaultPlan {
    /// The calls listed fail, and no other. No call was made yet.
    pub fn new(fail: Vec<Fail>) -> FaultPlan
        ensures { result ≡ new_plan fail.items }
    {
        FaultPlan {
            fail,
            calls: [0; 9],
            faults: 0,
            hard: 0,
        }
    }

    pub fn fault_count(&self) -> u64
        ensures { result ≡ self.now.faults }
    {
        self.faults
    }

    pub fn hard_count(&self) -> u64
        ensures { result ≡ self.now.hard }
    {
        self.hard
    }

    /// Counts a call, and says whether it is to fail.
    fn call(&mut self, op: Op) -> bool
        ensures due { IsTrue result ↔ IsDue op self.old }
        ensures after { self.new ≡ record self.old { calls = calls_after op self.old } }
    {
        let number = op.number();
        let due = Fail {
            op,
            nth: self.calls[number],
        };
        raise(&mut self.calls[number]);
        self.fail.contains(&due)
    }

    /// A call on files: where it is to fail the count of faults rises, and the hard count where
    /// that one ends.
    pub fn soft(&mut self, op: Op) -> Result<(), Failed>
        ensures exact { IsCall op (IsErr result) self.old self.new }
        ensures cause { SoftCause (IsErr result)
            self.old.faults self.new.faults self.old.hard self.new.hard }
    {
        if !self.call(op) {
            return Ok(());
        }
        raise(&mut self.faults);
        if self.faults == u64::MAX {
            raise(&mut self.hard);
        }
        Err(Failed)
    }

    /// A call on the journal, or a rename: where it is to fail both counts rise.
    pub fn hard(&mut self, op: Op) -> Result<(), Failed>
        ensures exact { IsCall op (IsErr result) self.old self.new }
        ensures cause { HardCause (IsErr result)
            self.old.faults self.new.faults self.old.hard self.new.hard }
    {
        if !self.call(op) {
            return Ok(());
        }
        raise(&mut self.faults);
        raise(&mut self.hard);
        Err(Failed)
    }
}
