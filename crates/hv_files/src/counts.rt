ghost use Rattle.std.specs.Prelude.{◌≡◌, IsErr, IsErrOf};
ghost use Rattle.hv_shelf.specs.Causes.{SoftCause, HardCause};
ghost use Rattle.hv_files.specs.Answers.{counted_soft, counted_hard, answer_of, device_answer_of};

use hv_base::{Failed, raise};
use hv_paths::FileFault;
use hv_shelf::ShelfFault;

/// The counts of a store: all calls that failed, and those behind which it isn't to be used.
#[derive(Drop)]
pub struct Counts {
    pub faults: u64,
    pub hard: u64,
    /// The last failure, of which want of memory is one where a call has no other answer for that.
    pub last: Option<FileFault>,
}

impl Counts {
    /// No call has failed.
    pub fn new() -> Counts
        ensures faults { result.faults ≡ 0 }
        ensures hard { result.hard ≡ 0 }
    {
        Counts {
            faults: 0,
            hard: 0,
            last: None,
        }
    }

    /// A call on files failed: the hard count rises where the count of faults ends.
    fn raise_soft(&mut self)
        ensures counted { self.new ≡ counted_soft self.old }
        ensures cause { SoftCause (Unit {0})
            self.old.faults self.new.faults self.old.hard self.new.hard }
    {
        raise(&mut self.faults);
        if self.faults == u64::MAX {
            raise(&mut self.hard);
        }
    }

    /// A call on the journal, or a rename, failed.
    fn raise_hard(&mut self)
        ensures counted { self.new ≡ counted_hard self.old }
        ensures cause { HardCause (Unit {0})
            self.old.faults self.new.faults self.old.hard self.new.hard }
    {
        raise(&mut self.faults);
        raise(&mut self.hard);
    }

    /// The answer of a call on files.
    pub fn soft<T>(&mut self, done: Result<T, FileFault>) -> Result<T, ShelfFault>
        ensures answer { result ≡ answer_of done }
        ensures cause { SoftCause (IsErrOf result ShelfFault.Failed)
            self.old.faults self.new.faults self.old.hard self.new.hard }
        ensures stays { ¬ (IsErrOf result ShelfFault.Failed) → self.new.hard ≡ self.old.hard }
    {
        match done {
            Ok(value) => Ok(value),
            Err(FileFault::NoMemory) => Err(ShelfFault::NoMemory),
            Err(FileFault::Device(cause)) => {
                self.last = Some(FileFault::Device(cause));
                self.raise_soft();
                Err(ShelfFault::Failed)
            }
        }
    }

    /// The answer of a write to the journal, or of a rename.
    pub fn hard<T>(&mut self, done: Result<T, FileFault>) -> Result<T, ShelfFault>
        ensures answer { result ≡ answer_of done }
        ensures cause { HardCause (IsErrOf result ShelfFault.Failed)
            self.old.faults self.new.faults self.old.hard self.new.hard }
        ensures stays { ¬ (IsErrOf result ShelfFault.Failed) → self.new.hard ≡ self.old.hard }
    {
        match done {
            Ok(value) => Ok(value),
            Err(FileFault::NoMemory) => Err(ShelfFault::NoMemory),
            Err(FileFault::Device(cause)) => {
                self.last = Some(FileFault::Device(cause));
                self.raise_hard();
                Err(ShelfFault::Failed)
            }
        }
    }

    /// The answer of a call on files that has none for want of memory: that is a failure too.
    pub fn soft_device<T>(&mut self, done: Result<T, FileFault>) -> Result<T, Failed>
        ensures answer { result ≡ device_answer_of done }
        ensures cause { SoftCause (IsErr result)
            self.old.faults self.new.faults self.old.hard self.new.hard }
        ensures stays { ¬ (IsErr result) → self.new.hard ≡ self.old.hard }
    {
        match done {
            Ok(value) => Ok(value),
            Err(fault) => {
                self.last = Some(fault);
                self.raise_soft();
                Err(Failed)
            }
        }
    }

    /// The answer of a call on the journal that takes no memory.
    pub fn hard_device<T>(&mut self, done: Result<T, FileFault>) -> Result<T, Failed>
        ensures answer { result ≡ device_answer_of done }
        ensures cause { HardCause (IsErr result)
            self.old.faults self.new.faults self.old.hard self.new.hard }
        ensures stays { ¬ (IsErr result) → self.new.hard ≡ self.old.hard }
    {
        match done {
            Ok(value) => Ok(value),
            Err(fault) => {
                self.last = Some(fault);
                self.raise_hard();
                Err(Failed)
            }
        }
    }
}
