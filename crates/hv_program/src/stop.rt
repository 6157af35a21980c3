ghost use Rattle.std.specs.Prelude.{◌≡◌};
ghost use Rattle.hv_program.specs.Stops.{stop_of, status_of_stop};
ghost use Rattle.hv_program.specs.declared.stop.Stop.TheVariants as stop;

use hv_base::{Failed, NoMemory};
use hv_session::hv_beginning::hv_steps::hv_table_reader::hv_acts::hv_telling::hv_house::HouseFault;
use std::alloc::AllocError;

/// Why a run ended before its end.
#[derive(Clone, Copy)]
pub enum Stop {
    /// The source failed.
    Source,
    /// The sink failed.
    Sink,
    /// The store failed.
    Store,
    NoMemory,
}

impl Stop {
    /// The status that the program ends with.
    pub fn status(self) -> u8
        ensures { result ≡ status_of_stop self }
    {
        match self {
            Stop::Source => 3,
            Stop::Sink => 4,
            Stop::Store => 5,
            Stop::NoMemory => 7,
        }
    }
}

impl From<HouseFault> for Stop {
    ghost from_gives = { λ fault e. e ≡ stop_of fault };

    fn from(fault: HouseFault) -> Stop {
        match fault {
            HouseFault::Store | HouseFault::Failed { .. } => Stop::Store,
            HouseFault::NoMemory => Stop::NoMemory,
        }
    }
}

/// A call that writes to the sink fails so.
impl From<Failed> for Stop {
    ghost from_gives = { λ _ e. e ≡ stop.Sink };

    fn from(_fault: Failed) -> Stop {
        Stop::Sink
    }
}

impl From<NoMemory> for Stop {
    ghost from_gives = { λ _ e. e ≡ stop.NoMemory };

    fn from(_refused: NoMemory) -> Stop {
        Stop::NoMemory
    }
}

impl From<AllocError> for Stop {
    ghost from_gives = { λ _ e. e ≡ stop.NoMemory };

    fn from(_refused: AllocError) -> Stop {
        Stop::NoMemory
    }
}
