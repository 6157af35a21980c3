ghost use Rattle.std.specs.Prelude.{◌≡◌};
ghost use Rattle.hv_route.specs.declared.fault.RouteFault.TheVariants as fault;

use hv_base::NoMemory;
use thiserror::Error;

/// Why a change isn't made.
#[derive(Debug, Drop, Error)]
pub enum RouteFault {
    /// The values of an inserted row take too many bytes.
    #[error("a row is too large")]
    RowLimit,
    /// The text of a partition is too long, or too many partitions are touched.
    #[error("a partition's text is too long, or there are too many")]
    PartitionLimit,
    /// Memory could not be had.
    #[error("out of memory")]
    NoMemory,
}

impl From<NoMemory> for RouteFault {
    ghost from_gives = { λ _ e. e ≡ fault.NoMemory };

    fn from(_refused: NoMemory) -> RouteFault {
        RouteFault::NoMemory
    }
}
