ghost use Rattle.std.specs.Prelude.{◌≡◌};
ghost use Rattle.hv_acts.specs.hv_telling.specs.hv_house.specs.declared.fault.HouseFault.TheVariants as fault;
ghost use Rattle.hv_table_reader.specs.declared.fault.RowFault.TheVariants as row_fault;

use hv_acts::hv_telling::hv_house::HouseFault;
use hv_base::NoMemory;
use hv_history::FilePlace;
use thiserror::Error;

/// Why the rows of a table were not read.
#[derive(Debug, Drop, Error)]
pub enum RowFault {
    /// A file that the book makes isn't as it was written, or doesn't stand.
    #[error("a file is damaged")]
    Damaged(FilePlace),
    /// A call of the house failed.
    #[error("the house failed")]
    House(HouseFault),
}

impl From<NoMemory> for RowFault {
    ghost from_gives = { λ _ e. e ≡ row_fault.House fault.NoMemory };

    fn from(_refused: NoMemory) -> RowFault {
        RowFault::House(HouseFault::NoMemory)
    }
}
