//! A house over a store, for those who act on it.
ghost use Rattle.std.specs.Prelude.{IfOk};
ghost use Rattle.hv_session.specs.hv_beginning.specs.hv_steps.specs.hv_table_reader.specs.hv_acts.specs.hv_telling.specs.hv_house.specs.Housed.{ShutsHard};
ghost use Rattle.hv_session.specs.hv_beginning.specs.hv_steps.specs.hv_table_reader.specs.hv_acts.specs.hv_telling.specs.hv_house.specs.Steps.{seen_of};
ghost use Rattle.hv_session.specs.hv_beginning.specs.hv_steps.specs.hv_table_reader.specs.hv_acts.specs.hv_telling.specs.Telling.{IsWhole};
ghost use Rattle.tests_seats.specs.Beside.{IsAsKept};

use hv_base::Limits;
use hv_session::hv_beginning::hv_steps::hv_table_reader::hv_acts::ToldHouse;
use hv_session::hv_beginning::hv_steps::hv_table_reader::hv_acts::hv_telling::hv_house::House;
use hv_session::hv_beginning::hv_steps::hv_table_reader::hv_acts::hv_telling::opened_is_whole;
use hv_shelf::Shelf;
use std::alloc::Global;
use std::io;
use std::io::ErrorKind;
use std::mem::ManuallyDrop;

/// The limits of this project's profile.
const LIMITS: Limits = Limits { entries: 131_072 };

/// Leaves a value to the end of the program, so that no exit of a function lets go of it.
pub(crate) fn leave<T: Drop>(value: T) {
    let _left = ManuallyDrop::new(value);
}

/// Opens a store to a house that is as acts keep it.
fn opened_whole<D: Shelf + Drop>(alloc: Global, store: D) -> io::Result<House<D>>
    ensures whole { IfOk result (IsWhole D.told) }
    ensures hard { IfOk result (λ house. ShutsHard D.hard (seen_of house)) }
{
    opened_is_whole::<D>();
    match House::boot(alloc, store, LIMITS) {
        Ok(house) => Ok(house),
        Err((_, store)) => {
            leave(store);
            Err(ErrorKind::Other.into())
        }
    }
}

/// A house for those who act on it.
fn told<D: Shelf + Drop>(house: House<D>) -> ToldHouse<D>
    requires whole { IsWhole D.told house }
    requires hard { ShutsHard D.hard (seen_of house) }
    ensures keeps { IsAsKept D.told D.hard result }
{
    ToldHouse::new(house)
}

/// A house over this store for those who act on it.
pub(crate) fn open_told<D: Shelf + Drop>(alloc: Global, store: D) -> io::Result<ToldHouse<D>>
    ensures keeps { IfOk result (IsAsKept D.told D.hard) }
{
    Ok(told(opened_whole(alloc, store)?))
}

/// Closes a house, and leaves its store.
pub(crate) fn close<D: Shelf + Drop>(house: ToldHouse<D>) {
    leave(house.into_house().close());
}
