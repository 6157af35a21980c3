ghost use Rattle.std.specs.Prelude.{◌≡◌};
ghost use Rattle.std.specs.Option.{option_copied};
ghost use Rattle.hv_history.specs.State.{numbered};
ghost use Rattle.hv_history.specs.Places.{IsPlaceOf, IsOpenPlaceOf};

use crate::state::Transaction;

/// The place of the one of that number, from 1.
pub fn place_of<T>(items: &[T], number: u64) -> Option<usize>
    ensures { IsPlaceOf items.now number result }
{
    if number == 0 {
        return None;
    }
    let place = number - 1;
    if place < items.len() as u64 {
        Some(place as usize)
    } else {
        None
    }
}

/// The one of that number, from 1.
pub fn numbered<T>(items: &[T], number: u64) -> Option<&T>
    ensures { option_copied result ≡ numbered items.now number }
{
    if number == 0 {
        return None;
    }
    let place = number - 1;
    if place < items.len() as u64 {
        Some(&items[place as usize])
    } else {
        None
    }
}

/// The place of the transaction of that number, where it has not ended.
pub fn open_place_of(transactions: &[Transaction], number: u64) -> Option<usize>
    ensures { IsOpenPlaceOf transactions.now number result }
{
    let place = place_of(transactions, number)?;
    if transactions[place].ending.is_none() {
        Some(place)
    } else {
        None
    }
}
