ghost use Rattle.std.specs.Prelude.{◌≡◌, IfOk};
ghost use Rattle.hv_meaning.specs.hv_route.specs.Back.{AreHeld};
ghost use Rattle.hv_history.specs.State.{written_by, given_in};

use crate::state::Written;
use hv_base::{NoMemory, WriteId};
use hv_meaning::hv_route::number_rows;
use hv_meaning::hv_typing::hv_logic::{Effect, Shape};
use std::alloc::Global;

/// What the effect of the statement of that number writes under a write id to a table of this shape. Each value of the inserted
/// rows is one that its type holds.
pub fn written_by(
    alloc: Global,
    shape: &Shape,
    write: u64,
    statement: u32,
    effect: Effect,
) -> Result<Written, NoMemory>
    ensures written { IfOk result (λ written. written ≡ written_by shape.now write statement effect) }
    ensures held { AreHeld effect.inserts }
{
    let Effect { inserts, deletes } = effect;
    Ok(Written {
        write,
        statement,
        inserts: number_rows(alloc, shape, WriteId(write), statement, inserts)?,
        deletes,
    })
}

/// The write id that a transaction was given in a table.
pub fn given_in(table: u64, given: &[(u64, u64)]) -> Option<u64>
    ensures { result ≡ given_in table given.now }
{
    for (other, write) in given {
        if *other == table {
            return Some(*write);
        }
    }
    None
}
