//! Two threads that do their statements over one house in memory, and what comes back of it.
ghost use Rattle.std.specs.Prelude.{IfOk};
ghost use Rattle.tests_seats.specs.Beside.{told_memory, hard_memory, IsAsKept};

use crate::apart::{Sayer, both};
use crate::statements::say_all;
use hv_actor::Actor;
use hv_seated::Shared;
use hv_session::hv_beginning::hv_steps::hv_table_reader::hv_acts::ToldHouse;
use hv_shelf::{MemoryShelf, Shelf};
use hv_turn::Turn;
use std::alloc::Global;
use std::sync::Wait;
use std::thread::Threads;

/// A house over a store in memory, which seats take in turn.
type House = Shared<MemoryShelf, ToldHouse<MemoryShelf>>;

/// Who does the statements of this program.
struct Statements;

impl<D: Shelf + Drop> Sayer<D, ToldHouse<D>> for Statements {
    fn say<W: Actor<D, ToldHouse<D>>>(
        alloc: Global,
        actor: &mut W,
        who: u64,
        said: &mut String,
    ) -> Option<()>
        requires keeps { W.keeps actor.old }
        ensures keeps { W.keeps actor.new }
    {
        say_all(alloc, actor, who, said)
    }
}

/// Lets both threads do their statements over this house. It comes back as acts keep it; without memory for the turn it
/// comes back at once.
pub(crate) fn beside<R: Threads + Wait + Sync>(
    rt: &R,
    alloc: Global,
    house: ToldHouse<MemoryShelf>,
) -> Result<(ToldHouse<MemoryShelf>, Option<String>, Option<String>), ToldHouse<MemoryShelf>>
    requires keeps { IsAsKept told_memory hard_memory house }
    ensures keeps { IfOk result (λ r. IsAsKept told_memory hard_memory r.0) }
{
    let shared: House = Shared::new(house);
    match Turn::new(shared, alloc) {
        Ok((turn, seat)) => {
            let (seat, said_one, said_two) = both::<
                R,
                MemoryShelf,
                ToldHouse<MemoryShelf>,
                Statements,
            >(rt, alloc, &turn, seat);
            let shared = turn.close(seat);
            Ok((shared.into_house(), said_one, said_two))
        }
        Err((_, shared)) => Err(shared.into_house()),
    }
}
