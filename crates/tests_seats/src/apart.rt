//! Two threads at one turn, over any house: each takes a part of the seat, and does its statements from a chair.
ghost use Rattle.std.specs.Prelude.{◌≡◌, false};
ghost use Rattle.std.specs.Thread.{IsSync};
ghost use Rattle.hv_seated.specs.Seats.{fixed_of};
ghost use Rattle.tests_seats.specs.Beside.{IsGivenBack, IsWholeSeat};

use hv_actor::{Actor, Housed};
use hv_seated::{Chair, SeatKey, Shared};
use hv_shelf::Shelf;
use hv_turn::{Seat, Turn};
use std::alloc::Global;
use std::marker::Brand;
use std::sync::Wait;
use std::thread::{Threads, join};

/// What is done by whoever acts on a house.
pub(crate) trait Sayer<D: Shelf, H: Housed<D>> {
    /// Does the statements of this number, and says what is replied.
    fn say<W: Actor<D, H>>(alloc: Global, actor: &mut W, who: u64, said: &mut String) -> Option<()>
        requires keeps { W.keeps actor.old }
        ensures keeps { W.keeps actor.new };
}

/// What was said, where all was done.
fn said_if(done: Option<()>, said: String) -> Option<String> {
    match done {
        Some(()) => Some(said),
        None => None,
    }
}

/// Does the statements of this number from a chair. The seat that comes back is the one that was taken.
fn sit<K: SeatKey, R: Wait, D: Shelf, H: Housed<D>, Y: Sayer<D, H>>(
    rt: &R,
    alloc: Global,
    turn: &Turn<Shared<D, H>>,
    seat: Seat<Shared<D, H>>,
    who: u64,
) -> (Seat<Shared<D, H>>, Option<String>)
    requires turn { seat.turn ≡ turn.now }
    requires free { seat.has_turn ≡ false }
    requires fixed { fixed_of seat ≡ K.fixed }
    ensures free { result.0.has_turn ≡ false }
    ensures fixed { fixed_of result.0 ≡ K.fixed }
{
    let mut chair = Chair::<K, R, D, H>::new(rt, turn, seat);
    let mut said = String::new(alloc);
    let done = Y::say(alloc, &mut chair, who, &mut said);
    (chair.into_seat(), said_if(done, said))
}

/// The same, and it is of the same turn, with as many parts.
fn work<R: Wait, D: Shelf, H: Housed<D>, Y: Sayer<D, H>>(
    rt: &R,
    alloc: Global,
    turn: &Turn<Shared<D, H>>,
    seat: Seat<Shared<D, H>>,
    who: u64,
) -> (Seat<Shared<D, H>>, Option<String>)
    requires turn { seat.turn ≡ turn.now }
    requires free { seat.has_turn ≡ false }
    ensures seat { IsGivenBack seat result.0 }
{
    sit::<Brand, R, D, H, Y>(rt, alloc, turn, seat, who)
}

/// Both threads, side by side.
#[tactic(auto, using(crate::proofs::Backs::whole_again))]
pub(crate) fn both<
    R: Threads + Wait + Sync,
    D: Shelf + Send,
    H: Housed<D> + Send,
    Y: Sayer<D, H> + Send,
>(
    rt: &R,
    alloc: Global,
    turn: &Turn<Shared<D, H>>,
    seat: Seat<Shared<D, H>>,
) -> (Seat<Shared<D, H>>, Option<String>, Option<String>)
    requires turn { seat.turn ≡ turn.now }
    requires free { seat.has_turn ≡ false }
    requires all { seat.parts ≡ 64 }
    ensures seat { IsWholeSeat turn.now result.0 }
{
    let mut rest = seat;
    let one = turn.split(&mut rest);
    let (first, second) = join(
        rt,
        || -> (Seat<Shared<D, H>>, Option<String>)
            requires { IsSync R.row × (one.turn ≡ turn.now) × (one.has_turn ≡ false) }
            ensures { IsGivenBack one result.0 }
        { work::<R, D, H, Y>(rt, alloc, turn, one, 0) },
        || -> (Seat<Shared<D, H>>, Option<String>)
            requires { IsSync R.row × (rest.turn ≡ turn.now) × (rest.has_turn ≡ false) }
            ensures { IsGivenBack rest result.0 }
        { work::<R, D, H, Y>(rt, alloc, turn, rest, 1) },
    );
    let (one, said_one) = first;
    let (mut rest, said_two) = second;
    turn.join(&mut rest, one);
    (rest, said_one, said_two)
}
