ghost use Rattle.std.specs.Prelude.{◌≡◌, ◌+◌, ◌*◌, ◌^◌, ◌<◌, ◌≤◌, false, vec_len, IfOk};
ghost use Rattle.std.specs.Thread.{IsSync};
ghost use Rattle.tests_turn.specs.Work.{IsLater};

use crate::log::{Item, Log};
use hv_base::NoMemory;
use hv_turn::{Seat, Turn};
use std::alloc::Global;
use std::sync::Wait;
use std::thread::{Threads, join};

// Adds an item in one turn, if there is room for it and memory, and says how many were added.
fn add_one<R: Wait>(rt: &R, turn: &Turn<Log>, seat: &mut Seat<Log>, item: Item) -> u64
    requires turn { seat.old.turn ≡ turn.now }
    requires free { seat.old.has_turn ≡ false }
    ensures seat { IsLater result seat.old seat.new }
    ensures added { result ≤ 1 }
{
    let mut held = turn.enter(rt, seat);
    let added = held.value.count_added(item);
    turn.leave(seat, held);
    added
}

// The same in so many turns.
fn work<R: Wait>(
    rt: &R,
    turn: &Turn<Log>,
    seat: Seat<Log>,
    thread: u64,
    turns: u64,
) -> (Seat<Log>, u64)
    requires turn { seat.turn ≡ turn.now }
    requires free { seat.has_turn ≡ false }
    ensures seat { IsLater result.1 seat result.0 }
    ensures added { result.1 ≤ turns }
{
    let mut seat = seat;
    let mut added = 0;
    for number in 0..turns {
        let item = Item {
            thread,
            turn: number,
        };
        added += add_one(rt, turn, &mut seat, item);
    }
    (seat, added)
}

// Each of the threads takes a part of the seat, and works by itself.
#[tactic(auto, using(crate::proofs::Laters::worked_apart))]
fn spread<R: Threads + Wait + Sync>(
    rt: &R,
    turn: &Turn<Log>,
    seat: Seat<Log>,
    threads: u64,
    turns: u64,
) -> (Seat<Log>, u64)
    requires turn { seat.turn ≡ turn.now }
    requires free { seat.has_turn ≡ false }
    requires parts { (0 < threads) × (threads ≤ seat.parts) × (threads ≤ 64) }
    requires turns { turns ≤ 2 ^ 32 }
    ensures seat { IsLater result.1 seat result.0 }
    ensures added { result.1 ≤ 2 ^ 32 * threads }
{
    if threads == 1 {
        return work(rt, turn, seat, 0, turns);
    }
    let mut rest = seat;
    let one = turn.split(&mut rest);
    let (mine, others) = join(
        rt,
        || -> (Seat<Log>, u64)
            requires { IsSync R.row × (one.turn ≡ turn.now) × (one.has_turn ≡ false) × (1 < threads) }
            ensures { IsLater result.1 one result.0 × (result.1 ≤ turns) }
        { work(rt, turn, one, threads - 1, turns) },
        || -> (Seat<Log>, u64)
            requires { IsSync R.row × (rest.turn ≡ turn.now) × (rest.has_turn ≡ false) × (1 < threads) × (threads ≤ rest.parts + 1) × (threads ≤ 64) × (turns ≤ 2 ^ 32) }
            ensures { IsLater result.1 rest result.0 × (result.1 + 2 ^ 32 ≤ 2 ^ 32 * threads) }
        { spread(rt, turn, rest, threads - 1, turns) },
    );
    let (one, by_one) = mine;
    let (mut rest, by_others) = others;
    turn.join(&mut rest, one);
    (rest, by_others + by_one)
}

/// So many threads each take so many turns at a log with so much room. The log comes back with as many items as they added, and
/// no other.
pub fn by_threads<R: Threads + Wait + Sync>(
    rt: &R,
    alloc: Global,
    threads: u64,
    turns: u64,
    room: u64,
) -> Result<(Log, u64), NoMemory>
    ensures room { IfOk result (λ r. r.0.room ≡ room) }
    ensures items { IfOk result (λ r. vec_len r.0.items ≡ r.1) }
{
    let threads = threads.max(1).min(64);
    let turns = turns.min(1 << 32);
    match Turn::new(Log::new(alloc, room), alloc) {
        Ok((turn, seat)) => {
            let (seat, added) = spread(rt, &turn, seat, threads, turns);
            Ok((turn.close(seat), added))
        }
        Err((refused, _log)) => Err(refused),
    }
}
