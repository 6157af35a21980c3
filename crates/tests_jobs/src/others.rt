//! Others, who do what they were told to do when.
ghost use Rattle.std.specs.Prelude.{◌≡◌, false};
ghost use Rattle.hv_actor.specs.Acting.{IsLater};
ghost use Rattle.hv_session.specs.hv_beginning.specs.hv_steps.specs.hv_table_reader.specs.hv_acts.specs.Told.{seen_in};
ghost use Rattle.hv_session.specs.hv_beginning.specs.hv_steps.specs.hv_table_reader.specs.hv_acts.specs.Going.{IsOpenHouse};
ghost use Rattle.tests_jobs.specs.Keeping.{IsAsKept};

use crate::acting::{asking, take_one};
use crate::desk::say_reply;
use crate::words::{cut, number, say, say_number};
use crate::working::{is_work, say_work, work};
use hv_actor::{Actor, Others};
use hv_base::TxnId;
use hv_history::Cause;
use hv_session::Taken;
use hv_session::hv_beginning::hv_steps::hv_table_reader::hv_acts::{AbortFor, ActFault, ToldHouse};
use hv_shelf::Shelf;
use std::alloc::Global;
use std::io;
use std::mem::ManuallyDrop;

/// Others who do what they were told to do when: their moves, a line a move, how often they came, and what is printed
/// of it.
#[derive(Drop)]
pub(crate) struct Scripted {
    pub(crate) moves: String,
    pub(crate) comings: u64,
    pub(crate) said: String,
    pub(crate) lacks: bool,
}

/// A statement of another session, to its end.
fn take<D: Shelf + Drop>(
    alloc: Global,
    house: &mut ToldHouse<D>,
    session: &str,
    text: &str,
    said: &mut String,
) -> io::Result<()>
    requires keeps { IsAsKept D.told D.hard house.old }
    requires running { IsOpenHouse house.old }
    ensures keeps { IsAsKept D.told D.hard house.new }
    ensures later { IsLater D.faults (seen_in house.old) (seen_in house.new) }
{
    let Some(asking) = asking(alloc, session, text, None) else {
        return say(said, "not asked");
    };
    match take_one(alloc, house, asking) {
        Ok(Taken::Replied(reply)) => say_reply(said, &reply),
        Ok(Taken::Kept(paused)) => {
            let _left = ManuallyDrop::new(paused);
            say(said, "held")
        }
        Err(_) => say(said, "stopped"),
    }
}

/// Aborts a transaction, as one that lacked memory, where that fits.
fn abort_now<D: Shelf + Drop>(
    alloc: Global,
    house: &mut ToldHouse<D>,
    txn: TxnId,
) -> Result<u64, ActFault>
    requires keeps { IsAsKept D.told D.hard house.old }
    ensures keeps { IsAsKept D.told D.hard house.new }
    ensures later { IsLater D.faults (seen_in house.old) (seen_in house.new) }
{
    let cause = Cause::Memory;
    house.hold(alloc, AbortFor { txn, cause })
}

/// Aborts a transaction of another session, and says where.
fn abort<D: Shelf + Drop>(
    alloc: Global,
    house: &mut ToldHouse<D>,
    txn: TxnId,
    said: &mut String,
) -> io::Result<()>
    requires keeps { IsAsKept D.told D.hard house.old }
    ensures keeps { IsAsKept D.told D.hard house.new }
    ensures later { IsLater D.faults (seen_in house.old) (seen_in house.new) }
{
    match abort_now(alloc, house, txn) {
        Ok(at) => say_number(alloc, said, "aborted at ", at),
        Err(_) => say(said, "not aborted"),
    }
}

/// A compaction, or a pass of a cleaner or an initiator.
fn work_now<D: Shelf + Drop>(
    alloc: Global,
    house: &mut ToldHouse<D>,
    deed: &str,
    said: &mut String,
) -> io::Result<()>
    requires keeps { IsAsKept D.told D.hard house.old }
    requires running { IsOpenHouse house.old }
    ensures keeps { IsAsKept D.told D.hard house.new }
    ensures later { IsLater D.faults (seen_in house.old) (seen_in house.new) }
{
    match work(alloc, house, deed) {
        Ok(worked) => say_work(alloc, said, worked),
        Err(_) => say(said, "stopped"),
    }
}

/// Does one of their moves, where the house is open: `compact`, `clean`, `initiate`, `abort 5`, or a statement of a
/// session, as `bo SELECT * FROM t`.
fn do_move<D: Shelf + Drop>(
    alloc: Global,
    house: &mut ToldHouse<D>,
    deed: &str,
    said: &mut String,
) -> io::Result<()>
    requires keeps { IsAsKept D.told D.hard house.old }
    ensures keeps { IsAsKept D.told D.hard house.new }
    ensures later { IsLater D.faults (seen_in house.old) (seen_in house.new) }
{
    if house.is_closed() {
        return say(said, "closed");
    }
    let (word, rest) = cut(deed, ' ');
    if is_work(deed) {
        work_now(alloc, house, deed, said)
    } else if word == "abort" {
        abort(alloc, house, TxnId(number(rest)), said)
    } else {
        take(alloc, house, word, rest, said)
    }
}

/// Does the moves of a coming, one after another. Whether memory lacked to print them.
fn come<D: Shelf + Drop>(
    alloc: Global,
    house: &mut ToldHouse<D>,
    moves: &str,
    at: u64,
    said: &mut String,
) -> bool
    requires keeps { IsAsKept D.told D.hard house.old }
    ensures keeps { IsAsKept D.told D.hard house.new }
    ensures later { IsLater D.faults (seen_in house.old) (seen_in house.new) }
{
    let mut lacks = false;
    for next in moves.split('\n') {
        let (when, deed) = cut(next, ' ');
        if number(when) == at {
            lacks |= say(said, next).is_err();
            lacks |= do_move(alloc, house, deed, said).is_err();
        }
    }
    lacks
}

impl<D: Shelf + Drop> Others<D, ToldHouse<D>> for Scripted {
    fn go(&mut self, alloc: Global, house: &mut ToldHouse<D>) {
        let at = self.comings.saturating_add(1);
        self.comings = at;
        self.lacks |= come(alloc, house, self.moves.as_str(), at, &mut self.said);
    }
}
