//! Who acts alone: where others do nothing, the parts over an actor promise what the same parts over a house promise.
ghost use Rattle.hv_actor.specs.Acting.{IsAlone, Nothing, Untouched};
ghost use Rattle.hv_session.specs.Ways.{ActsAlone, PartsAlone, BeginsAlone, HaltsAlone};
ghost use Rattle.hv_session.specs.Alone.{AddsNothing, AddsAlone, OpenIsWhole, StopsAlone, OpensAlone, RefusesAlone, RefusesWaiting, ConcludesAlone, PreparesAlone, SeesAlone};

use hv_actor::Actor;
use hv_beginning::hv_steps::hv_table_reader::hv_acts::ToldHouse;
use hv_shelf::Shelf;

/// What one's own acts added is all that the book gained; and a house that is open is whole.
pub fn alone_adds<D: Shelf + Drop, W: Actor<D, ToldHouse<D>>>()
    ensures adds { AddsNothing W.between → AddsAlone D.faults W.between }
    ensures whole { OpenIsWhole D.told }
    ensures nothing { AddsNothing Nothing }
{}

/// A run stops as over a house alone: its entries so far are legal, and the journal reads to the book, or to it and one entry more.
pub fn alone_stops<D: Shelf + Drop, W: Actor<D, ToldHouse<D>>>()
    ensures stopped { AddsNothing W.between → IsAlone W.meanwhile → StopsAlone D.told D.faults W.between W.meanwhile }
    ensures opens { AddsNothing W.between → IsAlone W.meanwhile → OpensAlone D.told D.faults W.between W.meanwhile }
{}

/// Nobody else ends a transaction: what is refused is aborted, and has its reply.
pub fn alone_refuses<D: Shelf + Drop, W: Actor<D, ToldHouse<D>>>()
    ensures running { AddsNothing W.between → RefusesAlone D.told D.faults W.between }
    ensures waiting { AddsNothing W.between → RefusesWaiting D.told D.faults W.between }
{}

/// A statement that is ready is ended by the book's last entry, which is its own.
pub fn alone_concludes<D: Shelf + Drop, W: Actor<D, ToldHouse<D>>>()
    ensures law { AddsNothing W.between → ConcludesAlone D.told D.faults W.between }
{}

/// All of a statement but its end is done as over a house alone.
pub fn alone_prepares<D: Shelf + Drop, W: Actor<D, ToldHouse<D>>>()
    ensures law { AddsNothing W.between → PreparesAlone D.told D.faults W.between }
{}

/// What is seen alone is what the statement means; or it was aborted for a fault by which its tables couldn't be seen.
pub fn alone_sees<D: Shelf + Drop, W: Actor<D, ToldHouse<D>>>()
    ensures law { AddsNothing W.between → SeesAlone D.told D.faults W.between }
{}

/// A part of a started statement's way is one over a house alone, whatever it answers.
pub fn alone_goes<D: Shelf + Drop, W: Actor<D, ToldHouse<D>>, T>()
    ensures law { ActsAlone W.between W.meanwhile → PartsAlone T D.told D.faults W.between W.meanwhile }
{}

/// A statement begins at once where it can, and else it is turned away for what stood in its way; and what stands where the run stops in that.
pub fn alone_begins<D: Shelf + Drop, W: Actor<D, ToldHouse<D>>, T>()
    ensures begins { ActsAlone W.between W.meanwhile → BeginsAlone D.told D.faults W.between }
    ensures halts { ActsAlone W.between W.meanwhile → HaltsAlone T D.told D.faults W.between W.meanwhile }
{}

/// One for whom others do nothing acts alone.
pub fn who_acts_alone<D>()
    ensures law { ActsAlone {D = D} Nothing Untouched }
{}
