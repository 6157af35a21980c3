//! Where nobody else adds anything, the book gains just what was due.
ghost use Rattle.hv_compact.specs.Alone.{AddsNothing, InitiatesAlone, CompactsAlone};

use hv_actor::Actor;
use hv_job_acts::hv_acts::ToldHouse;
use hv_shelf::Shelf;

/// A pass of an initiator adds the Asked of each partition at whose turn something is due, over
/// the book behind the ones before it.
pub fn alone_initiates<D: Shelf + Drop, W: Actor<D, ToldHouse<D>>>()
    ensures law { AddsNothing W.between → InitiatesAlone D.told D.faults W.between W.meanwhile }
{}

/// One compaction adds nothing, or the Picked of the job that is lowest, and its end.
pub fn alone_compacts<D: Shelf + Drop, W: Actor<D, ToldHouse<D>>>()
    ensures law { AddsNothing W.between → CompactsAlone D.told D.faults W.between W.meanwhile }
{}
