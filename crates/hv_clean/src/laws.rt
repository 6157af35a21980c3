//! Where nobody else adds anything, the book gains just what may be noted.
ghost use Rattle.hv_clean.specs.Alone.{AddsNothing, PassesAlone};

use hv_actor::Actor;
use hv_job_acts::hv_acts::ToldHouse;
use hv_shelf::Shelf;

/// A pass none of whose calls on files failed, and that found no directory of an aborted id listed still, adds a
/// Cleaned for each job of a live table that is ready and below whose mark nobody is open, and then a Forgot for each
/// aborted write id.
pub fn alone_passes<D: Shelf + Drop, W: Actor<D, ToldHouse<D>>>()
    ensures law { AddsNothing W.between → PassesAlone D.told D.faults W.between W.meanwhile }
{}
