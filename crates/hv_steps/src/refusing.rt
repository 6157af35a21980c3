//! Aborts: the line is made before the entry is noted; where memory lacks for that, the abort says so.
ghost use Rattle.std.specs.Prelude.{◌≡◌, ◌≤◌, ℕ, true, Some, None, [], IfOk, IfErr};
ghost use Rattle.hv_history.specs.Answers.{cause_text};
ghost use Rattle.hv_history.specs.declared.entry.Cause.TheVariants.{Memory};
ghost use Rattle.hv_table_reader.specs.hv_acts.specs.hv_telling.specs.hv_house.specs.Faults.{EndsRun};
ghost use Rattle.hv_table_reader.specs.hv_acts.specs.hv_telling.specs.hv_house.specs.House.{IsSmall};
ghost use Rattle.hv_table_reader.specs.hv_acts.specs.hv_telling.specs.Telling.{IsToldHouse};
ghost use Rattle.hv_table_reader.specs.hv_acts.specs.Told.{trail_in, book_in};
ghost use Rattle.hv_table_reader.specs.hv_acts.specs.Answers.{HasItsMark, NoTest, IsWhy, EntryFits};
ghost use Rattle.hv_table_reader.specs.hv_acts.specs.Meant.{IsAbortDue};
ghost use Rattle.hv_steps.specs.Ending.{aborting, EndsUncommitted, HasReplied};
ghost use Rattle.hv_steps.specs.declared.reply.Done.TheVariants as done;
ghost use Rattle.hv_steps.specs.Going.{faults_in, IsOpenHouse, AddsOwn, Goes, WasOpened, CauseKeeps};
ghost use Rattle.hv_steps.specs.Leaving.{IsLeft, IsLeftBy, IsLeftFor, EndsAct, IsNeverUnfit, added_by};
ghost use Rattle.hv_steps.specs.Phases.{AbortsFor, NoCause};
ghost use Rattle.hv_actor.specs.Acting.{among, known};

use crate::ready::Reply;
use crate::reply::Done;
use crate::telling::tell_gone;
use hv_actor::Actor;
use hv_base::{List, NoMemory, TxnId};
use hv_history::{Cause, cause_text};
use hv_shelf::Shelf;
use hv_table_reader::hv_acts::hv_telling::hv_house::HouseFault;
use hv_table_reader::hv_acts::{AbortFor, ActFault, ToldHouse};
use std::alloc::Global;

/// The reply to an abort, by the entry at this place.
fn aborted(text: Vec<u8>, at: u64) -> Done
    ensures { result ≡ done.Replied (record { text = text.items; refused = true; ended = Some at }) }
{
    Done::Replied(Reply {
        text: List::from_vec(text),
        refused: true,
        ended: Some(at),
    })
}

/// Aborts a transaction for a cause that is due, where that fits.
fn abort<D: Shelf + Drop, W: Actor<D, ToldHouse<D>>>(
    alloc: Global,
    actor: &mut W,
    txn: TxnId,
    cause: Cause,
) -> Result<u64, ActFault>
    requires keeps { W.keeps actor.old }
    requires running { IsOpenHouse (W.house actor.old) }
    requires small { IsSmall (aborting txn.0 cause) }
    requires marked { HasItsMark (trail_in (W.house actor.old)) txn cause }
    requires due { IsToldHouse D.told (W.house actor.old).house → IsAbortDue (trail_in (W.house actor.old)) txn cause }
    requires uncommitted { EndsUncommitted cause }
    ensures keeps { W.keeps actor.new }
    ensures adds { AddsOwn D.faults W.between txn.0 (known (W.own actor.old) (W.house actor.old))
        (known (W.own actor.new) (W.house actor.new))
        (added_by (λ (at : ℕ). aborting txn.0 cause) result) }
    ensures replied { IfOk result (λ at. HasReplied (book_in (W.house actor.new)) txn.0 (cause_text None cause) true
        (Some at)) }
    ensures left { IsLeft D.told W.meanwhile txn.0 (W.house actor.new) result }
    ensures why { IfErr result (IsWhy NoTest (trail_in (W.house actor.new)) txn
        (EntryFits (trail_in (W.house actor.new)) (aborting txn.0 cause))) }
    ensures ends { IfErr result EndsAct }
{
    actor.hold(alloc, AbortFor { txn, cause })
}

/// What comes of a transaction whose abort for want of memory was refused: others ended it, or the run stops.
fn unaborted<D: Shelf + Drop, W: Actor<D, ToldHouse<D>>>(
    alloc: Global,
    actor: &mut W,
    txn: TxnId,
    why: ActFault,
) -> Result<Done, HouseFault>
    requires keeps { W.keeps actor.old }
    requires left { IsLeftFor D.told W.meanwhile txn.0 (W.house actor.old) why }
    requires never { IsNeverUnfit why }
    requires ends { EndsAct why }
    ensures keeps { W.keeps actor.new }
    ensures goes { (low : ℕ) → Goes (among D.told D.faults W.between W.meanwhile) low txn.0
        (known (W.own actor.old) (W.house actor.old)) (known (W.own actor.new) (W.house actor.new))
        (AbortsFor txn.0 (W.house actor.new) [] NoCause) result }
{
    match why {
        ActFault::Ended { at } => tell_gone(alloc, actor, txn, at),
        ActFault::House(fault) => Err(fault),
        ActFault::Full { .. } | ActFault::Held { .. } | ActFault::Broken { .. } | ActFault::Unfit =>
            { unreachable!() }
    }
}

/// Aborts an open transaction since memory lacks, with this text as its reply.
fn lack_with<D: Shelf + Drop, W: Actor<D, ToldHouse<D>>>(
    alloc: Global,
    actor: &mut W,
    txn: TxnId,
    text: Vec<u8>,
) -> Result<Done, HouseFault>
    requires keeps { W.keeps actor.old }
    requires running { IsOpenHouse (W.house actor.old) }
    requires was { WasOpened (trail_in (W.house actor.old)) txn.0 }
    requires text { text.items ≡ cause_text None Memory }
    ensures keeps { W.keeps actor.new }
    ensures goes { (low : ℕ) → Goes (among D.told D.faults W.between W.meanwhile) low txn.0
        (known (W.own actor.old) (W.house actor.old)) (known (W.own actor.new) (W.house actor.new))
        (AbortsFor txn.0 (W.house actor.new) [] NoCause) result }
{
    match abort(alloc, actor, txn, Cause::Memory) {
        Ok(at) => Ok(aborted(text, at)),
        Err(why) => unaborted(alloc, actor, txn, why),
    }
}

/// Aborts an open transaction since memory lacks.
///
/// # Errors
/// `Store` where the journal failed or others closed the house, and `NoMemory` where memory lacked for that too.
pub fn lack_memory<D: Shelf + Drop, W: Actor<D, ToldHouse<D>>>(
    alloc: Global,
    actor: &mut W,
    txn: TxnId,
) -> Result<Done, HouseFault>
    requires keeps { W.keeps actor.old }
    requires running { IsOpenHouse (W.house actor.old) }
    requires was { WasOpened (trail_in (W.house actor.old)) txn.0 }
    ensures keeps { W.keeps actor.new }
    ensures goes { (low : ℕ) → Goes (among D.told D.faults W.between W.meanwhile) low txn.0
        (known (W.own actor.old) (W.house actor.old)) (known (W.own actor.new) (W.house actor.new))
        (AbortsFor txn.0 (W.house actor.new) [] NoCause) result }
{
    match cause_text(alloc, &None, &Cause::Memory) {
        Ok(text) => lack_with(alloc, actor, txn, text),
        Err(NoMemory) => Err(HouseFault::NoMemory),
    }
}

/// Ends a transaction one of whose acts failed for the house, and added nothing: the run stops, or it is aborted for want of memory.
fn end_failed<D: Shelf + Drop, W: Actor<D, ToldHouse<D>>>(
    alloc: Global,
    actor: &mut W,
    txn: TxnId,
    fault: HouseFault,
) -> Result<Done, HouseFault>
    requires keeps { W.keeps actor.old }
    requires left { IsLeftBy D.told W.meanwhile txn.0 (W.house actor.old) fault }
    requires ends { EndsRun fault }
    requires was { WasOpened (trail_in (W.house actor.old)) txn.0 }
    ensures keeps { W.keeps actor.new }
    ensures goes { (low : ℕ) → Goes (among D.told D.faults W.between W.meanwhile) low txn.0
        (known (W.own actor.old) (W.house actor.old)) (known (W.own actor.new) (W.house actor.new))
        (AbortsFor txn.0 (W.house actor.new) [] NoCause) result }
{
    match fault {
        HouseFault::NoMemory => lack_memory(alloc, actor, txn),
        HouseFault::Store => Err(HouseFault::Store),
        HouseFault::Failed { .. } => unreachable!(),
    }
}

/// Ends a transaction one of whose acts was refused, which added nothing: others have ended it, or the run stops, or it is aborted as for
/// want of memory.
///
/// # Errors
/// `Store` where the journal failed or others closed the house, and `NoMemory` where memory lacked for an abort.
pub fn end_without<D: Shelf + Drop, W: Actor<D, ToldHouse<D>>>(
    alloc: Global,
    actor: &mut W,
    txn: TxnId,
    why: ActFault,
) -> Result<Done, HouseFault>
    requires keeps { W.keeps actor.old }
    requires left { IsLeftFor D.told W.meanwhile txn.0 (W.house actor.old) why }
    requires ends { EndsAct why }
    requires was { WasOpened (trail_in (W.house actor.old)) txn.0 }
    ensures keeps { W.keeps actor.new }
    ensures goes { (low : ℕ) → Goes (among D.told D.faults W.between W.meanwhile) low txn.0
        (known (W.own actor.old) (W.house actor.old)) (known (W.own actor.new) (W.house actor.new))
        (AbortsFor txn.0 (W.house actor.new) [] NoCause) result }
{
    match why {
        ActFault::Ended { at } => tell_gone(alloc, actor, txn, at),
        ActFault::House(fault) => end_failed(alloc, actor, txn, fault),
        ActFault::Full { .. } | ActFault::Held { .. } | ActFault::Broken { .. } | ActFault::Unfit =>
            { lack_memory(alloc, actor, txn) }
    }
}

/// Aborts an open transaction for a cause that is due, with this text as its reply.
fn refuse_with<D: Shelf + Drop, W: Actor<D, ToldHouse<D>>>(
    alloc: Global,
    actor: &mut W,
    txn: TxnId,
    cause: Cause,
    text: Vec<u8>,
) -> Result<Done, HouseFault>
    requires keeps { W.keeps actor.old }
    requires running { IsOpenHouse (W.house actor.old) }
    requires small { IsSmall (aborting txn.0 cause) }
    requires marked { HasItsMark (trail_in (W.house actor.old)) txn cause }
    requires due { IsToldHouse D.told (W.house actor.old).house → IsAbortDue (trail_in (W.house actor.old)) txn cause }
    requires uncommitted { EndsUncommitted cause }
    requires was { WasOpened (trail_in (W.house actor.old)) txn.0 }
    requires text { text.items ≡ cause_text None cause }
    ensures keeps { W.keeps actor.new }
    ensures goes { (low : ℕ) → low ≤ faults_in D.faults (W.house actor.old)
        → CauseKeeps low (faults_in D.faults (W.house actor.old)) cause
        → Goes (among D.told D.faults W.between W.meanwhile) low txn.0 (known (W.own actor.old) (W.house actor.old))
        (known (W.own actor.new) (W.house actor.new))
        (AbortsFor txn.0 (W.house actor.new) [] (λ why. why ≡ cause)) result }
{
    match abort(alloc, actor, txn, cause) {
        Ok(at) => Ok(aborted(text, at)),
        Err(why) => end_without(alloc, actor, txn, why),
    }
}

/// Aborts an open transaction for a cause that is due, which isn't a conflict; or as one that lacked memory, where memory lacks for that, or
/// where the cause doesn't fit.
///
/// # Errors
/// `Store` where the journal failed or others closed the house, and `NoMemory` where memory lacked for either abort.
pub fn refuse<D: Shelf + Drop, W: Actor<D, ToldHouse<D>>>(
    alloc: Global,
    actor: &mut W,
    txn: TxnId,
    cause: Cause,
) -> Result<Done, HouseFault>
    requires keeps { W.keeps actor.old }
    requires running { IsOpenHouse (W.house actor.old) }
    requires small { IsSmall (aborting txn.0 cause) }
    requires marked { HasItsMark (trail_in (W.house actor.old)) txn cause }
    requires due { IsToldHouse D.told (W.house actor.old).house → IsAbortDue (trail_in (W.house actor.old)) txn cause }
    requires uncommitted { EndsUncommitted cause }
    requires was { WasOpened (trail_in (W.house actor.old)) txn.0 }
    ensures keeps { W.keeps actor.new }
    ensures goes { (low : ℕ) → low ≤ faults_in D.faults (W.house actor.old)
        → CauseKeeps low (faults_in D.faults (W.house actor.old)) cause
        → Goes (among D.told D.faults W.between W.meanwhile) low txn.0 (known (W.own actor.old) (W.house actor.old))
        (known (W.own actor.new) (W.house actor.new))
        (AbortsFor txn.0 (W.house actor.new) [] (λ why. why ≡ cause)) result }
{
    match cause_text(alloc, &None, &cause) {
        Ok(text) => refuse_with(alloc, actor, txn, cause, text),
        Err(NoMemory) => lack_memory(alloc, actor, txn),
    }
}
