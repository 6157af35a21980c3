//! The end of a statement that is ready: by its commit, its Create or its Drop, by the abort for a conflict, or by one for want of memory.
ghost use Rattle.std.specs.Prelude.{◌≡◌, ℕ, List, false, Some, [], IfOk, IfErr};
ghost use Rattle.hv_history.specs.Answers.{ok_line};
ghost use Rattle.hv_beginning.specs.hv_steps.specs.hv_table_reader.specs.hv_acts.specs.hv_telling.specs.hv_house.specs.House.{IsSmall};
ghost use Rattle.hv_beginning.specs.hv_steps.specs.hv_table_reader.specs.hv_acts.specs.hv_telling.specs.Telling.{IsToldHouse};
ghost use Rattle.hv_beginning.specs.hv_steps.specs.hv_table_reader.specs.hv_acts.specs.Told.{trail_in, book_in};
ghost use Rattle.hv_beginning.specs.hv_steps.specs.hv_table_reader.specs.hv_acts.specs.Meant.{IsCommitDue, IsMakeMeant, IsDropMeant};
ghost use Rattle.hv_beginning.specs.hv_steps.specs.hv_table_reader.specs.hv_acts.specs.Committing.{CanBePut};
ghost use Rattle.hv_beginning.specs.hv_steps.specs.declared.ready.End.TheVariants as last;
ghost use Rattle.hv_beginning.specs.hv_steps.specs.Ending.{committing, HasReplied};
ghost use Rattle.hv_beginning.specs.hv_steps.specs.declared.reply.Done.TheVariants as done;
ghost use Rattle.hv_session.specs.Ends.{commit_adds, IsCommitEnd, IsCommitAnswered, committed_reply, create_adds, drop_adds};
ghost use Rattle.hv_beginning.specs.hv_steps.specs.Going.{faults_in, IsOpenHouse, AddsOwn, Goes, WasOpened};
ghost use Rattle.hv_beginning.specs.hv_steps.specs.Leaving.{IsLeft, EndsAct, added_by};
ghost use Rattle.hv_beginning.specs.hv_steps.specs.Phases.{IsDueSo, CanConclude, Concludes, AnswersTruly};
ghost use Rattle.hv_actor.specs.Acting.{among, known};

use hv_actor::Actor;
use hv_base::{List, TableId, Text, Touch, TxnId};
use hv_beginning::hv_steps::hv_table_reader::hv_acts::hv_telling::hv_house::HouseFault;
use hv_beginning::hv_steps::hv_table_reader::hv_acts::{
    Aborted, ActFault, CommitWrites, Committed, DropTable, Made, MakeTable, ToldHouse,
};
use hv_beginning::hv_steps::{Done, End, Ready, Reply, Way, end_without};
use hv_shelf::{Place, Shelf};
use std::alloc::Global;

/// Commits a transaction, or aborts it for a conflict, where that fits.
fn commit<D: Shelf + Drop, W: Actor<D, ToldHouse<D>>>(
    alloc: Global,
    actor: &mut W,
    txn: TxnId,
    wrote: List<Touch>,
    name: Text,
    put: List<Place>,
) -> Result<Committed, ActFault>
    requires keeps { W.keeps actor.old }
    requires running { IsOpenHouse (W.house actor.old) }
    requires small { IsSmall (committing txn.0 wrote) }
    requires can { CanBePut (trail_in (W.house actor.old)) txn wrote put }
    requires due { IsToldHouse D.told (W.house actor.old).house
        → IsCommitDue (trail_in (W.house actor.old)) txn wrote put }
    ensures keeps { W.keeps actor.new }
    ensures adds { AddsOwn D.faults W.between txn.0 (known (W.own actor.old) (W.house actor.old))
        (known (W.own actor.new) (W.house actor.new))
        (commit_adds txn.0 wrote result) }
    ensures ended { IfOk result (IsCommitEnd (W.house actor.new) txn.0 name) }
    ensures answered { (text : List ℕ) → IsDueSo (trail_in (W.house actor.old)) txn wrote name put text
        → IfOk result (IsCommitAnswered (W.house actor.new) txn.0 text) }
    ensures left { IsLeft D.told W.meanwhile txn.0 (W.house actor.new) result }
    ensures ends { IfErr result EndsAct }
{
    actor.hold(
        alloc,
        CommitWrites {
            txn,
            wrote,
            name,
            put,
        },
    )
}

/// The reply to a commit, or to the abort for a conflict.
fn committed(found: Committed, text: List<u8>) -> Done
    ensures { result ≡ committed_reply text found }
{
    match found {
        Committed::At(place) => Done::Replied(Reply {
            text,
            refused: false,
            ended: Some(place),
        }),
        Committed::Aborted(aborted) => {
            let Aborted {
                at,
                cause: _cause,
                text: line,
            } = aborted;
            Done::Replied(Reply {
                text: line,
                refused: true,
                ended: Some(at),
            })
        }
    }
}

/// Ends a statement by its commit, or by the abort for a conflict.
fn end_by_commit<D: Shelf + Drop, W: Actor<D, ToldHouse<D>>>(
    alloc: Global,
    actor: &mut W,
    way: Way,
    wrote: List<Touch>,
    name: Text,
    put: List<Place>,
    text: List<u8>,
) -> Result<Done, HouseFault>
    requires keeps { W.keeps actor.old }
    requires running { IsOpenHouse (W.house actor.old) }
    requires was { WasOpened (trail_in (W.house actor.old)) way.txn.0 }
    requires can { CanConclude D.told (W.house actor.old) way (last.Commit wrote name put) text }
    ensures keeps { W.keeps actor.new }
    ensures goes { Goes (among D.told D.faults W.between W.meanwhile) (faults_in D.faults (W.house actor.old)) way.txn.0
        (known (W.own actor.old) (W.house actor.old)) (known (W.own actor.new) (W.house actor.new))
        (Concludes way.txn.0 (W.house actor.new) (record { end = last.Commit wrote name put; text = text })) result }
    ensures answered { IsToldHouse D.told (W.house actor.old).house
        → IfOk result (AnswersTruly way.txn.0 (W.house actor.new)) }
{
    match commit(alloc, actor, way.txn, wrote, name, put) {
        Ok(found) => Ok(committed(found, text)),
        Err(why) => end_without(alloc, actor, way.txn, why),
    }
}

/// Makes the table of a transaction, where that fits.
fn make<D: Shelf + Drop, W: Actor<D, ToldHouse<D>>>(
    alloc: Global,
    actor: &mut W,
    txn: TxnId,
) -> Result<Made, ActFault>
    requires keeps { W.keeps actor.old }
    requires running { IsOpenHouse (W.house actor.old) }
    requires due { IsToldHouse D.told (W.house actor.old).house → IsMakeMeant (trail_in (W.house actor.old)) txn }
    ensures keeps { W.keeps actor.new }
    ensures adds { AddsOwn D.faults W.between txn.0 (known (W.own actor.old) (W.house actor.old))
        (known (W.own actor.new) (W.house actor.new))
        (added_by (create_adds txn.0) result) }
    ensures replied { IfOk result (λ made.
        HasReplied (book_in (W.house actor.new)) txn.0 ok_line false (Some made.at)) }
    ensures left { IsLeft D.told W.meanwhile txn.0 (W.house actor.new) result }
    ensures ends { IfErr result EndsAct }
{
    actor.hold(alloc, MakeTable { txn })
}

/// The reply to a table that was made or dropped, by the entry at this place.
fn made(text: List<u8>, at: u64) -> Done
    ensures { result ≡ done.Replied (record { text = text; refused = false; ended = Some at }) }
{
    Done::Replied(Reply {
        text,
        refused: false,
        ended: Some(at),
    })
}

/// Ends a statement by the table that it makes.
fn end_by_create<D: Shelf + Drop, W: Actor<D, ToldHouse<D>>>(
    alloc: Global,
    actor: &mut W,
    way: Way,
    text: List<u8>,
) -> Result<Done, HouseFault>
    requires keeps { W.keeps actor.old }
    requires running { IsOpenHouse (W.house actor.old) }
    requires was { WasOpened (trail_in (W.house actor.old)) way.txn.0 }
    requires can { CanConclude D.told (W.house actor.old) way last.Create text }
    ensures keeps { W.keeps actor.new }
    ensures goes { Goes (among D.told D.faults W.between W.meanwhile) (faults_in D.faults (W.house actor.old)) way.txn.0
        (known (W.own actor.old) (W.house actor.old)) (known (W.own actor.new) (W.house actor.new))
        (Concludes way.txn.0 (W.house actor.new) (record { end = last.Create; text = text })) result }
    ensures answered { IsToldHouse D.told (W.house actor.old).house
        → IfOk result (AnswersTruly way.txn.0 (W.house actor.new)) }
{
    match make(alloc, actor, way.txn) {
        Ok(table) => Ok(made(text, table.at)),
        Err(why) => end_without(alloc, actor, way.txn, why),
    }
}

/// Drops the table of a transaction, where that fits.
fn unmake<D: Shelf + Drop, W: Actor<D, ToldHouse<D>>>(
    alloc: Global,
    actor: &mut W,
    txn: TxnId,
    table: TableId,
) -> Result<u64, ActFault>
    requires keeps { W.keeps actor.old }
    requires running { IsOpenHouse (W.house actor.old) }
    requires due { IsToldHouse D.told (W.house actor.old).house → IsDropMeant (trail_in (W.house actor.old)) txn table }
    ensures keeps { W.keeps actor.new }
    ensures adds { AddsOwn D.faults W.between txn.0 (known (W.own actor.old) (W.house actor.old))
        (known (W.own actor.new) (W.house actor.new))
        (added_by (drop_adds txn.0 table) result) }
    ensures replied { IfOk result (λ at. HasReplied (book_in (W.house actor.new)) txn.0 ok_line false (Some at)) }
    ensures left { IsLeft D.told W.meanwhile txn.0 (W.house actor.new) result }
    ensures ends { IfErr result EndsAct }
{
    actor.hold(alloc, DropTable { txn, table })
}

/// Ends a statement by the drop of a table.
fn end_by_drop<D: Shelf + Drop, W: Actor<D, ToldHouse<D>>>(
    alloc: Global,
    actor: &mut W,
    way: Way,
    table: TableId,
    text: List<u8>,
) -> Result<Done, HouseFault>
    requires keeps { W.keeps actor.old }
    requires running { IsOpenHouse (W.house actor.old) }
    requires was { WasOpened (trail_in (W.house actor.old)) way.txn.0 }
    requires can { CanConclude D.told (W.house actor.old) way (last.Drop table) text }
    ensures keeps { W.keeps actor.new }
    ensures goes { Goes (among D.told D.faults W.between W.meanwhile) (faults_in D.faults (W.house actor.old)) way.txn.0
        (known (W.own actor.old) (W.house actor.old)) (known (W.own actor.new) (W.house actor.new))
        (Concludes way.txn.0 (W.house actor.new) (record { end = last.Drop table; text = text })) result }
    ensures answered { IsToldHouse D.told (W.house actor.old).house
        → IfOk result (AnswersTruly way.txn.0 (W.house actor.new)) }
{
    match unmake(alloc, actor, way.txn, table) {
        Ok(at) => Ok(made(text, at)),
        Err(why) => end_without(alloc, actor, way.txn, why),
    }
}

/// Ends a statement that is ready: by its commit, its Create or its Drop, by the abort for a conflict, or by one for want of memory.
///
/// # Errors
/// `Store` where the journal failed or others closed the house, and `NoMemory` where memory lacked even for an abort.
pub fn conclude<D: Shelf + Drop, W: Actor<D, ToldHouse<D>>>(
    alloc: Global,
    actor: &mut W,
    way: Way,
    ready: Ready,
) -> Result<Done, HouseFault>
    requires keeps { W.keeps actor.old }
    requires running { IsOpenHouse (W.house actor.old) }
    requires was { WasOpened (trail_in (W.house actor.old)) way.txn.0 }
    requires can { CanConclude D.told (W.house actor.old) way ready.end ready.text }
    ensures keeps { W.keeps actor.new }
    ensures goes { Goes (among D.told D.faults W.between W.meanwhile) (faults_in D.faults (W.house actor.old)) way.txn.0
        (known (W.own actor.old) (W.house actor.old)) (known (W.own actor.new) (W.house actor.new))
        (Concludes way.txn.0 (W.house actor.new) ready) result }
    ensures answered { IsToldHouse D.told (W.house actor.old).house
        → IfOk result (AnswersTruly way.txn.0 (W.house actor.new)) }
{
    let Ready { end, text } = ready;
    match end {
        End::Commit(wrote, name, put) => end_by_commit(alloc, actor, way, wrote, name, put, text),
        End::Create => end_by_create(alloc, actor, way, text),
        End::Drop(table) => end_by_drop(alloc, actor, way, table, text),
    }
}
