//! All of a started statement but its end: its write id is taken, and its files are put.
ghost use Rattle.std.specs.Prelude.{◌≡◌, ◌≤◌, ◌<◌, ℕ, Some, None, Ok, true, false, take, [], ◌∷◌, IfOk, IfErr};
ghost use Rattle.std.specs.List.{AllByRecursion};
ghost use Rattle.hv_ast.specs.declared.statement.Stmt.{Stmt};
ghost use Rattle.hv_logic.specs.declared.meaning.Meaning.TheVariants.{Change, Ask};
ghost use Rattle.hv_route.specs.Routes.{files_of};
ghost use Rattle.hv_route.specs.Touching.{touches_of, touched};
ghost use Rattle.hv_table_rows.specs.Putting.{CanPut};
ghost use Rattle.hv_history.specs.Answers.{counts_line};
ghost use Rattle.hv_stands.specs.Laws.{changes_in};
ghost use Rattle.hv_stands.specs.Running.{Asking, meant};
ghost use Rattle.hv_table_reader.specs.hv_acts.specs.hv_telling.specs.hv_house.specs.House.{IsSmall};
ghost use Rattle.hv_table_reader.specs.hv_acts.specs.hv_telling.specs.Telling.{IsToldHouse};
ghost use Rattle.hv_table_reader.specs.hv_acts.specs.Told.{trail_in, book_in};
ghost use Rattle.hv_table_reader.specs.hv_acts.specs.Answers.{HasItsMark};
ghost use Rattle.hv_table_reader.specs.hv_acts.specs.Passing.{HasPassedAll};
ghost use Rattle.hv_table_reader.specs.hv_acts.specs.Meant.{IsAbortDue};
ghost use Rattle.hv_steps.specs.declared.ready.End.TheVariants as last;
ghost use Rattle.hv_steps.specs.Ending.{aborting, idle_end, CanChange, EndsUncommitted};
ghost use Rattle.hv_steps.specs.declared.reply.Prepared.TheVariants as found;
ghost use Rattle.hv_steps.specs.Going.{faults_in, AddsOwn, CauseKeeps, Goes, IsOpenHouse, WasOnWay, WasOpened};
ghost use Rattle.hv_steps.specs.Leaving.{EndsAct};
ghost use Rattle.hv_steps.specs.Phases.{ComesTo, Prepares, CanConcludeIn, NoCause};
ghost use Rattle.hv_steps.specs.Preparing.{ended, ended_by, failed_count, given_entries, asks_as, job_entries, EndsFor, end_said, MakesReady, ComesToChange, ComesToJob, IsGivenSo, IsStoodSo, IsFaultOf, IsRefusal, HasItsId, change_under, Writes};
ghost use Rattle.hv_actor.specs.Acting.{among, known};

use crate::putting::put;
use crate::ready::{End, Ready, Reply, Way};
use crate::refusing::{end_without, refuse};
use crate::reply::{Done, Prepared};
use hv_actor::Actor;
use hv_ast::CompactionKind;
use hv_base::{List, NoMemory, TableId, Text, Touch, TxnId, WriteId};
use hv_effect::Touching;
use hv_history::{Cause, counts_line, listing, ok_line};
use hv_logic::{Effect, Meaning, TableInfo};
use hv_shelf::{Place, Shelf};
use hv_table_reader::hv_acts::hv_telling::hv_house::HouseFault;
use hv_table_reader::hv_acts::{
    Aborted, ActFault, AskFor, AskedFor, GiveId, Given, ToldHouse, what_was_meant_is_meant,
};
use std::alloc::Global;

/// A commit that touches nothing.
fn nothing(alloc: Global) -> End
    ensures { result ≡ idle_end }
{
    let name = Text::from_bytes(Vec::new(alloc));
    End::Commit(List::empty(alloc), name, List::empty(alloc))
}

/// A statement that has ended so, where the run goes on.
fn ended(found: Result<Done, HouseFault>) -> Result<Prepared, HouseFault>
    ensures { result ≡ ended found }
{
    match found {
        Ok(done) => Ok(Prepared::Ended(done)),
        Err(fault) => Err(fault),
    }
}

/// Aborts a statement for what it means or what became of it, before its end.
fn withdraw<D: Shelf + Drop, W: Actor<D, ToldHouse<D>>>(
    alloc: Global,
    actor: &mut W,
    txn: TxnId,
    cause: Cause,
) -> Result<Prepared, HouseFault>
    requires keeps { W.keeps actor.old }
    requires running { IsOpenHouse (W.house actor.old) }
    requires small { IsSmall (aborting txn.0 cause) }
    requires marked { HasItsMark (trail_in (W.house actor.old)) txn cause }
    requires due { IsToldHouse D.told (W.house actor.old).house → IsAbortDue (trail_in (W.house actor.old)) txn cause }
    requires uncommitted { EndsUncommitted cause }
    requires was { WasOpened (trail_in (W.house actor.old)) txn.0 }
    ensures keeps { W.keeps actor.new }
    ensures goes { (low : ℕ) → low ≤ faults_in D.faults (W.house actor.old)
        → CauseKeeps low (faults_in D.faults (W.house actor.old)) cause
        → Goes (among D.told D.faults W.between W.meanwhile) low txn.0 (known (W.own actor.old) (W.house actor.old))
        (known (W.own actor.new) (W.house actor.new))
        (EndsFor txn.0 (W.house actor.new) (λ why. why ≡ cause)) result }
{
    ended(refuse(alloc, actor, txn, cause))
}

/// A statement of which nothing is to be noted but its end, with this text as its reply.
fn made_ready<D: Shelf + Drop, W: Actor<D, ToldHouse<D>>>(
    alloc: Global,
    actor: &mut W,
    txn: TxnId,
    end: End,
    text: Result<Vec<u8>, NoMemory>,
) -> Result<Prepared, HouseFault>
    requires keeps { W.keeps actor.old }
    requires running { IsOpenHouse (W.house actor.old) }
    requires was { WasOpened (trail_in (W.house actor.old)) txn.0 }
    ensures keeps { W.keeps actor.new }
    ensures goes { (wanted : List ℕ) → IfOk text (λ line. line.items ≡ wanted)
        → Goes (among D.told D.faults W.between W.meanwhile) (faults_in D.faults (W.house actor.old)) txn.0
        (known (W.own actor.old) (W.house actor.old)) (known (W.own actor.new) (W.house actor.new))
        (MakesReady txn.0 (W.house actor.old) (W.house actor.new) (end_said end wanted)) result }
{
    match text {
        Ok(text) => Ok(Prepared::Ready(Ready {
            end,
            text: List::from_vec(text),
        })),
        Err(NoMemory) => withdraw(alloc, actor, txn, Cause::Memory),
    }
}

/// A change of rows, with its touches and its reply.
#[derive(Drop)]
struct RowChange {
    info: TableInfo,
    effect: Effect,
    wrote: List<Touch>,
    text: Vec<u8>,
}

/// Whether a change inserts or deletes a row.
fn changes_rows(effect: &Effect) -> bool
    ensures some { result ≡ true → 0 < changes_in effect.now }
    ensures none { result ≡ false → changes_in effect.now ≡ 0 }
{
    effect.inserts.len() > 0 || effect.deletes.len() > 0
}

/// Takes the next write id of the table of a change; or aborts the statement, where there is no room for it.
fn take_id<D: Shelf + Drop, W: Actor<D, ToldHouse<D>>>(
    alloc: Global,
    actor: &mut W,
    way: Way,
    info: &TableInfo,
    effect: &Effect,
) -> Result<Given, ActFault>
    requires keeps { W.keeps actor.old }
    requires running { IsOpenHouse (W.house actor.old) }
    requires comes { ComesToChange D.told (W.house actor.old) way info.now effect.now }
    requires some { 0 < changes_in effect.now }
    ensures keeps { W.keeps actor.new }
    ensures adds { AddsOwn D.faults W.between way.txn.0 (known (W.own actor.old) (W.house actor.old))
        (known (W.own actor.new) (W.house actor.new))
        (given_entries way.txn.0 info.now.table result) }
    ensures running { IfOk result (λ _. IsOpenHouse (W.house actor.new)) }
    ensures given { IfOk result (IsGivenSo D.told (W.house actor.new) way.txn info.now effect.now) }
    ensures refusal { (low : ℕ) → IfErr result (IsRefusal D.told D.faults W.meanwhile low way.txn (W.house actor.new)) }
    ensures why { IfErr result EndsAct }
{
    what_was_meant_is_meant();
    actor.hold(
        alloc,
        GiveId {
            txn: way.txn,
            table: info.table,
        },
    )
}

/// What a statement comes to that was aborted where its write id was to be taken.
fn ended_by(aborted: Aborted) -> Prepared
    ensures { result ≡ ended_by aborted }
{
    Prepared::Ended(Done::Replied(Reply {
        text: aborted.text,
        refused: true,
        ended: Some(aborted.at),
    }))
}

/// The count of faults of a call on files that failed.
fn failed_count(why: ActFault) -> Option<u64>
    ensures { result ≡ failed_count why }
{
    match why {
        ActFault::House(HouseFault::Failed { count }) => Some(count),
        ActFault::House(HouseFault::Store)
        | ActFault::House(HouseFault::NoMemory)
        | ActFault::Ended { .. }
        | ActFault::Full { .. }
        | ActFault::Held { .. }
        | ActFault::Broken { .. }
        | ActFault::Unfit => None,
    }
}

/// Ends a statement one of whose acts was refused: others have ended it, or the run stops, or it is aborted for what became of it.
fn break_off<D: Shelf + Drop, W: Actor<D, ToldHouse<D>>>(
    alloc: Global,
    actor: &mut W,
    txn: TxnId,
    why: ActFault,
) -> Result<Prepared, HouseFault>
    requires keeps { W.keeps actor.old }
    requires refusal { (low : ℕ) × IsRefusal D.told D.faults W.meanwhile low txn (W.house actor.old) why }
    requires was { WasOpened (trail_in (W.house actor.old)) txn.0 }
    ensures keeps { W.keeps actor.new }
    ensures broken { (low : ℕ) → low ≤ faults_in D.faults (W.house actor.old)
        → IsRefusal D.told D.faults W.meanwhile low txn (W.house actor.old) why
        → Goes (among D.told D.faults W.between W.meanwhile) low txn.0 (known (W.own actor.old) (W.house actor.old))
        (known (W.own actor.new) (W.house actor.new))
        (EndsFor txn.0 (W.house actor.new) (IsFaultOf why)) result }
{
    match failed_count(why) {
        Some(count) => withdraw(alloc, actor, txn, Cause::WriteFault { count }),
        None => ended(end_without(alloc, actor, txn, why)),
    }
}

/// What is left of a change whose files are put.
fn written(info: TableInfo, wrote: List<Touch>, text: Vec<u8>, put: List<Place>) -> Prepared
    ensures { result ≡ found.Ready (record { end = last.Commit wrote info.shape.name put; text = text.items }) }
{
    Prepared::Ready(Ready {
        end: End::Commit(wrote, info.shape.name, put),
        text: List::from_vec(text),
    })
}

/// Puts the files of a change whose write id is noted.
fn put_rows<D: Shelf + Drop, W: Actor<D, ToldHouse<D>>>(
    alloc: Global,
    actor: &mut W,
    way: Way,
    change: RowChange,
    write: WriteId,
) -> Result<Prepared, HouseFault>
    requires keeps { W.keeps actor.old }
    requires running { IsOpenHouse (W.house actor.old) }
    requires was { WasOpened (trail_in (W.house actor.old)) way.txn.0 }
    requires within { touched change.info change.effect ≡ Ok (touches_of change.info change.effect) }
    requires can { AllByRecursion CanPut (files_of change.info.shape write.0 0 change.effect) }
    requires id { HasItsId D.told (W.house actor.old) way.txn change.info change.effect write.0 }
    requires wrote { change.wrote ≡ touches_of change.info change.effect }
    requires text { change.text.items ≡ counts_line (touches_of change.info change.effect) }
    ensures keeps { W.keeps actor.new }
    ensures goes { Goes (among D.told D.faults W.between W.meanwhile) (faults_in D.faults (W.house actor.old)) way.txn.0
        (known (W.own actor.old) (W.house actor.old)) (known (W.own actor.new) (W.house actor.new))
        (Writes way.txn.0 (W.house actor.new) (change_under change.info change.effect write.0)) result }
    ensures can { IfOk result (CanConcludeIn D.told (W.house actor.new) way) }
{
    let RowChange {
        info,
        effect,
        wrote,
        text,
    } = change;
    match put(alloc, actor, way.txn, &info, effect, write) {
        Ok(done) => Ok(written(info, wrote, text, done)),
        Err(why) => break_off(alloc, actor, way.txn, why),
    }
}

/// Takes the next write id of the table of a change, and puts its files.
fn change_rows<D: Shelf + Drop, W: Actor<D, ToldHouse<D>>>(
    alloc: Global,
    actor: &mut W,
    way: Way,
    change: RowChange,
) -> Result<Prepared, HouseFault>
    requires keeps { W.keeps actor.old }
    requires running { IsOpenHouse (W.house actor.old) }
    requires comes { ComesToChange D.told (W.house actor.old) way change.info change.effect }
    requires some { 0 < changes_in change.effect }
    requires wrote { change.wrote ≡ touches_of change.info change.effect }
    requires text { change.text.items ≡ counts_line (touches_of change.info change.effect) }
    ensures keeps { W.keeps actor.new }
    ensures goes { Goes (among D.told D.faults W.between W.meanwhile) (faults_in D.faults (W.house actor.old)) way.txn.0
        (known (W.own actor.old) (W.house actor.old)) (known (W.own actor.new) (W.house actor.new))
        (Prepares way.txn.0 (W.house actor.new) (Change change.info change.effect)) result }
    ensures can { IfOk result (CanConcludeIn D.told (W.house actor.new) way) }
{
    match take_id(alloc, actor, way, &change.info, &change.effect) {
        Ok(Given::Id(write)) => put_rows(alloc, actor, way, change, write),
        Ok(Given::Aborted(aborted)) => Ok(ended_by(aborted)),
        Err(why) => break_off(alloc, actor, way.txn, why),
    }
}

/// Prepares a change that inserts or deletes a row.
fn prepare_rows<D: Shelf + Drop, W: Actor<D, ToldHouse<D>>>(
    alloc: Global,
    actor: &mut W,
    way: Way,
    info: TableInfo,
    effect: Effect,
    wrote: List<Touch>,
) -> Result<Prepared, HouseFault>
    requires keeps { W.keeps actor.old }
    requires running { IsOpenHouse (W.house actor.old) }
    requires comes { ComesToChange D.told (W.house actor.old) way info effect }
    requires some { 0 < changes_in effect }
    requires wrote { wrote ≡ touches_of info effect }
    ensures keeps { W.keeps actor.new }
    ensures goes { Goes (among D.told D.faults W.between W.meanwhile) (faults_in D.faults (W.house actor.old)) way.txn.0
        (known (W.own actor.old) (W.house actor.old)) (known (W.own actor.new) (W.house actor.new))
        (Prepares way.txn.0 (W.house actor.new) (Change info effect)) result }
    ensures can { IfOk result (CanConcludeIn D.told (W.house actor.new) way) }
{
    match counts_line(alloc, wrote.as_slice()) {
        Ok(text) => {
            let change = RowChange {
                info,
                effect,
                wrote,
                text,
            };
            change_rows(alloc, actor, way, change)
        }
        Err(NoMemory) => withdraw(alloc, actor, way.txn, Cause::Memory),
    }
}

/// Prepares a change of these touches.
fn prepare_change<D: Shelf + Drop, W: Actor<D, ToldHouse<D>>>(
    alloc: Global,
    actor: &mut W,
    way: Way,
    info: TableInfo,
    effect: Effect,
    wrote: List<Touch>,
) -> Result<Prepared, HouseFault>
    requires keeps { W.keeps actor.old }
    requires running { IsOpenHouse (W.house actor.old) }
    requires comes { ComesToChange D.told (W.house actor.old) way info effect }
    requires wrote { wrote ≡ touches_of info effect }
    ensures keeps { W.keeps actor.new }
    ensures goes { Goes (among D.told D.faults W.between W.meanwhile) (faults_in D.faults (W.house actor.old)) way.txn.0
        (known (W.own actor.old) (W.house actor.old)) (known (W.own actor.new) (W.house actor.new))
        (Prepares way.txn.0 (W.house actor.new) (Change info effect)) result }
    ensures can { IfOk result (CanConcludeIn D.told (W.house actor.new) way) }
{
    if changes_rows(&effect) {
        prepare_rows(alloc, actor, way, info, effect, wrote)
    } else {
        made_ready(
            alloc,
            actor,
            way.txn,
            nothing(alloc),
            counts_line(alloc, &[]),
        )
    }
}

/// Asks for the compaction that a statement comes to, where no job of the partition was busy behind its Start; or aborts it, where there
/// is no room for that.
fn ask_job<D: Shelf + Drop, W: Actor<D, ToldHouse<D>>>(
    alloc: Global,
    actor: &mut W,
    way: Way,
    table: TableId,
    partition: Text,
    kind: CompactionKind,
) -> Result<AskedFor, ActFault>
    requires keeps { W.keeps actor.old }
    requires running { IsOpenHouse (W.house actor.old) }
    requires comes { ComesToJob D.told (W.house actor.old) way table partition kind }
    ensures keeps { W.keeps actor.new }
    ensures adds { AddsOwn D.faults W.between way.txn.0 (known (W.own actor.old) (W.house actor.old))
        (known (W.own actor.new) (W.house actor.new))
        (job_entries (asks_as way table partition kind) result) }
    ensures running { IfOk result (λ _. IsOpenHouse (W.house actor.new)) }
    ensures stood { IfOk result (IsStoodSo D.told (W.house actor.new) way (asks_as way table partition kind)) }
    ensures refusal { (low : ℕ) → IfErr result (IsRefusal D.told D.faults W.meanwhile low way.txn (W.house actor.new)) }
    ensures why { IfErr result EndsAct }
{
    what_was_meant_is_meant();
    actor.hold(
        alloc,
        AskFor {
            by: way.txn,
            place: way.place,
            table,
            partition,
            kind,
        },
    )
}

/// Prepares a statement that asks for a compaction.
fn prepare_job<D: Shelf + Drop, W: Actor<D, ToldHouse<D>>>(
    alloc: Global,
    actor: &mut W,
    way: Way,
    table: TableId,
    partition: Text,
    kind: CompactionKind,
) -> Result<Prepared, HouseFault>
    requires keeps { W.keeps actor.old }
    requires running { IsOpenHouse (W.house actor.old) }
    requires comes { ComesToJob D.told (W.house actor.old) way table partition kind }
    ensures keeps { W.keeps actor.new }
    ensures goes { Goes (among D.told D.faults W.between W.meanwhile) (faults_in D.faults (W.house actor.old)) way.txn.0
        (known (W.own actor.old) (W.house actor.old)) (known (W.own actor.new) (W.house actor.new))
        (Prepares way.txn.0 (W.house actor.new) (Ask table partition kind)) result }
    ensures can { IfOk result (CanConcludeIn D.told (W.house actor.new) way) }
{
    match ask_job(alloc, actor, way, table, partition, kind) {
        Ok(AskedFor::Job(_job)) => {
            made_ready(alloc, actor, way.txn, nothing(alloc), ok_line(alloc))
        }
        Ok(AskedFor::Busy) => made_ready(alloc, actor, way.txn, nothing(alloc), ok_line(alloc)),
        Ok(AskedFor::Aborted(aborted)) => Ok(ended_by(aborted)),
        Err(why) => break_off(alloc, actor, way.txn, why),
    }
}

/// Does all of a started statement of this meaning but its end, once it has asked for the aborts that it lists: takes a write id and puts its
/// files where it changes rows, or asks for a compaction. Or ends it: for what it means, for a fault of its files, or for want of room or memory.
///
/// # Errors
/// `Store` where the journal failed or others closed the house, and `NoMemory` where memory lacked even for an abort.
pub fn prepare<D: Shelf + Drop, W: Actor<D, ToldHouse<D>>>(
    alloc: Global,
    actor: &mut W,
    way: Way,
    meaning: Touching,
) -> Result<Prepared, HouseFault>
    requires keeps { W.keeps actor.old }
    requires running { IsOpenHouse (W.house actor.old) }
    requires was { (asking : Asking) × (said : Stmt) × WasOnWay (trail_in (W.house actor.old)) asking way said
        × ComesTo D.told (W.house actor.old) way said meaning
        × HasPassedAll (trail_in (W.house actor.old)) way.txn way.place said meaning }
    ensures keeps { W.keeps actor.new }
    ensures goes { Goes (among D.told D.faults W.between W.meanwhile) (faults_in D.faults (W.house actor.old)) way.txn.0
        (known (W.own actor.old) (W.house actor.old)) (known (W.own actor.new) (W.house actor.new))
        (Prepares way.txn.0 (W.house actor.new) meaning) result }
    ensures can { IfOk result (CanConcludeIn D.told (W.house actor.new) way) }
{
    let txn = way.txn;
    let Touching {
        meaning: comes,
        touches,
    } = meaning;
    match comes {
        Meaning::Listing(names, rows) => {
            let text = listing(alloc, names.as_slice(), rows.as_slice());
            made_ready(alloc, actor, txn, nothing(alloc), text)
        }
        Meaning::Change(info, effect) => {
            prepare_change(alloc, actor, way, info, effect, touches)
        }
        Meaning::Make(_) => made_ready(alloc, actor, txn, End::Create, ok_line(alloc)),
        Meaning::Unmake(table) => made_ready(alloc, actor, txn, End::Drop(table), ok_line(alloc)),
        Meaning::Ask(table, partition, kind) => {
            prepare_job(alloc, actor, way, table, partition, kind)
        }
        Meaning::Refused(refusal) => {
            let number = refusal.number();
            withdraw(alloc, actor, txn, Cause::Refused { number })
        }
        Meaning::Twice(partition, row) => {
            withdraw(alloc, actor, txn, Cause::Twice { partition, row })
        }
        Meaning::RowLimit => withdraw(alloc, actor, txn, Cause::RowLimit),
        Meaning::PartitionLimit => withdraw(alloc, actor, txn, Cause::PartitionLimit),
        Meaning::Plain => made_ready(alloc, actor, txn, nothing(alloc), ok_line(alloc)),
    }
}
