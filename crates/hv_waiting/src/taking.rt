//! A statement from its text to its reply, that waits for its locks. Between its parts, under no hold, a gate is told where it stands.
ghost use Rattle.std.specs.Prelude.{◌≡◌, ◌≤◌, ℕ, List, length, IfOk, IfErr};
ghost use Rattle.hv_built.specs.Running.{Runs};
ghost use Rattle.hv_stands.specs.Running.{Asking as Asked};
ghost use Rattle.hv_session.specs.hv_beginning.specs.hv_steps.specs.hv_table_reader.specs.hv_acts.specs.hv_telling.specs.Telling.{IsToldHouse};
ghost use Rattle.hv_session.specs.hv_beginning.specs.hv_steps.specs.hv_table_reader.specs.hv_acts.specs.declared.told.ToldHouse.{ToldHouse as House};
ghost use Rattle.hv_session.specs.hv_beginning.specs.hv_steps.specs.hv_table_reader.specs.hv_acts.specs.Told.{trail_in};
ghost use Rattle.hv_session.specs.hv_beginning.specs.hv_steps.specs.Going.{IsOpenHouse, faults_in, Goes, GainsSome, WasOnWay};
ghost use Rattle.hv_session.specs.hv_beginning.specs.hv_steps.specs.Phases.{AnswersTruly, HaltsBeginning};
ghost use Rattle.hv_session.specs.Doing.{EndsAs, WasStarted};
ghost use Rattle.hv_session.specs.Taking.{asked_of};
ghost use Rattle.hv_waiting.specs.Beginnings.{BeginsInTurn};
ghost use Rattle.hv_waiting.specs.Doing.{passed_of, PassesInTurn, TakesInTurn, IsSaidTo, WasUnopened, RepliesInTurn};
ghost use Rattle.hv_actor.specs.Acting.{among, known};

use crate::going::{go_to_end, pass};
use crate::opening::begin_in_turn;
use crate::passed::Passed;
use hv_actor::Actor;
use hv_ast::{Stmt, discard};
use hv_base::{Gate, NoMemory, Point, Stage};
use hv_reading::read_statement;
use hv_session::hv_beginning::hv_steps::hv_table_reader::hv_acts::ToldHouse;
use hv_session::hv_beginning::hv_steps::hv_table_reader::hv_acts::hv_telling::hv_house::HouseFault;
use hv_session::hv_beginning::hv_steps::{Done, Opened, Reply, Way};
use hv_session::{Asking, full_reply, memory_reply, reply_from, text_reply};
use hv_shelf::Shelf;
use std::alloc::Global;
use std::sync::Wait;
use std::thread::Threads;

/// What has ended, as what taking up a statement answers.
fn passed(found: Result<Done, HouseFault>) -> Result<Passed, HouseFault>
    ensures passed { result ≡ passed_of found }
{
    match found {
        Ok(found) => Ok(Passed::Ended(found)),
        Err(why) => Err(why),
    }
}

/// Does a started statement to its end.
fn go<D: Shelf + Drop, W: Actor<D, ToldHouse<D>>, G: Gate>(
    gate: &G,
    at: Point,
    alloc: Global,
    actor: &mut W,
    way: Way,
    tree: Stmt,
) -> Result<Done, HouseFault>
    requires keeps { W.keeps actor.old }
    requires running { IsOpenHouse (W.house actor.old) }
    requires was { (asking : Asked) × WasOnWay (trail_in (W.house actor.old)) asking way tree }
    ensures keeps { W.keeps actor.new }
    ensures goes { Goes (among D.told D.faults W.between W.meanwhile) (faults_in D.faults (W.house actor.old)) way.txn.0
        (known (W.own actor.old) (W.house actor.old)) (known (W.own actor.new) (W.house actor.new))
        (EndsAs D.told (W.house actor.new) way tree) result }
    ensures answered { IsToldHouse D.told (W.house actor.old).house
        → IfOk result (AnswersTruly way.txn.0 (W.house actor.new)) }
{
    pass(gate, at, Stage::Start);
    let found = go_to_end(gate, at, alloc, actor, way, &tree);
    discard(tree);
    found
}

/// Goes on with a statement that was opened.
fn go_opened<D: Shelf + Drop, W: Actor<D, ToldHouse<D>>, G: Gate>(
    gate: &G,
    at: Point,
    alloc: Global,
    actor: &mut W,
    opened: Opened,
    tree: Stmt,
) -> Result<Passed, HouseFault>
    requires keeps { W.keeps actor.old }
    requires running { IsOpenHouse (W.house actor.old) }
    requires was { WasStarted (trail_in (W.house actor.old)) tree opened }
    ensures keeps { W.keeps actor.new }
    ensures goes { (first : House D) (own : List ℕ) (asking : Asked)
        → GainsSome D.faults W.between (faults_in D.faults first) (known own first)
        (known (W.own actor.old) (W.house actor.old)) (BeginsInTurn first (W.house actor.old) asking tree opened)
        → TakesInTurn (among D.told D.faults W.between W.meanwhile) asking tree (known own first)
        (known (W.own actor.new) (W.house actor.new)) result }
{
    match opened {
        Opened::Started(way) => passed(go(gate, at, alloc, actor, way, tree)),
        Opened::Full { entries } => {
            discard(tree);
            Ok(Passed::Full { entries })
        }
        Opened::NoMemory => {
            discard(tree);
            Ok(Passed::NoMemory)
        }
        Opened::Ended(found) => {
            discard(tree);
            Ok(Passed::Ended(found))
        }
    }
}

/// Carries a statement of this tree to its end. `kept` is its tree once more, for the book.
fn carry<D: Shelf + Drop, W: Actor<D, ToldHouse<D>>, R: Wait, G: Gate>(
    rt: &R,
    gate: &G,
    at: Point,
    alloc: Global,
    actor: &mut W,
    asking: Asking,
    kept: Stmt,
    tree: Stmt,
) -> Result<Passed, HouseFault>
    requires keeps { W.keeps actor.old }
    requires running { IsOpenHouse (W.house actor.old) }
    requires kept { Runs asking.text kept }
    requires tree { Runs asking.text tree }
    requires short { length asking.text ≤ 32768 }
    requires named { length asking.session ≤ 32 }
    ensures keeps { W.keeps actor.new }
    ensures takes { IfOk result (λ found. GainsSome D.faults W.between (faults_in D.faults (W.house actor.old))
        (known (W.own actor.old) (W.house actor.old)) (known (W.own actor.new) (W.house actor.new))
        (PassesInTurn D.told (W.house actor.old) (W.house actor.new) (asked_of asking) tree found)) }
    ensures halts { IfErr result (HaltsBeginning (among D.told D.faults W.between W.meanwhile) (asked_of asking)
        (known (W.own actor.old) (W.house actor.old)) (known (W.own actor.new) (W.house actor.new))) }
{
    let Asking {
        session,
        number,
        text,
        ..
    } = asking;
    match begin_in_turn(rt, alloc, actor, session, number, text, kept) {
        Ok(opened) => go_opened(gate, at, alloc, actor, opened, tree),
        Err(why) => {
            discard(tree);
            Err(why)
        }
    }
}

/// What is replied to a statement that passed so. Only memory may lack for it, where it was never opened.
fn said(alloc: Global, found: Passed) -> Result<Reply, NoMemory>
    ensures said { IfOk result (IsSaidTo found) }
    ensures unopened { IfErr result (λ _. WasUnopened found) }
{
    match found {
        Passed::Ended(done) => Ok(reply_from(done)),
        Passed::Full { .. } => Ok(full_reply(alloc)?),
        Passed::NoMemory => Ok(memory_reply(alloc)?),
    }
}

/// Takes up a statement of this tree, of which `kept` is the same for the book.
fn take_read<D: Shelf + Drop, W: Actor<D, ToldHouse<D>>, R: Wait, G: Gate>(
    rt: &R,
    gate: &G,
    at: Point,
    alloc: Global,
    actor: &mut W,
    asking: Asking,
    kept: Stmt,
    tree: Stmt,
) -> Result<Reply, HouseFault>
    requires keeps { W.keeps actor.old }
    requires running { IsOpenHouse (W.house actor.old) }
    requires kept { Runs asking.text kept }
    requires tree { Runs asking.text tree }
    requires short { length asking.text ≤ 32768 }
    requires named { length asking.session ≤ 32 }
    ensures keeps { W.keeps actor.new }
    ensures takes { IfOk result (λ reply. GainsSome D.faults W.between (faults_in D.faults (W.house actor.old))
        (known (W.own actor.old) (W.house actor.old)) (known (W.own actor.new) (W.house actor.new))
        (RepliesInTurn D.told (W.house actor.old) (W.house actor.new) (asked_of asking) reply)) }
    ensures halts { IfErr result (HaltsBeginning (among D.told D.faults W.between W.meanwhile) (asked_of asking)
        (known (W.own actor.old) (W.house actor.old)) (known (W.own actor.new) (W.house actor.new))) }
{
    match carry(rt, gate, at, alloc, actor, asking, kept, tree) {
        Ok(found) => Ok(said(alloc, found)?),
        Err(why) => Err(why),
    }
}

/// Takes up a statement of this tree. It is read once more, for the book: since its text runs, only memory may lack there.
fn take_statement<D: Shelf + Drop, W: Actor<D, ToldHouse<D>>, R: Wait, G: Gate>(
    rt: &R,
    gate: &G,
    at: Point,
    alloc: Global,
    actor: &mut W,
    asking: Asking,
    tree: Stmt,
) -> Result<Reply, HouseFault>
    requires keeps { W.keeps actor.old }
    requires running { IsOpenHouse (W.house actor.old) }
    requires tree { Runs asking.text tree }
    requires short { length asking.text ≤ 32768 }
    requires named { length asking.session ≤ 32 }
    ensures keeps { W.keeps actor.new }
    ensures takes { IfOk result (λ reply. GainsSome D.faults W.between (faults_in D.faults (W.house actor.old))
        (known (W.own actor.old) (W.house actor.old)) (known (W.own actor.new) (W.house actor.new))
        (RepliesInTurn D.told (W.house actor.old) (W.house actor.new) (asked_of asking) reply)) }
    ensures halts { IfErr result (HaltsBeginning (among D.told D.faults W.between W.meanwhile) (asked_of asking)
        (known (W.own actor.old) (W.house actor.old)) (known (W.own actor.new) (W.house actor.new))) }
{
    pass(gate, at, Stage::Taken);
    match read_statement(alloc, &asking.text) {
        Ok(kept) => take_read(rt, gate, at, alloc, actor, asking, kept, tree),
        Err(_) => {
            discard(tree);
            Ok(memory_reply(alloc)?)
        }
    }
}

/// Takes up a statement by its text.
fn take_text<D: Shelf + Drop, W: Actor<D, ToldHouse<D>>, R: Wait, G: Gate>(
    rt: &R,
    gate: &G,
    at: Point,
    alloc: Global,
    actor: &mut W,
    asking: Asking,
) -> Result<Reply, HouseFault>
    requires keeps { W.keeps actor.old }
    requires running { IsOpenHouse (W.house actor.old) }
    requires short { length asking.text ≤ 32768 }
    requires named { length asking.session ≤ 32 }
    ensures keeps { W.keeps actor.new }
    ensures takes { IfOk result (λ reply. GainsSome D.faults W.between (faults_in D.faults (W.house actor.old))
        (known (W.own actor.old) (W.house actor.old)) (known (W.own actor.new) (W.house actor.new))
        (RepliesInTurn D.told (W.house actor.old) (W.house actor.new) (asked_of asking) reply)) }
    ensures halts { IfErr result (HaltsBeginning (among D.told D.faults W.between W.meanwhile) (asked_of asking)
        (known (W.own actor.old) (W.house actor.old)) (known (W.own actor.new) (W.house actor.new))) }
{
    match read_statement(alloc, &asking.text) {
        Ok(tree) => take_statement(rt, gate, at, alloc, actor, asking, tree),
        Err(fault) => Ok(text_reply(alloc, fault)?),
    }
}

/// Takes up a statement, and does it to its reply, act by act: others may act on the house between. It waits where an open transaction that has
/// started or was opened before it has locks that conflict with its own, and is tried again until none has. Each of its acts adds one item at most.
/// Where it is to be held isn't looked at.
///
/// The gate is told its stages under no hold: behind the reading of its text, behind its Start, behind what it read, behind what it prepared, and
/// behind its reply.
///
/// # Errors
/// `Store` where the journal failed or others closed the house, `NoMemory` where memory lacked even for a refusal; no `Failed`: a fault of
/// files ends the statement.
pub fn take_in_turn<D: Shelf + Drop, W: Actor<D, ToldHouse<D>>, R: Threads + Wait + Sync, G: Gate>(
    rt: &R,
    gate: &G,
    alloc: Global,
    actor: &mut W,
    asking: Asking,
) -> Result<Reply, HouseFault>
    requires keeps { W.keeps actor.old }
    requires running { IsOpenHouse (W.house actor.old) }
    requires short { length asking.text ≤ 32768 }
    requires named { length asking.session ≤ 32 }
    ensures keeps { W.keeps actor.new }
    ensures takes { IfOk result (λ reply. GainsSome D.faults W.between (faults_in D.faults (W.house actor.old))
        (known (W.own actor.old) (W.house actor.old)) (known (W.own actor.new) (W.house actor.new))
        (RepliesInTurn D.told (W.house actor.old) (W.house actor.new) (asked_of asking) reply)) }
    ensures halts { IfErr result (HaltsBeginning (among D.told D.faults W.between W.meanwhile) (asked_of asking)
        (known (W.own actor.old) (W.house actor.old)) (known (W.own actor.new) (W.house actor.new))) }
{
    let at = Point {
        session: asking.place,
        number: asking.number,
        stage: Stage::Taken,
    };
    let reply = take_text(rt, gate, at, alloc, actor, asking);
    pass(gate, at, Stage::Replied);
    reply
}
