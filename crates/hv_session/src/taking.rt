//! A statement from its tree to its end, or to the place where it is to be held, over any actor.
ghost use Rattle.std.specs.Prelude.{◌≡◌, ◌≤◌, ℕ, List, Some, None, length, take, IfOk, IfErr};
ghost use Rattle.hv_base.specs.declared.gate.Stage.TheVariants as stage;
ghost use Rattle.hv_built.specs.Running.{Runs};
ghost use Rattle.hv_stands.specs.Running.{Asking, meant};
ghost use Rattle.hv_beginning.specs.hv_steps.specs.hv_table_reader.specs.hv_acts.specs.hv_telling.specs.hv_house.specs.House.{entries_of};
ghost use Rattle.hv_beginning.specs.hv_steps.specs.hv_table_reader.specs.hv_acts.specs.hv_telling.specs.Telling.{IsToldHouse, IsWhole};
ghost use Rattle.hv_beginning.specs.hv_steps.specs.hv_table_reader.specs.hv_acts.specs.declared.told.ToldHouse.{ToldHouse as House};
ghost use Rattle.hv_beginning.specs.hv_steps.specs.hv_table_reader.specs.hv_acts.specs.Told.{trail_in};
ghost use Rattle.hv_beginning.specs.hv_steps.specs.Ending.{CanEnd};
ghost use Rattle.hv_session.specs.Taking.{IsHeldBySome, IsTrulyHeld};
ghost use Rattle.hv_session.specs.Ways.{ActsAlone, IsOnWay, EndsAlone, on_course, GoesAlone, asked_up_to, CarriesAlone};
ghost use Rattle.hv_beginning.specs.hv_steps.specs.Going.{IsOpenHouse, faults_in, Goes, GainsSome, WasOnWay};
ghost use Rattle.hv_beginning.specs.hv_steps.specs.Phases.{ComesTo, AnswersTruly, Begins, HaltsBeginning};
ghost use Rattle.hv_session.specs.Doing.{EndsFrom, EndsAs, IsHold, is_refused, carried_of, CanFinish, Finishes, Takes, GoesToHold, GoesTaking, WasStarted, up_to};
ghost use Rattle.hv_actor.specs.Acting.{among, known};

use crate::concluding::conclude;
use crate::paused::{Carried, Paused, Point};
use crate::readying::get_ready;
use hv_actor::Actor;
use hv_ast::{Stmt, discard};
use hv_base::{Stage, Text};
use hv_beginning::begin;
use hv_beginning::hv_steps::hv_effect::Touching;
use hv_beginning::hv_steps::hv_table_reader::hv_acts::ToldHouse;
use hv_beginning::hv_steps::hv_table_reader::hv_acts::hv_telling::hv_house::HouseFault;
use hv_beginning::hv_steps::{Done, Opened, Outcome, Prepared, Way, see};
use hv_logic::Meaning;
use hv_shelf::Shelf;
use std::alloc::Global;

/// What has ended, as what taking up a statement answers.
fn taken(found: Result<Done, HouseFault>) -> Result<Carried, HouseFault>
    ensures taken { result ≡ carried_of found }
{
    match found {
        Ok(found) => Ok(Carried::Ended(found)),
        Err(why) => Err(why),
    }
}

/// Whether a statement is refused for what it says.
fn is_refused(touching: &Touching) -> bool
    ensures refused { result ≡ is_refused touching.now }
{
    matches!(&touching.meaning, Meaning::Refused(_))
}

/// Ends a started statement by what it means.
fn end_as<D: Shelf + Drop, W: Actor<D, ToldHouse<D>>>(
    alloc: Global,
    actor: &mut W,
    way: Way,
    tree: &Stmt,
    meaning: Touching,
) -> Result<Done, HouseFault>
    requires keeps { W.keeps actor.old }
    requires running { IsOpenHouse (W.house actor.old) }
    requires was { (asking : Asking) × WasOnWay (trail_in (W.house actor.old)) asking way tree.now }
    requires comes { ComesTo D.told (W.house actor.old) way tree.now meaning }
    ensures keeps { W.keeps actor.new }
    ensures goes { Goes (among D.told D.faults W.between W.meanwhile) (faults_in D.faults (W.house actor.old)) way.txn.0
        (known (W.own actor.old) (W.house actor.old)) (known (W.own actor.new) (W.house actor.new))
        (EndsFrom (W.house actor.new) way tree.now meaning) result }
    ensures answered { IsToldHouse D.told (W.house actor.old).house
        → IfOk result (AnswersTruly way.txn.0 (W.house actor.new)) }
    ensures alone { ActsAlone W.between W.meanwhile → IsOnWay (entries_of (W.house actor.old).house) way tree.now
        → (IsToldHouse D.told (W.house actor.old).house
        → meant (take way.place (entries_of (W.house actor.old).house)) tree.now ≡ Some meaning)
        → CanEnd (entries_of (W.house actor.old).house) meaning
        → EndsAlone D.told D.faults way.txn.0 (W.house actor.old).house (W.house actor.new).house result }
{
    match get_ready(alloc, actor, way, tree, meaning) {
        Ok(Prepared::Ready(ready)) => conclude(alloc, actor, way, ready),
        Ok(Prepared::Ended(found)) => Ok(found),
        Err(why) => Err(why),
    }
}

/// Does a started statement to its end.
fn go_to_end<D: Shelf + Drop, W: Actor<D, ToldHouse<D>>>(
    alloc: Global,
    actor: &mut W,
    way: Way,
    tree: &Stmt,
) -> Result<Done, HouseFault>
    requires keeps { W.keeps actor.old }
    requires running { IsOpenHouse (W.house actor.old) }
    requires was { (asking : Asking) × WasOnWay (trail_in (W.house actor.old)) asking way tree.now }
    ensures keeps { W.keeps actor.new }
    ensures goes { Goes (among D.told D.faults W.between W.meanwhile) (faults_in D.faults (W.house actor.old)) way.txn.0
        (known (W.own actor.old) (W.house actor.old)) (known (W.own actor.new) (W.house actor.new))
        (EndsAs D.told (W.house actor.new) way tree.now) result }
    ensures answered { IsToldHouse D.told (W.house actor.old).house
        → IfOk result (AnswersTruly way.txn.0 (W.house actor.new)) }
    ensures alone { ActsAlone W.between W.meanwhile → IsOnWay (entries_of (W.house actor.old).house) way tree.now
        → EndsAlone D.told D.faults way.txn.0 (W.house actor.old).house (W.house actor.new).house result }
{
    match see(alloc, actor, way, tree) {
        Ok(Outcome::Means(meaning)) => end_as(alloc, actor, way, tree, meaning),
        Ok(Outcome::Ended(found)) => Ok(found),
        Err(why) => Err(why),
    }
}

/// Keeps a statement of which it is known what it comes to; one that is refused ends at once.
fn keep_meant<D: Shelf + Drop, W: Actor<D, ToldHouse<D>>>(
    alloc: Global,
    actor: &mut W,
    way: Way,
    tree: Stmt,
    meaning: Touching,
) -> Result<Carried, HouseFault>
    requires keeps { W.keeps actor.old }
    requires running { IsOpenHouse (W.house actor.old) }
    requires was { (asking : Asking) × WasOnWay (trail_in (W.house actor.old)) asking way tree }
    requires comes { ComesTo D.told (W.house actor.old) way tree meaning }
    ensures keeps { W.keeps actor.new }
    ensures goes { GoesToHold (among D.told D.faults W.between W.meanwhile) way (up_to tree (Some stage.Read))
        (known (W.own actor.old) (W.house actor.old)) (known (W.own actor.new) (W.house actor.new)) result }
    ensures alone { ActsAlone W.between W.meanwhile → IsOnWay (entries_of (W.house actor.old).house) way tree
        → CanEnd (entries_of (W.house actor.old).house) meaning
        → (IsToldHouse D.told (W.house actor.old).house
        → meant (take way.place (entries_of (W.house actor.old).house)) tree ≡ Some meaning)
        → GoesAlone D.told D.faults (on_course way (up_to tree (Some stage.Read))) (W.house actor.old).house
        (W.house actor.new).house result }
{
    if is_refused(&meaning) {
        let found = end_as(alloc, actor, way, &tree, meaning);
        discard(tree);
        taken(found)
    } else {
        Ok(Carried::Kept(Paused {
            way,
            tree,
            point: Point::Meant(meaning),
        }))
    }
}

/// Does a started statement to its reads, and keeps it there.
fn hold_read<D: Shelf + Drop, W: Actor<D, ToldHouse<D>>>(
    alloc: Global,
    actor: &mut W,
    way: Way,
    tree: Stmt,
) -> Result<Carried, HouseFault>
    requires keeps { W.keeps actor.old }
    requires running { IsOpenHouse (W.house actor.old) }
    requires was { (asking : Asking) × WasOnWay (trail_in (W.house actor.old)) asking way tree }
    ensures keeps { W.keeps actor.new }
    ensures goes { GoesToHold (among D.told D.faults W.between W.meanwhile) way (up_to tree (Some stage.Read))
        (known (W.own actor.old) (W.house actor.old)) (known (W.own actor.new) (W.house actor.new)) result }
    ensures alone { ActsAlone W.between W.meanwhile → IsOnWay (entries_of (W.house actor.old).house) way tree
        → GoesAlone D.told D.faults (on_course way (up_to tree (Some stage.Read))) (W.house actor.old).house
        (W.house actor.new).house result }
{
    match see(alloc, actor, way, &tree) {
        Ok(Outcome::Means(meaning)) => keep_meant(alloc, actor, way, tree, meaning),
        Ok(Outcome::Ended(found)) => {
            discard(tree);
            Ok(Carried::Ended(found))
        }
        Err(why) => {
            discard(tree);
            Err(why)
        }
    }
}

/// Prepares a statement of which it is known what it comes to, and keeps it where it is ready.
fn keep_ready<D: Shelf + Drop, W: Actor<D, ToldHouse<D>>>(
    alloc: Global,
    actor: &mut W,
    way: Way,
    tree: Stmt,
    meaning: Touching,
) -> Result<Carried, HouseFault>
    requires keeps { W.keeps actor.old }
    requires running { IsOpenHouse (W.house actor.old) }
    requires was { (asking : Asking) × WasOnWay (trail_in (W.house actor.old)) asking way tree }
    requires comes { ComesTo D.told (W.house actor.old) way tree meaning }
    ensures keeps { W.keeps actor.new }
    ensures goes { GoesToHold (among D.told D.faults W.between W.meanwhile) way (up_to tree (Some stage.Commit))
        (known (W.own actor.old) (W.house actor.old)) (known (W.own actor.new) (W.house actor.new)) result }
    ensures alone { ActsAlone W.between W.meanwhile → IsOnWay (entries_of (W.house actor.old).house) way tree
        → CanEnd (entries_of (W.house actor.old).house) meaning
        → (IsToldHouse D.told (W.house actor.old).house
        → meant (take way.place (entries_of (W.house actor.old).house)) tree ≡ Some meaning)
        → GoesAlone D.told D.faults (on_course way (up_to tree (Some stage.Commit))) (W.house actor.old).house
        (W.house actor.new).house result }
{
    match get_ready(alloc, actor, way, &tree, meaning) {
        Ok(Prepared::Ready(ready)) => Ok(Carried::Kept(Paused {
            way,
            tree,
            point: Point::Ready(ready),
        })),
        Ok(Prepared::Ended(found)) => {
            discard(tree);
            Ok(Carried::Ended(found))
        }
        Err(why) => {
            discard(tree);
            Err(why)
        }
    }
}

/// Does a started statement to its commit, and keeps it there.
fn hold_commit<D: Shelf + Drop, W: Actor<D, ToldHouse<D>>>(
    alloc: Global,
    actor: &mut W,
    way: Way,
    tree: Stmt,
) -> Result<Carried, HouseFault>
    requires keeps { W.keeps actor.old }
    requires running { IsOpenHouse (W.house actor.old) }
    requires was { (asking : Asking) × WasOnWay (trail_in (W.house actor.old)) asking way tree }
    ensures keeps { W.keeps actor.new }
    ensures goes { GoesToHold (among D.told D.faults W.between W.meanwhile) way (up_to tree (Some stage.Commit))
        (known (W.own actor.old) (W.house actor.old)) (known (W.own actor.new) (W.house actor.new)) result }
    ensures alone { ActsAlone W.between W.meanwhile → IsOnWay (entries_of (W.house actor.old).house) way tree
        → GoesAlone D.told D.faults (on_course way (up_to tree (Some stage.Commit))) (W.house actor.old).house
        (W.house actor.new).house result }
{
    match see(alloc, actor, way, &tree) {
        Ok(Outcome::Means(meaning)) => keep_ready(alloc, actor, way, tree, meaning),
        Ok(Outcome::Ended(found)) => {
            discard(tree);
            Ok(Carried::Ended(found))
        }
        Err(why) => {
            discard(tree);
            Err(why)
        }
    }
}

/// Does a started statement to its end.
fn go_unheld<D: Shelf + Drop, W: Actor<D, ToldHouse<D>>>(
    alloc: Global,
    actor: &mut W,
    way: Way,
    tree: Stmt,
) -> Result<Carried, HouseFault>
    requires keeps { W.keeps actor.old }
    requires running { IsOpenHouse (W.house actor.old) }
    requires was { (asking : Asking) × WasOnWay (trail_in (W.house actor.old)) asking way tree }
    ensures keeps { W.keeps actor.new }
    ensures goes { GoesToHold (among D.told D.faults W.between W.meanwhile) way (up_to tree (None))
        (known (W.own actor.old) (W.house actor.old)) (known (W.own actor.new) (W.house actor.new)) result }
    ensures alone { ActsAlone W.between W.meanwhile → IsOnWay (entries_of (W.house actor.old).house) way tree
        → GoesAlone D.told D.faults (on_course way (up_to tree None)) (W.house actor.old).house
        (W.house actor.new).house result }
{
    let found = go_to_end(alloc, actor, way, &tree);
    discard(tree);
    taken(found)
}

/// Does a started statement to this place, and keeps it there.
fn hold_at<D: Shelf + Drop, W: Actor<D, ToldHouse<D>>>(
    alloc: Global,
    actor: &mut W,
    way: Way,
    tree: Stmt,
    at: Stage,
) -> Result<Carried, HouseFault>
    requires keeps { W.keeps actor.old }
    requires running { IsOpenHouse (W.house actor.old) }
    requires was { (asking : Asking) × WasOnWay (trail_in (W.house actor.old)) asking way tree }
    requires hold { IsHold (Some at) }
    ensures keeps { W.keeps actor.new }
    ensures goes { GoesToHold (among D.told D.faults W.between W.meanwhile) way (up_to tree (Some at))
        (known (W.own actor.old) (W.house actor.old)) (known (W.own actor.new) (W.house actor.new)) result }
    ensures alone { ActsAlone W.between W.meanwhile → IsOnWay (entries_of (W.house actor.old).house) way tree
        → GoesAlone D.told D.faults (on_course way (up_to tree (Some at))) (W.house actor.old).house
        (W.house actor.new).house result }
{
    match at {
        Stage::Start => Ok(Carried::Kept(Paused {
            way,
            tree,
            point: Point::Started,
        })),
        Stage::Read => hold_read(alloc, actor, way, tree),
        Stage::Commit => hold_commit(alloc, actor, way, tree),
        Stage::Taken => unreachable!(),
        Stage::Replied => unreachable!(),
    }
}

/// Does a started statement to its end, or to the place where it is to be held.
fn go<D: Shelf + Drop, W: Actor<D, ToldHouse<D>>>(
    alloc: Global,
    actor: &mut W,
    way: Way,
    tree: Stmt,
    hold: Option<Stage>,
) -> Result<Carried, HouseFault>
    requires keeps { W.keeps actor.old }
    requires running { IsOpenHouse (W.house actor.old) }
    requires was { (asking : Asking) × WasOnWay (trail_in (W.house actor.old)) asking way tree }
    requires hold { IsHold hold }
    ensures keeps { W.keeps actor.new }
    ensures goes { GoesToHold (among D.told D.faults W.between W.meanwhile) way (up_to tree hold)
        (known (W.own actor.old) (W.house actor.old)) (known (W.own actor.new) (W.house actor.new)) result }
    ensures alone { ActsAlone W.between W.meanwhile → IsOnWay (entries_of (W.house actor.old).house) way tree
        → GoesAlone D.told D.faults (on_course way (up_to tree hold)) (W.house actor.old).house
        (W.house actor.new).house result }
{
    match hold {
        None => go_unheld(alloc, actor, way, tree),
        Some(at) => hold_at(alloc, actor, way, tree, at),
    }
}

/// Goes on with a statement that was opened.
fn go_opened<D: Shelf + Drop, W: Actor<D, ToldHouse<D>>>(
    alloc: Global,
    actor: &mut W,
    opened: Opened,
    tree: Stmt,
    hold: Option<Stage>,
) -> Result<Carried, HouseFault>
    requires keeps { W.keeps actor.old }
    requires running { IsOpenHouse (W.house actor.old) }
    requires was { WasStarted (trail_in (W.house actor.old)) tree opened }
    requires hold { IsHold hold }
    ensures keeps { W.keeps actor.new }
    ensures goes { (first : House D) (own : List ℕ) (asking : Asking)
        → GainsSome D.faults W.between (faults_in D.faults first) (known own first)
        (known (W.own actor.old) (W.house actor.old)) (Begins first (W.house actor.old) asking tree opened)
        → GoesTaking (among D.told D.faults W.between W.meanwhile) asking (up_to tree hold) (known own first)
        (known (W.own actor.new) (W.house actor.new)) result }
    ensures alone { ActsAlone W.between W.meanwhile → (first : House D) (own : List ℕ) (asking : Asking)
        → Runs asking.text tree
        → IsOpenHouse first → IsWhole D.told first.house
        → GainsSome D.faults W.between (faults_in D.faults first) (known own first)
        (known (W.own actor.old) (W.house actor.old)) (Begins first (W.house actor.old) asking tree opened)
        → CarriesAlone D.told D.faults (asked_up_to asking hold) first.house (W.house actor.new).house result }
{
    match opened {
        Opened::Started(way) => go(alloc, actor, way, tree, hold),
        Opened::Full { entries } => {
            discard(tree);
            Ok(Carried::Full { entries })
        }
        Opened::NoMemory => {
            discard(tree);
            Ok(Carried::NoMemory)
        }
        Opened::Ended(found) => {
            discard(tree);
            Ok(Carried::Ended(found))
        }
    }
}

/// Carries a statement of this tree to its end, or to the place where it is to be held. `kept` is its tree once more, for the book.
///
/// # Errors
/// `Store` where the journal failed or others closed the house, and `NoMemory` where memory lacked even for an abort.
pub fn carry<D: Shelf + Drop, W: Actor<D, ToldHouse<D>>>(
    alloc: Global,
    actor: &mut W,
    session: Text,
    number: u64,
    text: Text,
    kept: Stmt,
    tree: Stmt,
    hold: Option<Stage>,
) -> Result<Carried, HouseFault>
    requires keeps { W.keeps actor.old }
    requires both { 2 ≤ W.most }
    requires running { IsOpenHouse (W.house actor.old) }
    requires kept { Runs text kept }
    requires tree { Runs text tree }
    requires short { length text ≤ 32768 }
    requires named { length session ≤ 32 }
    requires hold { IsHold hold }
    ensures keeps { W.keeps actor.new }
    ensures takes { IfOk result (λ found. GainsSome D.faults W.between (faults_in D.faults (W.house actor.old))
        (known (W.own actor.old) (W.house actor.old)) (known (W.own actor.new) (W.house actor.new))
        (Takes D.told (W.house actor.old) (W.house actor.new)
        (record { session = session; number = number; text = text }) (up_to tree hold) found)) }
    ensures halts { IfErr result (HaltsBeginning (among D.told D.faults W.between W.meanwhile)
        (record { session = session; number = number; text = text })
        (known (W.own actor.old) (W.house actor.old)) (known (W.own actor.new) (W.house actor.new))) }
    ensures alone { ActsAlone W.between W.meanwhile → CarriesAlone D.told D.faults
        (asked_up_to (record { session = session; number = number; text = text }) hold)
        (W.house actor.old).house (W.house actor.new).house result }
{
    match begin(alloc, actor, session, number, text, kept) {
        Ok(opened) => go_opened(alloc, actor, opened, tree, hold),
        Err(why) => {
            discard(tree);
            Err(why)
        }
    }
}

/// Does a held statement to its end.
///
/// # Errors
/// As `carry`.
pub fn go_on<D: Shelf + Drop, W: Actor<D, ToldHouse<D>>>(
    alloc: Global,
    actor: &mut W,
    paused: Paused,
) -> Result<Done, HouseFault>
    requires keeps { W.keeps actor.old }
    requires running { IsOpenHouse (W.house actor.old) }
    requires can { CanFinish D.told (W.house actor.old) paused }
    ensures keeps { W.keeps actor.new }
    ensures goes { Goes (among D.told D.faults W.between W.meanwhile) (faults_in D.faults (W.house actor.old))
        paused.way.txn.0
        (known (W.own actor.old) (W.house actor.old)) (known (W.own actor.new) (W.house actor.new))
        (Finishes D.told (W.house actor.new) paused) result }
    ensures answered { IsToldHouse D.told (W.house actor.old).house
        → IfOk result (AnswersTruly paused.way.txn.0 (W.house actor.new)) }
    ensures alone { ActsAlone W.between W.meanwhile → IsHeldBySome (entries_of (W.house actor.old).house) paused
        → (IsToldHouse D.told (W.house actor.old).house → IsTrulyHeld (entries_of (W.house actor.old).house) paused)
        → EndsAlone D.told D.faults paused.way.txn.0 (W.house actor.old).house (W.house actor.new).house result }
{
    let Paused { way, tree, point } = paused;
    match point {
        Point::Started => {
            let result = go_to_end(alloc, actor, way, &tree);
            discard(tree);
            result
        }
        Point::Meant(meaning) => {
            let result = end_as(alloc, actor, way, &tree, meaning);
            discard(tree);
            result
        }
        Point::Ready(ready) => {
            discard(tree);
            conclude(alloc, actor, way, ready)
        }
    }
}
