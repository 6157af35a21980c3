//! A started statement up to its end: what it asks for, and what it prepares behind that.

ghost use Rattle.std.specs.Prelude.{◌≡◌, IfOk};
ghost use Rattle.hv_logic.specs.declared.meaning.Meaning.TheVariants.{Plain};
ghost use Rattle.hv_history.specs.Shown.{is_plain};
ghost use Rattle.hv_stands.specs.Running.{Asking};
ghost use Rattle.hv_beginning.specs.hv_steps.specs.hv_table_reader.specs.hv_acts.specs.Told.{trail_in};
ghost use Rattle.hv_beginning.specs.hv_steps.specs.Going.{faults_in, Goes, IsOpenHouse, WasOnWay};
ghost use Rattle.hv_beginning.specs.hv_steps.specs.Phases.{CanConcludeIn, ComesTo, PreparesAsked};
ghost use Rattle.hv_beginning.specs.hv_steps.specs.Requests.{IsAskIn};
ghost use Rattle.hv_actor.specs.Acting.{among, known};

use hv_actor::Actor;
use hv_ast::Stmt;
use hv_beginning::hv_steps::hv_effect::Touching;
use hv_beginning::hv_steps::hv_table_reader::hv_acts::ToldHouse;
use hv_beginning::hv_steps::hv_table_reader::hv_acts::hv_telling::hv_house::HouseFault;
use hv_beginning::hv_steps::{Asked, Prepared, Way, ask, prepare};
use hv_logic::Meaning;
use hv_shelf::Shelf;
use std::alloc::Global;

/// Whether a statement comes to nothing.
fn is_plain(touching: &Touching) -> bool
    ensures plain { result ≡ is_plain touching.now }
{
    matches!(&touching.meaning, Meaning::Plain)
}

/// Asks for the aborts that a statement lists, and prepares its end behind them.
fn ask_first<D: Shelf + Drop, W: Actor<D, ToldHouse<D>>>(
    alloc: Global,
    actor: &mut W,
    way: Way,
    tree: &Stmt,
    meaning: Touching,
) -> Result<Prepared, HouseFault>
    requires keeps { W.keeps actor.old }
    requires running { IsOpenHouse (W.house actor.old) }
    requires was { (asking : Asking) × WasOnWay (trail_in (W.house actor.old)) asking way tree.now }
    requires comes { ComesTo D.told (W.house actor.old) way tree.now meaning }
    requires plain { meaning ≡ Plain }
    ensures keeps { W.keeps actor.new }
    ensures goes { Goes (among D.told D.faults W.between W.meanwhile) (faults_in D.faults (W.house actor.old)) way.txn.0
        (known (W.own actor.old) (W.house actor.old)) (known (W.own actor.new) (W.house actor.new))
        (PreparesAsked way.txn.0 (W.house actor.new) (IsAskIn (W.house actor.new) way tree.now) meaning) result }
    ensures can { IfOk result (CanConcludeIn D.told (W.house actor.new) way) }
{
    match ask(alloc, actor, way, tree) {
        Ok(Asked::All) => prepare(alloc, actor, way, meaning),
        Ok(Asked::Ended(found)) => Ok(Prepared::Ended(found)),
        Err(why) => Err(why),
    }
}

/// Does all of a started statement of this meaning but its end: asks for the aborts that it lists, or takes a write id and puts its files
/// where it changes rows. Or ends it: for what it means, for a fault of its files, or for want of room or memory.
///
/// # Errors
/// `Store` where the journal failed or others closed the house, and `NoMemory` where memory lacked even for an abort.
pub fn get_ready<D: Shelf + Drop, W: Actor<D, ToldHouse<D>>>(
    alloc: Global,
    actor: &mut W,
    way: Way,
    tree: &Stmt,
    meaning: Touching,
) -> Result<Prepared, HouseFault>
    requires keeps { W.keeps actor.old }
    requires running { IsOpenHouse (W.house actor.old) }
    requires was { (asking : Asking) × WasOnWay (trail_in (W.house actor.old)) asking way tree.now }
    requires comes { ComesTo D.told (W.house actor.old) way tree.now meaning }
    ensures keeps { W.keeps actor.new }
    ensures goes { Goes (among D.told D.faults W.between W.meanwhile) (faults_in D.faults (W.house actor.old)) way.txn.0
        (known (W.own actor.old) (W.house actor.old)) (known (W.own actor.new) (W.house actor.new))
        (PreparesAsked way.txn.0 (W.house actor.new) (IsAskIn (W.house actor.new) way tree.now) meaning) result }
    ensures can { IfOk result (CanConcludeIn D.told (W.house actor.new) way) }
{
    if is_plain(&meaning) {
        ask_first(alloc, actor, way, tree, meaning)
    } else {
        prepare(alloc, actor, way, meaning)
    }
}
