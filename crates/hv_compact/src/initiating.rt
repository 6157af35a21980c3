//! A pass of an initiator: compactions that are due are asked for.

ghost use Rattle.std.specs.Prelude.{◌≡◌, IfOk, IfErr};
ghost use Rattle.hv_actor.specs.Acting.{IsLater, among, known};
ghost use Rattle.hv_job_acts.specs.hv_acts.specs.Told.{seen_in};
ghost use Rattle.hv_job_acts.specs.hv_acts.specs.Going.{IsOpenHouse};
ghost use Rattle.hv_compact.specs.Initiating.{count_of, AsksPart, AsksSome, AsksLess, Initiates, InitiatesLess};

use crate::fault::RunFault;
use crate::stopping::act_run;
use hv_actor::Actor;
use hv_job_acts::hv_acts::ToldHouse;
use hv_job_acts::{AskBook, AskDue, AskedJob, PartAt, Parts};
use hv_shelf::Shelf;
use std::alloc::Global;

fn count_of(found: Option<AskedJob>) -> u64
    ensures { result ≡ count_of found }
{
    match found {
        Some(_) => 1,
        None => 0,
    }
}

/// Asks for what is due in a partition, and answers how many were asked for.
fn ask_part<D: Shelf + Drop, W: Actor<D, ToldHouse<D>>>(
    alloc: Global,
    actor: &mut W,
    part: &PartAt,
) -> Result<u64, RunFault>
    requires keeps { W.keeps actor.old }
    requires running { IsOpenHouse (W.house actor.old) }
    ensures keeps { W.keeps actor.new }
    ensures asks { AsksPart (among D.told D.faults W.between W.meanwhile)
        (known (W.own actor.old) (W.house actor.old)) (known (W.own actor.new) (W.house actor.new)) part.now result }
{
    match actor.hold(
        alloc,
        AskDue {
            table: part.table,
            partition: &part.partition,
        },
    ) {
        Ok(found) => Ok(count_of(found)),
        Err(why) => Err(act_run(why)),
    }
}

/// Asks for what is due in each of these, one after another.
fn ask_each<D: Shelf + Drop, W: Actor<D, ToldHouse<D>>>(
    alloc: Global,
    actor: &mut W,
    parts: &[PartAt],
) -> Result<u64, RunFault>
    requires keeps { W.keeps actor.old }
    requires running { IsOpenHouse (W.house actor.old) }
    ensures keeps { W.keeps actor.new }
    ensures some { IfOk result (AsksSome (among D.told D.faults W.between W.meanwhile)
        (known (W.own actor.old) (W.house actor.old)) (known (W.own actor.new) (W.house actor.new)) parts.now) }
    ensures less { IfErr result (AsksLess (among D.told D.faults W.between W.meanwhile)
        (known (W.own actor.old) (W.house actor.old)) (known (W.own actor.new) (W.house actor.new)) parts.now) }
{
    let mut count = 0;
    for part in parts {
        match ask_part(alloc, actor, part) {
            Ok(asked) => count += asked,
            Err(why) => return Err(why),
        }
    }
    Ok(count)
}

/// Goes through the partitions of live tables that commits have touched, as the book has them at
/// the first hold, by table and by text, and
/// asks in each for the compaction that is due when its turn comes, where one is. It answers how many it asked for.
///
/// # Errors
/// `Store` where the journal failed or others closed the house, `Full` where there was no room
/// for what was due, `NoMemory`.
pub fn initiate<D: Shelf + Drop, W: Actor<D, ToldHouse<D>>>(
    alloc: Global,
    actor: &mut W,
) -> Result<u64, RunFault>
    requires keeps { W.keeps actor.old }
    requires running { IsOpenHouse (W.house actor.old) }
    ensures keeps { W.keeps actor.new }
    ensures later { IsLater D.faults (seen_in (W.house actor.old)) (seen_in (W.house actor.new)) }
    ensures running { IfOk result (λ _. IsOpenHouse (W.house actor.new)) }
    ensures initiates { IfOk result (Initiates (among D.told D.faults W.between W.meanwhile)
        (known (W.own actor.old) (W.house actor.old)) (known (W.own actor.new) (W.house actor.new))) }
    ensures less { IfErr result (InitiatesLess (among D.told D.faults W.between W.meanwhile)
        (known (W.own actor.old) (W.house actor.old)) (known (W.own actor.new) (W.house actor.new))) }
{
    match actor.hold(alloc, AskBook { question: Parts }) {
        Ok(parts) => ask_each(alloc, actor, &parts),
        Err(why) => Err(act_run(why)),
    }
}
