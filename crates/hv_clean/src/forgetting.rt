//! The turns of aborted write ids: their own directories are taken away, and they are noted as forgotten.

ghost use Rattle.std.specs.Prelude.{◌≡◌, ◌∷◌, [], IfOk, IfErr};
ghost use Rattle.hv_actor.specs.Acting.{among, known, numbers_from};
ghost use Rattle.hv_job_acts.specs.hv_acts.specs.Told.{trail_in};
ghost use Rattle.hv_job_acts.specs.hv_acts.specs.Going.{IsOpenHouse};
ghost use Rattle.hv_clean.specs.Passing.{Sweeps, SweepsLess, ForgetsOne, ForgetEach, is_of_table, ids_of, ForgetsTable, ForgetTables, last_table, ForgetsAll};
ghost use Rattle.hv_clean.specs.Fronts.{ForgetsFront, TablesFront, IdsFront, StopsBehind};
ghost use Rattle.hv_clean.specs.Removing.{IsLost, AreLostDirs, AreLost, counted_id, not_listed, is_any_of, IsListedBy, ForgetsFound};

use crate::dirs::lost_dirs;
use crate::fault::{PassFault, Swept, count_fault, count_forgotten, count_listed};
use crate::stopping::{Refused, counted, refusal_of, stopped, unless_stopped};
use hv_actor::Actor;
use hv_base::{NoMemory, TableId};
use hv_job_acts::hv_acts::ToldHouse;
use hv_job_acts::{AskBook, Forget, ListPlaces, Lost, LostId, RemoveOwn};
use hv_shelf::{DirAt, Place, Shelf};
use std::alloc::Global;

/// Takes away one own directory of an aborted write id.
fn remove_lost<D: Shelf + Drop, W: Actor<D, ToldHouse<D>>>(
    alloc: Global,
    actor: &mut W,
    id: LostId,
    dir: DirAt,
    swept: &mut Swept,
) -> Result<(), PassFault>
    requires keeps { W.keeps actor.old }
    requires running { IsOpenHouse (W.house actor.old) }
    requires lost { AreLostDirs (trail_in (W.house actor.old)) id (dir ∷ []) }
    ensures keeps { W.keeps actor.new }
    ensures sweeps { IfOk result (λ _. Sweeps (among D.told D.faults W.between W.meanwhile)
        (known (W.own actor.old) (W.house actor.old)) (known (W.own actor.new) (W.house actor.new))
        swept.old swept.new) }
    ensures less { IfErr result (SweepsLess (among D.told D.faults W.between W.meanwhile)
        (known (W.own actor.old) (W.house actor.old)) (known (W.own actor.new) (W.house actor.new))) }
{
    match actor.hold(
        alloc,
        RemoveOwn {
            table: id.table,
            write: id.write,
            dir,
        },
    ) {
        Ok(()) => Ok(()),
        Err(why) => {
            let why = refusal_of(why);
            *swept = counted(why, *swept);
            unless_stopped(why)
        }
    }
}

/// Takes away these own directories of an aborted write id.
fn remove_all_lost<D: Shelf + Drop, W: Actor<D, ToldHouse<D>>>(
    alloc: Global,
    actor: &mut W,
    id: LostId,
    dirs: Vec<DirAt>,
    swept: &mut Swept,
) -> Result<(), PassFault>
    requires keeps { W.keeps actor.old }
    requires running { IsOpenHouse (W.house actor.old) }
    requires lost { AreLostDirs (trail_in (W.house actor.old)) id dirs.items }
    ensures keeps { W.keeps actor.new }
    ensures sweeps { IfOk result (λ _. Sweeps (among D.told D.faults W.between W.meanwhile)
        (known (W.own actor.old) (W.house actor.old)) (known (W.own actor.new) (W.house actor.new))
        swept.old swept.new) }
    ensures less { IfErr result (SweepsLess (among D.told D.faults W.between W.meanwhile)
        (known (W.own actor.old) (W.house actor.old)) (known (W.own actor.new) (W.house actor.new))) }
{
    for dir in dirs {
        if let Err(why) = remove_lost(alloc, actor, id, dir, swept) {
            return Err(why);
        }
    }
    Ok(())
}

/// What is counted where an id wasn't forgotten: a call on files that failed, and an id one of whose directories is
/// listed still.
fn counted_id(why: Refused, swept: Swept) -> Swept
    ensures { result ≡ counted_id why swept }
{
    match why {
        Refused::Failed => count_fault(swept),
        Refused::Needed => swept,
        Refused::Listed => count_listed(swept),
        Refused::Over => swept,
        Refused::Stop(_) => swept,
    }
}

/// Notes that an aborted write id is forgotten, where none of its directories is listed.
fn forget<D: Shelf + Drop, W: Actor<D, ToldHouse<D>>>(
    alloc: Global,
    actor: &mut W,
    id: LostId,
    swept: &mut Swept,
) -> Result<(), PassFault>
    requires keeps { W.keeps actor.old }
    requires running { IsOpenHouse (W.house actor.old) }
    ensures keeps { W.keeps actor.new }
    ensures forgets { IfOk result (λ _. ForgetsOne (among D.told D.faults W.between W.meanwhile)
        (known (W.own actor.old) (W.house actor.old)) (known (W.own actor.new) (W.house actor.new))
        id swept.old swept.new) }
    ensures less { IfErr result (SweepsLess (among D.told D.faults W.between W.meanwhile)
        (known (W.own actor.old) (W.house actor.old)) (known (W.own actor.new) (W.house actor.new))) }
{
    match actor.hold(
        alloc,
        Forget {
            table: id.table,
            write: id.write,
        },
    ) {
        Ok(()) => {
            *swept = count_forgotten(*swept);
            Ok(())
        }
        Err(why) => {
            let why = refusal_of(why);
            *swept = counted_id(why, *swept);
            unless_stopped(why)
        }
    }
}

/// An aborted write id's turn: its own directories are taken away, by these places of its table, and then it is noted
/// as forgotten.
fn forget_id<D: Shelf + Drop, W: Actor<D, ToldHouse<D>>>(
    alloc: Global,
    actor: &mut W,
    id: LostId,
    places: &[Place],
    swept: &mut Swept,
) -> Result<(), PassFault>
    requires keeps { W.keeps actor.old }
    requires running { IsOpenHouse (W.house actor.old) }
    requires lost { IsLost (trail_in (W.house actor.old)) id }
    ensures keeps { W.keeps actor.new }
    ensures forgets { IfOk result (λ _. ForgetsOne (among D.told D.faults W.between W.meanwhile)
        (known (W.own actor.old) (W.house actor.old)) (known (W.own actor.new) (W.house actor.new))
        id swept.old swept.new) }
    ensures less { IfErr result (SweepsLess (among D.told D.faults W.between W.meanwhile)
        (known (W.own actor.old) (W.house actor.old)) (known (W.own actor.new) (W.house actor.new))) }
{
    let dirs = match lost_dirs(alloc, id, places) {
        Ok(dirs) => dirs,
        Err(NoMemory) => return Err(PassFault::NoMemory),
    };
    match remove_all_lost(alloc, actor, id, dirs, swept) {
        Ok(()) => forget(alloc, actor, id, swept),
        Err(why) => Err(why),
    }
}

/// Whether an id is of that table.
fn is_of_table(id: LostId, table: u64) -> bool
    ensures { result ≡ is_of_table table id }
{
    id.table.0 == table
}

/// Whether one of these ids is of that table.
fn is_any_of(ids: &[LostId], table: u64) -> bool
    ensures { result ≡ is_any_of table ids.now }
{
    for id in ids {
        if is_of_table(*id, table) {
            return true;
        }
    }
    false
}

/// What a listing comes to that was refused.
fn not_listed(why: Refused) -> Result<Option<Vec<Place>>, PassFault>
    ensures { result ≡ not_listed why }
{
    match why {
        Refused::Failed => Ok(None),
        Refused::Needed => Ok(None),
        Refused::Listed => Ok(None),
        Refused::Over => Ok(None),
        Refused::Stop(fault) => Err(fault),
    }
}

/// Lists a table's files; none where that failed.
pub(crate) fn list<D: Shelf + Drop, W: Actor<D, ToldHouse<D>>>(
    alloc: Global,
    actor: &mut W,
    table: TableId,
    swept: &mut Swept,
) -> Result<Option<Vec<Place>>, PassFault>
    requires keeps { W.keeps actor.old }
    requires running { IsOpenHouse (W.house actor.old) }
    ensures keeps { W.keeps actor.new }
    ensures sweeps { IfOk result (λ _. Sweeps (among D.told D.faults W.between W.meanwhile)
        (known (W.own actor.old) (W.house actor.old)) (known (W.own actor.new) (W.house actor.new))
        swept.old swept.new) }
    ensures listed { IfOk result (λ found. IsListedBy found swept.old swept.new) }
    ensures less { IfErr result (SweepsLess (among D.told D.faults W.between W.meanwhile)
        (known (W.own actor.old) (W.house actor.old)) (known (W.own actor.new) (W.house actor.new))) }
{
    match actor.hold(alloc, ListPlaces { table }) {
        Ok(places) => Ok(Some(places)),
        Err(why) => {
            let why = refusal_of(why);
            *swept = counted(why, *swept);
            not_listed(why)
        }
    }
}

/// The turn of an id, where it is of the table.
fn forget_if<D: Shelf + Drop, W: Actor<D, ToldHouse<D>>>(
    alloc: Global,
    actor: &mut W,
    table: u64,
    id: LostId,
    places: &[Place],
    swept: &mut Swept,
) -> Result<(), PassFault>
    requires keeps { W.keeps actor.old }
    requires running { IsOpenHouse (W.house actor.old) }
    requires lost { IsLost (trail_in (W.house actor.old)) id }
    ensures keeps { W.keeps actor.new }
    ensures forgets { IfOk result (λ _. ForgetEach (among D.told D.faults W.between W.meanwhile)
        (known (W.own actor.old) (W.house actor.old)) (known (W.own actor.new) (W.house actor.new))
        (ids_of table (id ∷ [])) swept.old swept.new) }
    ensures less { IfErr result (SweepsLess (among D.told D.faults W.between W.meanwhile)
        (known (W.own actor.old) (W.house actor.old)) (known (W.own actor.new) (W.house actor.new))) }
{
    if !is_of_table(id, table) {
        return Ok(());
    }
    forget_id(alloc, actor, id, places, swept)
}

/// The turns of those of these ids that are of a table, by the places of its files.
fn forget_listed<D: Shelf + Drop, W: Actor<D, ToldHouse<D>>>(
    alloc: Global,
    actor: &mut W,
    table: u64,
    ids: &[LostId],
    places: &[Place],
    swept: &mut Swept,
) -> Result<(), PassFault>
    requires keeps { W.keeps actor.old }
    requires running { IsOpenHouse (W.house actor.old) }
    requires lost { AreLost (trail_in (W.house actor.old)) ids.now }
    ensures keeps { W.keeps actor.new }
    ensures forgets { IfOk result (λ _. ForgetEach (among D.told D.faults W.between W.meanwhile)
        (known (W.own actor.old) (W.house actor.old)) (known (W.own actor.new) (W.house actor.new))
        (ids_of table ids.now) swept.old swept.new) }
    ensures less { IfErr result (StopsBehind (among D.told D.faults W.between W.meanwhile)
        (ForgetsFront (among D.told D.faults W.between W.meanwhile) (ids_of table ids.now) swept.old)
        (known (W.own actor.old) (W.house actor.old)) (known (W.own actor.new) (W.house actor.new))) }
{
    for id in ids {
        if let Err(why) = forget_if(alloc, actor, table, *id, places, swept) {
            return Err(why);
        }
    }
    Ok(())
}

/// The same, where the table was listed.
fn forget_found<D: Shelf + Drop, W: Actor<D, ToldHouse<D>>>(
    alloc: Global,
    actor: &mut W,
    table: u64,
    ids: &[LostId],
    found: Option<Vec<Place>>,
    swept: &mut Swept,
) -> Result<(), PassFault>
    requires keeps { W.keeps actor.old }
    requires running { IsOpenHouse (W.house actor.old) }
    requires lost { AreLost (trail_in (W.house actor.old)) ids.now }
    ensures keeps { W.keeps actor.new }
    ensures forgets { IfOk result (λ _. ForgetsFound (among D.told D.faults W.between W.meanwhile)
        (known (W.own actor.old) (W.house actor.old)) (known (W.own actor.new) (W.house actor.new))
        (ids_of table ids.now) found swept.old swept.new) }
    ensures less { IfErr result (StopsBehind (among D.told D.faults W.between W.meanwhile)
        (ForgetsFront (among D.told D.faults W.between W.meanwhile) (ids_of table ids.now) swept.old)
        (known (W.own actor.old) (W.house actor.old)) (known (W.own actor.new) (W.house actor.new))) }
{
    match found {
        Some(places) => forget_listed(alloc, actor, table, ids, &places, swept),
        None => Ok(()),
    }
}

/// The turns of those of these ids that are of a table, which is listed where there are some.
fn forget_table<D: Shelf + Drop, W: Actor<D, ToldHouse<D>>>(
    alloc: Global,
    actor: &mut W,
    table: u64,
    ids: &[LostId],
    swept: &mut Swept,
) -> Result<(), PassFault>
    requires keeps { W.keeps actor.old }
    requires running { IsOpenHouse (W.house actor.old) }
    requires lost { AreLost (trail_in (W.house actor.old)) ids.now }
    ensures keeps { W.keeps actor.new }
    ensures forgets { IfOk result (λ _. ForgetsTable (among D.told D.faults W.between W.meanwhile)
        (known (W.own actor.old) (W.house actor.old)) (known (W.own actor.new) (W.house actor.new))
        (ids_of table ids.now) swept.old swept.new) }
    ensures less { IfErr result (StopsBehind (among D.told D.faults W.between W.meanwhile)
        (ForgetsFront (among D.told D.faults W.between W.meanwhile) (ids_of table ids.now) swept.old)
        (known (W.own actor.old) (W.house actor.old)) (known (W.own actor.new) (W.house actor.new))) }
{
    if !is_any_of(ids, table) {
        return Ok(());
    }
    match list(alloc, actor, TableId(table), swept) {
        Ok(found) => forget_found(alloc, actor, table, ids, found, swept),
        Err(why) => Err(why),
    }
}

/// The turns of these ids, table by table.
fn forget_each<D: Shelf + Drop, W: Actor<D, ToldHouse<D>>>(
    alloc: Global,
    actor: &mut W,
    tables: u64,
    ids: &[LostId],
    swept: &mut Swept,
) -> Result<(), PassFault>
    requires keeps { W.keeps actor.old }
    requires running { IsOpenHouse (W.house actor.old) }
    requires lost { AreLost (trail_in (W.house actor.old)) ids.now }
    ensures keeps { W.keeps actor.new }
    ensures forgets { IfOk result (λ _. ForgetTables (among D.told D.faults W.between W.meanwhile)
        (known (W.own actor.old) (W.house actor.old)) (known (W.own actor.new) (W.house actor.new))
        (numbers_from 1 tables) ids.now swept.old swept.new) }
    ensures less { IfErr result (StopsBehind (among D.told D.faults W.between W.meanwhile)
        (TablesFront (among D.told D.faults W.between W.meanwhile) (numbers_from 1 tables) ids.now swept.old)
        (known (W.own actor.old) (W.house actor.old)) (known (W.own actor.new) (W.house actor.new))) }
{
    for i in 0..tables {
        if let Err(why) = forget_table(alloc, actor, i + 1, ids, swept) {
            return Err(why);
        }
    }
    Ok(())
}

/// The greatest number of a table among these.
fn last_table(ids: &[LostId]) -> u64
    ensures { result ≡ last_table ids.now }
{
    let mut last = 0;
    for id in ids {
        if last < id.table.0 {
            last = id.table.0;
        }
    }
    last
}

/// The second part of a pass: aborted write ids.
pub(crate) fn forget_all<D: Shelf + Drop, W: Actor<D, ToldHouse<D>>>(
    alloc: Global,
    actor: &mut W,
    swept: &mut Swept,
) -> Result<(), PassFault>
    requires keeps { W.keeps actor.old }
    requires running { IsOpenHouse (W.house actor.old) }
    ensures keeps { W.keeps actor.new }
    ensures forgets { IfOk result (λ _. ForgetsAll (among D.told D.faults W.between W.meanwhile)
        (known (W.own actor.old) (W.house actor.old)) (known (W.own actor.new) (W.house actor.new))
        swept.old swept.new) }
    ensures less { IfErr result (StopsBehind (among D.told D.faults W.between W.meanwhile)
        (IdsFront (among D.told D.faults W.between W.meanwhile) swept.old)
        (known (W.own actor.old) (W.house actor.old)) (known (W.own actor.new) (W.house actor.new))) }
{
    match actor.hold(alloc, AskBook { question: Lost }) {
        Ok(ids) => forget_each(alloc, actor, last_table(&ids), &ids, swept),
        Err(why) => Err(stopped(why)),
    }
}
