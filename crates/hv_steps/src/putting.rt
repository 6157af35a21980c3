//! The files of a change, put one after another under its write id.
ghost use Rattle.std.specs.Prelude.{◌≡◌, ◌<◌, ◌≤◌, ◌++◌, [], ◌∷◌, IfOk, IfErr};
ghost use Rattle.std.specs.List.{AllByRecursion};
ghost use Rattle.hv_dirs.specs.Names.{write_end};
ghost use Rattle.hv_route.specs.Routes.{files_of};
ghost use Rattle.hv_stands.specs.Files.{place_of_file};
ghost use Rattle.hv_stands.specs.Laws.{HasFile};
ghost use Rattle.hv_table_rows.specs.Putting.{CanPut};
ghost use Rattle.hv_table_reader.specs.hv_acts.specs.Meant.{places_of_files};
ghost use Rattle.hv_steps.specs.Going.{faults_in, AddsOwn, IsOpenHouse};
ghost use Rattle.hv_steps.specs.Preparing.{with_place, IsRefusal, IsFileDue, AreFilesDue, HasItsId, IsChangePut};
ghost use Rattle.hv_actor.specs.Acting.{known};

use hv_actor::Actor;
use hv_base::{Duplicate, List, NoMemory, TableId, TxnId, WriteId};
use hv_logic::{Effect, TableInfo};
use hv_route::{OutFile, route};
use hv_shelf::{Place, Shelf};
use hv_table_reader::hv_acts::hv_telling::hv_house::HouseFault;
use hv_table_reader::hv_acts::{ActFault, PutFile, ToldHouse};
use hv_table_rows::place_of_file;
use std::alloc::Global;

/// Where a file of a change stands, twice: to be put there, and to be kept in mind.
fn places_of(
    alloc: Global,
    table: TableId,
    write: WriteId,
    file: &OutFile,
) -> Result<(Place, Place), NoMemory>
    requires first { 1 ≤ write.0 }
    requires last { write.0 < write_end }
    ensures one { IfOk result (λ places. places.0 ≡ place_of_file table.0 write.0 file.now) }
    ensures other { IfOk result (λ places. places.1 ≡ place_of_file table.0 write.0 file.now) }
{
    let place = place_of_file(alloc, table, write, file)?;
    let copy = place.duplicate(alloc)?;
    Ok((place, copy))
}

/// The place of a file, where it was put.
fn with_place(place: Place, done: Result<(), ActFault>) -> Result<Place, ActFault>
    ensures { result ≡ with_place place done }
{
    match done {
        Ok(()) => Ok(place),
        Err(why) => Err(why),
    }
}

/// Puts a file of a change at this place, which is its own.
fn put_file<D: Shelf + Drop, W: Actor<D, ToldHouse<D>>>(
    alloc: Global,
    actor: &mut W,
    txn: TxnId,
    place: Place,
    file: &OutFile,
) -> Result<(), ActFault>
    requires keeps { W.keeps actor.old }
    requires running { IsOpenHouse (W.house actor.old) }
    requires can { CanPut file.now }
    requires due { IsFileDue D.told (W.house actor.old) txn place file.now }
    ensures keeps { W.keeps actor.new }
    ensures adds { AddsOwn D.faults W.between txn.0 (known (W.own actor.old) (W.house actor.old))
        (known (W.own actor.new) (W.house actor.new)) [] }
    ensures running { IfOk result (λ _. IsOpenHouse (W.house actor.new)) }
    ensures encoded { IfOk result (λ _. HasFile file.now) }
    ensures refusal { IfErr result (IsRefusal D.told D.faults W.meanwhile (faults_in D.faults (W.house actor.old)) txn
        (W.house actor.new)) }
{
    actor.hold(
        alloc,
        PutFile {
            by: txn,
            place,
            file,
        },
    )
}

/// Puts a file of a change, and answers its place.
fn put_one<D: Shelf + Drop, W: Actor<D, ToldHouse<D>>>(
    alloc: Global,
    actor: &mut W,
    txn: TxnId,
    table: TableId,
    write: WriteId,
    file: &OutFile,
) -> Result<Place, ActFault>
    requires keeps { W.keeps actor.old }
    requires running { IsOpenHouse (W.house actor.old) }
    requires can { CanPut file.now }
    requires first { 1 ≤ write.0 }
    requires last { write.0 < write_end }
    requires due { IsFileDue D.told (W.house actor.old) txn (place_of_file table.0 write.0 file.now) file.now }
    ensures keeps { W.keeps actor.new }
    ensures adds { AddsOwn D.faults W.between txn.0 (known (W.own actor.old) (W.house actor.old))
        (known (W.own actor.new) (W.house actor.new)) [] }
    ensures running { IfOk result (λ _. IsOpenHouse (W.house actor.new)) }
    ensures place { IfOk result (λ place. place ≡ place_of_file table.0 write.0 file.now) }
    ensures encoded { IfOk result (λ _. HasFile file.now) }
    ensures refusal { IfErr result (IsRefusal D.told D.faults W.meanwhile (faults_in D.faults (W.house actor.old)) txn
        (W.house actor.new)) }
{
    match places_of(alloc, table, write, file) {
        Ok((place, copy)) => with_place(copy, put_file(alloc, actor, txn, place, file)),
        Err(NoMemory) => Err(ActFault::House(HouseFault::NoMemory)),
    }
}

/// Keeps a place behind the others.
fn keep(places: &mut Vec<Place>, place: Place) -> Result<(), NoMemory>
    ensures { IfOk result (λ _. places.new.items ≡ places.old.items ++ place ∷ []) }
{
    places.push(place)?;
    Ok(())
}

/// Puts a file of a change, and keeps its place behind the others.
fn put_next<D: Shelf + Drop, W: Actor<D, ToldHouse<D>>>(
    alloc: Global,
    actor: &mut W,
    txn: TxnId,
    table: TableId,
    write: WriteId,
    file: &OutFile,
    places: &mut Vec<Place>,
) -> Result<(), ActFault>
    requires keeps { W.keeps actor.old }
    requires running { IsOpenHouse (W.house actor.old) }
    requires can { CanPut file.now }
    requires first { 1 ≤ write.0 }
    requires last { write.0 < write_end }
    requires due { IsFileDue D.told (W.house actor.old) txn (place_of_file table.0 write.0 file.now) file.now }
    ensures keeps { W.keeps actor.new }
    ensures adds { AddsOwn D.faults W.between txn.0 (known (W.own actor.old) (W.house actor.old))
        (known (W.own actor.new) (W.house actor.new)) [] }
    ensures running { IfOk result (λ _. IsOpenHouse (W.house actor.new)) }
    ensures places { IfOk result (λ _. places.new.items ≡ places.old.items ++ place_of_file table.0 write.0
        file.now ∷ []) }
    ensures encoded { IfOk result (λ _. HasFile file.now) }
    ensures refusal { IfErr result (IsRefusal D.told D.faults W.meanwhile (faults_in D.faults (W.house actor.old)) txn
        (W.house actor.new)) }
{
    match put_one(alloc, actor, txn, table, write, file) {
        Ok(place) => match keep(places, place) {
            Ok(()) => Ok(()),
            Err(NoMemory) => Err(ActFault::House(HouseFault::NoMemory)),
        },
        Err(why) => Err(why),
    }
}

/// Puts the files of a change, one after another, and answers their places.
fn put_each<D: Shelf + Drop, W: Actor<D, ToldHouse<D>>>(
    alloc: Global,
    actor: &mut W,
    txn: TxnId,
    table: TableId,
    write: WriteId,
    files: &[OutFile],
) -> Result<Vec<Place>, ActFault>
    requires keeps { W.keeps actor.old }
    requires running { IsOpenHouse (W.house actor.old) }
    requires can { AllByRecursion CanPut files.now }
    requires first { 1 ≤ write.0 }
    requires last { write.0 < write_end }
    requires due { AreFilesDue D.told (W.house actor.old) txn table.0 write.0 files.now }
    ensures keeps { W.keeps actor.new }
    ensures adds { AddsOwn D.faults W.between txn.0 (known (W.own actor.old) (W.house actor.old))
        (known (W.own actor.new) (W.house actor.new)) [] }
    ensures running { IfOk result (λ _. IsOpenHouse (W.house actor.new)) }
    ensures places { IfOk result (λ places. places.items ≡ places_of_files table.0 write.0 files.now) }
    ensures encoded { IfOk result (λ _. AllByRecursion HasFile files.now) }
    ensures refusal { IfErr result (IsRefusal D.told D.faults W.meanwhile (faults_in D.faults (W.house actor.old)) txn
        (W.house actor.new)) }
{
    let mut places = Vec::new(alloc);
    for file in files {
        if let Err(why) = put_next(alloc, actor, txn, table, write, file, &mut places) {
            return Err(why);
        }
    }
    Ok(places)
}

/// Puts the files of a change, and answers their places.
fn put_files<D: Shelf + Drop, W: Actor<D, ToldHouse<D>>>(
    alloc: Global,
    actor: &mut W,
    txn: TxnId,
    table: TableId,
    write: WriteId,
    files: &[OutFile],
) -> Result<List<Place>, ActFault>
    requires keeps { W.keeps actor.old }
    requires running { IsOpenHouse (W.house actor.old) }
    requires can { AllByRecursion CanPut files.now }
    requires first { 1 ≤ write.0 }
    requires last { write.0 < write_end }
    requires due { AreFilesDue D.told (W.house actor.old) txn table.0 write.0 files.now }
    ensures keeps { W.keeps actor.new }
    ensures adds { AddsOwn D.faults W.between txn.0 (known (W.own actor.old) (W.house actor.old))
        (known (W.own actor.new) (W.house actor.new)) [] }
    ensures running { IfOk result (λ _. IsOpenHouse (W.house actor.new)) }
    ensures places { IfOk result (λ put. put ≡ places_of_files table.0 write.0 files.now) }
    ensures encoded { IfOk result (λ _. AllByRecursion HasFile files.now) }
    ensures refusal { IfErr result (IsRefusal D.told D.faults W.meanwhile (faults_in D.faults (W.house actor.old)) txn
        (W.house actor.new)) }
{
    match put_each(alloc, actor, txn, table, write, files) {
        Ok(places) => Ok(List::from_vec(places)),
        Err(why) => Err(why),
    }
}

/// Routes the rows of a change to their files, puts these, and answers their places.
pub fn put<D: Shelf + Drop, W: Actor<D, ToldHouse<D>>>(
    alloc: Global,
    actor: &mut W,
    txn: TxnId,
    info: &TableInfo,
    effect: Effect,
    write: WriteId,
) -> Result<List<Place>, ActFault>
    requires keeps { W.keeps actor.old }
    requires running { IsOpenHouse (W.house actor.old) }
    requires can { AllByRecursion CanPut (files_of info.now.shape write.0 0 effect) }
    requires id { HasItsId D.told (W.house actor.old) txn info.now effect write.0 }
    ensures keeps { W.keeps actor.new }
    ensures adds { AddsOwn D.faults W.between txn.0 (known (W.own actor.old) (W.house actor.old))
        (known (W.own actor.new) (W.house actor.new)) [] }
    ensures running { IfOk result (λ _. IsOpenHouse (W.house actor.new)) }
    ensures put { IfOk result (IsChangePut info.now effect write.0) }
    ensures refusal { IfErr result (IsRefusal D.told D.faults W.meanwhile (faults_in D.faults (W.house actor.old)) txn
        (W.house actor.new)) }
{
    match route(alloc, &info.shape, write, 0, effect) {
        Ok(files) => put_files(alloc, actor, txn, info.table, write, &files),
        Err(NoMemory) => Err(ActFault::House(HouseFault::NoMemory)),
    }
}
