//! What a started statement sees, and what it comes to.

ghost use Rattle.std.specs.Prelude.{◌≡◌, ◌≤◌, ◌<◌, ℕ, ◌++◌, ◌∷◌, [], Some, IfOk, OnOk, length, take, slice_get, true};
ghost use Rattle.hv_base.specs.declared.ids.TxnId.{TxnId};
ghost use Rattle.hv_ast.specs.declared.statement.Stmt.{Stmt};
ghost use Rattle.hv_built.specs.Built.{IsBuilt};
ghost use Rattle.hv_typing.specs.Analysis.{analysed};
ghost use Rattle.hv_meaning.specs.Meaning.{meant};
ghost use Rattle.hv_meaning.specs.Needs.{KeepMeaning};
ghost use Rattle.hv_meaning.specs.Laws.{MeansSomething};
ghost use Rattle.hv_effect.specs.Tables.{found_of};
ghost use Rattle.hv_effect.specs.Studied.{typed_in};
ghost use Rattle.std.specs.Option.{option_copied};
ghost use Rattle.hv_logic.specs.Names.{names_in};
ghost use Rattle.hv_logic.specs.declared.meaning.Meaning.TheVariants.{Listing};
ghost use Rattle.hv_history.specs.Shown.{filled, is_plain, listed_for, show_of};
ghost use Rattle.hv_history.specs.declared.entry.Cause.TheVariants.{ReadFault};
ghost use Rattle.hv_stands.specs.Running.{Asking};
ghost use Rattle.hv_table_reader.specs.hv_acts.specs.hv_telling.specs.hv_house.specs.House.{IsSmall};
ghost use Rattle.hv_table_reader.specs.hv_acts.specs.hv_telling.specs.hv_house.specs.declared.fault.HouseFault.TheVariants as fault;
ghost use Rattle.hv_table_reader.specs.declared.fault.RowFault.TheVariants as row_fault;
ghost use Rattle.hv_table_reader.specs.hv_acts.specs.hv_telling.specs.Telling.{IsToldHouse};
ghost use Rattle.hv_table_reader.specs.hv_acts.specs.Told.{trail_in};
ghost use Rattle.hv_table_reader.specs.hv_acts.specs.Answers.{HasItsMark};
ghost use Rattle.hv_table_reader.specs.hv_acts.specs.Meant.{IsAbortDue};
ghost use Rattle.hv_table_reader.specs.hv_acts.specs.Reading.{HasPlace, HasReader, state_then};
ghost use Rattle.hv_steps.specs.Ending.{aborting, EndsUncommitted};
ghost use Rattle.hv_table_reader.specs.Tables.{RisesTo};
ghost use Rattle.hv_table_reader.specs.Steady.{HasRowsIn};
ghost use Rattle.hv_steps.specs.Wanting.{picked, needs_in};
ghost use Rattle.hv_steps.specs.Going.{IsOpenHouse, faults_in, Goes, WasOnWay, WasOpened, CauseKeeps};
ghost use Rattle.hv_steps.specs.Phases.{ComesTo, Sees};
ghost use Rattle.hv_steps.specs.Seeing.{tables_then, infos_then, IsFound, AreFound, IsFoundAs, AddsFound, HasNeeded, AddsRows, AreRead, Looks, IsUnseen, IsNarrow, EndsFor, EndsUnseen};
ghost use Rattle.hv_actor.specs.Acting.{among, known};

use crate::ready::Way;
use crate::refusing::refuse;
use crate::reply::Outcome;
use crate::wanting::{Wanting, is_none, wanting_of};
use hv_actor::Actor;
use hv_ast::{Show, Stmt};
use hv_base::{List, NoMemory, Text, TxnId};
use hv_effect::{Studied, Touching, mean, study, untouched};
use hv_history::{Cause, Shown};
use hv_logic::{Found, Meaning, TableInfo, TableRows};
use hv_names::names_in;
use hv_shelf::Shelf;
use hv_table_reader::hv_acts::ToldHouse;
use hv_table_reader::hv_acts::hv_telling::hv_house::HouseFault;
use hv_table_reader::{RowFault, find_table, read_rows, show_book};
use std::alloc::Global;

fn put(info: TableInfo, infos: &mut Vec<TableInfo>) -> Result<(), NoMemory>
    ensures { OnOk result (infos.new.items ≡ infos.old.items ++ info ∷ []) }
{
    infos.push(info)?;
    Ok(())
}

/// The description of the table of a name that a transaction locks, as it stood at the place of its snapshot.
fn look<D: Shelf + Drop, W: Actor<D, ToldHouse<D>>>(
    alloc: Global,
    actor: &mut W,
    by: TxnId,
    place: u64,
    name: &Text,
) -> Result<Option<TableInfo>, RowFault>
    requires keeps { W.keeps actor.old }
    requires running { IsOpenHouse (W.house actor.old) }
    requires reader { HasReader (trail_in (W.house actor.old)) by place name.now }
    ensures keeps { W.keeps actor.new }
    ensures looks { Looks (among D.told D.faults W.between W.meanwhile) by
        (known (W.own actor.old) (W.house actor.old)) (known (W.own actor.new) (W.house actor.new)) result }
    ensures found { IfOk result (IsFoundAs (trail_in (W.house actor.new)) by place name.now) }
{
    find_table(alloc, actor, place, name)
}

/// Looks for the table of one more name that a transaction locks, as it stood at the place of its snapshot.
fn find_next<D: Shelf + Drop, W: Actor<D, ToldHouse<D>>>(
    alloc: Global,
    actor: &mut W,
    by: TxnId,
    place: u64,
    name: &Text,
    infos: &mut Vec<TableInfo>,
) -> Result<(), RowFault>
    requires keeps { W.keeps actor.old }
    requires running { IsOpenHouse (W.house actor.old) }
    requires reader { HasReader (trail_in (W.house actor.old)) by place name.now }
    ensures keeps { W.keeps actor.new }
    ensures looks { Looks (among D.told D.faults W.between W.meanwhile) by
        (known (W.own actor.old) (W.house actor.old)) (known (W.own actor.new) (W.house actor.new)) result }
    ensures infos { OnOk result (AddsFound (trail_in (W.house actor.new)) by place name.now infos.old.items
        infos.new.items) }
{
    if let Some(info) = look(alloc, actor, by, place, name)? {
        put(info, infos)?;
    }
    Ok(())
}

/// The descriptions of the tables that a statement names, as they stood at its Start.
fn find_all<D: Shelf + Drop, W: Actor<D, ToldHouse<D>>>(
    alloc: Global,
    actor: &mut W,
    way: Way,
    tree: &Stmt,
) -> Result<Vec<TableInfo>, RowFault>
    requires keeps { W.keeps actor.old }
    requires running { IsOpenHouse (W.house actor.old) }
    requires was { (asking : Asking) × WasOnWay (trail_in (W.house actor.old)) asking way tree.now }
    ensures keeps { W.keeps actor.new }
    ensures looks { Looks (among D.told D.faults W.between W.meanwhile) way.txn
        (known (W.own actor.old) (W.house actor.old)) (known (W.own actor.new) (W.house actor.new)) result }
    ensures infos { IfOk result (λ infos. infos.items ≡ infos_then (W.house actor.new) way.place (names_in tree.now)) }
    ensures found { IfOk result (λ infos. AreFound (trail_in (W.house actor.new)) way.txn way.place infos.items) }
{
    let names = names_in(alloc, tree)?;
    let mut infos = Vec::new(alloc);
    for i in 0..names.len() {
        find_next(alloc, actor, way.txn, way.place, &names[i].name, &mut infos)?;
    }
    Ok(infos)
}

/// A statement typed over the tables that it names, as they stood at its Start, before any of their rows is read.
fn studied<D: Shelf + Drop, W: Actor<D, ToldHouse<D>>>(
    alloc: Global,
    actor: &mut W,
    way: Way,
    tree: &Stmt,
) -> Result<Studied, RowFault>
    requires keeps { W.keeps actor.old }
    requires running { IsOpenHouse (W.house actor.old) }
    requires was { (asking : Asking) × WasOnWay (trail_in (W.house actor.old)) asking way tree.now }
    ensures keeps { W.keeps actor.new }
    ensures looks { Looks (among D.told D.faults W.between W.meanwhile) way.txn
        (known (W.own actor.old) (W.house actor.old)) (known (W.own actor.new) (W.house actor.new)) result }
    ensures infos { IfOk result (λ studied. studied.infos.items
        ≡ infos_then (W.house actor.new) way.place (names_in tree.now)) }
    ensures found { IfOk result (λ studied.
        AreFound (trail_in (W.house actor.new)) way.txn way.place studied.infos.items) }
    ensures typed { IfOk result (λ studied. typed_in studied.typed ≡ analysed studied.infos.items tree.now) }
    ensures keeping { IfOk result (λ studied. KeepMeaning tree.now studied.infos.items (needs_in studied)) }
{
    let infos = find_all(alloc, actor, way, tree)?;
    Ok(study(alloc, infos, tree)?)
}

/// The rows of a table's partitions that are wanted, as they stood at the place of a transaction's snapshot.
fn read_now<'a, D: Shelf + Drop, W: Actor<D, ToldHouse<D>>>(
    alloc: Global,
    actor: &mut W,
    by: TxnId,
    place: u64,
    info: &TableInfo,
    wanting: &Wanting<'a>,
) -> Result<Vec<Found>, RowFault>
    requires keeps { W.keeps actor.old }
    requires running { IsOpenHouse (W.house actor.old) }
    requires found { IsFound (trail_in (W.house actor.old)) by place info.now }
    ensures keeps { W.keeps actor.new }
    ensures looks { Looks (among D.told D.faults W.between W.meanwhile) by
        (known (W.own actor.old) (W.house actor.old)) (known (W.own actor.new) (W.house actor.new)) result }
    ensures rows { IfOk result (λ rows. IsToldHouse D.told (W.house actor.old).house
        → HasRowsIn (tables_then (W.house actor.old) place) (picked wanting.now) info.now rows.items) }
{
    read_rows(alloc, actor, by, place, info, wanting)
}

/// The rows of a table's partitions that are wanted; where none is, no file is listed.
fn read_wanted<'a, D: Shelf + Drop, W: Actor<D, ToldHouse<D>>>(
    alloc: Global,
    actor: &mut W,
    by: TxnId,
    place: u64,
    info: &TableInfo,
    wanting: &Wanting<'a>,
) -> Result<List<Found>, RowFault>
    requires keeps { W.keeps actor.old }
    requires running { IsOpenHouse (W.house actor.old) }
    requires found { IsFound (trail_in (W.house actor.old)) by place info.now }
    ensures keeps { W.keeps actor.new }
    ensures looks { Looks (among D.told D.faults W.between W.meanwhile) by
        (known (W.own actor.old) (W.house actor.old)) (known (W.own actor.new) (W.house actor.new)) result }
    ensures rows { IfOk result (λ rows. IsToldHouse D.told (W.house actor.old).house
        → HasNeeded (tables_then (W.house actor.old) place) (picked wanting.now) info.now rows) }
{
    if is_none(&wanting.need) {
        return Ok(List::empty(alloc));
    }
    let rows = read_now(alloc, actor, by, place, info, wanting)?;
    Ok(List::from_vec(rows))
}

/// The rows that a statement needs of the table at this place, which has this description.
fn read_at<'a, D: Shelf + Drop, W: Actor<D, ToldHouse<D>>>(
    alloc: Global,
    actor: &mut W,
    way: Way,
    studied: &'a Studied,
    place: usize,
    info: &'a TableInfo,
) -> Result<List<Found>, RowFault>
    requires keeps { W.keeps actor.old }
    requires running { IsOpenHouse (W.house actor.old) }
    requires at { slice_get studied.now.infos.items place ≡ Some info.now }
    requires found { IsFound (trail_in (W.house actor.old)) way.txn way.place info.now }
    ensures keeps { W.keeps actor.new }
    ensures looks { Looks (among D.told D.faults W.between W.meanwhile) way.txn
        (known (W.own actor.old) (W.house actor.old)) (known (W.own actor.new) (W.house actor.new)) result }
    ensures rows { IfOk result (λ rows. IsToldHouse D.told (W.house actor.old).house
        → HasNeeded (tables_then (W.house actor.old) way.place) (needs_in studied.now place) info.now rows) }
{
    let wanting = wanting_of(alloc, studied, place, info)?;
    read_wanted(alloc, actor, way.txn, way.place, info, &wanting)
}

fn put_rows(table: TableRows, rows: &mut Vec<TableRows>) -> Result<(), NoMemory>
    ensures { OnOk result (rows.new.items ≡ rows.old.items ++ table ∷ []) }
{
    rows.push(table)?;
    Ok(())
}

/// Reads what a statement needs of one table more.
fn read_next<'a, D: Shelf + Drop, W: Actor<D, ToldHouse<D>>>(
    alloc: Global,
    actor: &mut W,
    way: Way,
    studied: &'a Studied,
    place: usize,
    info: &'a TableInfo,
    rows: &mut Vec<TableRows>,
) -> Result<(), RowFault>
    requires keeps { W.keeps actor.old }
    requires running { IsOpenHouse (W.house actor.old) }
    requires at { slice_get studied.now.infos.items place ≡ Some info.now }
    requires found { IsFound (trail_in (W.house actor.old)) way.txn way.place info.now }
    ensures keeps { W.keeps actor.new }
    ensures looks { Looks (among D.told D.faults W.between W.meanwhile) way.txn
        (known (W.own actor.old) (W.house actor.old)) (known (W.own actor.new) (W.house actor.new)) result }
    ensures rows { OnOk result (AddsRows (IsToldHouse D.told (W.house actor.old).house)
        (tables_then (W.house actor.old) way.place) (needs_in studied.now place) info.now rows.old.items
        rows.new.items) }
{
    let table = info.table;
    let found = read_at(alloc, actor, way, studied, place, info)?;
    put_rows(TableRows { table, rows: found }, rows)?;
    Ok(())
}

/// The rows that a statement needs of the tables that it names, as they stood at its Start.
fn read_all<D: Shelf + Drop, W: Actor<D, ToldHouse<D>>>(
    alloc: Global,
    actor: &mut W,
    way: Way,
    studied: &Studied,
) -> Result<Vec<TableRows>, RowFault>
    requires keeps { W.keeps actor.old }
    requires running { IsOpenHouse (W.house actor.old) }
    requires place { HasPlace (trail_in (W.house actor.old)) way.place }
    requires found { AreFound (trail_in (W.house actor.old)) way.txn way.place studied.now.infos.items }
    ensures keeps { W.keeps actor.new }
    ensures looks { Looks (among D.told D.faults W.between W.meanwhile) way.txn
        (known (W.own actor.old) (W.house actor.old)) (known (W.own actor.new) (W.house actor.new)) result }
    ensures rows { IfOk result (λ rows. AreRead (IsToldHouse D.told (W.house actor.new).house)
        (tables_then (W.house actor.new) way.place) (needs_in studied.now) studied.now.infos.items rows.items) }
{
    let mut rows = Vec::new(alloc);
    for i in 0..studied.infos.len() {
        read_next(alloc, actor, way, studied, i, &studied.infos[i], &mut rows)?;
    }
    Ok(rows)
}

/// The most columns of a table that a row file counts.
const MOST_COLUMNS: usize = 65_535;

/// The bytes of the longest partition's text that a legal book has.
const LONGEST_PARTITION: usize = 240;

/// Whether a row file counts the columns of the table that is changed. No legal book has a table of more columns
/// than 64.
fn is_narrow(touching: &Touching) -> bool
    ensures narrow { result ≡ true → IsNarrow touching.now }
{
    match &touching.meaning {
        Meaning::Change(info, _) => {
            let columns = info.shape.columns.len();
            let parts = info.shape.parts.len();
            columns <= MOST_COLUMNS && parts <= MOST_COLUMNS - columns
        }
        Meaning::Twice(partition, _) => partition.len() <= LONGEST_PARTITION,
        Meaning::Ask(_, partition, _) => partition.len() <= LONGEST_PARTITION,
        _ => true,
    }
}

fn narrow(meaning: Touching) -> Result<Touching, NoMemory>
    ensures same { IfOk result (λ narrow. narrow ≡ meaning) }
    ensures narrow { IfOk result IsNarrow }
{
    if is_narrow(&meaning) {
        Ok(meaning)
    } else {
        Err(NoMemory)
    }
}

/// What a statement of a form that is built comes to over what was read for it.
fn meaning(alloc: Global, studied: Studied, rows: &[TableRows]) -> Result<Touching, NoMemory>
    requires means { MeansSomething (meant studied.infos.items (found_of rows.now) (typed_in studied.typed)) }
    ensures means { IfOk result (λ meaning. meant studied.infos.items (found_of rows.now) (typed_in studied.typed)
        ≡ Some meaning) }
    ensures narrow { IfOk result IsNarrow }
{
    match mean(alloc, studied, rows)? {
        Some(meaning) => narrow(meaning),
        None => unreachable!(),
    }
}

/// What a statement lists of the book.
fn show_of(tree: &Stmt) -> Option<&Show>
    ensures { option_copied result ≡ show_of tree.now }
{
    match tree {
        Stmt::Show(what) => Some(what),
        _ => None,
    }
}

/// What a statement lists of the book as it was at its Start; None where it lists nothing of it.
fn shown<D: Shelf + Drop, W: Actor<D, ToldHouse<D>>>(
    alloc: Global,
    actor: &mut W,
    way: Way,
    tree: &Stmt,
) -> Result<Option<Shown>, RowFault>
    requires keeps { W.keeps actor.old }
    requires running { IsOpenHouse (W.house actor.old) }
    requires place { HasPlace (trail_in (W.house actor.old)) way.place }
    ensures keeps { W.keeps actor.new }
    ensures looks { Looks (among D.told D.faults W.between W.meanwhile) way.txn
        (known (W.own actor.old) (W.house actor.old)) (known (W.own actor.new) (W.house actor.new)) result }
    ensures shown { IfOk result (λ shown. shown
        ≡ listed_for (state_then (trail_in (W.house actor.new)) way.place) tree.now) }
{
    match show_of(tree) {
        Some(what) => show_book(alloc, actor, way.place, what),
        None => Ok(None),
    }
}

fn is_plain(touching: &Touching) -> bool
    ensures { result ≡ is_plain touching.now }
{
    match &touching.meaning {
        Meaning::Plain => true,
        _ => false,
    }
}

fn listing(alloc: Global, shown: Shown) -> Touching
    ensures { result ≡ Listing shown.names shown.rows }
{
    untouched(alloc, Meaning::Listing(shown.names, shown.rows))
}

/// A listing in place of nothing, and any other meaning as it is.
fn listed_over(alloc: Global, shown: Shown, meaning: Touching) -> Touching
    ensures { Some result ≡ filled (Some shown) (Some meaning) }
{
    if is_plain(&meaning) {
        listing(alloc, shown)
    } else {
        meaning
    }
}

/// What a statement comes to, with what it lists of the book.
fn filled(alloc: Global, shown: Option<Shown>, meaning: Touching) -> Touching
    ensures { Some result ≡ filled shown (Some meaning) }
{
    match shown {
        Some(shown) => listed_over(alloc, shown, meaning),
        None => meaning,
    }
}

/// What a statement comes to over the tables that it names, as they stood at its Start, and over the book as it was then.
fn see_meaning<D: Shelf + Drop, W: Actor<D, ToldHouse<D>>>(
    alloc: Global,
    actor: &mut W,
    way: Way,
    tree: &Stmt,
) -> Result<Touching, RowFault>
    requires keeps { W.keeps actor.old }
    requires running { IsOpenHouse (W.house actor.old) }
    requires was { (asking : Asking) × WasOnWay (trail_in (W.house actor.old)) asking way tree.now }
    requires built { IsBuilt tree.now }
    ensures keeps { W.keeps actor.new }
    ensures looks { Looks (among D.told D.faults W.between W.meanwhile) way.txn
        (known (W.own actor.old) (W.house actor.old)) (known (W.own actor.new) (W.house actor.new)) result }
    ensures comes { IfOk result (ComesTo D.told (W.house actor.new) way tree.now) }
{
    let shown = shown(alloc, actor, way, tree)?;
    let studied = studied(alloc, actor, way, tree)?;
    let rows = read_all(alloc, actor, way, &studied)?;
    let meaning = meaning(alloc, studied, rows.as_slice())?;
    Ok(filled(alloc, shown, meaning))
}

/// Aborts a started statement for this cause.
fn cut_off<D: Shelf + Drop, W: Actor<D, ToldHouse<D>>>(
    alloc: Global,
    actor: &mut W,
    txn: TxnId,
    cause: Cause,
) -> Result<Outcome, HouseFault>
    requires keeps { W.keeps actor.old }
    requires running { IsOpenHouse (W.house actor.old) }
    requires small { IsSmall (aborting txn.0 cause) }
    requires marked { HasItsMark (trail_in (W.house actor.old)) txn cause }
    requires due { IsToldHouse D.told (W.house actor.old).house → IsAbortDue (trail_in (W.house actor.old)) txn cause }
    requires uncommitted { EndsUncommitted cause }
    requires was { WasOpened (trail_in (W.house actor.old)) txn.0 }
    ensures keeps { W.keeps actor.new }
    ensures goes { (low : ℕ) → low ≤ faults_in D.faults (W.house actor.old)
        → CauseKeeps low (faults_in D.faults (W.house actor.old)) cause
        → Goes (among D.told D.faults W.between W.meanwhile) low txn.0 (known (W.own actor.old) (W.house actor.old))
        (known (W.own actor.new) (W.house actor.new))
        (EndsFor txn.0 (W.house actor.new) cause) result }
{
    Ok(Outcome::Ended(refuse(alloc, actor, txn, cause)?))
}

/// Aborts a statement for a fault of the house.
fn end_halted<D: Shelf + Drop, W: Actor<D, ToldHouse<D>>>(
    alloc: Global,
    actor: &mut W,
    txn: TxnId,
    fault: HouseFault,
) -> Result<Outcome, HouseFault>
    requires keeps { W.keeps actor.old }
    requires unseen { IsUnseen D.told W.meanwhile txn (W.house actor.old) (row_fault.House fault) }
    requires was { WasOpened (trail_in (W.house actor.old)) txn.0 }
    ensures keeps { W.keeps actor.new }
    ensures goes { (low : ℕ) → low ≤ faults_in D.faults (W.house actor.old)
        → RisesTo low (faults_in D.faults (W.house actor.old)) (row_fault.House fault)
        → Goes (among D.told D.faults W.between W.meanwhile) low txn.0 (known (W.own actor.old) (W.house actor.old))
        (known (W.own actor.new) (W.house actor.new))
        (EndsUnseen D.told (W.house actor.new) txn.0) result }
{
    match fault {
        HouseFault::Failed { count } => cut_off(alloc, actor, txn, Cause::ReadFault { count }),
        HouseFault::NoMemory => cut_off(alloc, actor, txn, Cause::Memory),
        HouseFault::Store => Err(HouseFault::Store),
    }
}

/// Aborts a statement whose tables could not be seen.
fn end_unseen<D: Shelf + Drop, W: Actor<D, ToldHouse<D>>>(
    alloc: Global,
    actor: &mut W,
    txn: TxnId,
    fault: RowFault,
) -> Result<Outcome, HouseFault>
    requires keeps { W.keeps actor.old }
    requires unseen { IsUnseen D.told W.meanwhile txn (W.house actor.old) fault }
    requires was { WasOpened (trail_in (W.house actor.old)) txn.0 }
    ensures keeps { W.keeps actor.new }
    ensures goes { (low : ℕ) → low ≤ faults_in D.faults (W.house actor.old)
        → RisesTo low (faults_in D.faults (W.house actor.old)) fault
        → Goes (among D.told D.faults W.between W.meanwhile) low txn.0 (known (W.own actor.old) (W.house actor.old))
        (known (W.own actor.new) (W.house actor.new))
        (EndsUnseen D.told (W.house actor.new) txn.0) result }
{
    match fault {
        RowFault::Damaged(place) => cut_off(alloc, actor, txn, Cause::Damaged { place }),
        RowFault::House(fault) => end_halted(alloc, actor, txn, fault),
    }
}

/// What a started statement comes to over the tables that it names, as they stood at its Start. Where they can't be seen it is aborted.
///
/// # Errors
/// `Store` where the journal failed or others closed the house, and `NoMemory` where memory lacked even for an abort.
pub fn see<D: Shelf + Drop, W: Actor<D, ToldHouse<D>>>(
    alloc: Global,
    actor: &mut W,
    way: Way,
    tree: &Stmt,
) -> Result<Outcome, HouseFault>
    requires keeps { W.keeps actor.old }
    requires running { IsOpenHouse (W.house actor.old) }
    requires was { (asking : Asking) × WasOnWay (trail_in (W.house actor.old)) asking way tree.now }
    ensures keeps { W.keeps actor.new }
    ensures goes { Goes (among D.told D.faults W.between W.meanwhile) (faults_in D.faults (W.house actor.old)) way.txn.0
        (known (W.own actor.old) (W.house actor.old)) (known (W.own actor.new) (W.house actor.new))
        (Sees D.told (W.house actor.new) way tree.now) result }
{
    match see_meaning(alloc, actor, way, tree) {
        Ok(meaning) => Ok(Outcome::Means(meaning)),
        Err(fault) => end_unseen(alloc, actor, way.txn, fault),
    }
}
