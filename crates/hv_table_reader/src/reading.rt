//! The rows of a table, read from its files act by act.

ghost use Rattle.std.specs.Prelude.{◌≡◌, ◌++◌, ◌∷◌, [], ℕ, Bool, false, true, Option, List, IfOk, IfErr, IsSorted};
ghost use Rattle.hv_base.specs.Told.{Tells};
ghost use Rattle.hv_shelf.specs.Disk.{Store};
ghost use Rattle.hv_choosing.specs.Dirs.{span_of};
ghost use Rattle.hv_table_rows.specs.Orders.{row_at_cmp};
ghost use Rattle.hv_table_rows.specs.Reading.{HoldsAt, Reads, deleted_in, left_in, AreRows};
ghost use Rattle.hv_law_dues.specs.hv_counts.specs.declared.due.Due.{Due};
ghost use Rattle.hv_law_dues.specs.hv_counts.specs.Counts.{dues_wanted};
ghost use Rattle.hv_acts.specs.hv_telling.specs.Telling.{IsToldHouse};
ghost use Rattle.hv_acts.specs.Told.{seen_in, trail_in, book_in};
ghost use Rattle.hv_acts.specs.Counting.{AreAsMany};
ghost use Rattle.hv_acts.specs.Going.{IsOpenHouse};
ghost use Rattle.hv_acts.specs.Reading.{ReadsTable};
ghost use Rattle.hv_table_reader.specs.Counting.{counted_at, CountsUpTo, HasKindCounts, dues_if, TellsKind, IsAmissOf};
ghost use Rattle.hv_table_reader.specs.Damage.{IsShortDamage, IsDamage, TellsFile, TellsOne};
ghost use Rattle.hv_table_reader.specs.Tables.{LooksOver};
ghost use Rattle.hv_table_reader.specs.Steady.{IsSteady, AreSteady, as_seen_by, AreWantedSteady, IsNamedThen, HasRowsThen};
ghost use Rattle.hv_actor.specs.Acting.{among, known};

use crate::acting::{count_dues, get_file, list_table};
use crate::counting::{check_counts, counted_records};
use crate::damage::damaged;
use crate::fault::RowFault;
use crate::wanting::{Wanted, Wants, narrowed};
use hv_actor::Actor;
use hv_acts::ToldHouse;
use hv_base::{TableId, Text, TxnId};
use hv_choosing::{DirFile, Span};
use hv_law_dues::hv_counts::{Counted, Due};
use hv_logic::{Found, TableInfo};
use hv_rowfile::Rec;
use hv_shelf::{Place, Shelf};
use hv_table_rows::{Partition, RowAt, once, push_all_deleted, push_rows, rows_rising};
use hv_wids::WriteIdList;
use std::alloc::Global;

/// The records of the file of a kind and of these write ids at this place.
fn read_at<D: Shelf + Drop, W: Actor<D, ToldHouse<D>>>(
    alloc: Global,
    actor: &mut W,
    by: TxnId,
    deletes: bool,
    span: Span,
    place: &Place,
    counts: &mut Vec<Counted>,
) -> Result<Vec<Rec>, RowFault>
    requires keeps { W.keeps actor.old }
    requires running { IsOpenHouse (W.house actor.old) }
    ensures keeps { W.keeps actor.new }
    ensures counted { IfOk result (λ recs. counts.new.items
        ≡ counts.old.items ++ counted_at deletes place.now recs.items ∷ []) }
    ensures looks { LooksOver (among D.told D.faults W.between W.meanwhile) by
        (known (W.own actor.old) (W.house actor.old)) (known (W.own actor.new) (W.house actor.new)) result }
    ensures recs { (o : Option Store) → IsSteady D.told o by (seen_in (W.house actor.old)) place.now
        → IfOk result (λ recs. Tells o (λ s. HoldsAt s.tree place.now deletes span recs.items)) }
    ensures damage { (o : Option Store) → IsSteady D.told o by (seen_in (W.house actor.old)) place.now
        → IfErr result (λ fault. Tells o (λ s. TellsFile s.tree place.now deletes span fault)) }
    ensures short { IfErr result IsShortDamage }
{
    match get_file(alloc, actor, by, place)? {
        Some(bytes) => counted_records(alloc, deletes, span, place, &bytes, counts),
        None => Err(damaged(alloc, place, u64::MAX)),
    }
}

/// The records of this file of a kind.
fn read_file<D: Shelf + Drop, W: Actor<D, ToldHouse<D>>>(
    alloc: Global,
    actor: &mut W,
    by: TxnId,
    deletes: bool,
    file: &DirFile,
    counts: &mut Vec<Counted>,
) -> Result<Vec<Rec>, RowFault>
    requires keeps { W.keeps actor.old }
    requires running { IsOpenHouse (W.house actor.old) }
    ensures keeps { W.keeps actor.new }
    ensures counted { IfOk result (λ recs. counts.new.items
        ≡ counts.old.items ++ counted_at deletes file.now.place recs.items ∷ []) }
    ensures looks { LooksOver (among D.told D.faults W.between W.meanwhile) by
        (known (W.own actor.old) (W.house actor.old)) (known (W.own actor.new) (W.house actor.new)) result }
    ensures recs { (o : Option Store) → IsSteady D.told o by (seen_in (W.house actor.old)) file.now.place
        → IfOk result (λ recs. Tells o (λ s. HoldsAt s.tree file.now.place deletes (span_of file.now.dir) recs.items)) }
    ensures damage { (o : Option Store) → IsSteady D.told o by (seen_in (W.house actor.old)) file.now.place
        → IfErr result (λ fault. Tells o (λ s. TellsFile s.tree file.now.place deletes (span_of file.now.dir) fault)) }
    ensures short { IfErr result IsShortDamage }
{
    read_at(
        alloc,
        actor,
        by,
        deletes,
        file.dir.span(),
        &file.place,
        counts,
    )
}

/// Where the rows stand that these files delete, by valid deleters.
fn read_deleted<D: Shelf + Drop, W: Actor<D, ToldHouse<D>>>(
    alloc: Global,
    actor: &mut W,
    by: TxnId,
    list: &WriteIdList,
    taken: &[DirFile],
    counts: &mut Vec<Counted>,
) -> Result<Vec<RowAt>, RowFault>
    requires keeps { W.keeps actor.old }
    requires running { IsOpenHouse (W.house actor.old) }
    requires none { counts.old.items ≡ [] }
    ensures keeps { W.keeps actor.new }
    ensures counts { (o : Option Store) → AreSteady D.told o by (seen_in (W.house actor.old)) taken.now
        → IfOk result (λ _. CountsUpTo o true taken.now counts.new.items) }
    ensures looks { LooksOver (among D.told D.faults W.between W.meanwhile) by
        (known (W.own actor.old) (W.house actor.old)) (known (W.own actor.new) (W.house actor.new)) result }
    ensures rows { (o : Option Store) → AreSteady D.told o by (seen_in (W.house actor.old)) taken.now
        → IfOk result (λ rows. Tells o (λ s. Reads true s.tree taken.now (deleted_in list.now) rows.items)) }
    ensures damage { (o : Option Store) → AreSteady D.told o by (seen_in (W.house actor.old)) taken.now
        → IfErr result (λ fault. Tells o (λ s. TellsOne true s.tree taken.now fault)) }
    ensures short { IfErr result IsShortDamage }
{
    let mut rows = Vec::new(alloc);
    for file in taken {
        let recs = read_file(alloc, actor, by, true, file, counts)?;
        push_all_deleted(alloc, list, &file.place.partition, &recs, &mut rows)?;
    }
    Ok(rows)
}

/// The rows that these files insert under valid write ids but for those that are gone.
fn read_left<D: Shelf + Drop, W: Actor<D, ToldHouse<D>>>(
    alloc: Global,
    actor: &mut W,
    by: TxnId,
    info: &TableInfo,
    list: &WriteIdList,
    taken: &[DirFile],
    gone: &[RowAt],
    counts: &mut Vec<Counted>,
) -> Result<Vec<Found>, RowFault>
    requires keeps { W.keeps actor.old }
    requires running { IsOpenHouse (W.house actor.old) }
    requires none { counts.old.items ≡ [] }
    requires rising { IsSorted row_at_cmp gone.now }
    ensures keeps { W.keeps actor.new }
    ensures counts { (o : Option Store) → AreSteady D.told o by (seen_in (W.house actor.old)) taken.now
        → IfOk result (λ _. CountsUpTo o false taken.now counts.new.items) }
    ensures looks { LooksOver (among D.told D.faults W.between W.meanwhile) by
        (known (W.own actor.old) (W.house actor.old)) (known (W.own actor.new) (W.house actor.new)) result }
    ensures rows { (o : Option Store) → AreSteady D.told o by (seen_in (W.house actor.old)) taken.now
        → IfOk result (λ rows.
        Tells o (λ s. Reads false s.tree taken.now (left_in list.now gone.now info.now.shape) rows.items)) }
    ensures damage { (o : Option Store) → AreSteady D.told o by (seen_in (W.house actor.old)) taken.now
        → IfErr result (λ fault. Tells o (λ s. TellsOne false s.tree taken.now fault)) }
    ensures short { IfErr result IsShortDamage }
{
    let parts = info.shape.parts.as_slice();
    let mut rows = Vec::new(alloc);
    let mut partition = Partition::of(alloc, parts, &Text::of(alloc, "")?)?;
    for file in taken {
        let recs = read_file(alloc, actor, by, false, file, counts)?;
        partition.turn(alloc, parts, &file.place.partition)?;
        push_rows(alloc, list, &partition, gone, recs, &mut rows)?;
    }
    Ok(rows)
}

/// Where the rows stand that these files delete, by valid deleters, where the files have as many records as the commits say, if that is asked.
fn deleted_counted<D: Shelf + Drop, W: Actor<D, ToldHouse<D>>>(
    alloc: Global,
    actor: &mut W,
    by: TxnId,
    table: TableId,
    list: &WriteIdList,
    taken: &[DirFile],
    asked: bool,
    dues: &[Due],
) -> Result<Vec<RowAt>, RowFault>
    requires keeps { W.keeps actor.old }
    requires running { IsOpenHouse (W.house actor.old) }
    ensures keeps { W.keeps actor.new }
    ensures looks { LooksOver (among D.told D.faults W.between W.meanwhile) by
        (known (W.own actor.old) (W.house actor.old)) (known (W.own actor.new) (W.house actor.new)) result }
    ensures rows { (o : Option Store) → AreSteady D.told o by (seen_in (W.house actor.old)) taken.now
        → IfOk result (λ rows. Tells o (λ s. Reads true s.tree taken.now (deleted_in list.now) rows.items)) }
    ensures counted { (o : Option Store) → AreSteady D.told o by (seen_in (W.house actor.old)) taken.now
        → IfOk result (λ _. Tells o (λ s. HasKindCounts true s.tree taken.now asked dues.now)) }
    ensures damage { (o : Option Store) → AreSteady D.told o by (seen_in (W.house actor.old)) taken.now
        → IfErr result (λ fault.
        Tells o (λ s. TellsKind true table.0 s.tree taken.now (dues_if asked dues.now) fault)) }
    ensures short { IfErr result IsShortDamage }
{
    let mut counts = Vec::new(alloc);
    let rows = read_deleted(alloc, actor, by, list, taken, &mut counts)?;
    check_counts(alloc, true, table, taken, asked, &counts, dues)?;
    Ok(rows)
}

/// The rows that these files insert under valid write ids but for those that are gone, where the files have as many records as the commits
/// say, if that is asked.
fn left_counted<D: Shelf + Drop, W: Actor<D, ToldHouse<D>>>(
    alloc: Global,
    actor: &mut W,
    by: TxnId,
    info: &TableInfo,
    list: &WriteIdList,
    taken: &[DirFile],
    gone: &[RowAt],
    asked: bool,
    dues: &[Due],
) -> Result<Vec<Found>, RowFault>
    requires keeps { W.keeps actor.old }
    requires running { IsOpenHouse (W.house actor.old) }
    requires rising { IsSorted row_at_cmp gone.now }
    ensures keeps { W.keeps actor.new }
    ensures looks { LooksOver (among D.told D.faults W.between W.meanwhile) by
        (known (W.own actor.old) (W.house actor.old)) (known (W.own actor.new) (W.house actor.new)) result }
    ensures rows { (o : Option Store) → AreSteady D.told o by (seen_in (W.house actor.old)) taken.now
        → IfOk result (λ rows.
        Tells o (λ s. Reads false s.tree taken.now (left_in list.now gone.now info.now.shape) rows.items)) }
    ensures counted { (o : Option Store) → AreSteady D.told o by (seen_in (W.house actor.old)) taken.now
        → IfOk result (λ _. Tells o (λ s. HasKindCounts false s.tree taken.now asked dues.now)) }
    ensures damage { (o : Option Store) → AreSteady D.told o by (seen_in (W.house actor.old)) taken.now
        → IfErr result (λ fault.
        Tells o (λ s. TellsKind false info.now.table.0 s.tree taken.now (dues_if asked dues.now) fault)) }
    ensures short { IfErr result IsShortDamage }
{
    let mut counts = Vec::new(alloc);
    let rows = read_left(alloc, actor, by, info, list, taken, gone, &mut counts)?;
    check_counts(alloc, false, info.table, taken, asked, &counts, dues)?;
    Ok(rows)
}

/// The rows of a table that files show that were listed and stand in partitions that are wanted: those of valid write ids, without those that
/// a delete with a valid deleter names, by partition and identifier, each once, where the files have as many records as the commits say.
fn read_listed<D: Shelf + Drop, W: Actor<D, ToldHouse<D>>>(
    alloc: Global,
    actor: &mut W,
    by: TxnId,
    info: &TableInfo,
    wanted: &Wanted,
) -> Result<Vec<Found>, RowFault>
    requires keeps { W.keeps actor.old }
    requires running { IsOpenHouse (W.house actor.old) }
    ensures keeps { W.keeps actor.new }
    ensures looks { LooksOver (among D.told D.faults W.between W.meanwhile) by
        (known (W.own actor.old) (W.house actor.old)) (known (W.own actor.new) (W.house actor.new)) result }
    ensures rows { (o : Option Store) (wants : List ℕ → Bool)
        → AreWantedSteady D.told o (as_seen_by by (seen_in (W.house actor.old))) wants info.now wanted.now
        → IfOk result (λ rows. Tells o (λ s. AreRows wants info.now wanted.now.listing.list s.tree rows.items)) }
    ensures damage { (o : Option Store) (wants : List ℕ → Bool) (others : List Due)
        → AreWantedSteady D.told o (as_seen_by by (seen_in (W.house actor.old))) wants info.now wanted.now
        → AreAsMany wanted.now.dues.items (dues_wanted wants others)
        → IfErr result (λ why. IsDamage why
        → Tells o (λ s. IsAmissOf wants info.now wanted.now.listing.list s.tree others)) }
    ensures short { IfErr result IsShortDamage }
{
    let listing = &wanted.listing;
    let list = &listing.list;
    let gone = deleted_counted(
        alloc,
        actor,
        by,
        info.table,
        list,
        &listing.deletes,
        wanted.counts_deletes,
        &wanted.dues,
    )?;
    let gone = rows_rising(gone)?;
    let rows = left_counted(
        alloc,
        actor,
        by,
        info,
        list,
        &listing.inserts,
        &gone,
        wanted.counts_rows,
        &wanted.dues,
    )?;
    Ok(once(alloc, rows)?)
}

/// The rows of a table's partitions that are wanted that its files show under the list that its write ids had at the place of the transaction's
/// snapshot: those of the bases and deltas that are chosen in each of them whose write id is valid, without those that a chosen delete delta
/// names with a valid deleter, by partition and identifier. The files are listed once, and those of these partitions are got one by one, each
/// by an act, so that others may act between. In a told house they are the rows that stood in these partitions there.
///
/// # Errors
/// `Damaged` where a file that is to be read doesn't stand, or isn't one of its kind, bucket and write ids, or where the files don't have as
/// many records as the commits say: never in a told house. Want of memory where the transaction has ended, too. Else what the house answered;
/// a failed call on files is marked as this transaction's.
pub fn read_rows<D: Shelf + Drop, W: Actor<D, ToldHouse<D>>, P: Wants>(
    alloc: Global,
    actor: &mut W,
    by: TxnId,
    place: u64,
    info: &TableInfo,
    wants: &P,
) -> Result<Vec<Found>, RowFault>
    requires keeps { W.keeps actor.old }
    requires running { IsOpenHouse (W.house actor.old) }
    requires reads { ReadsTable (trail_in (W.house actor.old)) by place info.now.table.0 }
    requires named { IsNamedThen (trail_in (W.house actor.old)) place info.now }
    ensures keeps { W.keeps actor.new }
    ensures looks { LooksOver (among D.told D.faults W.between W.meanwhile) by
        (known (W.own actor.old) (W.house actor.old)) (known (W.own actor.new) (W.house actor.new)) result }
    ensures rows { IsToldHouse D.told (W.house actor.old).house → IfOk result (λ rows.
        HasRowsThen (book_in (W.house actor.new)) place (P.picks wants.now) info.now rows.items) }
    ensures undamaged { IsToldHouse D.told (W.house actor.old).house → IfErr result (λ why. IsDamage why → ⊥) }
    ensures short { IfErr result IsShortDamage }
{
    let listing = list_table(alloc, actor, by, place, info)?;
    let dues = count_dues(alloc, actor, place, info.table)?;
    let wanted = narrowed(alloc, wants, listing, dues)?;
    read_listed(alloc, actor, by, info, &wanted)
}
