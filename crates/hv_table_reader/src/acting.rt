//! The acts by which a table and the book are read, one by one, each with the fact that it leaves.

ghost use Rattle.std.specs.Prelude.{◌≡◌, Option, IfOk, IfErr};
ghost use Rattle.std.specs.FinMap as tree;
ghost use Rattle.hv_base.specs.Told.{Tells};
ghost use Rattle.hv_base.specs.declared.ids.TxnId.{TxnId};
ghost use Rattle.hv_shelf.specs.Disk.{Store};
ghost use Rattle.hv_history.specs.Shown.{show_listed};
ghost use Rattle.hv_acts.specs.hv_telling.specs.Telling.{IsToldHouse};
ghost use Rattle.hv_law_dues.specs.hv_counts.specs.Counts.{dues_in};
ghost use Rattle.hv_acts.specs.hv_telling.specs.hv_house.specs.declared.fault.HouseFault.{HouseFault};
ghost use Rattle.hv_table_reader.specs.declared.fault.RowFault.TheVariants as row_fault;
ghost use Rattle.hv_acts.specs.declared.fault.ActFault.TheVariants as act_fault;
ghost use Rattle.hv_acts.specs.Told.{seen_in, trail_in};
ghost use Rattle.hv_acts.specs.Counting.{AreAsMany};
ghost use Rattle.hv_acts.specs.Going.{IsOpenHouse};
ghost use Rattle.hv_acts.specs.Reading.{HasPlace, HasFittingBook, ReadsTable, info_then, state_then};
ghost use Rattle.hv_acts.specs.Reading as acts;
ghost use Rattle.hv_table_reader.specs.Tables.{LooksOver, IsOfHouse, IsListFault, fault_of, missed_as};
ghost use Rattle.hv_table_reader.specs.Steady.{IsSteady, bytes_got, IsNamedThen, IsListing};
ghost use Rattle.hv_actor.specs.Acting.{among, known};

use crate::fault::RowFault;
use hv_actor::Actor;
use hv_acts::hv_telling::hv_house::{GetFault, HouseFault, Listing};
use hv_acts::{ActFault, CountDues, FindTable, GetFile, ListTable, ShowBook, ToldHouse};
use hv_ast::Show;
use hv_base::{TableId, Text, TxnId};
use hv_history::Shown;
use hv_law_dues::hv_counts::Due;
use hv_logic::TableInfo;
use hv_shelf::{Place, Shelf};
use std::alloc::Global;

/// What the house answered to an act that makes no test.
fn of_house(why: ActFault) -> RowFault
    requires house { acts.IsOfHouse why }
    ensures fault { (fault : HouseFault) × (why ≡ act_fault.House fault) × (result ≡ row_fault.House fault) }
{
    match why {
        ActFault::House(fault) => RowFault::House(fault),
        ActFault::Ended { .. }
        | ActFault::Full { .. }
        | ActFault::Held { .. }
        | ActFault::Broken { .. }
        | ActFault::Unfit => unreachable!(),
    }
}

/// What the house answered to an act that lists. For a transaction that has ended nothing more is read, and its abort tells why: here that
/// counts as want of memory.
fn of_listing(why: ActFault) -> RowFault
    requires lists { IsListFault why }
    ensures fault { result ≡ row_fault.House (fault_of why) }
{
    match why {
        ActFault::House(fault) => RowFault::House(fault),
        ActFault::Ended { .. } => RowFault::House(HouseFault::NoMemory),
        ActFault::Full { .. } | ActFault::Held { .. } | ActFault::Broken { .. } | ActFault::Unfit =>
            unreachable!(),
    }
}

/// What the house answered to an act that got no file: that nothing stands there, or why. For a transaction that has ended it counts as want
/// of memory, as of one that lists.
fn not_got(why: GetFault) -> Result<Option<Vec<u8>>, RowFault>
    ensures missed { result ≡ missed_as why }
    ensures house { IfErr result IsOfHouse }
{
    match why {
        GetFault::NotOpen { .. } => Err(RowFault::House(HouseFault::NoMemory)),
        GetFault::NotFound => Ok(None),
        GetFault::House(fault) => Err(RowFault::House(fault)),
    }
}

/// Finds the table of a name as it stood at a place of the book.
pub fn find_table<D: Shelf + Drop, W: Actor<D, ToldHouse<D>>>(
    alloc: Global,
    actor: &mut W,
    place: u64,
    name: &Text,
) -> Result<Option<TableInfo>, RowFault>
    requires keeps { W.keeps actor.old }
    requires running { IsOpenHouse (W.house actor.old) }
    requires place { HasPlace (trail_in (W.house actor.old)) place }
    ensures keeps { W.keeps actor.new }
    ensures looks { (by : TxnId) → LooksOver (among D.told D.faults W.between W.meanwhile) by
        (known (W.own actor.old) (W.house actor.old)) (known (W.own actor.new) (W.house actor.new)) result }
    ensures house { IfErr result IsOfHouse }
    ensures book { IfOk result (λ found. HasFittingBook (trail_in (W.house actor.new))) }
    ensures found { IfOk result (λ found. found ≡ info_then (trail_in (W.house actor.new)) place name.now) }
{
    match actor.hold(alloc, FindTable { place, name }) {
        Ok(found) => Ok(found),
        Err(why) => Err(of_house(why)),
    }
}

/// Lists, for a transaction, the files of a table that are taken under the list that it had at the place of the transaction's snapshot.
pub fn list_table<D: Shelf + Drop, W: Actor<D, ToldHouse<D>>>(
    alloc: Global,
    actor: &mut W,
    by: TxnId,
    place: u64,
    info: &TableInfo,
) -> Result<Listing, RowFault>
    requires keeps { W.keeps actor.old }
    requires running { IsOpenHouse (W.house actor.old) }
    requires reads { ReadsTable (trail_in (W.house actor.old)) by place info.now.table.0 }
    requires named { IsNamedThen (trail_in (W.house actor.old)) place info.now }
    ensures keeps { W.keeps actor.new }
    ensures looks { LooksOver (among D.told D.faults W.between W.meanwhile) by
        (known (W.own actor.old) (W.house actor.old)) (known (W.own actor.new) (W.house actor.new)) result }
    ensures house { IfErr result IsOfHouse }
    ensures listed { IsToldHouse D.told (W.house actor.old).house
        → IfOk result (IsListing D.told (W.house actor.new) by place info.now) }
{
    let table = info.table;
    match actor.hold(alloc, ListTable { by, place, table }) {
        Ok(listing) => Ok(listing),
        Err(why) => Err(of_listing(why)),
    }
}

/// Asks what the commits of a table say before a place of the book.
pub fn count_dues<D: Shelf + Drop, W: Actor<D, ToldHouse<D>>>(
    alloc: Global,
    actor: &mut W,
    place: u64,
    table: TableId,
) -> Result<Vec<Due>, RowFault>
    requires keeps { W.keeps actor.old }
    requires running { IsOpenHouse (W.house actor.old) }
    requires place { HasPlace (trail_in (W.house actor.old)) place }
    ensures keeps { W.keeps actor.new }
    ensures looks { (by : TxnId) → LooksOver (among D.told D.faults W.between W.meanwhile) by
        (known (W.own actor.old) (W.house actor.old)) (known (W.own actor.new) (W.house actor.new)) result }
    ensures house { IfErr result IsOfHouse }
    ensures dues { IfOk result (λ dues. AreAsMany dues.items
        (dues_in (state_then (trail_in (W.house actor.new)) place) table.0)) }
{
    match actor.hold(alloc, CountDues { place, table }) {
        Ok(dues) => Ok(dues),
        Err(why) => Err(of_house(why)),
    }
}

/// Asks what a SHOW lists of the book as it was at a place.
pub fn show_book<D: Shelf + Drop, W: Actor<D, ToldHouse<D>>>(
    alloc: Global,
    actor: &mut W,
    place: u64,
    what: &Show,
) -> Result<Option<Shown>, RowFault>
    requires keeps { W.keeps actor.old }
    requires running { IsOpenHouse (W.house actor.old) }
    requires place { HasPlace (trail_in (W.house actor.old)) place }
    ensures keeps { W.keeps actor.new }
    ensures looks { (by : TxnId) → LooksOver (among D.told D.faults W.between W.meanwhile) by
        (known (W.own actor.old) (W.house actor.old)) (known (W.own actor.new) (W.house actor.new)) result }
    ensures house { IfErr result IsOfHouse }
    ensures shown { IfOk result (λ shown. shown ≡ show_listed (state_then (trail_in (W.house actor.new)) place)
        what.now) }
{
    match actor.hold(alloc, ShowBook { place, what }) {
        Ok(shown) => Ok(shown),
        Err(why) => Err(of_house(why)),
    }
}

/// Gets, for a transaction, the bytes of the file at a place; None where nothing stands there.
pub fn get_file<D: Shelf + Drop, W: Actor<D, ToldHouse<D>>>(
    alloc: Global,
    actor: &mut W,
    by: TxnId,
    place: &Place,
) -> Result<Option<Vec<u8>>, RowFault>
    requires keeps { W.keeps actor.old }
    requires running { IsOpenHouse (W.house actor.old) }
    ensures keeps { W.keeps actor.new }
    ensures looks { LooksOver (among D.told D.faults W.between W.meanwhile) by
        (known (W.own actor.old) (W.house actor.old)) (known (W.own actor.new) (W.house actor.new)) result }
    ensures house { IfErr result IsOfHouse }
    ensures got { (o : Option Store) → IsSteady D.told o by (seen_in (W.house actor.old)) place.now
        → IfOk result (λ found. Tells o (λ s. tree.get s.tree place.now ≡ bytes_got found)) }
{
    match actor.hold(alloc, GetFile { by, place }) {
        Ok(bytes) => Ok(Some(bytes)),
        Err(why) => not_got(why),
    }
}
