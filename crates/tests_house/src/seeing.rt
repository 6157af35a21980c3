//! The rows of a table as they stood where a transaction started, read act by act over a copy of the store.

ghost use Rattle.std.specs.Prelude.{◌≤◌};
ghost use Rattle.hv_stands.specs.Running.{Asking};
ghost use Rattle.hv_session.specs.hv_beginning.specs.hv_steps.specs.hv_table_reader.specs.hv_acts.specs.Told.{trail_in};
ghost use Rattle.hv_session.specs.hv_beginning.specs.hv_steps.specs.hv_table_reader.specs.hv_acts.specs.Going.{IsOpenHouse};
ghost use Rattle.hv_session.specs.hv_beginning.specs.hv_steps.specs.hv_table_reader.specs.hv_acts.specs.Reading.{HasReader};
ghost use Rattle.hv_session.specs.hv_beginning.specs.hv_steps.specs.Going.{WasOnWay};
ghost use Rattle.hv_session.specs.Doing.{CanFinish, CanFinishTaken};

use crate::acting::{asking, take_one};
use crate::house::{close, leave, open_told};
use crate::stores::copied_front;
use crate::words::{add, cut, number};
use hv_actor::Actor;
use hv_ast::{Stmt, discard};
use hv_base::{NoMemory, Stage, Text};
use hv_history::FilePlace;
use hv_logic::Found;
use hv_meta::note_of;
use hv_names::names_in;
use hv_session::hv_beginning::hv_steps::Way;
use hv_session::hv_beginning::hv_steps::hv_table_reader::hv_acts::ToldHouse;
use hv_session::hv_beginning::hv_steps::hv_table_reader::hv_acts::hv_telling::hv_house::{
    House, HouseFault,
};
use hv_session::hv_beginning::hv_steps::hv_table_reader::{RowFault, Wants, find_table, read_rows};
use hv_session::{Paused, Point, Taken};
use hv_shelf::{MemoryShelf, Shelf};
use hv_value::Value;
use std::alloc::Global;
use std::io;
use std::io::ErrorKind;

/// A row: its partition, its identifier and its number.
fn add_row(alloc: Global, said: &mut String, found: &Found) -> io::Result<()> {
    let number = match found.row.values.as_slice() {
        [Value::Int(number), ..] => *number,
        _ => 0,
    };
    let (partition, id) = (&found.partition, found.id);
    let text = format!(in alloc;
        "{partition} {}.{}.{}.{}={number}",
        id.write.0, id.statement, id.bucket, id.row
    )?;
    add(said, text.as_str())
}

/// Rows, with commas between.
fn add_rows(alloc: Global, said: &mut String, rows: &[Found]) -> io::Result<()> {
    if rows.is_empty() {
        return add(said, "no row");
    }
    let mut mark = "";
    for found in rows {
        add(said, mark)?;
        add_row(alloc, said, found)?;
        mark = ", ";
    }
    Ok(())
}

/// Which file is damaged, and at what offset.
fn add_damage(alloc: Global, said: &mut String, at: &FilePlace) -> io::Result<()> {
    let (offset, partition) = (at.at, &at.partition);
    let text = format!(in alloc;
        "damaged at {offset} of {partition} {} {}",
        at.dir, at.bucket
    )?;
    add(said, text.as_str())
}

/// What was seen.
fn add_seen(
    alloc: Global,
    said: &mut String,
    found: &Result<Option<Vec<Found>>, RowFault>,
) -> io::Result<()> {
    match found {
        Ok(Some(rows)) => add_rows(alloc, said, rows.as_slice()),
        Ok(None) => add(said, "no table"),
        Err(RowFault::Damaged(at)) => add_damage(alloc, said, at),
        Err(RowFault::House(_)) => Err(ErrorKind::Other.into()),
    }
}

/// Every partition is wanted.
#[derive(Drop)]
struct Everything;

impl Wants for Everything {
    ghost use Rattle.std.specs.Prelude.{true};

    ghost picks = { λ every partition. true };

    fn wants(&self, _alloc: Global, _partition: &Text) -> Result<bool, NoMemory> {
        Ok(true)
    }
}

/// The rows of the table of a name that a statement locks, as they stood at the place of its Start.
fn rows_of<D: Shelf + Drop, W: Actor<D, ToldHouse<D>>>(
    alloc: Global,
    actor: &mut W,
    way: Way,
    name: &Text,
) -> Result<Option<Vec<Found>>, RowFault>
    requires keeps { W.keeps actor.old }
    requires running { IsOpenHouse (W.house actor.old) }
    requires reader { HasReader (trail_in (W.house actor.old)) way.txn way.place name.now }
{
    match find_table(alloc, actor, way.place, name)? {
        Some(info) => {
            let rows = read_rows(alloc, actor, way.txn, way.place, &info, &Everything)?;
            Ok(Some(rows))
        }
        None => Ok(None),
    }
}

/// What a statement on its way sees of the first table that it names.
fn first_seen<D: Shelf + Drop, W: Actor<D, ToldHouse<D>>>(
    alloc: Global,
    actor: &mut W,
    way: Way,
    tree: &Stmt,
) -> Result<Option<Vec<Found>>, RowFault>
    requires keeps { W.keeps actor.old }
    requires running { IsOpenHouse (W.house actor.old) }
    requires was { (asking : Asking) × WasOnWay (trail_in (W.house actor.old)) asking way tree.now }
{
    let names = names_in(alloc, tree)?;
    match names.first() {
        Some(lock) => rows_of(alloc, actor, way, &lock.name),
        None => Ok(None),
    }
}

/// What a statement that is held at its Start sees of it.
fn seen_held<D: Shelf + Drop, W: Actor<D, ToldHouse<D>>>(
    alloc: Global,
    actor: &mut W,
    paused: Paused,
) -> Result<Option<Vec<Found>>, RowFault>
    requires keeps { W.keeps actor.old }
    requires running { IsOpenHouse (W.house actor.old) }
    requires can { CanFinish D.told (W.house actor.old) paused }
{
    let Paused { way, tree, point } = paused;
    match point {
        Point::Started => {
            let found = first_seen(alloc, actor, way, &tree);
            discard(tree);
            found
        }
        Point::Meant(meaning) => {
            leave(meaning);
            discard(tree);
            Err(RowFault::House(HouseFault::NoMemory))
        }
        Point::Ready(ready) => {
            leave(ready);
            discard(tree);
            Err(RowFault::House(HouseFault::NoMemory))
        }
    }
}

/// What a statement sees of it that was taken up, where it is held.
fn seen_taken<D: Shelf + Drop, W: Actor<D, ToldHouse<D>>>(
    alloc: Global,
    actor: &mut W,
    taken: Taken,
) -> Result<Option<Vec<Found>>, RowFault>
    requires keeps { W.keeps actor.old }
    requires running { IsOpenHouse (W.house actor.old) }
    requires can { CanFinishTaken D.told (W.house actor.old) taken }
{
    match taken {
        Taken::Kept(paused) => seen_held(alloc, actor, paused),
        Taken::Replied(reply) => {
            leave(reply);
            Err(RowFault::House(HouseFault::NoMemory))
        }
    }
}

/// What the query of this text sees that is held at its Start.
fn seen_by<D: Shelf + Drop, W: Actor<D, ToldHouse<D>>>(
    alloc: Global,
    actor: &mut W,
    text: &str,
) -> Result<Option<Vec<Found>>, RowFault>
    requires keeps { W.keeps actor.old }
    requires both { 2 ≤ W.most }
    requires running { IsOpenHouse (W.house actor.old) }
{
    let Some(asking) = asking(alloc, "reader", text, Some(Stage::Start)) else {
        return Err(RowFault::House(HouseFault::NoMemory));
    };
    match take_one(alloc, actor, asking) {
        Ok(taken) => seen_taken(alloc, actor, taken),
        Err(why) => Err(RowFault::House(why)),
    }
}

/// The rows that the query of this text sees over a store.
fn see_at(alloc: Global, said: &mut String, store: MemoryShelf, text: &str) -> io::Result<()> {
    let mut house = open_told(alloc, store)?;
    let found = seen_by(alloc, &mut house, text);
    close(house);
    let done = add_seen(alloc, said, &found);
    leave(found);
    done
}

/// The rows of a table as they stood where a transaction started: `TXN NAME`. A query sees them over a copy of the house's store whose
/// journal ends before that Start, opened by itself, so that the house goes on as it is.
pub(crate) fn see(
    alloc: Global,
    said: &mut String,
    house: &House<MemoryShelf>,
    words: &str,
) -> io::Result<()> {
    let (txn, name) = cut(words, ' ');
    let place = match note_of(house.book(), number(txn)) {
        Some(note) => note.started,
        None => None,
    };
    let Some(place) = place else {
        return add(said, "refused");
    };
    let text = format!(in alloc; "SELECT * FROM {name}")?;
    let store = copied_front(alloc, house.shelf(), place)?;
    see_at(alloc, said, store, text.as_str())
}
