ghost use Rattle.std.specs.Prelude.{◌≡◌, ◌+◌, ◌<◌, ◌≤◌, ◌++◌, ◌∷◌, [], vec_len, vec_capacity};

use crate::notes::PlacedId;
use hv_base::NoMemory;
use hv_links::Links;
use std::alloc::Global;
use std::marker::Model;

/// Write ids that stay, in the order in which they came, with the way from each to the one of its table
/// before it. They are numbered from 1. Contracts see them, how many tables there are, and how many ids and
/// tables more fit without asking for memory.
#[derive(Drop)]
pub struct PlacedIds {
    ids: Vec<PlacedId>,
    links: Links,
    room: usize,
}

impl Model for PlacedIds {
    ghost use Rattle.hv_ids.specs.Ids.{Placed, ArePlaced};

    ghost Value = { Placed };

    ghost view = { λ placed. record {
      ids = placed.ids.items;
      tables = placed.links.count;
      room = placed.room;
      table_room = placed.links.group_room;
    } };

    ghost invariant = { λ placed. ArePlaced placed.ids placed.links placed.room };
}

/// Appends to a vector that has room.
fn append(items: &mut Vec<PlacedId>, item: PlacedId)
    requires room { vec_len items.old < vec_capacity items.old }
    ensures items { items.new.items ≡ items.old.items ++ item ∷ [] }
    ensures len { vec_len items.new ≡ vec_len items.old + 1 }
    ensures capacity { vec_capacity items.old ≤ vec_capacity items.new }
{
    items.push(item).unwrap();
}

impl PlacedIds {
    ghost use Rattle.std.specs.Prelude.{◌≡◌, ◌+◌, ◌-◌, ◌<◌, ◌≤◌, ◌++◌, ◌∷◌, [], length, map, OnOk, slice_index_or};
    ghost use Rattle.hv_links.specs.Links.{last_of, before_of};
    ghost use Rattle.hv_ids.specs.Ids.{table_of};

    /// No ids, of no table. It takes no memory.
    pub fn new(alloc: Global) -> PlacedIds
        ensures ids { result.ids ≡ [] }
        ensures tables { result.tables ≡ 0 }
        ensures room { result.room ≡ 0 }
    {
        PlacedIds {
            ids: Vec::new(alloc),
            links: Links::new(alloc),
            room: 0,
        }
    }

    /// Makes room for so many ids and tables more.
    pub fn reserve(&mut self, ids: usize, tables: usize) -> Result<(), NoMemory>
        ensures ids { self.new.ids ≡ self.old.ids }
        ensures tables { self.new.tables ≡ self.old.tables }
        ensures room { self.old.room ≤ self.new.room }
        ensures table_room { self.old.table_room ≤ self.new.table_room }
        ensures enough { OnOk result (ids ≤ self.new.room) }
        ensures enough_tables { OnOk result (tables ≤ self.new.table_room) }
    {
        self.ids.reserve(ids)?;
        self.links.reserve(ids, tables)?;
        if ids > self.room {
            self.room = ids;
        }
        Ok(())
    }

    /// Makes the next table, of no ids yet.
    pub fn add_table(&mut self)
        requires room { 0 < self.old.table_room }
        ensures ids { self.new.ids ≡ self.old.ids }
        ensures tables { self.new.tables ≡ self.old.tables + 1 }
        ensures room { self.new.room ≡ self.old.room }
        ensures table_room { self.old.table_room ≤ self.new.table_room + 1 }
    {
        self.links.add_group();
    }

    /// Puts an id behind the others.
    pub fn add(&mut self, placed: PlacedId)
        requires some { 0 < placed.id.table }
        requires there { placed.id.table ≤ self.old.tables }
        requires room { 0 < self.old.room }
        ensures ids { self.new.ids ≡ self.old.ids ++ placed ∷ [] }
        ensures tables { self.new.tables ≡ self.old.tables }
        ensures room { self.new.room + 1 ≡ self.old.room }
        ensures table_room { self.new.table_room ≡ self.old.table_room }
    {
        self.links.add(placed.id.table);
        append(&mut self.ids, placed);
        self.room -= 1;
    }

    /// The one of this number.
    pub fn numbered(&self, number: u64) -> PlacedId
        requires some { 0 < number }
        requires there { number ≤ length self.now.ids }
        ensures id { result ≡ slice_index_or self.now.ids (number - 1) result }
    {
        self.ids[number as usize - 1]
    }

    /// The number of the last id of this table, 0 where there is none.
    pub fn last(&self, table: u64) -> u64
        ensures last { result ≡ last_of table (map table_of self.now.ids) }
        ensures bound { result ≤ length self.now.ids }
    {
        self.links.last(table)
    }

    /// The number of the id before this one that is of its table, 0 where there is none.
    pub fn before(&self, number: u64) -> u64
        ensures before { result ≡ before_of number (map table_of self.now.ids) }
        ensures less { 0 < number → result < number }
    {
        self.links.before(number)
    }
}
