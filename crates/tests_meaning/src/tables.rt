//! The tables that the statements make, each with its rows.

use crate::show;
use hv_ast::Stmt;
use hv_base::{Duplicate, List, NoMemory, RowId, TableId, Text, WriteId};
use hv_logic::{Effect, Found, Meaning, Seen, Shape, TableInfo, compare_found};
use hv_names::names_in;
use hv_value::Row;
use std::alloc::Global;

#[derive(Drop)]
struct Table {
    info: TableInfo,
    rows: Vec<Found>,
    is_live: bool,
}

#[derive(Drop)]
pub(crate) struct Tables {
    tables: Vec<Table>,
    /// How many rows were inserted.
    count: u64,
}

fn found(alloc: Global, row: Row, number: u64) -> Result<Found, NoMemory> {
    Ok(Found {
        partition: Text::of(alloc, "")?,
        id: RowId {
            write: WriteId(1),
            statement: 0,
            bucket: 0,
            row: number,
        },
        row,
    })
}

fn seen(alloc: Global, table: &Table) -> Result<Seen, NoMemory> {
    let mut rows = Vec::new(alloc);
    for found in &table.rows {
        rows.push(found.duplicate(alloc)?)?;
    }
    Ok(Seen {
        info: table.info.duplicate(alloc)?,
        rows: List::from_vec(rows),
    })
}

fn is_among(found: &Found, rows: &[Found]) -> bool {
    for other in rows {
        if compare_found(found, other).is_eq() {
            return true;
        }
    }
    false
}

fn remove(rows: &mut Vec<Found>, gone: &[Found]) {
    rows.retain(|found| !is_among(found, gone));
}

impl Tables {
    pub(crate) fn new(alloc: Global) -> Tables {
        Tables {
            tables: Vec::new(alloc),
            count: 0,
        }
    }

    fn add_named(&self, alloc: Global, name: &Text, named: &mut Vec<Seen>) -> Result<(), NoMemory> {
        for table in &self.tables {
            if table.is_live && table.info.shape.name == *name {
                named.push(seen(alloc, table)?)?;
            }
        }
        Ok(())
    }

    /// The tables that the statement names.
    pub(crate) fn named_in(&self, alloc: Global, stmt: &Stmt) -> Result<Vec<Seen>, NoMemory> {
        let names = names_in(alloc, stmt)?;
        let mut named = Vec::new(alloc);
        for i in 0..names.len() {
            self.add_named(alloc, &names[i].name, &mut named)?;
        }
        Ok(named)
    }

    fn make(&mut self, alloc: Global, shape: Shape) -> Result<(), NoMemory> {
        let table = TableId(self.tables.len() as u64);
        let made = Table {
            info: TableInfo { table, shape },
            rows: Vec::new(alloc),
            is_live: true,
        };
        Ok(self.tables.push(made)?)
    }

    fn unmake(&mut self, place: usize) {
        if let Some(table) = self.tables.get_mut(place) {
            table.is_live = false;
        }
    }

    fn change(&mut self, alloc: Global, place: usize, effect: Effect) -> Result<(), NoMemory> {
        let Effect { inserts, deletes } = effect;
        if let Some(table) = self.tables.get_mut(place) {
            remove(&mut table.rows, deletes.as_slice());
            for row in inserts.into_vec() {
                self.count = self.count.saturating_add(1);
                table.rows.push(found(alloc, row, self.count)?)?;
            }
        }
        Ok(())
    }

    /// Prints what a statement came to, and makes it so.
    pub(crate) fn take(
        &mut self,
        alloc: Global,
        meaning: Meaning,
        out: &mut Vec<u8>,
    ) -> Result<(), NoMemory> {
        match meaning {
            Meaning::Refused(why) => show::refusal(alloc, why, out),
            Meaning::Plain => Ok(out.extend_from_slice(b"nothing")?),
            Meaning::Twice(..) => Ok(out.extend_from_slice(b"twice")?),
            Meaning::RowLimit => Ok(out.extend_from_slice(b"row limit")?),
            Meaning::PartitionLimit => Ok(out.extend_from_slice(b"partition limit")?),
            Meaning::Listing(names, rows) => {
                show::names(names.as_slice(), out)?;
                show::rows(rows.as_slice(), out)
            }
            Meaning::Change(info, effect) => {
                out.extend_from_slice(b"inserted")?;
                show::rows(effect.inserts.as_slice(), out)?;
                show::deletes(effect.deletes.as_slice(), out)?;
                self.change(alloc, info.table.0 as usize, effect)
            }
            Meaning::Make(shape) => {
                out.extend_from_slice(b"made")?;
                self.make(alloc, shape)
            }
            Meaning::Ask(_, partition, kind) => show::asked(alloc, &partition, kind, out),
            Meaning::Unmake(table) => {
                self.unmake(table.0 as usize);
                Ok(out.extend_from_slice(b"dropped")?)
            }
        }
    }
}
