//! The tables that the statements make, each with its rows.

use hv_analysis::analyse;
use hv_ast::Stmt;
use hv_base::{Boxed, Duplicate, List, NoMemory, RowId, TableId, Text, WriteId};
use hv_eval::eval;
use hv_expr::TypedExpr;
use hv_logic::{Found, Shape, TableInfo, TableRows};
use hv_reading::read_text;
use hv_typing::{Logic, Origin, TypeFault, TypedChange, TypedQuery};
use hv_value::Row;
use std::alloc::Global;

#[derive(Drop)]
pub(crate) struct Tables {
    infos: Vec<TableInfo>,
    rows: Vec<Vec<Row>>,
}

fn tree(alloc: Global, line: &str) -> Result<Option<Boxed<Stmt>>, NoMemory> {
    let text = Text::of(alloc, line)?;
    match read_text(alloc, &text) {
        Err(_) => Ok(None),
        Ok(stmt) => Ok(Some(Boxed::new(alloc, stmt)?)),
    }
}

fn analysed(
    alloc: Global,
    stmt: &Stmt,
    infos: &[TableInfo],
) -> Result<Option<Boxed<Logic>>, NoMemory> {
    match analyse(alloc, infos, stmt) {
        Ok(logic) => Ok(Some(Boxed::new(alloc, logic)?)),
        Err(TypeFault::NoMemory) => Err(NoMemory),
        Err(TypeFault::Refused(_)) => Ok(None),
    }
}

fn evaluated(alloc: Global, exprs: &List<TypedExpr>, row: &Row) -> Result<Row, NoMemory> {
    let mut values = Vec::new(alloc);
    for expr in exprs.as_slice() {
        values.push(eval(alloc, expr, row)?)?;
    }
    Ok(Row {
        values: List::from_vec(values),
    })
}

fn found(alloc: Global, row: &Row, number: usize) -> Result<Found, NoMemory> {
    Ok(Found {
        partition: Text::of(alloc, "")?,
        id: RowId {
            write: WriteId(1),
            statement: 0,
            bucket: 0,
            row: number as u64,
        },
        row: row.duplicate(alloc)?,
    })
}

fn founds(alloc: Global, rows: &[Row]) -> Result<List<Found>, NoMemory> {
    let mut founds = Vec::new(alloc);
    for (number, row) in rows.iter().enumerate() {
        founds.push(found(alloc, row, number)?)?;
    }
    Ok(List::from_vec(founds))
}

impl Tables {
    pub(crate) fn new(alloc: Global) -> Tables {
        Tables {
            infos: Vec::new(alloc),
            rows: Vec::new(alloc),
        }
    }

    /// The place of the table of that name.
    pub(crate) fn place(&self, name: &str) -> Option<usize> {
        self.infos
            .iter()
            .position(|info| info.shape.name.as_str() == name)
    }

    /// Its columns, and its partition columns.
    pub(crate) fn widths(&self, place: usize) -> (usize, usize) {
        match self.infos.get(place) {
            None => (0, 0),
            Some(info) => (info.shape.columns.len(), info.shape.parts.len()),
        }
    }

    pub(crate) fn rows(&self, place: usize) -> &[Row] {
        match self.rows.get(place) {
            None => &[],
            Some(rows) => rows.as_slice(),
        }
    }

    /// All tables as a query is run over them.
    pub(crate) fn stored(&self, alloc: Global) -> Result<Vec<TableRows>, NoMemory> {
        let mut stored = Vec::new(alloc);
        for (place, rows) in self.rows.iter().enumerate() {
            stored.push(TableRows {
                table: TableId(place as u64),
                rows: founds(alloc, rows.as_slice())?,
            })?;
        }
        Ok(stored)
    }

    /// What the text says as a statement, if it is one.
    pub(crate) fn logic(
        &self,
        alloc: Global,
        text: &str,
    ) -> Result<Option<Boxed<Logic>>, NoMemory> {
        match tree(alloc, text)? {
            None => Ok(None),
            Some(stmt) => analysed(alloc, stmt.get(), self.infos.as_slice()),
        }
    }

    pub(crate) fn query(
        &self,
        alloc: Global,
        text: &str,
    ) -> Result<Option<Boxed<TypedQuery>>, NoMemory> {
        match self.logic(alloc, text)? {
            None => Ok(None),
            Some(logic) => query_in(alloc, logic),
        }
    }

    fn make(&mut self, alloc: Global, shape: Shape) -> Result<(), NoMemory> {
        let table = TableId(self.infos.len() as u64);
        self.infos.push(TableInfo { table, shape })?;
        Ok(self.rows.push(Vec::new(alloc))?)
    }

    fn insert(&mut self, alloc: Global, change: &TypedChange) -> Result<(), NoMemory> {
        let Origin::Values(rows) = &change.origin else {
            return Ok(());
        };
        let none = Row {
            values: List::empty(alloc),
        };
        for exprs in rows.as_slice() {
            let frame = evaluated(alloc, exprs, &none)?;
            let row = evaluated(alloc, &change.values, &frame)?;
            if let Some(rows) = self.rows.get_mut(change.table as usize) {
                rows.push(row)?;
            }
        }
        Ok(())
    }

    fn act(&mut self, alloc: Global, logic: Boxed<Logic>) -> Result<&'static str, NoMemory> {
        match logic.into_inner() {
            Logic::Make(shape) => {
                self.make(alloc, shape)?;
                Ok("made")
            }
            Logic::Change(change) => {
                self.insert(alloc, &change)?;
                Ok("inserted")
            }
            _ => Ok("nothing"),
        }
    }

    /// Makes a table, or puts rows of VALUES into one.
    pub(crate) fn run(
        &mut self,
        alloc: Global,
        text: &str,
        out: &mut Vec<u8>,
    ) -> Result<(), NoMemory> {
        let done = match self.logic(alloc, text)? {
            None => "no statement",
            Some(logic) => self.act(alloc, logic)?,
        };
        Ok(out.extend_from_slice(done.as_bytes())?)
    }
}

fn query_in(alloc: Global, logic: Boxed<Logic>) -> Result<Option<Boxed<TypedQuery>>, NoMemory> {
    match logic.into_inner() {
        Logic::Query(query) => Ok(Some(Boxed::new(alloc, query)?)),
        _ => Ok(None),
    }
}
