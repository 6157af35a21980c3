//! The tables that the statements make, each with its rows.

use crate::plan::{plan, values};
use crate::show;
use crate::workers::are_same;
use hv_base::{Boxed, List, NoMemory, TableId};
use hv_eval::eval;
use hv_expr::TypedExpr;
use hv_logic::{Shape, TableInfo};
use hv_typing::{
    Deletes, Logic, MatchedAction, Origin, TypedChange, TypedClauses, TypedFrom, TypedQuery,
    TypedSource,
};
use hv_value::{Row, Value};
use std::alloc::Global;
use std::thread::Threads;

#[derive(Drop)]
pub(crate) struct Tables {
    infos: Vec<TableInfo>,
    rows: Vec<Vec<Row>>,
    /// How many tables were made.
    count: u64,
    /// How many queries have the same rows by several workers.
    same: u64,
}

fn evaluated(alloc: Global, exprs: &List<TypedExpr>, row: &Row) -> Result<Row, NoMemory> {
    let mut values = Vec::new(alloc);
    for expr in exprs.as_slice() {
        values.push(eval(alloc, expr, row)?)?;
    }
    Ok(Row {
        values: List::from_vec(values),
    })
}

fn is_kept(alloc: Global, filter: &Option<Boxed<TypedExpr>>, row: &Row) -> Result<bool, NoMemory> {
    match filter {
        None => Ok(true),
        Some(filter) => {
            let value = eval(alloc, filter.get(), row)?;
            Ok(matches!(&value, Value::Bool(true)))
        }
    }
}

fn is_plain_from(from: &Option<TypedFrom>) -> bool {
    match from {
        None => true,
        Some(from) => {
            matches!(&from.source, TypedSource::Table(_))
                && from.joins.is_empty()
                && from.laterals.is_empty()
        }
    }
}

/// Whether its rows are listed: of at most one table, without groups, unions and keys.
fn is_plain(query: &TypedQuery) -> bool {
    is_plain_from(&query.select.from)
        && query.select.groups.is_none()
        && query.unions.is_empty()
        && query.order.is_empty()
}

/// Which rows go: none, all, those of a WHERE, those of the partitions that get a row.
fn deleted(deletes: &Deletes) -> &'static str {
    match deletes {
        Deletes::Nothing => "",
        Deletes::Matching(None) => "all, ",
        Deletes::Matching(Some(_)) => "where, ",
        Deletes::Received => "partitions, ",
    }
}

fn matched(alloc: Global, action: &MatchedAction, out: &mut Vec<u8>) -> Result<(), NoMemory> {
    match action {
        MatchedAction::Delete => Ok(out.extend_from_slice(b" delete")?),
        MatchedAction::Update(exprs) => {
            out.extend_from_slice(b" update:")?;
            values(alloc, exprs.as_slice(), out)
        }
    }
}

/// The clauses of a MERGE.
fn merged(alloc: Global, clauses: &TypedClauses, out: &mut Vec<u8>) -> Result<(), NoMemory> {
    out.extend_from_slice(b"merged")?;
    for clause in clauses.matched.as_slice() {
        matched(alloc, &clause.action, out)?;
    }
    match &clauses.newcomers {
        None => Ok(()),
        Some(newcomers) => {
            out.extend_from_slice(b" insert:")?;
            values(alloc, newcomers.values.as_slice(), out)
        }
    }
}

impl Tables {
    pub(crate) fn new(alloc: Global) -> Tables {
        Tables {
            infos: Vec::new(alloc),
            rows: Vec::new(alloc),
            count: 0,
            same: 0,
        }
    }

    pub(crate) fn same(&self) -> u64 {
        self.same
    }

    pub(crate) fn infos(&self) -> &[TableInfo] {
        &self.infos
    }

    fn make(&mut self, alloc: Global, shape: Shape) -> Result<(), NoMemory> {
        self.count = self.count.saturating_add(1);
        let table = TableId(self.count);
        self.infos.push(TableInfo { table, shape })?;
        Ok(self.rows.push(Vec::new(alloc))?)
    }

    fn unmake(&mut self, table: TableId) {
        if let Some(place) = self.infos.iter().position(|info| info.table == table) {
            if place < self.infos.len() && place < self.rows.len() {
                self.infos.remove(place);
                self.rows.remove(place);
            }
        }
    }

    /// Rows of VALUES.
    fn insert(
        &mut self,
        alloc: Global,
        change: &TypedChange,
        rows: &[List<TypedExpr>],
        out: &mut Vec<u8>,
    ) -> Result<(), NoMemory> {
        out.extend_from_slice(b"inserted")?;
        let none = Row {
            values: List::empty(alloc),
        };
        for exprs in rows {
            let frame = evaluated(alloc, exprs, &none)?;
            let row = evaluated(alloc, &change.values, &frame)?;
            show::row(&row, out)?;
            if let Some(rows) = self.rows.get_mut(change.table as usize) {
                rows.push(row)?;
            }
        }
        Ok(())
    }

    fn change(
        &mut self,
        alloc: Global,
        change: &TypedChange,
        out: &mut Vec<u8>,
    ) -> Result<(), NoMemory> {
        out.extend_from_slice(deleted(&change.deletes).as_bytes())?;
        match &change.origin {
            Origin::Values(rows) => self.insert(alloc, change, rows.as_slice(), out),
            Origin::Query(_) => {
                out.extend_from_slice(b"selected:")?;
                values(alloc, change.values.as_slice(), out)
            }
            Origin::Deleted => {
                out.extend_from_slice(b"updated:")?;
                values(alloc, change.values.as_slice(), out)
            }
        }
    }

    /// Each row for which the condition is true, by its items.
    fn list(
        &self,
        alloc: Global,
        query: &TypedQuery,
        rows: &[Row],
        out: &mut Vec<u8>,
    ) -> Result<(), NoMemory> {
        show::outputs(&query.columns, out)?;
        for row in rows {
            if is_kept(alloc, &query.select.filter, row)? {
                show::row(&evaluated(alloc, &query.select.items, row)?, out)?;
            }
        }
        Ok(())
    }

    fn query(&self, alloc: Global, query: &TypedQuery, out: &mut Vec<u8>) -> Result<(), NoMemory> {
        if !is_plain(query) {
            show::outputs(&query.columns, out)?;
            return plan(query, alloc, out);
        }
        match &query.select.from {
            None => {
                let none = Row {
                    values: List::empty(alloc),
                };
                self.list(alloc, query, &[none], out)
            }
            Some(from) => match &from.source {
                TypedSource::Table(place) => match self.rows.get(*place as usize) {
                    Some(rows) => self.list(alloc, query, rows, out),
                    None => Ok(()),
                },
                TypedSource::Query(_) => Ok(()),
            },
        }
    }

    // Says where several workers make other rows.
    fn by_workers<R: Threads + Sync>(
        &mut self,
        rt: &R,
        alloc: Global,
        query: &TypedQuery,
        out: &mut Vec<u8>,
    ) -> Result<(), NoMemory> {
        if are_same(rt, alloc, query, &self.infos)? {
            self.same = self.same.saturating_add(1);
            return Ok(());
        }
        Ok(out.extend_from_slice(b" other rows by several workers")?)
    }

    pub(crate) fn run<R: Threads + Sync>(
        &mut self,
        rt: &R,
        alloc: Global,
        logic: Boxed<Logic>,
        out: &mut Vec<u8>,
    ) -> Result<(), NoMemory> {
        match logic.into_inner() {
            Logic::Nothing => Ok(out.extend_from_slice(b"nothing")?),
            Logic::Describe(columns) => show::described(columns.as_slice(), out),
            Logic::Make(shape) => {
                show::shape(alloc, &shape, out)?;
                self.make(alloc, shape)
            }
            Logic::Unmake(table) => {
                self.unmake(table);
                Ok(out.extend_from_slice(b"dropped")?)
            }
            Logic::Ask(_) => Ok(out.extend_from_slice(b"asks")?),
            Logic::Change(change) => self.change(alloc, &change, out),
            Logic::Merge(merge) => merged(alloc, &merge.clauses, out),
            Logic::Query(query) => {
                self.query(alloc, &query, out)?;
                self.by_workers(rt, alloc, &query, out)
            }
            Logic::Explain(_) => Ok(out.extend_from_slice(b"explained")?),
        }
    }
}
