ghost use Rattle.std.specs.Prelude.{◌≡◌, IfOk, Ok, map};
ghost use Rattle.hv_meaning.specs.Meaning.{info_of, found_in, tables_of, column_name, listed, refused_for, meant, meaning_in};
ghost use Rattle.hv_effect.specs.Tables.{found_of};

use crate::asks::asking;
use crate::changes::{changed_in, merged_in, query_rows};
use crate::describing::described;
use crate::explaining::explained;
use crate::studied::{mean, study};
use crate::touching::{Touching, untouched};
use hv_ast::Stmt;
use hv_base::{Duplicate, List, NoMemory, Refusal, Text};
use hv_logic::{Meaning, Seen, TableInfo, TableRows};
use hv_typing::{Logic, OutputColumn, TypedQuery};
use std::alloc::Global;

/// The descriptions of tables, and their rows.
struct Parts {
    infos: Vec<TableInfo>,
    rows: Vec<TableRows>,
}

fn parts_of(alloc: Global, tables: Vec<Seen>) -> Result<Parts, NoMemory>
    ensures infos { IfOk result (λ parts. parts.infos.items ≡ map info_of tables.items) }
    ensures rows { IfOk result (λ parts. found_of parts.rows.items ≡ map found_in tables.items) }
{
    let mut infos = Vec::new(alloc);
    let mut rows = Vec::new(alloc);
    for seen in tables {
        let table = seen.info.table;
        infos.push(seen.info)?;
        rows.push(TableRows {
            table,
            rows: seen.rows,
        })?;
    }
    Ok(Parts { infos, rows })
}

fn names_of(alloc: Global, columns: &[OutputColumn]) -> Result<List<Text>, NoMemory>
    ensures { IfOk result (λ names. names ≡ map column_name columns.now) }
{
    let mut names = Vec::new(alloc);
    for column in columns {
        names.push(column.name.duplicate(alloc)?)?;
    }
    Ok(List::from_vec(names))
}

// The names of a query's columns, and its rows.
fn listed(alloc: Global, query: &TypedQuery, rows: &[TableRows]) -> Result<Touching, NoMemory>
    ensures { IfOk result (λ meaning. meaning ≡ listed query.now (tables_of (found_of rows.now))) }
{
    let found = query_rows(alloc, query, rows)?;
    let names = names_of(alloc, query.columns.as_slice())?;
    Ok(untouched(alloc, Meaning::Listing(names, List::from_vec(found))))
}

pub(crate) fn refused_for(alloc: Global, why: Refusal) -> Option<Touching>
    ensures { result ≡ refused_for why }
{
    match why {
        Refusal::Syntax => None,
        _ => Some(untouched(alloc, Meaning::Refused(why))),
    }
}

pub(crate) fn meant(
    alloc: Global,
    infos: &[TableInfo],
    rows: &[TableRows],
    logic: Logic,
) -> Result<Option<Touching>, NoMemory>
    ensures { IfOk result (λ meaning. meaning ≡ meant infos.now (found_of rows.now) (Ok logic)) }
{
    match logic {
        Logic::Query(query) => Ok(Some(listed(alloc, &query, rows)?)),
        Logic::Change(change) => changed_in(alloc, infos, rows, &change),
        Logic::Merge(merge) => merged_in(alloc, infos, rows, &merge),
        Logic::Make(shape) => Ok(Some(untouched(alloc, Meaning::Make(shape)))),
        Logic::Unmake(table) => Ok(Some(untouched(alloc, Meaning::Unmake(table)))),
        Logic::Nothing => Ok(Some(untouched(alloc, Meaning::Plain))),
        Logic::Describe(columns) => Ok(Some(described(alloc, columns.as_slice())?)),
        Logic::Explain(query) => Ok(Some(explained(alloc, &query)?)),
        Logic::Ask(ask) => Ok(Some(asking(alloc, &ask)?)),
    }
}

/// What a statement comes to over the tables that it names, in the order in which it names them, with the
/// touches of a change; None where its form isn't built.
#[tactic(auto, unfolding(hv_meaning::specs::Meaning::meaning_in))]
pub fn meaning_in(
    alloc: Global,
    tree: &Stmt,
    tables: Vec<Seen>,
) -> Result<Option<Touching>, NoMemory>
    ensures { IfOk result (λ meaning. meaning ≡ meaning_in tree.now tables.items) }
{
    let Parts { infos, rows } = parts_of(alloc, tables)?;
    let studied = study(alloc, infos, tree)?;
    mean(alloc, studied, rows.as_slice())
}
