//! Whole statements.

ghost use Rattle.std.specs.Prelude.{◌≡◌};
ghost use Rattle.hv_typing.specs.Faults.{Types};
ghost use Rattle.hv_typing.specs.Analysis.{query_analysed, explain_analysed, change_analysed, merge_analysed, form_analysed, analysed};

use crate::asks::asked;
use crate::changes::change_of;
use crate::creates::created;
use crate::descriptions::described;
use crate::drops::dropped;
use crate::merges::merged;
use crate::queries::selected;
use crate::settings::set_analysed;
use crate::shows::show_analysed;
use hv_ast::{Merge, Query, Stmt};
use hv_base::{Refusal, Text};
use hv_built::is_built;
use hv_logic::TableInfo;
use hv_typing::{Logic, TypeFault};
use std::alloc::Global;

const SYNTAX: TypeFault = TypeFault::Refused(Refusal::Syntax);

fn query_analysed(alloc: Global, tables: &[TableInfo], query: &Query) -> Result<Logic, TypeFault>
    ensures { Types result (query_analysed tables.now query.now) }
{
    let query = selected(alloc, tables, query)?;
    Ok(Logic::Query(query.into_inner()))
}

fn explain_analysed(alloc: Global, tables: &[TableInfo], query: &Query) -> Result<Logic, TypeFault>
    ensures { Types result (explain_analysed tables.now query.now) }
{
    let query = selected(alloc, tables, query)?;
    Ok(Logic::Explain(query.into_inner()))
}

fn change_analysed(
    alloc: Global,
    tables: &[TableInfo],
    name: &Text,
    stmt: &Stmt,
) -> Result<Logic, TypeFault>
    ensures { Types result (change_analysed tables.now name.now stmt.now) }
{
    Ok(Logic::Change(change_of(alloc, tables, name, stmt)?))
}

fn merge_analysed(alloc: Global, tables: &[TableInfo], merge: &Merge) -> Result<Logic, TypeFault>
    ensures { Types result (merge_analysed tables.now merge.now) }
{
    Ok(Logic::Merge(merged(alloc, tables, merge)?))
}

#[tactic(auto, unfolding(hv_typing::specs::Analysis::form_analysed))]
fn form_analysed(alloc: Global, tables: &[TableInfo], stmt: &Stmt) -> Result<Logic, TypeFault>
    ensures { Types result (form_analysed tables.now stmt.now) }
{
    match stmt {
        Stmt::Query(query) => query_analysed(alloc, tables, query),
        Stmt::Insert(insert) => change_analysed(alloc, tables, &insert.table, stmt),
        Stmt::Update(update) => change_analysed(alloc, tables, &update.table, stmt),
        Stmt::Delete(delete) => change_analysed(alloc, tables, &delete.table, stmt),
        Stmt::Merge(merge) => merge_analysed(alloc, tables, merge),
        Stmt::Truncate(truncate) => change_analysed(alloc, tables, &truncate.table, stmt),
        Stmt::CreateTable(create) => created(alloc, tables, create),
        Stmt::DropTable(drop) => dropped(tables, drop),
        Stmt::Show(show) => show_analysed(tables, show),
        Stmt::Describe(table) => described(alloc, tables, table),
        Stmt::Compact(compact) => asked(alloc, tables, compact),
        Stmt::Set(setting) => set_analysed(setting),
        Stmt::AbortTransactions(_) => Ok(Logic::Nothing),
        Stmt::Explain(query) => explain_analysed(alloc, tables, query),
        _ => Err(SYNTAX),
    }
}

/// The typed statement over the live tables, or its first fault. A form that isn't built yet is refused
/// as Syntax.
#[tactic(auto, unfolding(hv_typing::specs::Analysis::analysed))]
pub fn analyse(alloc: Global, tables: &[TableInfo], stmt: &Stmt) -> Result<Logic, TypeFault>
    ensures { Types result (analysed tables.now stmt.now) }
{
    if is_built(stmt) {
        form_analysed(alloc, tables, stmt)
    } else {
        Err(SYNTAX)
    }
}
