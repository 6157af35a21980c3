//! Statements that change rows, and those about queries and tables that hold their parts.

ghost use Rattle.hv_grammar.specs.Reading.{any_expr};
ghost use Rattle.hv_grammar.specs.QueryReading.{any_query};
ghost use Rattle.hv_grammar.specs.StatementReading as reading;
ghost use Rattle.hv_parse_expr.specs.Reads.{Reads};

use crate::tables::bracketed_names;
use hv_ast::{
    Assignment, Compact, Delete, Expr, Insert, Merge, MergeAction, MergeClause, PartitionItem,
    Rows, Stmt, Truncate, Update,
};
use hv_base::{List, Text};
use hv_grammar::Kind;
use hv_parse_expr::{ReadFault, Tokens, any_expr, any_expr_up_to, expr_list, name, pushed};
use hv_parse_query::{any_query, any_source, condition, optional_alias, table_name, unboxed};
use std::alloc::Global;

/// `ident [= expr]`
#[tactic(auto, unfolding(hv_grammar::specs::StatementReading::partition_item))]
fn partition_item(alloc: Global, tokens: &mut Tokens<'_>) -> Result<PartitionItem, ReadFault>
    ensures { Reads (reading.partition_item any_expr any_query tokens.old) result tokens.new }
{
    let name = name(alloc, tokens)?;
    let value = condition(alloc, tokens, Kind::Equal)?;
    Ok(PartitionItem {
        name,
        value: unboxed(value),
    })
}

/// `ident [= expr] {, ident [= expr]}`
#[tactic(auto, unfolding(hv_grammar::specs::StatementReading::partition_items, hv_grammar::specs::Readers::separated))]
fn partition_items(alloc: Global, tokens: &mut Tokens<'_>) -> Result<List<PartitionItem>, ReadFault>
    ensures { Reads (reading.partition_items any_expr any_query tokens.old) result tokens.new }
{
    let mut found = pushed(Vec::new(alloc), partition_item(alloc, tokens))?;
    for _turn in 0..tokens.left() {
        if !tokens.eat(Kind::Comma) {
            break;
        }
        found = pushed(found, partition_item(alloc, tokens))?;
    }
    Ok(List::from_vec(found))
}

/// `[PARTITION ( ident [= expr] {, ident [= expr]} )]`
#[tactic(auto, unfolding(hv_grammar::specs::StatementReading::partition))]
fn partition(alloc: Global, tokens: &mut Tokens<'_>) -> Result<List<PartitionItem>, ReadFault>
    ensures { Reads (reading.partition any_expr any_query tokens.old) result tokens.new }
{
    if !tokens.eat(Kind::Partition) {
        return Ok(List::empty(alloc));
    }
    tokens.expect(Kind::Open)?;
    let found = partition_items(alloc, tokens)?;
    tokens.expect(Kind::Close)?;
    Ok(found)
}

/// `[( ident {, ident} )]`
#[tactic(auto, unfolding(hv_grammar::specs::StatementReading::column_names))]
fn column_names(alloc: Global, tokens: &mut Tokens<'_>) -> Result<List<Text>, ReadFault>
    ensures { Reads (reading.column_names any_expr any_query tokens.old) result tokens.new }
{
    if tokens.sees(Kind::Open) {
        bracketed_names(alloc, tokens)
    } else {
        Ok(List::empty(alloc))
    }
}

/// `( expr {, expr} )`
#[tactic(auto, unfolding(hv_grammar::specs::StatementReading::row))]
fn row(alloc: Global, tokens: &mut Tokens<'_>) -> Result<List<Expr>, ReadFault>
    ensures { Reads (reading.row any_expr any_query tokens.old) result tokens.new }
{
    tokens.expect(Kind::Open)?;
    let found = expr_list(alloc, tokens)?;
    tokens.expect(Kind::Close)?;
    Ok(found)
}

/// `row {, row}`
#[tactic(auto, unfolding(hv_grammar::specs::StatementReading::row_list, hv_grammar::specs::Readers::separated))]
fn row_list(alloc: Global, tokens: &mut Tokens<'_>) -> Result<List<List<Expr>>, ReadFault>
    ensures { Reads (reading.row_list any_expr any_query tokens.old) result tokens.new }
{
    let mut found = pushed(Vec::new(alloc), row(alloc, tokens))?;
    for _turn in 0..tokens.left() {
        if !tokens.eat(Kind::Comma) {
            break;
        }
        found = pushed(found, row(alloc, tokens))?;
    }
    Ok(List::from_vec(found))
}

/// `VALUES row {, row}`, or a query.
#[tactic(auto, unfolding(hv_grammar::specs::StatementReading::inserted))]
fn inserted(alloc: Global, tokens: &mut Tokens<'_>) -> Result<Rows, ReadFault>
    ensures { Reads (reading.inserted any_expr any_query tokens.old) result tokens.new }
{
    if tokens.eat(Kind::Values) {
        Ok(Rows::Values(row_list(alloc, tokens)?))
    } else {
        Ok(Rows::Query(any_query(alloc, tokens)?))
    }
}

/// `OVERWRITE TABLE | INTO [TABLE]`, as whether OVERWRITE stands there.
#[tactic(auto, unfolding(hv_grammar::specs::StatementReading::overwrite))]
fn overwrite(tokens: &mut Tokens<'_>) -> Result<bool, ReadFault>
    ensures { Reads (reading.overwrite any_expr any_query tokens.old) result tokens.new }
{
    if tokens.eat(Kind::Overwrite) {
        tokens.expect(Kind::Table)?;
        return Ok(true);
    }
    tokens.expect(Kind::Into)?;
    tokens.eat(Kind::Table);
    Ok(false)
}

/// Behind INSERT, where the rows go and where they come from.
#[tactic(auto, unfolding(hv_grammar::specs::StatementReading::insert))]
pub fn insert(alloc: Global, tokens: &mut Tokens<'_>) -> Result<Stmt, ReadFault>
    ensures { Reads (reading.insert any_expr any_query tokens.old) result tokens.new }
{
    let overwrite = overwrite(tokens)?;
    let table = table_name(alloc, tokens)?;
    let partition = partition(alloc, tokens)?;
    let columns = column_names(alloc, tokens)?;
    let rows = inserted(alloc, tokens)?;
    Ok(Stmt::Insert(Insert {
        overwrite,
        table,
        partition,
        columns,
        rows,
    }))
}

/// `ident = expr`
#[tactic(auto, unfolding(hv_grammar::specs::StatementReading::assignment))]
fn assignment(alloc: Global, tokens: &mut Tokens<'_>) -> Result<Assignment, ReadFault>
    ensures { Reads (reading.assignment any_expr any_query tokens.old) result tokens.new }
{
    let column = name(alloc, tokens)?;
    tokens.expect(Kind::Equal)?;
    let value = any_expr(alloc, tokens)?;
    Ok(Assignment { column, value })
}

/// `ident = expr {, ident = expr}`
#[tactic(auto, unfolding(hv_grammar::specs::StatementReading::assignment_list, hv_grammar::specs::Readers::separated))]
fn assignment_list(alloc: Global, tokens: &mut Tokens<'_>) -> Result<List<Assignment>, ReadFault>
    ensures { Reads (reading.assignment_list any_expr any_query tokens.old) result tokens.new }
{
    let mut found = pushed(Vec::new(alloc), assignment(alloc, tokens))?;
    for _turn in 0..tokens.left() {
        if !tokens.eat(Kind::Comma) {
            break;
        }
        found = pushed(found, assignment(alloc, tokens))?;
    }
    Ok(List::from_vec(found))
}

/// `SET ident = expr {, ident = expr}`
#[tactic(auto, unfolding(hv_grammar::specs::StatementReading::assignments))]
fn assignments(alloc: Global, tokens: &mut Tokens<'_>) -> Result<List<Assignment>, ReadFault>
    ensures { Reads (reading.assignments any_expr any_query tokens.old) result tokens.new }
{
    tokens.expect(Kind::Set)?;
    assignment_list(alloc, tokens)
}

/// Behind UPDATE, `name SET ident = expr {, ident = expr} [WHERE expr]`.
#[tactic(auto, unfolding(hv_grammar::specs::StatementReading::update))]
pub fn update(alloc: Global, tokens: &mut Tokens<'_>) -> Result<Stmt, ReadFault>
    ensures { Reads (reading.update any_expr any_query tokens.old) result tokens.new }
{
    let table = table_name(alloc, tokens)?;
    let assignments = assignments(alloc, tokens)?;
    let filter = condition(alloc, tokens, Kind::Where)?;
    Ok(Stmt::Update(Update {
        table,
        assignments,
        filter: unboxed(filter),
    }))
}

/// Behind DELETE, `FROM name [WHERE expr]`.
#[tactic(auto, unfolding(hv_grammar::specs::StatementReading::delete))]
pub fn delete(alloc: Global, tokens: &mut Tokens<'_>) -> Result<Stmt, ReadFault>
    ensures { Reads (reading.delete any_expr any_query tokens.old) result tokens.new }
{
    tokens.expect(Kind::From)?;
    let table = table_name(alloc, tokens)?;
    let filter = condition(alloc, tokens, Kind::Where)?;
    Ok(Stmt::Delete(Delete {
        table,
        filter: unboxed(filter),
    }))
}

/// `UPDATE SET ident = expr {, ident = expr} | DELETE`
#[tactic(auto, unfolding(hv_grammar::specs::StatementReading::matched_action))]
fn matched_action(alloc: Global, tokens: &mut Tokens<'_>) -> Result<MergeAction, ReadFault>
    ensures { Reads (reading.matched_action any_expr any_query tokens.old) result tokens.new }
{
    if tokens.eat(Kind::Update) {
        return Ok(MergeAction::Update(assignments(alloc, tokens)?));
    }
    tokens.expect(Kind::Delete)?;
    Ok(MergeAction::Delete)
}

/// `INSERT VALUES ( expr {, expr} )`
#[tactic(auto, unfolding(hv_grammar::specs::StatementReading::unmatched_action))]
fn unmatched_action(alloc: Global, tokens: &mut Tokens<'_>) -> Result<MergeAction, ReadFault>
    ensures { Reads (reading.unmatched_action any_expr any_query tokens.old) result tokens.new }
{
    tokens.expect(Kind::Insert)?;
    tokens.expect(Kind::Values)?;
    Ok(MergeAction::Insert(row(alloc, tokens)?))
}

/// Behind WHEN MATCHED, `[AND expr] THEN` and what is done then.
#[tactic(auto, unfolding(hv_grammar::specs::StatementReading::matched_clause))]
fn matched_clause(alloc: Global, tokens: &mut Tokens<'_>) -> Result<MergeClause, ReadFault>
    ensures { Reads (reading.matched_clause any_expr any_query tokens.old) result tokens.new }
{
    let condition = condition(alloc, tokens, Kind::And)?;
    tokens.expect(Kind::Then)?;
    let action = matched_action(alloc, tokens)?;
    Ok(MergeClause {
        condition: unboxed(condition),
        action,
    })
}

/// Behind WHEN NOT MATCHED, `[AND expr] THEN` and what is done then.
#[tactic(auto, unfolding(hv_grammar::specs::StatementReading::unmatched_clause))]
fn unmatched_clause(alloc: Global, tokens: &mut Tokens<'_>) -> Result<MergeClause, ReadFault>
    ensures { Reads (reading.unmatched_clause any_expr any_query tokens.old) result tokens.new }
{
    let condition = condition(alloc, tokens, Kind::And)?;
    tokens.expect(Kind::Then)?;
    let action = unmatched_action(alloc, tokens)?;
    Ok(MergeClause {
        condition: unboxed(condition),
        action,
    })
}

/// Behind WHEN, `[NOT] MATCHED` and what comes then.
#[tactic(auto, unfolding(hv_grammar::specs::StatementReading::merge_clause))]
fn merge_clause(alloc: Global, tokens: &mut Tokens<'_>) -> Result<MergeClause, ReadFault>
    ensures { Reads (reading.merge_clause any_expr any_query tokens.old) result tokens.new }
{
    if tokens.eat(Kind::Not) {
        tokens.expect(Kind::Matched)?;
        return unmatched_clause(alloc, tokens);
    }
    tokens.expect(Kind::Matched)?;
    matched_clause(alloc, tokens)
}

/// Behind the first WHEN, one clause of MERGE or more.
#[tactic(auto, unfolding(hv_grammar::specs::StatementReading::merge_clauses, hv_grammar::specs::Readers::separated))]
fn merge_clauses(alloc: Global, tokens: &mut Tokens<'_>) -> Result<List<MergeClause>, ReadFault>
    ensures { Reads (reading.merge_clauses any_expr any_query tokens.old) result tokens.new }
{
    let mut found = pushed(Vec::new(alloc), merge_clause(alloc, tokens))?;
    for _turn in 0..tokens.left() {
        if !tokens.eat(Kind::When) {
            break;
        }
        found = pushed(found, merge_clause(alloc, tokens))?;
    }
    Ok(List::from_vec(found))
}

/// Behind MERGE, `INTO name [[AS] ident] USING source ON expr WHEN ..`.
#[tactic(auto, using(crate::proofs::Merged::merge_is))]
pub fn merge(alloc: Global, tokens: &mut Tokens<'_>) -> Result<Stmt, ReadFault>
    ensures { Reads (reading.merge any_expr any_query tokens.old) result tokens.new }
{
    tokens.expect(Kind::Into)?;
    let table = table_name(alloc, tokens)?;
    let alias = optional_alias(alloc, tokens)?;
    tokens.expect(Kind::Using)?;
    let source = any_source(alloc, tokens)?;
    tokens.expect(Kind::On)?;
    let on = any_expr_up_to(alloc, tokens, Kind::When)?;
    let clauses = merge_clauses(alloc, tokens)?;
    Ok(Stmt::Merge(Merge {
        table,
        alias,
        source: source.into_inner(),
        on: on.into_inner(),
        clauses,
    }))
}

/// Behind TRUNCATE, `[TABLE] name [PARTITION (..)]`.
#[tactic(auto, unfolding(hv_grammar::specs::StatementReading::truncate))]
pub fn truncate(alloc: Global, tokens: &mut Tokens<'_>) -> Result<Stmt, ReadFault>
    ensures { Reads (reading.truncate any_expr any_query tokens.old) result tokens.new }
{
    tokens.eat(Kind::Table);
    let table = table_name(alloc, tokens)?;
    let partition = partition(alloc, tokens)?;
    Ok(Stmt::Truncate(Truncate { table, partition }))
}

/// Behind ALTER, `TABLE name [PARTITION (..)] COMPACT` and the kind of compaction.
#[tactic(auto, unfolding(hv_grammar::specs::StatementReading::compact))]
pub fn compact(alloc: Global, tokens: &mut Tokens<'_>) -> Result<Stmt, ReadFault>
    ensures { Reads (reading.compact any_expr any_query tokens.old) result tokens.new }
{
    tokens.expect(Kind::Table)?;
    let table = table_name(alloc, tokens)?;
    let partition = partition(alloc, tokens)?;
    tokens.expect(Kind::Compact)?;
    let kind = tokens.compaction()?;
    Ok(Stmt::Compact(Compact {
        table,
        partition,
        kind,
    }))
}

/// Behind EXPLAIN, FORMATTED and a query.
#[tactic(auto, unfolding(hv_grammar::specs::StatementReading::explain))]
pub fn explain(alloc: Global, tokens: &mut Tokens<'_>) -> Result<Stmt, ReadFault>
    ensures { Reads (reading.explain any_expr any_query tokens.old) result tokens.new }
{
    tokens.expect(Kind::Formatted)?;
    Ok(Stmt::Explain(any_query(alloc, tokens)?))
}

/// A query.
#[tactic(auto, unfolding(hv_grammar::specs::StatementReading::queried))]
pub fn queried(alloc: Global, tokens: &mut Tokens<'_>) -> Result<Stmt, ReadFault>
    ensures { Reads (reading.queried any_expr any_query tokens.old) result tokens.new }
{
    Ok(Stmt::Query(any_query(alloc, tokens)?))
}
