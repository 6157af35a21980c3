//! MERGE over its target's and its source's columns: which clauses clash, ON, and the clauses in their order.

ghost use Rattle.std.specs.Prelude.{◌≡◌, ◌++◌, IfOk, map, drop};
ghost use Rattle.std.specs.List.{list_any};
ghost use Rattle.hv_typing.specs.Faults.{Types};
ghost use Rattle.hv_typing.specs.Sources.{filter_typed};
ghost use Rattle.hv_typing.specs.Columns.{field_of};
ghost use Rattle.hv_typing.specs.Merges.{is_update, is_delete, is_insert, same_kind, is_like, kinds_repeat, has_more, inserts_early, updates, deletes, starts_bare, hides_second, clauses_clash, row_over, new_row, no_clauses, with_matched, with_newcomers, update_onto, delete_onto, insert_onto, clause_onto, clauses_typed, target_alias, merge_of, merge_typed, merge_over};

use hv_ast::{Assignment, Expr, Merge, MergeAction, MergeClause};
use hv_base::{Boxed, List, NoMemory, Refusal, Text};
use hv_changes::{all_set, column_kinds, columns_of, converted_row, converts, fields_named};
use hv_expr::TypedExpr;
use hv_logic::{Column, Shape};
use hv_types::{condition_of, type_expr};
use hv_typing::{
    Brought, Field, MatchedAction, Over, TypeFault, TypedClauses, TypedMatched, TypedMerge,
    TypedNewcomers, TypedSource,
};
use std::alloc::Global;

const MOST_CLAUSES: usize = 3;

// ---- clauses that clash

fn is_update(action: &MergeAction) -> bool
    ensures { result ≡ is_update action.now }
{
    match action {
        MergeAction::Update(_) => true,
        MergeAction::Delete => false,
        MergeAction::Insert(_) => false,
    }
}

fn is_delete(action: &MergeAction) -> bool
    ensures { result ≡ is_delete action.now }
{
    match action {
        MergeAction::Update(_) => false,
        MergeAction::Delete => true,
        MergeAction::Insert(_) => false,
    }
}

fn is_insert(action: &MergeAction) -> bool
    ensures { result ≡ is_insert action.now }
{
    match action {
        MergeAction::Update(_) => false,
        MergeAction::Delete => false,
        MergeAction::Insert(_) => true,
    }
}

fn same_kind(action: &MergeAction, other: &MergeAction) -> bool
    ensures { result ≡ same_kind action.now other.now }
{
    match action {
        MergeAction::Update(_) => is_update(other),
        MergeAction::Delete => is_delete(other),
        MergeAction::Insert(_) => is_insert(other),
    }
}

fn any_like(clause: &MergeClause, others: &[MergeClause]) -> bool
    ensures { result ≡ list_any (is_like clause.now) others.now }
{
    for other in others {
        if same_kind(&clause.action, &other.action) {
            return true;
        }
    }
    false
}

fn kinds_repeat(clauses: &[MergeClause]) -> bool
    ensures { result ≡ kinds_repeat clauses.now }
{
    for (i, clause) in clauses.iter().enumerate() {
        if any_like(clause, &clauses[i + 1..]) {
            return true;
        }
    }
    false
}

fn has_more(clauses: &[MergeClause]) -> bool
    ensures { result ≡ has_more clauses.now }
{
    match clauses {
        [] => false,
        [_, ..] => true,
    }
}

/// Whether an INSERT stands before another clause.
fn inserts_early(clauses: &[MergeClause]) -> bool
    ensures { result ≡ inserts_early clauses.now }
{
    for (i, clause) in clauses.iter().enumerate() {
        if is_insert(&clause.action) && has_more(&clauses[i + 1..]) {
            return true;
        }
    }
    false
}

fn any_updates(clauses: &[MergeClause]) -> bool
    ensures { result ≡ list_any updates clauses.now }
{
    for clause in clauses {
        if is_update(&clause.action) {
            return true;
        }
    }
    false
}

fn any_deletes(clauses: &[MergeClause]) -> bool
    ensures { result ≡ list_any deletes clauses.now }
{
    for clause in clauses {
        if is_delete(&clause.action) {
            return true;
        }
    }
    false
}

/// Whether the first clause has no AND.
fn starts_bare(clauses: &[MergeClause]) -> bool
    ensures { result ≡ starts_bare clauses.now }
{
    match clauses {
        [] => false,
        [clause, ..] => match &clause.condition {
            None => true,
            Some(_) => false,
        },
    }
}

/// Whether there is an UPDATE and a DELETE, and the first acts wherever the second could.
fn hides_second(clauses: &[MergeClause]) -> bool
    ensures { result ≡ hides_second clauses.now }
{
    any_updates(clauses) && any_deletes(clauses) && starts_bare(clauses)
}

#[tactic(auto, unfolding(hv_typing::specs::Merges::clauses_clash))]
fn clauses_clash(clauses: &[MergeClause]) -> bool
    ensures { result ≡ clauses_clash clauses.now }
{
    clauses.len() > MOST_CLAUSES
        || kinds_repeat(clauses)
        || inserts_early(clauses)
        || hides_second(clauses)
}

// ---- a new row's values, over the source's columns

#[tactic(auto, using(hv_changes::proofs::Orders::orders), unfolding(hv_typing::specs::Merges::row_over))]
fn row_over(alloc: Global, fields: &[Field], exprs: &[Expr]) -> Result<List<TypedExpr>, TypeFault>
    ensures { Types result (row_over fields.now exprs.now) }
{
    let mut row = Vec::with_capacity(alloc, exprs.len())?;
    for expr in exprs {
        row.push(type_expr(alloc, expr, fields, Over::Row)?.into_inner())?;
    }
    Ok(List::from_vec(row))
}

/// Its expressions, their number, their conversions.
#[tactic(auto, unfolding(hv_typing::specs::Merges::new_row))]
fn new_row(
    alloc: Global,
    columns: &[Column],
    fields: &[Field],
    exprs: &[Expr],
) -> Result<List<TypedExpr>, TypeFault>
    ensures { Types result (new_row columns.now fields.now exprs.now) }
{
    let row = row_over(alloc, fields, exprs)?;
    if row.len() != columns.len() {
        return Err(TypeFault::Refused(Refusal::BadCount));
    }
    if !converts(columns, row.as_slice()) {
        return Err(TypeFault::Refused(Refusal::BadType));
    }
    Ok(converted_row(alloc, columns, row)?)
}

// ---- the clauses

fn no_clauses(alloc: Global) -> Result<Boxed<TypedClauses>, NoMemory>
    ensures { IfOk result (λ clauses. clauses ≡ no_clauses) }
{
    Boxed::new(
        alloc,
        TypedClauses {
            matched: List::empty(alloc),
            newcomers: None,
        },
    )
}

fn with_matched(
    alloc: Global,
    done: Boxed<TypedClauses>,
    condition: Option<Boxed<TypedExpr>>,
    action: MatchedAction,
) -> Result<Boxed<TypedClauses>, NoMemory>
    ensures { IfOk result (λ made. made ≡ with_matched done condition action) }
{
    let TypedClauses { matched, newcomers } = done.into_inner();
    let mut matched = matched.into_vec();
    matched.push(TypedMatched { condition, action })?;
    Boxed::new(
        alloc,
        TypedClauses {
            matched: List::from_vec(matched),
            newcomers,
        },
    )
}

fn with_newcomers(
    alloc: Global,
    done: Boxed<TypedClauses>,
    condition: Option<Boxed<TypedExpr>>,
    values: List<TypedExpr>,
) -> Result<Boxed<TypedClauses>, NoMemory>
    ensures { IfOk result (λ made. made ≡ with_newcomers done condition values) }
{
    let TypedClauses { matched, .. } = done.into_inner();
    let newcomers = TypedNewcomers { condition, values };
    Boxed::new(
        alloc,
        TypedClauses {
            matched,
            newcomers: Some(newcomers),
        },
    )
}

/// The AND of a clause.
fn met_typed(
    alloc: Global,
    fields: &[Field],
    condition: &Option<Expr>,
) -> Result<Option<Boxed<TypedExpr>>, TypeFault>
    ensures { Types result (filter_typed fields.now condition.now) }
{
    match condition {
        None => Ok(None),
        Some(condition) => Ok(Some(condition_of(alloc, condition, fields, Over::Row)?)),
    }
}

fn update_onto(
    alloc: Global,
    shape: &Shape,
    columns: &[Column],
    both: &[Field],
    done: Boxed<TypedClauses>,
    condition: &Option<Expr>,
    sets: &[Assignment],
) -> Result<Boxed<TypedClauses>, TypeFault>
    ensures { Types result (update_onto shape.now columns.now both.now done condition.now sets.now) }
{
    let met = met_typed(alloc, both, condition)?;
    let kinds = column_kinds(alloc, columns)?;
    let values = all_set(alloc, shape, columns, both, kinds.as_slice(), sets)?;
    Ok(with_matched(alloc, done, met, MatchedAction::Update(values))?)
}

fn delete_onto(
    alloc: Global,
    both: &[Field],
    done: Boxed<TypedClauses>,
    condition: &Option<Expr>,
) -> Result<Boxed<TypedClauses>, TypeFault>
    ensures { Types result (delete_onto both.now done condition.now) }
{
    let met = met_typed(alloc, both, condition)?;
    Ok(with_matched(alloc, done, met, MatchedAction::Delete)?)
}

fn insert_onto(
    alloc: Global,
    columns: &[Column],
    alone: &[Field],
    done: Boxed<TypedClauses>,
    condition: &Option<Expr>,
    exprs: &[Expr],
) -> Result<Boxed<TypedClauses>, TypeFault>
    ensures { Types result (insert_onto columns.now alone.now done condition.now exprs.now) }
{
    let met = met_typed(alloc, alone, condition)?;
    let values = new_row(alloc, columns, alone, exprs)?;
    Ok(with_newcomers(alloc, done, met, values)?)
}

/// One clause more: its AND, then what it does.
#[tactic(auto, unfolding(hv_typing::specs::Merges::clause_onto))]
fn clause_onto(
    alloc: Global,
    shape: &Shape,
    columns: &[Column],
    both: &[Field],
    alone: &[Field],
    done: Boxed<TypedClauses>,
    clause: &MergeClause,
) -> Result<Boxed<TypedClauses>, TypeFault>
    ensures { Types result (clause_onto shape.now columns.now both.now alone.now done clause.now) }
{
    let condition = &clause.condition;
    match &clause.action {
        MergeAction::Update(sets) => {
            update_onto(
                alloc,
                shape,
                columns,
                both,
                done,
                condition,
                sets.as_slice(),
            )
        }
        MergeAction::Delete => delete_onto(alloc, both, done, condition),
        MergeAction::Insert(exprs) => {
            insert_onto(alloc, columns, alone, done, condition, exprs.as_slice())
        }
    }
}

#[tactic(auto, unfolding(hv_typing::specs::Merges::clauses_typed))]
fn clauses_typed(
    alloc: Global,
    shape: &Shape,
    columns: &[Column],
    both: &[Field],
    alone: &[Field],
    clauses: &[MergeClause],
) -> Result<Boxed<TypedClauses>, TypeFault>
    ensures { Types result (clauses_typed shape.now columns.now both.now alone.now no_clauses clauses.now) }
{
    let mut done = no_clauses(alloc)?;
    for clause in clauses {
        done = clause_onto(alloc, shape, columns, both, alone, done, clause)?;
    }
    Ok(done)
}

// ---- the statement

fn target_alias(merge: &Merge) -> &Text
    ensures { result.now ≡ target_alias merge.now }
{
    match &merge.alias {
        None => &merge.table,
        Some(alias) => alias,
    }
}

/// The target's columns and then the source's.
fn both_fields(
    alloc: Global,
    alias: &Text,
    columns: &[Column],
    more: List<Field>,
) -> Result<List<Field>, NoMemory>
    ensures { IfOk result (λ both. both ≡ map (field_of alias.now) columns.now ++ more) }
{
    let mut fields = fields_named(alloc, alias, columns)?.into_vec();
    let mut more = more.into_vec();
    fields.append(&mut more)?;
    Ok(List::from_vec(fields))
}

/// Those behind so many.
fn fields_behind(fields: &[Field], width: usize) -> &[Field]
    ensures { result.now ≡ drop width fields.now }
{
    if width <= fields.len() {
        &fields[width..]
    } else {
        &[]
    }
}

fn merge_of(
    place: u32,
    source: Boxed<TypedSource>,
    on: Boxed<TypedExpr>,
    clauses: Boxed<TypedClauses>,
) -> TypedMerge
    ensures { result ≡ merge_of place source on clauses }
{
    TypedMerge {
        table: place,
        source: source.into_inner(),
        on: Some(on),
        clauses: clauses.into_inner(),
    }
}

/// ON, then the clauses.
#[tactic(auto, using(crate::proofs::Fields::behind_target), unfolding(hv_typing::specs::Merges::merge_typed))]
fn merge_typed(
    alloc: Global,
    place: u32,
    shape: &Shape,
    merge: &Merge,
    source: Boxed<Brought>,
) -> Result<TypedMerge, TypeFault>
    ensures { Types result (merge_typed place shape.now merge.now source) }
{
    let columns = columns_of(alloc, shape)?;
    let Brought { source, fields, .. } = source.into_inner();
    let source = Boxed::new(alloc, source)?;
    let fields = both_fields(alloc, target_alias(merge), columns.as_slice(), fields)?;
    let both = fields.as_slice();
    let alone = fields_behind(both, columns.len());
    let on = condition_of(alloc, &merge.on, both, Over::Row)?;
    let all = merge.clauses.as_slice();
    let clauses = clauses_typed(alloc, shape, columns.as_slice(), both, alone, all)?;
    Ok(merge_of(place, source, on, clauses))
}

/// The typed MERGE over what stands behind USING, or its first fault behind that one's own: an alias that both have,
/// clauses that clash, then ON and the clauses.
#[tactic(auto, unfolding(hv_typing::specs::Merges::merge_over))]
pub fn merge_over(
    alloc: Global,
    place: u32,
    shape: &Shape,
    merge: &Merge,
    source: Boxed<Brought>,
) -> Result<TypedMerge, TypeFault>
    ensures { Types result (merge_over place shape.now merge.now source) }
{
    if source.get().alias == *target_alias(merge) {
        return Err(TypeFault::Refused(Refusal::Ambiguous));
    }
    if clauses_clash(merge.clauses.as_slice()) {
        return Err(TypeFault::Refused(Refusal::MergeClauses));
    }
    merge_typed(alloc, place, shape, merge, source)
}
