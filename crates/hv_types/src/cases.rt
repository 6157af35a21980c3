//! CASE.

ghost use Rattle.std.specs.Prelude.{◌≡◌, map, IfOk};
ghost use Rattle.std.specs.List.{list_all};
ghost use Rattle.hv_value.specs.declared.sql_type.SqlType.TheVariants as type;
ghost use Rattle.hv_typing.specs.Faults.{Types};
ghost use Rattle.hv_typing.specs.Nodes.{is_condition, condition_as, branch_stands, branch_kind, kind_with, case_kind, branch_as, case_typed};

use crate::casts::{BAD_TYPE, item_as_kind, item_taken_at, optional_as_kind, stands};
use crate::kinds::{comparable, kind_of, met};
use hv_base::{Boxed, List, NoMemory};
use hv_expr::{Branch, TypedExpr};
use hv_typing::{Meeting, Place, TypeFault};
use hv_value::SqlType;
use std::alloc::Global;

fn is_condition(operand: &Option<Boxed<TypedExpr>>, condition: &TypedExpr) -> bool
    ensures { result ≡ is_condition operand.now condition.now }
{
    match operand {
        None => stands(Place::Truth, condition),
        Some(operand) => comparable(kind_of(operand.get()), kind_of(condition)).is_some(),
    }
}

fn condition_as(alloc: Global, is_alone: bool, condition: TypedExpr) -> Result<TypedExpr, NoMemory>
    ensures { IfOk result (λ made. made ≡ condition_as is_alone condition) }
{
    if is_alone {
        item_taken_at(alloc, Place::Truth, condition)
    } else {
        Ok(condition)
    }
}

fn branches_stand(operand: &Option<Boxed<TypedExpr>>, branches: &[Branch]) -> bool
    ensures { result ≡ list_all (branch_stands operand.now) branches.now }
{
    for branch in branches {
        if !is_condition(operand, &branch.condition) {
            return false;
        }
    }
    true
}

fn branch_kind(branches: &[Branch]) -> Option<SqlType>
    ensures { result ≡ branch_kind type.Null branches.now }
{
    let mut kind = SqlType::Null;
    for branch in branches {
        match met(Meeting::Unified, kind, kind_of(&branch.value)) {
            Some(found) => kind = found,
            None => return None,
        }
    }
    Some(kind)
}

fn case_kind(branches: &[Branch], otherwise: &Option<Boxed<TypedExpr>>) -> Option<SqlType>
    ensures { result ≡ case_kind branches.now otherwise.now }
{
    match branch_kind(branches) {
        None => None,
        Some(kind) => match otherwise {
            None => Some(kind),
            Some(otherwise) => met(Meeting::Unified, kind, kind_of(otherwise.get())),
        },
    }
}

fn branch_as(
    alloc: Global,
    is_alone: bool,
    kind: SqlType,
    branch: Branch,
) -> Result<Branch, NoMemory>
    ensures { IfOk result (λ made. made ≡ branch_as is_alone kind branch) }
{
    let Branch { condition, value } = branch;
    let condition = condition_as(alloc, is_alone, condition)?;
    let value = item_as_kind(alloc, kind, value)?;
    Ok(Branch { condition, value })
}

fn branches_as(
    alloc: Global,
    is_alone: bool,
    kind: SqlType,
    branches: List<Branch>,
) -> Result<List<Branch>, NoMemory>
    ensures { IfOk result (λ made. made ≡ map (branch_as is_alone kind) branches) }
{
    let mut made = Vec::with_capacity(alloc, branches.len())?;
    for branch in branches.into_vec() {
        made.push(branch_as(alloc, is_alone, kind, branch)?)?;
    }
    Ok(List::from_vec(made))
}

#[tactic(auto, unfolding(hv_typing::specs::Nodes::case_typed))]
pub(crate) fn case_typed(
    alloc: Global,
    operand: Option<Boxed<TypedExpr>>,
    branches: List<Branch>,
    otherwise: Option<Boxed<TypedExpr>>,
) -> Result<Boxed<TypedExpr>, TypeFault>
    ensures { Types result (case_typed operand branches otherwise) }
{
    if !branches_stand(&operand, branches.as_slice()) {
        return Err(BAD_TYPE);
    }
    let Some(kind) = case_kind(branches.as_slice(), &otherwise) else {
        return Err(BAD_TYPE);
    };
    let branches = branches_as(alloc, operand.is_none(), kind, branches)?;
    let otherwise = optional_as_kind(alloc, kind, otherwise)?;
    Ok(Boxed::new(
        alloc,
        TypedExpr::Case {
            kind,
            operand,
            branches,
            otherwise,
        },
    )?)
}
