//! A line as an expression: a function and its operands, a chain as `chain 1 + 2 - 3`, and CASE as
//! `case` with its WHENs and ELSE or `switch` with an operand before them.

use crate::functions::{aggregate, arithmetic, many, one, three, two};
use crate::operands::operand;
use hv_base::{Boxed, List, NoMemory};
use hv_expr::{Branch, Link, TypedExpr};
use hv_value::SqlType;
use std::alloc::Global;

fn chain(alloc: Global, words: &[&str]) -> Result<Boxed<TypedExpr>, NoMemory> {
    let first = operand(alloc, words.first().copied().unwrap_or("NULL"))?;
    let mut links = Vec::new(alloc);
    let mut place = 1;
    while place + 1 < words.len() {
        if let Some(operator) = arithmetic(words[place]) {
            let operand = operand(alloc, words[place + 1])?.into_inner();
            links.push(Link { operator, operand })?;
        }
        place += 2;
    }
    let links = List::from_vec(links);
    Boxed::new(alloc, TypedExpr::Chain(SqlType::BigInt, first, links))
}

fn case(
    alloc: Global,
    operand_of: Option<Boxed<TypedExpr>>,
    words: &[&str],
) -> Result<Boxed<TypedExpr>, NoMemory> {
    let mut branches = Vec::new(alloc);
    let mut place = 0;
    while place + 1 < words.len() {
        let condition = operand(alloc, words[place])?.into_inner();
        let value = operand(alloc, words[place + 1])?.into_inner();
        branches.push(Branch { condition, value })?;
        place += 2;
    }
    let otherwise = match words.get(place) {
        Some(word) => Some(operand(alloc, word)?),
        None => None,
    };
    Boxed::new(
        alloc,
        TypedExpr::Case {
            kind: SqlType::Int,
            operand: operand_of,
            branches: List::from_vec(branches),
            otherwise,
        },
    )
}

fn of_in(alloc: Global, negated: bool, words: &[&str]) -> Result<Boxed<TypedExpr>, NoMemory> {
    let Some((first, words)) = words.split_first() else {
        return operand(alloc, "NULL");
    };
    let value = operand(alloc, first)?;
    let among = operands(alloc, words)?;
    Boxed::new(
        alloc,
        TypedExpr::In {
            value,
            negated,
            among,
        },
    )
}

fn operands(alloc: Global, words: &[&str]) -> Result<List<TypedExpr>, NoMemory> {
    let mut operands = Vec::new(alloc);
    for word in words {
        operands.push(operand(alloc, word)?.into_inner())?;
    }
    Ok(List::from_vec(operands))
}

fn of_many(alloc: Global, name: &str, words: &[&str]) -> Result<Boxed<TypedExpr>, NoMemory> {
    let Some(function) = many(name) else {
        return operand(alloc, name);
    };
    let operands = operands(alloc, words)?;
    Boxed::new(alloc, TypedExpr::Many(function, SqlType::Str, operands))
}

fn of_few(alloc: Global, name: &str, words: &[&str]) -> Result<Boxed<TypedExpr>, NoMemory> {
    if let (Some((function, kind)), [x]) = (one(name), words) {
        let x = operand(alloc, x)?;
        return Boxed::new(alloc, TypedExpr::One(function, kind, x));
    }
    if let (Some(function), [x, y]) = (two(name), words) {
        let x = operand(alloc, x)?;
        let y = operand(alloc, y)?;
        return Boxed::new(alloc, TypedExpr::Two(function, SqlType::Int, x, y));
    }
    if let (Some(function), [x, y, z]) = (three(name), words) {
        let x = operand(alloc, x)?;
        let y = operand(alloc, y)?;
        let z = operand(alloc, z)?;
        return Boxed::new(alloc, TypedExpr::Three(function, SqlType::Int, x, y, z));
    }
    of_many(alloc, name, words)
}

pub(crate) fn expression(alloc: Global, line: &str) -> Result<Boxed<TypedExpr>, NoMemory> {
    let words: Vec<&str> = line.split('\t').collect(alloc)?;
    let Some((name, words)) = words.split_first() else {
        return operand(alloc, "NULL");
    };
    match *name {
        "chain" => chain(alloc, words),
        "case" => case(alloc, None, words),
        "switch" => match words.split_first() {
            Some((first, words)) => {
                let first = operand(alloc, first)?;
                case(alloc, Some(first), words)
            }
            None => operand(alloc, "NULL"),
        },
        "in" => of_in(alloc, false, words),
        "notin" => of_in(alloc, true, words),
        "countrows" => Boxed::new(alloc, TypedExpr::CountRows),
        _ => match (aggregate(name), words) {
            (Some(function), [x]) => {
                let argument = operand(alloc, x)?;
                Boxed::new(
                    alloc,
                    TypedExpr::Aggregate {
                        function,
                        distinct: true,
                        kind: SqlType::BigInt,
                        argument,
                    },
                )
            }
            _ => of_few(alloc, name, words),
        },
    }
}
