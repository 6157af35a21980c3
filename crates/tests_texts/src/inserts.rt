//! INSERTs of written out values, read from their bytes and by their tokens.
use crate::words::piece;
use hv_ast::{Expr, Insert, Literal, PartitionItem, Rows, Stmt, Unary, discard};
use hv_base::{List, NoMemory, Text};
use hv_lex::lex;
use hv_parse_stmt::parse_stmt;
use hv_values_text::{Unread, read_values, skim_values};
use std::alloc::{AllocError, Global};

fn show_literal(out: &mut String, literal: &Literal) -> Result<(), AllocError> {
    match literal {
        Literal::Null => write!(out, "NULL"),
        Literal::Bool(truth) => write!(out, "{truth}"),
        Literal::Int(number) => write!(out, "{number}"),
        Literal::Big(number) => write!(out, "{number}L"),
        Literal::Str(text) => write!(out, "\"{text}\""),
        Literal::Date(text) => write!(out, "DATE \"{text}\""),
    }
}

fn show_alone(out: &mut String, sign: &str, value: &Expr) -> Result<(), AllocError> {
    write!(out, "{sign}")?;
    match value {
        Expr::Literal(literal) => show_literal(out, literal),
        _ => write!(out, "?"),
    }
}

fn show_value(out: &mut String, value: &Expr) -> Result<(), AllocError> {
    match value {
        Expr::Unary(Unary::Minus, operand) => show_alone(out, "-", operand.get()),
        _ => show_alone(out, "", value),
    }
}

fn show_items(out: &mut String, items: &[PartitionItem]) -> Result<(), AllocError> {
    for item in items {
        write!(out, " <{}", item.name)?;
        if let Some(value) = &item.value {
            write!(out, "=")?;
            show_value(out, value)?;
        }
        write!(out, ">")?;
    }
    Ok(())
}

fn show_names(out: &mut String, names: &[Text]) -> Result<(), AllocError> {
    for name in names {
        write!(out, " [{name}]")?;
    }
    Ok(())
}

fn show_rows(out: &mut String, rows: &[List<Expr>]) -> Result<(), AllocError> {
    for row in rows {
        write!(out, " (")?;
        for value in row.as_slice() {
            show_value(out, value)?;
            write!(out, " ")?;
        }
        write!(out, ")")?;
    }
    Ok(())
}

fn show_insert(out: &mut String, insert: &Insert) -> Result<(), AllocError> {
    let into = if insert.overwrite { "OVERWRITE " } else { "" };
    write!(out, "{into}{}", insert.table)?;
    show_items(out, insert.partition.as_slice())?;
    show_names(out, insert.columns.as_slice())?;
    match &insert.rows {
        Rows::Values(rows) => show_rows(out, rows.as_slice()),
        Rows::Query(_) => write!(out, " a query"),
    }
}

fn show_tree(out: &mut String, tree: &Stmt) -> Result<(), AllocError> {
    match tree {
        Stmt::Insert(insert) => show_insert(out, insert),
        _ => write!(out, "another statement"),
    }
}

fn by_bytes(alloc: Global, out: &mut String, text: &Text) -> Result<(), AllocError> {
    match read_values(alloc, text) {
        Ok(tree) => {
            let done = show_tree(out, &tree);
            discard(tree);
            done
        }
        Err(Unread::Unknown) => write!(out, "unknown"),
        Err(Unread::NoMemory) => write!(out, "out of memory"),
    }
}

/// The same without the rows, which stand last.
fn passed_over(alloc: Global, out: &mut String, text: &Text) -> Result<(), AllocError> {
    match skim_values(alloc, text) {
        Ok(tree) => {
            let done = show_tree(out, &tree);
            discard(tree);
            done
        }
        Err(Unread::Unknown) => write!(out, "unknown"),
        Err(Unread::NoMemory) => write!(out, "out of memory"),
    }
}

fn by_tokens(alloc: Global, out: &mut String, text: &Text) -> Result<(), AllocError> {
    let tokens = match lex(alloc, text) {
        Ok(tokens) => tokens,
        Err(fault) => return write!(out, "{fault}"),
    };
    match parse_stmt(&tokens, alloc) {
        Ok(tree) => {
            let done = show_tree(out, &tree);
            discard(tree);
            done
        }
        Err(fault) => write!(out, "{fault}"),
    }
}

/// What both readers make of a text: `both` and the tree where that is the same. What passes over the rows gives the
/// same without them.
pub fn answer(alloc: Global, out: &mut String, words: &[&str]) -> Result<(), NoMemory> {
    let text = Text::of(alloc, piece(words, 0))?;
    let mut bytes = String::new(alloc);
    let mut tokens = String::new(alloc);
    by_bytes(alloc, &mut bytes, &text)?;
    by_tokens(alloc, &mut tokens, &text)?;
    let mut passed = String::new(alloc);
    passed_over(alloc, &mut passed, &text)?;
    if bytes.as_str().strip_prefix(passed.as_str()).is_none() {
        return Ok(write!(out, "passed over as {passed}, {bytes}")?);
    }
    let done = if bytes.as_str() == tokens.as_str() {
        write!(out, "both {bytes}")
    } else {
        write!(out, "{bytes}; {tokens}")
    };
    Ok(done?)
}
