//! What texts are read to: their tokens with their places, how many tokens an expression takes or a query leaves, or the
//! first fault. A tree is let go of in a statement, as hv_ast alone drops one.
use crate::words::{number, piece};
use hv_ast::{Delete, Lexeme, Stmt, Symbol, Token, discard};
use hv_base::{NoMemory, Text};
use hv_lex::lex;
use hv_parse_expr::{Tokens, is_reserved, parse_expr};
use hv_parse_query::any_query;
use hv_parse_stmt::{is_set, parse_set, parse_stmt};
use std::alloc::{AllocError, Global};

fn spelled(symbol: Symbol) -> &'static str {
    match symbol {
        Symbol::NullSafeEqual => "<=>",
        Symbol::EqualTwice => "==",
        Symbol::Unequal => "<>",
        Symbol::BangEqual => "!=",
        Symbol::AtMost => "<=",
        Symbol::AtLeast => ">=",
        Symbol::Open => "(",
        Symbol::Close => ")",
        Symbol::OpenIndex => "[",
        Symbol::CloseIndex => "]",
        Symbol::Comma => ",",
        Symbol::Dot => ".",
        Symbol::Star => "*",
        Symbol::Plus => "+",
        Symbol::Minus => "-",
        Symbol::Percent => "%",
        Symbol::Equal => "=",
        Symbol::Less => "<",
        Symbol::Greater => ">",
    }
}

fn show_token(out: &mut String, token: &Token) -> Result<(), AllocError> {
    let at = token.at;
    match &token.what {
        Lexeme::Word(word) => write!(out, "{word}@{at} "),
        Lexeme::Quoted(name) => write!(out, "`{name}`@{at} "),
        Lexeme::Int(number) => write!(out, "{number}@{at} "),
        Lexeme::Big(number) => write!(out, "{number}L@{at} "),
        Lexeme::Str(text) => write!(out, "\"{text}\"@{at} "),
        Lexeme::Symbol(symbol) => {
            let symbol = spelled(*symbol);
            write!(out, "{symbol}@{at} ")
        }
    }
}

fn tokens(alloc: Global, out: &mut String, text: &Text) -> Result<(), AllocError> {
    match lex(alloc, text) {
        Ok(tokens) => {
            for token in &tokens {
                show_token(out, token)?;
            }
            Ok(())
        }
        Err(fault) => write!(out, "{fault}"),
    }
}

fn expression(
    alloc: Global,
    out: &mut String,
    tokens: &[Token],
    table: Text,
) -> Result<(), AllocError> {
    match parse_expr(tokens, 0, alloc) {
        Ok((tree, behind)) => {
            let filter = Some(tree);
            discard(Stmt::Delete(Delete { table, filter }));
            write!(out, "{behind}")
        }
        Err(fault) => write!(out, "{fault}"),
    }
}

fn query(alloc: Global, out: &mut String, tokens: &[Token]) -> Result<(), AllocError> {
    let mut left = Tokens::new(tokens);
    match any_query(alloc, &mut left) {
        Ok(tree) => {
            discard(Stmt::Query(tree));
            write!(out, "{}", left.left())
        }
        Err(fault) => write!(out, "{fault}"),
    }
}

fn statement(alloc: Global, out: &mut String, tokens: &[Token]) -> Result<(), AllocError> {
    match parse_stmt(tokens, alloc) {
        Ok(tree) => {
            discard(tree);
            write!(out, "ok")
        }
        Err(fault) => write!(out, "{fault}"),
    }
}

/// The key and the value of a setting.
fn setting(alloc: Global, out: &mut String, text: &Text) -> Result<(), AllocError> {
    match parse_set(text, alloc) {
        Ok(Stmt::Set(found)) => write!(out, "[{}] [{}]", found.key, found.value),
        Ok(other) => {
            discard(other);
            write!(out, "another statement")
        }
        Err(fault) => write!(out, "{fault}"),
    }
}

fn parsed(alloc: Global, out: &mut String, call: &str, text: &Text) -> Result<(), NoMemory> {
    let table = Text::of(alloc, "t")?;
    let Ok(tokens) = lex(alloc, text) else {
        return Ok(());
    };
    let done = match call {
        "expression" => expression(alloc, out, &tokens, table),
        "query" => query(alloc, out, &tokens),
        _ => statement(alloc, out, &tokens),
    };
    Ok(done?)
}

/// A front, so many times one text, another, and as many times a third.
fn nested(alloc: Global, words: &[&str]) -> Result<Text, NoMemory> {
    let mut text = String::from_str(alloc, piece(words, 0))?;
    for _ in 0..number(words, 2) {
        text.push_str(piece(words, 1))?;
    }
    text.push_str(piece(words, 3))?;
    for _ in 0..number(words, 2) {
        text.push_str(piece(words, 4))?;
    }
    Text::of(alloc, text.as_str())
}

pub fn answer(alloc: Global, out: &mut String, call: &str, words: &[&str]) -> Result<(), NoMemory> {
    let text = nested(alloc, words)?;
    let done = match call {
        "tokens" => tokens(alloc, out, &text),
        "setting" => setting(alloc, out, &text),
        "is_set" => write!(out, "{}", is_set(&text)),
        "is_reserved" => write!(out, "{}", is_reserved(&text)),
        _ => return parsed(alloc, out, call, &text),
    };
    Ok(done?)
}
