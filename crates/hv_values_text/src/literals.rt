//! Values that are written out.

ghost use Rattle.std.specs.Prelude.{IfOk};
ghost use Rattle.hv_values_text.specs.Parts.{IsPart, flat};
ghost use Rattle.hv_values_text.specs.Passing.{Passes};
ghost use Rattle.hv_values_text.specs.Ways as ways;

use crate::cursor::Cursor;
use crate::fault::Unread;
use hv_ast::{Expr, Literal, Unary};
use hv_base::Boxed;
use hv_lex::is_quote;
use std::alloc::Global;

fn number(cursor: &mut Cursor<'_>) -> Result<Expr, Unread>
    ensures part { IfOk result (λ tree. IsPart 0 flat tree cursor.old cursor.new) }
    ensures known { Passes (ways.number cursor.old) result cursor.new }
{
    Ok(Expr::Literal(cursor.number()?))
}

/// `-` and a number.
#[tactic(auto, unfolding(crate::specs::Ways::negative))]
fn negative(alloc: Global, cursor: &mut Cursor<'_>) -> Result<Expr, Unread>
    ensures part { IfOk result (λ tree. IsPart 0 flat tree cursor.old cursor.new) }
    ensures known { Passes (ways.negative cursor.old) result cursor.new }
{
    cursor.expect_single(b'-')?;
    let literal = cursor.number()?;
    let operand = Boxed::new(alloc, Expr::Literal(literal))?;
    Ok(Expr::Unary(Unary::Minus, operand))
}

fn quoted(alloc: Global, cursor: &mut Cursor<'_>) -> Result<Expr, Unread>
    ensures part { IfOk result (λ tree. IsPart 0 flat tree cursor.old cursor.new) }
    ensures known { Passes (ways.quoted cursor.old) result cursor.new }
{
    Ok(Expr::Literal(Literal::Str(cursor.quoted(alloc)?)))
}

/// DATE and a text.
#[tactic(auto, unfolding(crate::specs::Ways::date))]
fn date(alloc: Global, cursor: &mut Cursor<'_>) -> Result<Expr, Unread>
    ensures part { IfOk result (λ tree. IsPart 0 flat tree cursor.old cursor.new) }
    ensures known { Passes (ways.date cursor.old) result cursor.new }
{
    cursor.expect_word(b"date")?;
    Ok(Expr::Literal(Literal::Date(cursor.quoted(alloc)?)))
}

/// TRUE or FALSE.
#[tactic(auto, unfolding(crate::specs::Ways::truth))]
fn truth(cursor: &mut Cursor<'_>) -> Result<Expr, Unread>
    ensures part { IfOk result (λ tree. IsPart 0 flat tree cursor.old cursor.new) }
    ensures known { Passes (ways.truth cursor.old) result cursor.new }
{
    if cursor.sees_word(b"true") {
        cursor.pass_word();
        return Ok(Expr::Literal(Literal::Bool(true)));
    }
    cursor.expect_word(b"false")?;
    Ok(Expr::Literal(Literal::Bool(false)))
}

#[tactic(auto, unfolding(crate::specs::Ways::null))]
fn null(cursor: &mut Cursor<'_>) -> Result<Expr, Unread>
    ensures part { IfOk result (λ tree. IsPart 0 flat tree cursor.old cursor.new) }
    ensures known { Passes (ways.null cursor.old) result cursor.new }
{
    cursor.expect_word(b"null")?;
    Ok(Expr::Literal(Literal::Null))
}

/// A number with `-` or without, a text in quotes, a DATE, TRUE, FALSE or NULL.
#[tactic(auto, unfolding(crate::specs::Ways::literal))]
pub fn literal(alloc: Global, cursor: &mut Cursor<'_>) -> Result<Expr, Unread>
    ensures part { IfOk result (λ tree. IsPart 0 flat tree cursor.old cursor.new) }
    ensures known { Passes (ways.literal cursor.old) result cursor.new }
{
    let first = cursor.next();
    if first.is_ascii_digit() {
        number(cursor)
    } else if is_quote(first) {
        quoted(alloc, cursor)
    } else if first == b'-' {
        negative(alloc, cursor)
    } else if first == b'n' || first == b'N' {
        null(cursor)
    } else if first == b'd' || first == b'D' {
        date(alloc, cursor)
    } else {
        truth(cursor)
    }
}
