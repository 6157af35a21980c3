//! Which tokens are operators, and the trees that they make.

ghost use Rattle.std.specs.Prelude.{◌≡◌, IfOk};
ghost use Rattle.hv_grammar.specs.Choices as choices;
ghost use Rattle.hv_parse_expr.specs.Lone as lone;

use hv_ast::{Arithmetic, Binary, Expr, Unary};
use hv_base::{Boxed, NoMemory};
use hv_grammar::Kind;
use std::alloc::Global;

/// `= | == | <> | != | < | <= | > | >= | <=>`
pub fn comparison(kind: Kind) -> Option<Binary>
    ensures { result ≡ choices.comparison kind }
{
    match kind {
        Kind::Equal | Kind::EqualTwice => Some(Binary::Equal),
        Kind::Unequal => Some(Binary::Unequal),
        Kind::Less => Some(Binary::Less),
        Kind::AtMost => Some(Binary::AtMost),
        Kind::Greater => Some(Binary::Greater),
        Kind::AtLeast => Some(Binary::AtLeast),
        Kind::NullSafeEqual => Some(Binary::NullSafeEqual),
        _ => None,
    }
}

/// `+ | -`
pub fn additive(kind: Kind) -> Option<Arithmetic>
    ensures { result ≡ choices.additive kind }
{
    match kind {
        Kind::Plus => Some(Arithmetic::Add),
        Kind::Minus => Some(Arithmetic::Subtract),
        _ => None,
    }
}

/// `* | DIV | %`
pub fn multiplicative(kind: Kind) -> Option<Arithmetic>
    ensures { result ≡ choices.multiplicative kind }
{
    match kind {
        Kind::Star => Some(Arithmetic::Multiply),
        Kind::Div => Some(Arithmetic::Divide),
        Kind::Percent => Some(Arithmetic::Remainder),
        _ => None,
    }
}

/// `[+ | -]`
pub fn sign(kind: Kind) -> Option<Unary>
    ensures { result ≡ choices.sign kind }
{
    match kind {
        Kind::Plus => Some(Unary::Plus),
        Kind::Minus => Some(Unary::Minus),
        _ => None,
    }
}

/// How tightly a token binds to an expression before it; 0 where it can't continue one.
pub fn binds(kind: Kind) -> u8
    ensures { result ≡ choices.binds kind }
{
    match kind {
        Kind::Or => 1,
        Kind::And => 2,
        Kind::Not | Kind::In | Kind::Between | Kind::Like => 3,
        Kind::Equal | Kind::EqualTwice | Kind::Unequal | Kind::Less | Kind::AtMost => 3,
        Kind::Greater | Kind::AtLeast | Kind::NullSafeEqual => 3,
        Kind::Plus | Kind::Minus => 4,
        Kind::Star | Kind::Div | Kind::Percent => 5,
        Kind::Is => 6,
        Kind::OpenIndex => 7,
        Kind::Open | Kind::Dot => 8,
        _ => 0,
    }
}

/// A number or a string.
pub fn is_literal(kind: Kind) -> bool
    ensures { result ≡ lone.is_literal kind }
{
    match kind {
        Kind::Number | Kind::Text => true,
        _ => false,
    }
}

/// Lets go of a value, in a function without other paths.
fn let_go<T: Drop>(_value: T) {}

/// Lets go of an expression. Where it is dropped by its own type, each of its forms is gone through there.
pub fn discard(expr: Expr) {
    let_go(expr);
}

pub fn unary(alloc: Global, operator: Unary, operand: Expr) -> Result<Expr, NoMemory>
    ensures { IfOk result (λ tree. tree ≡ Expr.Unary operator operand) }
{
    Ok(Expr::Unary(operator, Boxed::new(alloc, operand)?))
}
