//! Symbols.

ghost use Rattle.std.specs.Prelude.{◌≡◌, find, map};
ghost use Rattle.std.specs.Option.{option_map};
ghost use Rattle.hv_ast.specs.Tokens.{symbol, symbols};
ghost use Rattle.hv_lex.specs.Lexed.{IsRead, begins, row_of};

use crate::fault::LexFault;
use crate::pieces::Piece;
use hv_ast::{Lexeme, Symbol};

/// How a symbol is spelled, and the symbol.
#[derive(Clone, Copy)]
struct Row(&'static str, Symbol);

/// The symbols, each before those that it begins with.
static SYMBOLS: [Row; 19] = [
    Row("<=>", Symbol::NullSafeEqual),
    Row("==", Symbol::EqualTwice),
    Row("<>", Symbol::Unequal),
    Row("!=", Symbol::BangEqual),
    Row("<=", Symbol::AtMost),
    Row(">=", Symbol::AtLeast),
    Row("=", Symbol::Equal),
    Row("<", Symbol::Less),
    Row(">", Symbol::Greater),
    Row("(", Symbol::Open),
    Row(")", Symbol::Close),
    Row("[", Symbol::OpenIndex),
    Row("]", Symbol::CloseIndex),
    Row(",", Symbol::Comma),
    Row(".", Symbol::Dot),
    Row("*", Symbol::Star),
    Row("+", Symbol::Plus),
    Row("-", Symbol::Minus),
    Row("%", Symbol::Percent),
];

/// The first row whose spelling the text begins with.
fn first_row(text: &[u8], rows: &[Row]) -> Option<Row>
    ensures { option_map row_of result ≡ find (begins text.now) (map row_of rows.now) }
{
    for row in rows {
        if text.starts_with(row.0.as_bytes()) {
            return Some(*row);
        }
    }
    None
}

/// The symbol that the text begins with. Those that are no front of another are told by their byte.
#[tactic(auto, unfolding(hv_ast::specs::Tokens::symbols))]
fn spelled(text: &[u8]) -> Option<Row>
    ensures { option_map row_of result ≡ find (begins text.now) symbols }
{
    match text {
        [b'(', ..] => Some(Row("(", Symbol::Open)),
        [b')', ..] => Some(Row(")", Symbol::Close)),
        [b'[', ..] => Some(Row("[", Symbol::OpenIndex)),
        [b']', ..] => Some(Row("]", Symbol::CloseIndex)),
        [b',', ..] => Some(Row(",", Symbol::Comma)),
        [b'.', ..] => Some(Row(".", Symbol::Dot)),
        [b'*', ..] => Some(Row("*", Symbol::Star)),
        [b'+', ..] => Some(Row("+", Symbol::Plus)),
        [b'-', ..] => Some(Row("-", Symbol::Minus)),
        [b'%', ..] => Some(Row("%", Symbol::Percent)),
        _ => first_row(text, &SYMBOLS),
    }
}

/// The symbol at the front, which is at `at`.
pub fn symbol(at: usize, text: &[u8]) -> Result<Piece, LexFault>
    ensures { IsRead (symbol at text.now) result }
{
    match spelled(text) {
        Some(Row(spelling, symbol)) => Ok(Piece::token(Lexeme::Symbol(symbol), spelling.len())),
        None => Err(LexFault::BadCharacter { at: at as u64 }),
    }
}
