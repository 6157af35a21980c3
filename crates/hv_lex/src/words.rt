//! Words, and identifiers in backquotes.

ghost use Rattle.std.specs.Prelude.{◌≡◌, ◌+◌, ◌<◌, ◌^◌, IfOk, length, map, position, not};
ghost use Rattle.std.specs.List.{prefix_len};
ghost use Rattle.std.specs.Char.{to_ascii_lowercase};
ghost use Rattle.std.specs.Str.{IsAscii};
ghost use Rattle.hv_ast.specs.Tokens.{begins_word, continues_word, is_printable, is_backquote, word, quoted, name_of};
ghost use Rattle.hv_lex.specs.Lexed.{IsRead};

use crate::fault::LexFault;
use crate::pieces::Piece;
use hv_ast::Lexeme;
use hv_base::{NoMemory, Text};
use std::alloc::Global;

/// Whether a word may begin with this character.
pub fn begins_word(byte: u8) -> bool
    ensures { result ≡ begins_word byte }
{
    byte.is_ascii_alphabetic() || byte == b'_'
}

/// Whether a word may go on with this character.
pub fn continues_word(byte: u8) -> bool
    ensures { result ≡ continues_word byte }
{
    byte.is_ascii_alphanumeric() || byte == b'_'
}

/// How many characters of a word stand at the front.
pub fn word_length(text: &[u8]) -> usize
    ensures { result ≡ prefix_len continues_word text.now }
{
    text.iter()
        .take_while(|byte| continues_word(**byte))
        .count()
}

fn lowered(alloc: Global, letters: &[u8]) -> Result<Vec<u8>, NoMemory>
    ensures { IfOk result (λ lowered. lowered.items ≡ map to_ascii_lowercase letters.now) }
{
    let lowered = letters
        .iter()
        .map(|byte| byte.to_ascii_lowercase())
        .collect(alloc)?;
    Ok(lowered)
}

/// ASCII characters in lower case.
pub fn lower_case(alloc: Global, letters: &[u8]) -> Result<Text, NoMemory>
    requires { IsAscii letters.now }
    ensures { IfOk result (λ text. text ≡ map to_ascii_lowercase letters.now) }
{
    let lowered = lowered(alloc, letters)?;
    Ok(Text::from_bytes(lowered))
}

/// The word at the front.
pub fn word(alloc: Global, text: &[u8]) -> Result<Piece, LexFault>
    ensures { IsRead (word text.now) result }
{
    let length = word_length(text);
    let letters = lower_case(alloc, &text[..length])?;
    Ok(Piece::token(Lexeme::Word(letters), length))
}

/// Whether an identifier in backquotes may hold this character.
fn is_printable(byte: u8) -> bool
    ensures { result ≡ is_printable byte }
{
    32 <= byte && byte < 127
}

/// The place of the first backquote.
fn backquote(text: &[u8]) -> Option<usize>
    ensures { result ≡ position is_backquote text.now }
{
    text.iter().position(|byte| *byte == b'`')
}

/// The place of the first character that is not printable.
fn unprintable(name: &[u8]) -> Option<usize>
    ensures { result ≡ position (λ byte. not (is_printable byte)) name.now }
{
    name.iter().position(|byte| !is_printable(*byte))
}

/// The identifier between two backquotes, the first of them at `at`.
fn name(alloc: Global, at: usize, name: &[u8]) -> Result<Piece, LexFault>
    requires { at + length name.now + 2 < 2 ^ 64 }
    ensures { IsRead
        (name_of at name.now (position (λ byte. not (is_printable byte)) name.now)) result }
{
    if name.is_empty() {
        return Err(LexFault::BadCharacter { at: at as u64 });
    }
    match unprintable(name) {
        Some(bad) => Err(LexFault::BadCharacter {
            at: (at + 1 + bad) as u64,
        }),
        None => {
            let length = name.len() + 2;
            let name = lower_case(alloc, name)?;
            Ok(Piece::token(Lexeme::Quoted(name), length))
        }
    }
}

/// The identifier whose opening backquote is at `at`, with the text behind it.
pub fn quoted(alloc: Global, at: usize, rest: &[u8]) -> Result<Piece, LexFault>
    requires { at + length rest.now + 2 < 2 ^ 64 }
    ensures { IsRead (quoted at rest.now) result }
{
    match backquote(rest) {
        Some(length) => name(alloc, at, &rest[..length]),
        None => Err(LexFault::OpenString { at: at as u64 }),
    }
}
