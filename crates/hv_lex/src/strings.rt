//! Strings in quotes.

ghost use Rattle.std.specs.Prelude.{◌≡◌, ◌+◌, ◌<◌, ◌≤◌, ◌^◌, ◌++◌, ◌∷◌, ◌==◌, ◌&&◌, not, false, OnOk, OnErr, length};
ghost use Rattle.std.specs.Str.{IsUtf8};
ghost use Rattle.hv_ast.specs.Tokens.{closing, is_refused_escape, escape, unescaped, string};
ghost use Rattle.hv_lex.specs.Lexed.{IsRead, IsUnescaped, StepsOver};

use crate::fault::LexFault;
use crate::pieces::Piece;
use hv_ast::Lexeme;
use hv_base::{NoMemory, Text};
use std::alloc::Global;

/// Whether the byte is this one, and no backslash takes it.
fn is_free(taken: bool, byte: u8, wanted: u8) -> bool
    ensures { result ≡ (not taken && byte == wanted) }
{
    !taken && byte == wanted
}

/// How many bytes stand before the closing quote.
pub fn closing(quote: u8, text: &[u8]) -> Option<usize>
    ensures { result ≡ closing quote false text.now }
{
    let mut taken = false;
    for (at, byte) in text.iter().enumerate() {
        if is_free(taken, *byte, quote) {
            return Some(at);
        }
        taken = is_free(taken, *byte, b'\\');
    }
    None
}

/// Whether this escape of Hive is left out.
fn is_refused_escape(byte: u8) -> bool
    ensures { result ≡ is_refused_escape byte }
{
    byte.is_ascii_digit() || byte == b'b' || byte == b'u' || byte == b'Z'
}

/// Appends what a backslash and this byte stand for.
fn push_escape(content: &mut Vec<u8>, byte: u8) -> Result<(), NoMemory>
    ensures { OnOk result (content.new.items ≡ content.old.items ++ escape byte) }
{
    if byte == b'n' {
        content.push(b'\n')?;
    } else if byte == b't' {
        content.push(b'\t')?;
    } else if byte == b'r' {
        content.push(b'\r')?;
    } else if byte == b'%' || byte == b'_' {
        content.push(b'\\')?;
        content.push(byte)?;
    } else {
        content.push(byte)?;
    }
    Ok(())
}

/// Appends what one more character of a string stands for, and answers whether it is a backslash
/// that takes the next one. `taken` says whether a backslash takes this one.
fn push_character(content: &mut Vec<u8>, taken: bool, at: usize, byte: u8) -> Result<bool, LexFault>
    requires { 0 < at }
    ensures { StepsOver content.old.items content.new.items taken at byte result }
{
    if !taken {
        let takes = byte == b'\\';
        if !takes {
            content.push(byte)?;
        }
        return Ok(takes);
    }
    if is_refused_escape(byte) {
        return Err(LexFault::BadCharacter {
            at: (at - 1) as u64,
        });
    }
    push_escape(content, byte)?;
    Ok(false)
}

/// What the text between two quotes stands for, where it begins at `at`.
pub fn unescaped(alloc: Global, at: usize, text: &[u8]) -> Result<Vec<u8>, LexFault>
    requires { (0 < at) × (at + length text.now < 2 ^ 64) }
    ensures { IsUnescaped (unescaped false at text.now) result }
{
    let mut content = Vec::with_capacity(alloc, text.len())?;
    let mut taken = false;
    for (i, byte) in text.iter().enumerate() {
        taken = push_character(&mut content, taken, at + i, *byte)?;
    }
    Ok(content)
}

/// The string whose opening quote is at `at`, with the text behind it.
pub fn string(alloc: Global, at: usize, quote: u8, rest: &[u8]) -> Result<Piece, LexFault>
    requires room { at + length rest.now + 2 < 2 ^ 64 }
    requires ascii { quote < 128 }
    requires utf8 { IsUtf8 rest.now }
    ensures { IsRead (string at quote rest.now) result }
{
    let Some(length) = closing(quote, rest) else {
        return Err(LexFault::OpenString { at: at as u64 });
    };
    let content = unescaped(alloc, at + 1, &rest[..length])?;
    let text = Text::from_bytes(content);
    Ok(Piece::token(Lexeme::Str(text), length + 2))
}
