//! What a text begins with.

ghost use Rattle.std.specs.Prelude.{◌≡◌, ◌==◌, ◌+◌, ◌<◌, ◌^◌, length, not, slice_index};
ghost use Rattle.std.specs.List.{prefix_len};
ghost use Rattle.std.specs.Str.{IsUtf8};
ghost use Rattle.hv_ast.specs.Tokens.{is_space, is_quote, front};
ghost use Rattle.hv_lex.specs.Lexed.{IsRead};

use crate::fault::LexFault;
use crate::numbers::number;
use crate::pieces::Piece;
use crate::strings::string;
use crate::symbols::symbol;
use crate::words::{begins_word, quoted, word};
use std::alloc::Global;

/// A space, a tab, CR or LF.
pub fn is_space(byte: u8) -> bool
    ensures { result ≡ is_space byte }
{
    byte == b' ' || byte == b'\t' || byte == b'\r' || byte == b'\n'
}

/// A single or a double quote.
pub fn is_quote(byte: u8) -> bool
    ensures { result ≡ is_quote byte }
{
    byte == b'\'' || byte == b'"'
}

/// How many bytes stand before the line's end.
fn line_length(text: &[u8]) -> usize
    ensures { result ≡ prefix_len (λ byte. not (byte == 10)) text.now }
{
    text.iter().take_while(|byte| **byte != b'\n').count()
}

/// What a text begins with, whose first byte is at `at`.
pub fn front(alloc: Global, at: usize, text: &[u8]) -> Result<Piece, LexFault>
    requires some { 0 < length text.now }
    requires room { at + length text.now + 2 < 2 ^ 64 }
    requires utf8 { slice_index text.now 0 < 128 → IsUtf8 text.now }
    ensures { IsRead (front at text.now) result }
{
    let first = text[0];
    if is_space(first) {
        Ok(Piece::gap(1))
    } else if text.starts_with(b"--") {
        Ok(Piece::gap(line_length(text)))
    } else if begins_word(first) {
        word(alloc, text)
    } else if first.is_ascii_digit() {
        number(at, text)
    } else if is_quote(first) {
        string(alloc, at, first, &text[1..])
    } else if first == b'`' {
        quoted(alloc, at, &text[1..])
    } else {
        symbol(at, text)
    }
}
