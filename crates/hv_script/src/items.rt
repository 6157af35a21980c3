ghost use Rattle.std.specs.Prelude.{◌≡◌};
ghost use Rattle.hv_script.specs.Items.{blank, opens_quote, opens_comment, behind, move_of};

use hv_base::List;

/// An item of a script: the line on which it begins, from 1, and its bytes. A directive begins with
/// an exclamation mark; any other item is a statement's text.
#[derive(Drop)]
pub struct Item {
    pub line: u64,
    pub bytes: List<u8>,
}

/// Where a byte of a script stands.
#[derive(Clone, Copy)]
pub enum Stand {
    /// Between two items.
    Between,
    /// In a comment between two items.
    Skipped,
    /// In a line that begins with an exclamation mark.
    Directive,
    /// In a text, outside strings, backquotes and comments.
    Outside,
    /// In a comment of a text.
    Comment,
    /// In a string or in backquotes, which end at the next byte like this one.
    Quoted(u8),
    /// Behind a backslash in such a string.
    Escaped(u8),
}

/// What a byte is to the items: with where the next byte stands.
#[derive(Clone, Copy)]
pub enum Move {
    /// It belongs to no item.
    Skip(Stand),
    /// It is the first byte of an item.
    Begin(Stand),
    /// It is the next byte of the item.
    Keep(Stand),
    /// It ends the item and isn't part of it.
    Finish,
    /// It ends an item that has no byte.
    Lone,
}

fn is_blank(byte: u8) -> bool
    ensures value { result ≡ blank byte }
{
    matches!(byte, b' ' | b'\t' | b'\r' | b'\n')
}

fn is_quote(byte: u8) -> bool
    ensures value { result ≡ opens_quote byte }
{
    matches!(byte, b'\'' | b'"' | b'`')
}

fn is_comment(byte: u8, next: Option<u8>) -> bool
    ensures value { result ≡ opens_comment byte next }
{
    match next {
        None => false,
        Some(next) => byte == b'-' && next == b'-',
    }
}

fn stand_behind(byte: u8, next: Option<u8>) -> Stand
    ensures value { result ≡ behind byte next }
{
    if is_quote(byte) {
        Stand::Quoted(byte)
    } else if is_comment(byte, next) {
        Stand::Comment
    } else {
        Stand::Outside
    }
}

/// What a byte is, by where it stands and by the byte behind it.
pub fn step(stand: Stand, byte: u8, next: Option<u8>) -> Move
    ensures value { result ≡ move_of stand byte next }
{
    match stand {
        Stand::Between => between(byte, next),
        Stand::Skipped if byte == b'\n' => Move::Skip(Stand::Between),
        Stand::Skipped => Move::Skip(Stand::Skipped),
        Stand::Directive if byte == b'\n' => Move::Finish,
        Stand::Directive => Move::Keep(Stand::Directive),
        Stand::Outside if byte == b';' => Move::Finish,
        Stand::Outside => Move::Keep(stand_behind(byte, next)),
        Stand::Comment if byte == b'\n' => Move::Keep(Stand::Outside),
        Stand::Comment => Move::Keep(Stand::Comment),
        Stand::Quoted(quote) if byte == quote => Move::Keep(Stand::Outside),
        Stand::Quoted(quote) if byte == b'\\' && quote != b'`' => Move::Keep(Stand::Escaped(quote)),
        Stand::Quoted(quote) => Move::Keep(Stand::Quoted(quote)),
        Stand::Escaped(quote) => Move::Keep(Stand::Quoted(quote)),
    }
}

fn between(byte: u8, next: Option<u8>) -> Move
    ensures value { result ≡ move_of Stand.Between byte next }
{
    if is_blank(byte) {
        Move::Skip(Stand::Between)
    } else if is_comment(byte, next) {
        Move::Skip(Stand::Skipped)
    } else if byte == b'!' {
        Move::Begin(Stand::Directive)
    } else if byte == b';' {
        Move::Lone
    } else {
        Move::Begin(stand_behind(byte, next))
    }
}
