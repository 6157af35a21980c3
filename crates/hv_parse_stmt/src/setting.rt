//! SET, which is read from its bytes: quotes and comments mean nothing behind that word.

ghost use Rattle.std.specs.Prelude.{◌≡◌, Some, codes, drop, false, position};
ghost use Rattle.std.specs.List.{prefix_len, suffix_len, take_while};
ghost use Rattle.std.specs.Option.{is_some, option_and_then};
ghost use Rattle.std.specs.Str.{IsUtf8, str_eq_ignore_ascii_case};
ghost use Rattle.hv_ast.specs.Tokens.{is_space, continues_word};
ghost use Rattle.hv_grammar.specs.Settings as settings;
ghost use Rattle.hv_parse_expr.specs.Reads.{Holds};
ghost use Rattle.hv_parse_stmt.specs.Told.{TellsSetting};

use hv_ast::{Setting, Stmt};
use hv_base::Text;
use hv_parse_expr::{ParseFault, ReadFault};
use std::alloc::Global;

fn is_space(byte: u8) -> bool
    ensures { result ≡ is_space byte }
{
    byte == b' ' || byte == b'\t' || byte == b'\r' || byte == b'\n'
}

fn continues_word(byte: u8) -> bool
    ensures { result ≡ continues_word byte }
{
    byte.is_ascii_alphanumeric() || byte == b'_'
}

/// The text behind the spaces and comments that it begins with.
fn behind_gaps(text: &[u8]) -> &[u8]
    ensures { result.now ≡ settings.behind_gaps false text.now }
{
    let mut rest = text;
    let mut comment = false;
    while let [first, behind @ ..] = rest {
        if comment {
            comment = *first != b'\n';
        } else if !is_space(*first) {
            if !rest.starts_with(b"--") {
                return rest;
            }
            comment = true;
        }
        rest = behind;
    }
    rest
}

/// How many characters of a word stand at the front.
fn word_length(text: &[u8]) -> usize
    ensures { result ≡ prefix_len continues_word text.now }
{
    text.iter()
        .take_while(|byte| continues_word(**byte))
        .count()
}

/// Whether SET is the word at the front.
fn begins_with_set(text: &[u8]) -> bool
    ensures { result ≡
        str_eq_ignore_ascii_case (take_while continues_word text.now) (codes "set") }
{
    let word = &text[..word_length(text)];
    word.eq_ignore_ascii_case(b"set")
}

/// Whether the first word of a text is SET, so that `parse_set` and not the lexer reads it.
#[tactic(auto, unfolding(hv_grammar::specs::Settings::behind_set))]
pub fn is_set(text: &Text) -> bool
    ensures { result ≡ is_some (settings.behind_set text.now) }
{
    begins_with_set(behind_gaps(text.bytes()))
}

fn leading_spaces(text: &[u8]) -> usize
    ensures { result ≡ prefix_len is_space text.now }
{
    text.iter().take_while(|byte| is_space(**byte)).count()
}

fn trailing_spaces(text: &[u8]) -> usize
    ensures { result ≡ suffix_len is_space text.now }
{
    text.iter()
        .rev()
        .take_while(|byte| is_space(**byte))
        .count()
}

/// Without its outer spaces.
fn trimmed(text: &[u8]) -> &[u8]
    ensures { result.now ≡ settings.trimmed text.now }
{
    let begun = text.get(leading_spaces(text)..).unwrap_or_default();
    let length = begun.len().saturating_sub(trailing_spaces(begun));
    &begun[..length]
}

fn text_of(alloc: Global, bytes: &[u8]) -> Result<Text, ReadFault>
    requires { IsUtf8 bytes.now }
    ensures { Holds (Some bytes.now) result }
{
    let copy = Vec::from_slice(alloc, bytes)?;
    Ok(Text::from_bytes(copy))
}

/// The setting of this key and value, none where the key is empty.
fn setting_by(alloc: Global, key: &[u8], value: &[u8]) -> Result<Setting, ReadFault>
    requires key { IsUtf8 key.now }
    requires value { IsUtf8 value.now }
    ensures { Holds (settings.setting_by key.now value.now) result }
{
    let [_, ..] = key else {
        return Err(ReadFault::Syntax);
    };
    let key = text_of(alloc, key)?;
    let value = text_of(alloc, value)?;
    Ok(Setting { key, value })
}

/// The place of the first `=`.
fn equals(text: &[u8]) -> Option<usize>
    ensures { result ≡ position settings.is_equals text.now }
{
    text.iter().position(|byte| *byte == b'=')
}

/// `key = value`, where the key goes to the first `=` and isn't empty.
#[tactic(auto, unfolding(hv_grammar::specs::Settings::setting_in))]
fn setting(alloc: Global, text: &[u8]) -> Result<Setting, ReadFault>
    requires { IsUtf8 text.now }
    ensures { Holds (settings.setting_in text.now) result }
{
    let Some(place) = equals(text) else {
        return Err(ReadFault::Syntax);
    };
    let key = trimmed(&text[..place]);
    let value = trimmed(&text[place + 1..]);
    setting_by(alloc, key, value)
}

/// What stands behind a word of three characters.
fn behind_word(text: &[u8]) -> &[u8]
    ensures { result.now ≡ drop 3 text.now }
{
    text.get(3..).unwrap_or_default()
}

#[tactic(auto, unfolding(hv_grammar::specs::Settings::behind_set))]
fn read_set(alloc: Global, text: &Text) -> Result<Setting, ReadFault>
    ensures { Holds (option_and_then settings.setting_in (settings.behind_set text.now)) result }
{
    let rest = behind_gaps(text.bytes());
    if !begins_with_set(rest) {
        return Err(ReadFault::Syntax);
    }
    setting(alloc, behind_word(rest))
}

/// The setting of a text whose first word is SET. `Syntax` comes where the first word is another,
/// where no `=` follows, and where the key before the first `=` is empty.
pub fn parse_set(text: &Text, alloc: Global) -> Result<Stmt, ParseFault>
    ensures { TellsSetting
        (option_and_then settings.setting_in (settings.behind_set text.now)) result }
{
    Ok(Stmt::Set(read_set(alloc, text)?))
}
