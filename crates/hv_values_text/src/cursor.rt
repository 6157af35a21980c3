//! What is left of a text, from the left.

ghost use Rattle.std.specs.Prelude.{◌≡◌, ◌==◌, IfOk, OnOk, length, slice_index};
ghost use Rattle.hv_values_text.specs.Bare.{HasQuoted};
ghost use Rattle.hv_values_text.specs.Fronts as fronts;
ghost use Rattle.hv_values_text.specs.Fronts.{IsMark, IsSingle, IsWord, IsName, IsNumber, IsQuoted};
ghost use Rattle.hv_values_text.specs.Passing.{Passes};
ghost use Rattle.hv_values_text.specs.Ways as ways;

use crate::fault::Unread;
use crate::fronts::{
    after, after_spaces, first_byte, let_go, literal_of, plain_length, small_value, test_text,
    text_of,
};
use hv_ast::Literal;
use hv_base::Text;
use hv_grammar::{Kind, same_kind, word_kind};
use hv_lex::{
    begins_word, closing, continues_word, digits_length, is_quote, lower_case, unescaped,
    word_length,
};
use std::alloc::Global;
use std::marker::Model;

/// The bytes that are left of a text. Contracts see it as their list. Where something is passed, the
/// spaces before it are passed too.
#[derive(Drop)]
pub struct Cursor<'a> {
    rest: &'a [u8],
}

impl<'a> Model for Cursor<'a> {
    ghost use Rattle.std.specs.Prelude.{List, ℕ};

    ghost Value = { List ℕ };

    ghost view = { λ cursor. cursor.rest.now };
}

impl<'a> Cursor<'a> {
    /// All of these bytes are left.
    pub fn new(rest: &'a [u8]) -> Cursor<'a>
        ensures { result ≡ rest.now }
    {
        Cursor { rest }
    }

    /// How many are left.
    pub fn left(&self) -> usize
        ensures { result ≡ length self.now }
    {
        self.rest.len()
    }

    /// What is left after spaces.
    fn front(&self) -> &'a [u8]
        ensures { result.now ≡ fronts.after_spaces self.now }
    {
        after_spaces(self.rest)
    }

    /// The next byte, 0 where none is left.
    pub fn next(&self) -> u8
        ensures { result ≡ fronts.next_of self.now }
    {
        first_byte(self.front())
    }

    /// What stands after the next byte.
    fn inner(&self) -> &'a [u8]
        ensures { result.now ≡ fronts.after_next self.now }
    {
        after(self.front(), 1)
    }

    /// Whether nothing is left but spaces.
    pub fn is_done(&self) -> bool
        ensures { result ≡ ways.is_nothing (fronts.after_spaces self.now) }
    {
        match self.front() {
            [] => true,
            [_, ..] => false,
        }
    }

    /// Whether this byte comes next.
    pub fn sees(&self, byte: u8) -> bool
        ensures { result ≡ (fronts.next_of self.now == byte) }
    {
        self.next() == byte
    }

    /// Passes the next byte, whatever it is.
    pub fn pass(&mut self)
        ensures { self.new ≡ fronts.after_next self.old }
    {
        self.rest = self.inner();
    }

    /// Passes this byte.
    #[tactic(auto, unfolding(crate::specs::Ways::mark))]
    pub fn expect(&mut self, byte: u8) -> Result<(), Unread>
        ensures front { IfOk result (λ _. IsMark byte self.old self.new) }
        ensures known { Passes (ways.mark byte self.old) result self.new }
    {
        if !self.sees(byte) {
            return Err(Unread::Unknown);
        }
        self.pass();
        Ok(())
    }

    /// Whether this byte comes next, without a space before it.
    fn touches(&self, byte: u8) -> bool
        ensures { result ≡ (slice_index self.now 0 == byte) }
    {
        first_byte(self.rest) == byte
    }

    /// Passes this byte, where it doesn't stand there twice.
    #[tactic(auto, unfolding(crate::specs::Ways::single))]
    pub fn expect_single(&mut self, byte: u8) -> Result<(), Unread>
        ensures front { IfOk result (λ _. IsSingle byte self.old self.new) }
        ensures known { Passes (ways.single byte self.old) result self.new }
    {
        self.expect(byte)?;
        if self.touches(byte) {
            return Err(Unread::Unknown);
        }
        Ok(())
    }

    /// Whether this word comes next, in any case.
    pub fn sees_word(&self, word: &[u8]) -> bool
        ensures { result ≡ fronts.sees_word word.now self.now }
    {
        let rest = self.front();
        let letters = &rest[..word_length(rest)];
        begins_word(first_byte(rest)) && letters.eq_ignore_ascii_case(word)
    }

    /// Passes the letters that come next.
    pub fn pass_word(&mut self)
        ensures { self.new ≡ fronts.after_letters self.old }
    {
        let rest = self.front();
        self.rest = after(rest, word_length(rest));
    }

    /// Passes this word, in any case.
    #[tactic(auto, unfolding(crate::specs::Ways::word))]
    pub fn expect_word(&mut self, word: &[u8]) -> Result<(), Unread>
        ensures front { IfOk result (λ _. IsWord word.now self.old self.new) }
        ensures known { Passes (ways.word word.now self.old) result self.new }
    {
        if !self.sees_word(word) {
            return Err(Unread::Unknown);
        }
        self.pass_word();
        Ok(())
    }

    /// Passes a word that is no keyword.
    #[tactic(auto, unfolding(crate::specs::Ways::name))]
    pub fn name(&mut self, alloc: Global) -> Result<Text, Unread>
        ensures front { IfOk result (λ name. IsName name self.old self.new) }
        ensures known { Passes (ways.name self.old) result self.new }
    {
        let rest = self.front();
        if !begins_word(first_byte(rest)) {
            return Err(Unread::Unknown);
        }
        let length = word_length(rest);
        let name = lower_case(alloc, &rest[..length])?;
        if !same_kind(word_kind(name.as_str()), Kind::Name) {
            return Err(Unread::Unknown);
        }
        self.rest = after(rest, length);
        Ok(name)
    }

    /// Passes a number without a mark.
    #[tactic(auto, unfolding(crate::specs::Ways::number))]
    pub fn number(&mut self) -> Result<Literal, Unread>
        ensures front { IfOk result (λ literal. IsNumber literal self.old self.new) }
        ensures known { Passes (ways.number self.old) result self.new }
    {
        let rest = self.front();
        if !first_byte(rest).is_ascii_digit() {
            return Err(Unread::Unknown);
        }
        let length = digits_length(rest);
        let after = after(rest, length);
        if continues_word(first_byte(after)) {
            return Err(Unread::Unknown);
        }
        let value = small_value(&rest[..length])?;
        self.rest = after;
        Ok(literal_of(value))
    }

    /// Passes a text in quotes, whatever stands between them.
    #[tactic(auto, unfolding(crate::specs::Ways::quoted))]
    fn escaped(&mut self, alloc: Global) -> Result<Text, Unread>
        ensures front { IfOk result (λ content. IsQuoted content self.old self.new) }
        ensures known { Passes (ways.quoted self.old) result self.new }
    {
        let quote = self.next();
        let inner = self.inner();
        if !is_quote(quote) {
            return Err(Unread::Unknown);
        }
        let Some(length) = closing(quote, inner) else {
            return Err(Unread::Unknown);
        };
        let content = unescaped(alloc, 1, &inner[..length])?;
        let text = text_of(content)?;
        let last = after(inner, length);
        self.rest = after(last, 1);
        Ok(text)
    }

    /// Passes a text in quotes. One without a backslash is copied as it stands.
    pub fn quoted(&mut self, alloc: Global) -> Result<Text, Unread>
        ensures front { IfOk result (λ content. IsQuoted content self.old self.new) }
        ensures known { Passes (ways.quoted self.old) result self.new }
    {
        let quote = self.next();
        let inner = self.inner();
        let length = plain_length(quote, inner);
        let last = after(inner, length);
        if !is_quote(quote) || first_byte(last) != quote {
            return self.escaped(alloc);
        }
        let content = Vec::from_slice(alloc, &inner[..length])?;
        let text = text_of(content)?;
        self.rest = after(last, 1);
        Ok(text)
    }

    /// Passes over a text in quotes, whatever stands between them.
    fn skim_escaped(&mut self, alloc: Global) -> Result<(), Unread>
        ensures front { OnOk result (HasQuoted self.old self.new) }
        ensures known { Passes (ways.quoted self.old) result self.new }
    {
        let content = self.escaped(alloc)?;
        let_go(content);
        Ok(())
    }

    /// Passes over a text in quotes. One without a backslash takes no memory.
    pub fn skim_quoted(&mut self, alloc: Global) -> Result<(), Unread>
        ensures front { OnOk result (HasQuoted self.old self.new) }
        ensures known { Passes (ways.quoted self.old) result self.new }
    {
        let quote = self.next();
        let inner = self.inner();
        let length = plain_length(quote, inner);
        let last = after(inner, length);
        if !is_quote(quote) || first_byte(last) != quote {
            return self.skim_escaped(alloc);
        }
        test_text(&inner[..length])?;
        self.rest = after(last, 1);
        Ok(())
    }
}
