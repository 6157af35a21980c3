//! The tokens that are left to be read.

ghost use Rattle.std.specs.Prelude.{◌≡◌, length, Some};
ghost use Rattle.hv_grammar.specs.Readers as reader;
ghost use Rattle.hv_grammar.specs.Choices as choices;
ghost use Rattle.hv_grammar.specs.QueryReading as query;
ghost use Rattle.hv_grammar.specs.Reading as reading;
ghost use Rattle.hv_grammar.specs.StatementReading as statement;
ghost use Rattle.hv_parse_expr.specs.Lone as lone;
ghost use Rattle.hv_parse_expr.specs.Reads.{Reads, Holds};

use crate::fault::ReadFault;
use crate::names::is_name;
use crate::operators::{binds, is_literal};
use hv_ast::{CompactionKind, Expr, Lexeme, Literal, Token};
use hv_base::{Duplicate, Text};
use hv_grammar::{Kind, kind_of, same_kind};
use std::alloc::Global;
use std::marker::Model;

/// Tokens from the left. Contracts see them as the list of those that are left. The kind of the next
/// one is looked up as it becomes the next, and kept, however often it is looked at.
#[derive(Drop)]
pub struct Tokens<'a> {
    rest: &'a [Token],
    /// The kind of the next token.
    kind: Kind,
}

impl<'a> Model for Tokens<'a> {
    ghost use Rattle.std.specs.Prelude.{◌≡◌, List};
    ghost use Rattle.hv_ast.specs.declared.token.Token.{Token};
    ghost use Rattle.hv_grammar.specs.Readers.{kind_at};

    ghost Value = { List Token };

    ghost view = { λ tokens. tokens.rest.now };

    ghost invariant = { λ tokens. tokens.kind ≡ kind_at tokens.rest.now };
}

/// The kind of the first token.
#[tactic(auto, unfolding(hv_grammar::specs::Readers::kind_at))]
fn first_kind(tokens: &[Token]) -> Kind
    ensures { result ≡ reader.kind_at tokens.now }
{
    match tokens {
        [token, ..] => kind_of(&token.what),
        [] => Kind::Nothing,
    }
}

/// Whether the first token is of this kind.
#[tactic(auto, unfolding(hv_grammar::specs::Readers::sees))]
fn begins_with(tokens: &[Token], kind: Kind) -> bool
    ensures { result ≡ reader.sees kind tokens.now }
{
    same_kind(first_kind(tokens), kind)
}

impl<'a> Tokens<'a> {
    /// All of these tokens are left.
    pub fn new(rest: &'a [Token]) -> Tokens<'a>
        ensures { result ≡ rest.now }
    {
        Tokens {
            rest,
            kind: first_kind(rest),
        }
    }

    /// How many are left.
    pub fn left(&self) -> usize
        ensures { result ≡ length self.now }
    {
        self.rest.len()
    }

    /// The kind of the next token.
    pub fn peek(&self) -> Kind
        ensures { result ≡ reader.kind_at self.now }
    {
        self.kind
    }

    /// Passes the next token, whatever it is.
    #[tactic(auto, unfolding(hv_grammar::specs::Readers::next))]
    pub fn pass(&mut self)
        ensures { self.new ≡ reader.next self.old }
    {
        if let [_, rest @ ..] = self.rest {
            self.rest = rest;
            self.kind = first_kind(rest);
        }
    }

    /// Whether a token of this kind comes next.
    #[tactic(auto, unfolding(hv_grammar::specs::Readers::sees))]
    pub fn sees(&self, kind: Kind) -> bool
        ensures { result ≡ reader.sees kind self.now }
    {
        same_kind(self.peek(), kind)
    }

    /// Passes the next token if it is of this kind.
    #[tactic(auto, unfolding(hv_grammar::specs::Readers::after))]
    pub fn eat(&mut self, kind: Kind) -> bool
        ensures found { result ≡ reader.sees kind self.old }
        ensures after { self.new ≡ reader.after kind self.old }
    {
        let found = self.sees(kind);
        if found {
            self.pass();
        }
        found
    }

    /// Passes a token of this kind. Where another comes next, or none, it is `Syntax`, and all tokens
    /// are still left.
    #[tactic(auto, unfolding(hv_grammar::specs::Readers::expect))]
    pub fn expect(&mut self, kind: Kind) -> Result<(), ReadFault>
        ensures { Reads (reader.expect kind self.old) result self.new }
    {
        if self.sees(kind) {
            self.pass();
            Ok(())
        } else {
            Err(ReadFault::Syntax)
        }
    }

    /// `[mark | other]`, as whether `mark` stands there.
    #[tactic(auto, unfolding(hv_grammar::specs::Readers::either))]
    pub fn either(&mut self, mark: Kind, other: Kind) -> bool
        ensures { reader.either mark other self.old ≡ Some (result, self.new) }
    {
        if self.eat(mark) {
            return true;
        }
        self.eat(other);
        false
    }

    /// Whether `ident . *` comes next.
    #[tactic(auto, unfolding(hv_grammar::specs::QueryReading::sees_all_of, hv_grammar::specs::Readers::next))]
    pub fn sees_all_of(&self) -> bool
        ensures { result ≡ query.sees_all_of self.now }
    {
        let behind = self.rest.get(1..).unwrap_or_default();
        let last = self.rest.get(2..).unwrap_or_default();
        is_name(self.peek()) && begins_with(behind, Kind::Dot) && begins_with(last, Kind::Star)
    }

    /// The kind of the token behind the next one.
    #[tactic(auto, unfolding(hv_grammar::specs::Readers::next))]
    fn peek_behind(&self) -> Kind
        ensures { result ≡ reader.kind_at (reader.next self.now) }
    {
        let behind = self.rest.get(1..).unwrap_or_default();
        first_kind(behind)
    }

    /// Whether a number or a string comes next, before a token that can't continue it.
    pub(crate) fn sees_lone_literal(&self) -> bool
        ensures { result ≡ lone.sees_lone_literal self.now }
    {
        is_literal(self.peek()) && binds(self.peek_behind()) == 0
    }

    /// The text of the next word, keyword or not, or of an identifier between backquotes.
    #[tactic(auto, unfolding(hv_grammar::specs::Reading::word, hv_grammar::specs::Readers::held, hv_grammar::specs::Readers::next))]
    pub fn word(&mut self, alloc: Global) -> Result<Text, ReadFault>
        ensures { Reads (reading.word self.old) result self.new }
    {
        let [token, ..] = self.rest else {
            return Err(ReadFault::Syntax);
        };
        let text = word_in(alloc, token)?;
        self.pass();
        Ok(text)
    }

    /// A string.
    #[tactic(auto, unfolding(hv_grammar::specs::Reading::string, hv_grammar::specs::Readers::held, hv_grammar::specs::Readers::next))]
    pub fn string(&mut self, alloc: Global) -> Result<Text, ReadFault>
        ensures { Reads (reading.string self.old) result self.new }
    {
        let [token, ..] = self.rest else {
            return Err(ReadFault::Syntax);
        };
        let text = string_in(alloc, token)?;
        self.pass();
        Ok(text)
    }

    /// A number or a string as a literal.
    #[tactic(auto, unfolding(hv_grammar::specs::Reading::literal, hv_grammar::specs::Readers::held, hv_grammar::specs::Readers::next))]
    pub fn literal(&mut self, alloc: Global) -> Result<Expr, ReadFault>
        ensures { Reads (reading.literal self.old) result self.new }
    {
        let [token, ..] = self.rest else {
            return Err(ReadFault::Syntax);
        };
        let literal = literal_in(alloc, token)?;
        self.pass();
        Ok(Expr::Literal(literal))
    }

    /// A number from 0.
    #[tactic(auto, unfolding(hv_grammar::specs::QueryReading::number, hv_grammar::specs::Readers::held, hv_grammar::specs::Readers::next))]
    pub fn number(&mut self) -> Result<u64, ReadFault>
        ensures { Reads (query.number self.old) result self.new }
    {
        let [token, ..] = self.rest else {
            return Err(ReadFault::Syntax);
        };
        let number = number_in(token)?;
        self.pass();
        Ok(number)
    }

    /// `'minor'` or `'major'`, in any case.
    #[tactic(auto, unfolding(hv_grammar::specs::StatementReading::compaction, hv_grammar::specs::Readers::held, hv_grammar::specs::Readers::next))]
    pub fn compaction(&mut self) -> Result<CompactionKind, ReadFault>
        ensures { Reads (statement.compaction self.old) result self.new }
    {
        let [token, ..] = self.rest else {
            return Err(ReadFault::Syntax);
        };
        let kind = compaction_in(token)?;
        self.pass();
        Ok(kind)
    }
}

fn word_in(alloc: Global, token: &Token) -> Result<Text, ReadFault>
    ensures { Holds (choices.word_in token.now.what) result }
{
    match &token.what {
        Lexeme::Word(text) | Lexeme::Quoted(text) => Ok(text.duplicate(alloc)?),
        _ => Err(ReadFault::Syntax),
    }
}

fn string_in(alloc: Global, token: &Token) -> Result<Text, ReadFault>
    ensures { Holds (choices.string_in token.now.what) result }
{
    match &token.what {
        Lexeme::Str(text) => Ok(text.duplicate(alloc)?),
        _ => Err(ReadFault::Syntax),
    }
}

fn literal_in(alloc: Global, token: &Token) -> Result<Literal, ReadFault>
    ensures { Holds (choices.literal_in token.now.what) result }
{
    match &token.what {
        Lexeme::Int(number) => Ok(Literal::Int(*number)),
        Lexeme::Big(number) => Ok(Literal::Big(*number)),
        Lexeme::Str(text) => Ok(Literal::Str(text.duplicate(alloc)?)),
        _ => Err(ReadFault::Syntax),
    }
}

fn number_in(token: &Token) -> Result<u64, ReadFault>
    ensures { Holds (choices.number_in token.now.what) result }
{
    match &token.what {
        Lexeme::Int(number) => u64::try_from(*number).map_err(|_| ReadFault::Syntax),
        Lexeme::Big(number) => u64::try_from(*number).map_err(|_| ReadFault::Syntax),
        _ => Err(ReadFault::Syntax),
    }
}

fn compaction_in(token: &Token) -> Result<CompactionKind, ReadFault>
    ensures { Holds (choices.compaction_in token.now.what) result }
{
    let Lexeme::Str(text) = &token.what else {
        return Err(ReadFault::Syntax);
    };
    if text.as_str().eq_ignore_ascii_case("minor") {
        Ok(CompactionKind::Minor)
    } else if text.as_str().eq_ignore_ascii_case("major") {
        Ok(CompactionKind::Major)
    } else {
        Err(ReadFault::Syntax)
    }
}
