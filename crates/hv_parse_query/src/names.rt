//! Names of tables, and aliases.

ghost use Rattle.std.specs.Prelude.{◌≡◌};
ghost use Rattle.hv_grammar.specs.Choices as choices;
ghost use Rattle.hv_grammar.specs.QueryReading as reading;
ghost use Rattle.hv_parse_expr.specs.Reads.{Reads};

use hv_base::Text;
use hv_grammar::{Kind, same_kind};
use hv_parse_expr::{ReadFault, Tokens, is_name, name};
use std::alloc::Global;

/// `[DEFAULT .] ident`, a table's name without the word DEFAULT.
#[tactic(auto, unfolding(hv_grammar::specs::QueryReading::table_name))]
pub fn table_name(alloc: Global, tokens: &mut Tokens<'_>) -> Result<Text, ReadFault>
    ensures { Reads (reading.table_name tokens.old) result tokens.new }
{
    let kind = tokens.peek();
    let first = name(alloc, tokens)?;
    if !tokens.eat(Kind::Dot) {
        return Ok(first);
    }
    if same_kind(kind, Kind::Default) {
        name(alloc, tokens)
    } else {
        Err(ReadFault::Syntax)
    }
}

/// `[AS] ident`
#[tactic(auto, unfolding(hv_grammar::specs::QueryReading::alias))]
pub fn alias(alloc: Global, tokens: &mut Tokens<'_>) -> Result<Text, ReadFault>
    ensures { Reads (reading.alias tokens.old) result tokens.new }
{
    tokens.eat(Kind::As);
    name(alloc, tokens)
}

/// Whether an alias begins with such a token.
fn begins_alias(kind: Kind) -> bool
    ensures { result ≡ choices.begins_alias kind }
{
    match kind {
        Kind::As => true,
        _ => is_name(kind),
    }
}

/// `[[AS] ident]`
#[tactic(auto, unfolding(hv_grammar::specs::QueryReading::optional_alias))]
pub fn optional_alias(alloc: Global, tokens: &mut Tokens<'_>) -> Result<Option<Text>, ReadFault>
    ensures { Reads (reading.optional_alias tokens.old) result tokens.new }
{
    if begins_alias(tokens.peek()) {
        Ok(Some(alias(alloc, tokens)?))
    } else {
        Ok(None)
    }
}
