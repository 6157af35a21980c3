//! Names, as columns, tables and functions have them.

ghost use Rattle.std.specs.Prelude.{◌≡◌};
ghost use Rattle.hv_grammar.specs.Choices as choices;
ghost use Rattle.hv_grammar.specs.Kinds as kinds;
ghost use Rattle.hv_grammar.specs.Reading as reading;
ghost use Rattle.hv_parse_expr.specs.Reads.{Reads};

use crate::fault::ReadFault;
use crate::tokens::Tokens;
use hv_ast::{Expr, Literal};
use hv_base::Text;
use hv_grammar::{Kind, word_kind};
use std::alloc::Global;

/// Whether a name may be spelled so: a word that is no keyword here, or an identifier between
/// backquotes.
pub fn is_name(kind: Kind) -> bool
    ensures { result ≡ choices.is_name kind }
{
    match kind {
        Kind::Name => true,
        Kind::Abort | Kind::Asc | Kind::Buckets => true,
        Kind::Clustered | Kind::Comment | Kind::Compact => true,
        Kind::Compactions | Kind::Count | Kind::Default => true,
        Kind::Desc | Kind::Explain | Kind::Explode => true,
        Kind::Formatted | Kind::Locks | Kind::Matched => true,
        Kind::Orc | Kind::Partitioned | Kind::Partitions => true,
        Kind::PosExplode | Kind::Purge | Kind::Semi => true,
        Kind::Show | Kind::Stored | Kind::String => true,
        Kind::Tables | Kind::TblProperties | Kind::Transactions => true,
        _ => false,
    }
}

/// Whether a word in lower case is reserved, and so no identifier. An identifier between backquotes
/// never is, whatever its characters.
pub fn is_reserved(word: &Text) -> bool
    ensures { result ≡ kinds.is_reserved word.now }
{
    !is_name(word_kind(word.as_str()))
}

/// `ident`
#[tactic(auto, unfolding(hv_grammar::specs::Reading::name))]
pub fn name(alloc: Global, tokens: &mut Tokens<'_>) -> Result<Text, ReadFault>
    ensures { Reads (reading.name tokens.old) result tokens.new }
{
    if is_name(tokens.peek()) {
        tokens.word(alloc)
    } else {
        Err(ReadFault::Syntax)
    }
}

/// Behind DATE, the string.
#[tactic(auto, unfolding(hv_grammar::specs::Reading::date))]
pub fn date(alloc: Global, tokens: &mut Tokens<'_>) -> Result<Expr, ReadFault>
    ensures { Reads (reading.date tokens.old) result tokens.new }
{
    Ok(Expr::Literal(Literal::Date(tokens.string(alloc)?)))
}

/// Behind the first name, `[. ident]`.
#[tactic(auto, unfolding(hv_grammar::specs::Reading::column))]
pub fn column(alloc: Global, tokens: &mut Tokens<'_>, first: Text) -> Result<Expr, ReadFault>
    ensures { Reads (reading.column first tokens.old) result tokens.new }
{
    if tokens.eat(Kind::Dot) {
        Ok(Expr::Column(Some(first), name(alloc, tokens)?))
    } else {
        Ok(Expr::Column(None, first))
    }
}
