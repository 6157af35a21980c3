//! Types as they are written.

ghost use Rattle.std.specs.Prelude.{◌≡◌};
ghost use Rattle.hv_grammar.specs.Choices as choices;
ghost use Rattle.hv_grammar.specs.Reading as reading;
ghost use Rattle.hv_parse_expr.specs.Reads.{Reads};

use crate::fault::ReadFault;
use crate::tokens::Tokens;
use hv_ast::{ScalarName, TypeName};
use hv_grammar::Kind;

fn scalar_at(kind: Kind) -> Option<ScalarName>
    ensures { result ≡ choices.scalar_at kind }
{
    match kind {
        Kind::Boolean => Some(ScalarName::Boolean),
        Kind::Int => Some(ScalarName::Int),
        Kind::BigInt => Some(ScalarName::BigInt),
        Kind::String => Some(ScalarName::String),
        Kind::Date => Some(ScalarName::Date),
        _ => None,
    }
}

#[tactic(auto, unfolding(hv_grammar::specs::Reading::scalar))]
fn scalar(tokens: &mut Tokens<'_>) -> Result<ScalarName, ReadFault>
    ensures { Reads (reading.scalar tokens.old) result tokens.new }
{
    let Some(found) = scalar_at(tokens.peek()) else {
        return Err(ReadFault::Syntax);
    };
    tokens.pass();
    Ok(found)
}

/// Behind ARRAY, `< scalar >`.
#[tactic(auto, unfolding(hv_grammar::specs::Reading::array))]
fn array(tokens: &mut Tokens<'_>) -> Result<TypeName, ReadFault>
    ensures { Reads (reading.array tokens.old) result tokens.new }
{
    tokens.expect(Kind::Less)?;
    let of = scalar(tokens)?;
    tokens.expect(Kind::Greater)?;
    Ok(TypeName::Array(of))
}

/// `scalar | ARRAY < scalar >`
#[tactic(auto, unfolding(hv_grammar::specs::Reading::type_name))]
pub fn type_name(tokens: &mut Tokens<'_>) -> Result<TypeName, ReadFault>
    ensures { Reads (reading.type_name tokens.old) result tokens.new }
{
    if tokens.eat(Kind::Array) {
        array(tokens)
    } else {
        Ok(TypeName::Scalar(scalar(tokens)?))
    }
}
