//! How deep a text nests.

ghost use Rattle.std.specs.Prelude.{◌≡◌};
ghost use Rattle.hv_grammar.specs.Nesting as nesting;

use hv_ast::Token;
use hv_grammar::{Kind, kind_of};

/// How many levels a text may nest.
pub const MOST_LEVELS: usize = 64;

/// The place of the first token that opens level 65 of brackets and CASE, None where no token does.
pub fn too_deep(tokens: &[Token]) -> Option<u64>
    ensures { result ≡ nesting.too_deep nesting.most_levels tokens.now }
{
    let mut room = MOST_LEVELS;
    for token in tokens {
        match kind_of(&token.what) {
            Kind::Open | Kind::OpenIndex | Kind::Case => {
                if room == 0 {
                    return Some(token.at);
                }
                room -= 1;
            }
            Kind::Close | Kind::CloseIndex | Kind::End => room += 1,
            _ => {}
        }
    }
    None
}
