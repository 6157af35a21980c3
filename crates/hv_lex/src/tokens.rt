ghost use Rattle.std.specs.Prelude.{◌≡◌, ◌++◌, Ok, OnOk, IfOk, IfErr};
ghost use Rattle.hv_ast.specs.Tokens.{tokens_of};
ghost use Rattle.hv_lex.specs.Lexed.{Tells, kept};

use crate::fault::LexFault;
use crate::fronts::front;
use hv_ast::{Lexeme, Token};
use hv_base::{NoMemory, Text};
use std::alloc::Global;

/// Appends the token that stands at this place, if one does.
fn keep(tokens: &mut Vec<Token>, at: usize, what: Option<Lexeme>) -> Result<(), NoMemory>
    ensures { OnOk result (tokens.new.items ≡ tokens.old.items ++ kept at what) }
{
    if let Some(what) = what {
        tokens.push(Token {
            what,
            at: at as u64,
        })?;
    }
    Ok(())
}

/// The tokens of a text, in its order. The error is the text's first fault by place.
#[tactic(auto, unfolding(hv_ast::specs::Tokens::tokens_of))]
pub fn lex(alloc: Global, text: &Text) -> Result<Vec<Token>, LexFault>
    ensures tokens { IfOk result (λ tokens. tokens_of text.now ≡ Ok tokens.items) }
    ensures fault { IfErr result (λ e. Tells e (tokens_of text.now)) }
{
    let bytes = text.bytes();
    let mut tokens = Vec::new(alloc);
    let mut at = 0;
    while at < bytes.len() {
        let piece = front(alloc, at, &bytes[at..])?;
        keep(&mut tokens, at, piece.what)?;
        at += piece.length;
    }
    Ok(tokens)
}
