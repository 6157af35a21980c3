//! Lateral views.

ghost use Rattle.hv_grammar.specs.QueryReading as reading;
ghost use Rattle.hv_grammar.specs.Reading.{any_expr};
ghost use Rattle.hv_parse_expr.specs.Reads.{Reads};

use hv_ast::{Explode, Expr, Lateral};
use hv_base::{Boxed, List};
use hv_grammar::Kind;
use hv_parse_expr::{ReadFault, Tokens, any_expr_up_to, name, pushed};
use std::alloc::Global;

/// `( expr )`, boxed, so that a caller that leaves early drops a box and not each form of an
/// expression.
#[tactic(auto, unfolding(hv_grammar::specs::QueryReading::exploded, hv_parse_expr::specs::UpTo::up_to))]
fn exploded(alloc: Global, tokens: &mut Tokens<'_>) -> Result<Boxed<Expr>, ReadFault>
    ensures { Reads (reading.exploded any_expr tokens.old) result tokens.new }
{
    tokens.expect(Kind::Open)?;
    any_expr_up_to(alloc, tokens, Kind::Close)
}

/// Behind EXPLODE: `( expr ) ident [AS ident]`
#[tactic(auto, unfolding(hv_grammar::specs::QueryReading::elements))]
fn elements(alloc: Global, tokens: &mut Tokens<'_>, outer: bool) -> Result<Lateral, ReadFault>
    ensures { Reads (reading.elements any_expr outer tokens.old) result tokens.new }
{
    let array = exploded(alloc, tokens)?;
    let alias = name(alloc, tokens)?;
    let column = if tokens.eat(Kind::As) {
        Some(name(alloc, tokens)?)
    } else {
        None
    };
    Ok(Lateral {
        outer,
        array: array.into_inner(),
        alias,
        explode: Explode::Elements(column),
    })
}

/// Behind POSEXPLODE: `( expr ) ident AS ident , ident`
#[tactic(auto, unfolding(hv_grammar::specs::QueryReading::positions))]
fn positions(alloc: Global, tokens: &mut Tokens<'_>, outer: bool) -> Result<Lateral, ReadFault>
    ensures { Reads (reading.positions any_expr outer tokens.old) result tokens.new }
{
    let array = exploded(alloc, tokens)?;
    let alias = name(alloc, tokens)?;
    tokens.expect(Kind::As)?;
    let position = name(alloc, tokens)?;
    tokens.expect(Kind::Comma)?;
    let element = name(alloc, tokens)?;
    Ok(Lateral {
        outer,
        array: array.into_inner(),
        alias,
        explode: Explode::Positions(position, element),
    })
}

/// Behind LATERAL: `VIEW [OUTER]`, and then EXPLODE or POSEXPLODE.
#[tactic(auto, unfolding(hv_grammar::specs::QueryReading::lateral))]
fn lateral(alloc: Global, tokens: &mut Tokens<'_>) -> Result<Lateral, ReadFault>
    ensures { Reads (reading.lateral any_expr tokens.old) result tokens.new }
{
    tokens.expect(Kind::View)?;
    let outer = tokens.eat(Kind::Outer);
    if tokens.eat(Kind::Explode) {
        return elements(alloc, tokens, outer);
    }
    tokens.expect(Kind::PosExplode)?;
    positions(alloc, tokens, outer)
}

/// `{LATERAL VIEW ..}`
#[tactic(auto, unfolding(hv_grammar::specs::QueryReading::laterals))]
pub fn laterals(alloc: Global, tokens: &mut Tokens<'_>) -> Result<List<Lateral>, ReadFault>
    ensures { Reads (reading.laterals any_expr tokens.old) result tokens.new }
{
    let mut found = Vec::new(alloc);
    for _turn in 0..tokens.left() {
        if !tokens.eat(Kind::Lateral) {
            break;
        }
        found = pushed(found, lateral(alloc, tokens))?;
    }
    Ok(List::from_vec(found))
}
