//! What a query is made of besides its sources: conditions, keys and items.

ghost use Rattle.std.specs.Prelude.{◌≡◌};
ghost use Rattle.hv_grammar.specs.declared.kind.Kind.TheVariants as k;
ghost use Rattle.hv_grammar.specs.QueryReading as reading;
ghost use Rattle.hv_grammar.specs.Readers.{perhaps};
ghost use Rattle.hv_grammar.specs.Reading.{any_expr};
ghost use Rattle.hv_parse_expr.specs.Reads.{Reads};

use crate::names::optional_alias;
use hv_ast::{Expr, Item, Key};
use hv_base::{Boxed, List};
use hv_grammar::Kind;
use hv_parse_expr::{ReadFault, Tokens, any_expr, expr_list, name, pushed};
use std::alloc::Global;

/// `[word expr]`, where the word is of this kind, as WHERE, HAVING or ON. It is boxed, so that a caller
/// that leaves early drops a box and not each form of an expression.
#[tactic(auto, unfolding(hv_grammar::specs::QueryReading::condition))]
pub fn condition(
    alloc: Global,
    tokens: &mut Tokens<'_>,
    kind: Kind,
) -> Result<Option<Boxed<Expr>>, ReadFault>
    ensures { Reads (reading.condition any_expr kind tokens.old) result tokens.new }
{
    if tokens.eat(kind) {
        Ok(Some(Boxed::new(alloc, any_expr(alloc, tokens)?)?))
    } else {
        Ok(None)
    }
}

/// What the box holds, if there is one.
pub fn unboxed<T>(boxed: Option<Boxed<T>>) -> Option<T>
    ensures { result ≡ boxed }
{
    match boxed {
        Some(boxed) => Some(boxed.into_inner()),
        None => None,
    }
}

/// `expr [ASC | DESC]`
#[tactic(auto, unfolding(hv_grammar::specs::QueryReading::key))]
pub fn key(alloc: Global, tokens: &mut Tokens<'_>) -> Result<Key, ReadFault>
    ensures { Reads (reading.key any_expr tokens.old) result tokens.new }
{
    let expr = any_expr(alloc, tokens)?;
    let descending = tokens.either(Kind::Desc, Kind::Asc);
    Ok(Key { expr, descending })
}

/// `key {, key}`
#[tactic(auto, unfolding(hv_grammar::specs::QueryReading::keys, hv_grammar::specs::Readers::separated))]
pub fn keys(alloc: Global, tokens: &mut Tokens<'_>) -> Result<List<Key>, ReadFault>
    ensures { Reads (reading.keys any_expr tokens.old) result tokens.new }
{
    let mut found = pushed(Vec::new(alloc), key(alloc, tokens))?;
    for _turn in 0..tokens.left() {
        if !tokens.eat(Kind::Comma) {
            break;
        }
        found = pushed(found, key(alloc, tokens))?;
    }
    Ok(List::from_vec(found))
}

/// `[ORDER BY key {, key}]`
#[tactic(auto, unfolding(hv_grammar::specs::QueryReading::order))]
pub fn order(alloc: Global, tokens: &mut Tokens<'_>) -> Result<List<Key>, ReadFault>
    ensures { Reads (reading.order any_expr tokens.old) result tokens.new }
{
    if !tokens.eat(Kind::Order) {
        return Ok(List::empty(alloc));
    }
    tokens.expect(Kind::By)?;
    keys(alloc, tokens)
}

/// `[GROUP BY expr {, expr}]`
#[tactic(auto, unfolding(hv_grammar::specs::QueryReading::group))]
pub fn group(alloc: Global, tokens: &mut Tokens<'_>) -> Result<List<Expr>, ReadFault>
    ensures { Reads (reading.group any_expr tokens.old) result tokens.new }
{
    if !tokens.eat(Kind::Group) {
        return Ok(List::empty(alloc));
    }
    tokens.expect(Kind::By)?;
    expr_list(alloc, tokens)
}

/// `[LIMIT number]`
pub fn limit(tokens: &mut Tokens<'_>) -> Result<Option<u64>, ReadFault>
    ensures { Reads (perhaps k.Limit reading.number tokens.old) result tokens.new }
{
    if tokens.eat(Kind::Limit) {
        Ok(Some(tokens.number()?))
    } else {
        Ok(None)
    }
}

/// `expr [[AS] ident]`
#[tactic(auto, unfolding(hv_grammar::specs::QueryReading::one))]
pub fn one(alloc: Global, tokens: &mut Tokens<'_>) -> Result<Item, ReadFault>
    ensures { Reads (reading.one any_expr tokens.old) result tokens.new }
{
    let value = Boxed::new(alloc, any_expr(alloc, tokens)?)?;
    let alias = optional_alias(alloc, tokens)?;
    Ok(Item::One(value.into_inner(), alias))
}

/// `ident . *`
#[tactic(auto, unfolding(hv_grammar::specs::QueryReading::all_of))]
pub fn all_of(alloc: Global, tokens: &mut Tokens<'_>) -> Result<Item, ReadFault>
    ensures { Reads (reading.all_of tokens.old) result tokens.new }
{
    let table = name(alloc, tokens)?;
    tokens.expect(Kind::Dot)?;
    tokens.expect(Kind::Star)?;
    Ok(Item::AllOf(table))
}

/// An item that is no `*`: `ident . * | expr [[AS] ident]`
#[tactic(auto, unfolding(hv_grammar::specs::QueryReading::some_item))]
pub fn some_item(alloc: Global, tokens: &mut Tokens<'_>) -> Result<Item, ReadFault>
    ensures { Reads (reading.some_item any_expr tokens.old) result tokens.new }
{
    if tokens.sees_all_of() {
        all_of(alloc, tokens)
    } else {
        one(alloc, tokens)
    }
}

/// `* | ident . * | expr [[AS] ident]`
#[tactic(auto, unfolding(hv_grammar::specs::QueryReading::item))]
pub fn item(alloc: Global, tokens: &mut Tokens<'_>) -> Result<Item, ReadFault>
    ensures { Reads (reading.item any_expr tokens.old) result tokens.new }
{
    if tokens.eat(Kind::Star) {
        Ok(Item::All)
    } else {
        some_item(alloc, tokens)
    }
}

/// `item {, item}`
#[tactic(auto, unfolding(hv_grammar::specs::QueryReading::items, hv_grammar::specs::Readers::separated))]
pub fn items(alloc: Global, tokens: &mut Tokens<'_>) -> Result<List<Item>, ReadFault>
    ensures { Reads (reading.items any_expr tokens.old) result tokens.new }
{
    let mut found = pushed(Vec::new(alloc), item(alloc, tokens))?;
    for _turn in 0..tokens.left() {
        if !tokens.eat(Kind::Comma) {
            break;
        }
        found = pushed(found, item(alloc, tokens))?;
    }
    Ok(List::from_vec(found))
}
