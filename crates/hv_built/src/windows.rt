//! Which queries have a window.

ghost use Rattle.std.specs.Prelude.{◌≡◌};
ghost use Rattle.std.specs.List.{list_any};
ghost use Rattle.hv_typing.specs.Analysis.{is_window, is_windowless_from, is_windowless_select, is_windowless_query, is_windowless_source, is_windowless, windowless_joins, windowless_unions};

use hv_ast::{From, Item, Join, Query, Select, Source, Union};

fn is_window(item: &Item) -> bool
    ensures { result ≡ is_window item.now }
{
    match item {
        Item::Window(_, _) => true,
        _ => false,
    }
}

fn any_windows(items: &[Item]) -> bool
    ensures { result ≡ list_any is_window items.now }
{
    for item in items {
        if is_window(item) {
            return true;
        }
    }
    false
}

/// Whether what stands behind USING, or in FROM, has none.
#[cycle(windows)]
#[tactic(auto, using(hv_typing::proofs::Layers::windowless))]
pub(crate) fn is_windowless_source(source: &Source) -> bool
    ensures { result ≡ is_windowless_source source.now }
{
    match source {
        Source::Table(_, _) => true,
        Source::Query(query, _) => is_windowless(query.get()),
    }
}

#[cycle(windows)]
#[tactic(auto, unfolding(hv_typing::specs::Analysis::windowless_joins))]
fn windowless_joins(joins: &[Join]) -> bool
    ensures { result ≡ windowless_joins is_windowless_source joins.now }
{
    for join in joins {
        if !is_windowless_source(&join.source) {
            return false;
        }
    }
    true
}

#[cycle(windows)]
fn is_windowless_from(from: &Option<From>) -> bool
    ensures { result ≡ is_windowless_from is_windowless_source from.now }
{
    match from {
        None => true,
        Some(from) => {
            is_windowless_source(&from.source) && windowless_joins(from.joins.as_slice())
        }
    }
}

#[cycle(windows)]
fn is_windowless_select(select: &Select) -> bool
    ensures { result ≡ is_windowless_select is_windowless_source select.now }
{
    !any_windows(select.items.as_slice()) && is_windowless_from(&select.from)
}

#[cycle(windows)]
#[tactic(auto, unfolding(hv_typing::specs::Analysis::windowless_unions))]
fn windowless_unions(unions: &[Union]) -> bool
    ensures { result ≡ windowless_unions is_windowless_source unions.now }
{
    for union in unions {
        if !is_windowless_select(&union.select) {
            return false;
        }
    }
    true
}

/// Whether no select of the query has a window, those of its subqueries among them.
#[cycle(windows)]
#[tactic(auto, unfolding(hv_typing::specs::Analysis::is_windowless))]
pub(crate) fn is_windowless(query: &Query) -> bool
    ensures { result ≡ is_windowless query.now }
{
    is_windowless_select(&query.select) && windowless_unions(query.unions.as_slice())
}
