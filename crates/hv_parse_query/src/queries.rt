//! Queries, over a function that reads those between brackets, so that each rule is proved by
//! itself.

ghost use Rattle.std.specs.Prelude.{◌≡◌};
ghost use Rattle.hv_grammar.specs.Choices as choices;
ghost use Rattle.hv_grammar.specs.QueryReading as reading;
ghost use Rattle.hv_grammar.specs.Reading.{any_expr};
ghost use Rattle.hv_parse_expr.specs.Reads.{Reads};
ghost use Rattle.hv_parse_query.specs.Nests.{Nests};

use crate::clauses::{condition, group, items, limit, order, unboxed};
use crate::laterals::laterals;
use crate::names::{alias, optional_alias, table_name};
use hv_ast::{From, Join, JoinKind, Query, Select, Source, Union};
use hv_base::{Boxed, List};
use hv_grammar::Kind;
use hv_parse_expr::{MOST_LEVELS, ReadFault, Tokens, any_expr, pushed};
use std::alloc::Global;

/// Whether a join begins with such a token.
fn begins_join(kind: Kind) -> bool
    ensures { result ≡ choices.begins_join kind }
{
    match kind {
        Kind::Comma | Kind::Join | Kind::Inner | Kind::Cross => true,
        Kind::Left | Kind::Right | Kind::Full => true,
        _ => false,
    }
}

/// The rules that hold queries, over a function that reads what stands between brackets.
#[derive(Clone, Copy)]
pub struct Queries<F> {
    /// What trees are made of.
    pub alloc: Global,
    /// How deep the subqueries of a query between brackets may nest.
    pub depth: usize,
    /// Reads a query that nests less deep than a number: `query` of this module.
    pub query: F,
}

impl<F: Fn(Global, &mut Tokens<'_>, usize) -> Result<Query, ReadFault>> Queries<F> {
    /// A query between brackets.
    fn query(&self, tokens: &mut Tokens<'_>) -> Result<Query, ReadFault>
        requires { Nests self.now.depth (F.pre self.now.query) (F.post self.now.query) }
        ensures { Reads (reading.query any_expr self.now.depth tokens.old) result tokens.new }
    {
        (self.query)(self.alloc, tokens, self.depth)
    }

    /// `name [[AS] ident]`
    #[tactic(auto, unfolding(hv_grammar::specs::QueryReading::table))]
    fn table(&self, tokens: &mut Tokens<'_>) -> Result<Source, ReadFault>
        requires { Nests self.now.depth (F.pre self.now.query) (F.post self.now.query) }
        ensures { Reads (reading.table any_expr (reading.query any_expr self.now.depth) tokens.old)
            result tokens.new }
    {
        let name = table_name(self.alloc, tokens)?;
        let alias = optional_alias(self.alloc, tokens)?;
        Ok(Source::Table(name, alias))
    }

    /// Behind `(`: `query ) [AS] ident`
    #[tactic(auto, unfolding(hv_grammar::specs::QueryReading::subquery))]
    fn subquery(&self, tokens: &mut Tokens<'_>) -> Result<Source, ReadFault>
        requires { Nests self.now.depth (F.pre self.now.query) (F.post self.now.query) }
        ensures { Reads (reading.subquery any_expr (reading.query any_expr self.now.depth)
            tokens.old) result tokens.new }
    {
        let inner = Boxed::new(self.alloc, self.query(tokens)?)?;
        tokens.expect(Kind::Close)?;
        let alias = alias(self.alloc, tokens)?;
        Ok(Source::Query(inner, alias))
    }

    /// `name [[AS] ident] | ( query ) [AS] ident`
    #[tactic(auto, unfolding(hv_grammar::specs::QueryReading::source))]
    fn source(&self, tokens: &mut Tokens<'_>) -> Result<Source, ReadFault>
        requires { Nests self.now.depth (F.pre self.now.query) (F.post self.now.query) }
        ensures { Reads (reading.source any_expr (reading.query any_expr self.now.depth) tokens.old)
            result tokens.new }
    {
        if tokens.eat(Kind::Open) {
            self.subquery(tokens)
        } else {
            self.table(tokens)
        }
    }

    /// A source in a box, so that a caller that leaves early drops a box and not each part.
    fn boxed_source(&self, tokens: &mut Tokens<'_>) -> Result<Boxed<Source>, ReadFault>
        requires { Nests self.now.depth (F.pre self.now.query) (F.post self.now.query) }
        ensures { Reads (reading.source any_expr (reading.query any_expr self.now.depth) tokens.old)
            result tokens.new }
    {
        Ok(Boxed::new(self.alloc, self.source(tokens)?)?)
    }

    /// `source ON expr`
    #[tactic(auto, unfolding(hv_grammar::specs::QueryReading::joined_on))]
    fn joined_on(&self, tokens: &mut Tokens<'_>, kind: JoinKind) -> Result<Join, ReadFault>
        requires { Nests self.now.depth (F.pre self.now.query) (F.post self.now.query) }
        ensures { Reads (reading.joined_on any_expr (reading.query any_expr self.now.depth) kind
            tokens.old) result tokens.new }
    {
        let source = self.boxed_source(tokens)?;
        tokens.expect(Kind::On)?;
        let condition = any_expr(self.alloc, tokens)?;
        Ok(Join {
            kind,
            source: source.into_inner(),
            on: Some(condition),
        })
    }

    /// `[OUTER] JOIN source ON expr`
    #[tactic(auto, unfolding(hv_grammar::specs::QueryReading::outer_join))]
    fn outer_join(&self, tokens: &mut Tokens<'_>, kind: JoinKind) -> Result<Join, ReadFault>
        requires { Nests self.now.depth (F.pre self.now.query) (F.post self.now.query) }
        ensures { Reads (reading.outer_join any_expr (reading.query any_expr self.now.depth) kind
            tokens.old) result tokens.new }
    {
        tokens.eat(Kind::Outer);
        tokens.expect(Kind::Join)?;
        self.joined_on(tokens, kind)
    }

    /// Behind LEFT: `SEMI JOIN source ON expr | [OUTER] JOIN source ON expr`
    #[tactic(auto, unfolding(hv_grammar::specs::QueryReading::left_join))]
    fn left_join(&self, tokens: &mut Tokens<'_>) -> Result<Join, ReadFault>
        requires { Nests self.now.depth (F.pre self.now.query) (F.post self.now.query) }
        ensures { Reads (reading.left_join any_expr (reading.query any_expr self.now.depth)
            tokens.old) result tokens.new }
    {
        if !tokens.eat(Kind::Semi) {
            return self.outer_join(tokens, JoinKind::Left);
        }
        tokens.expect(Kind::Join)?;
        self.joined_on(tokens, JoinKind::LeftSemi)
    }

    /// Behind JOIN: `source [ON expr]`
    #[tactic(auto, unfolding(hv_grammar::specs::QueryReading::inner_join))]
    fn inner_join(&self, tokens: &mut Tokens<'_>) -> Result<Join, ReadFault>
        requires { Nests self.now.depth (F.pre self.now.query) (F.post self.now.query) }
        ensures { Reads (reading.inner_join any_expr (reading.query any_expr self.now.depth)
            tokens.old) result tokens.new }
    {
        let source = self.boxed_source(tokens)?;
        let on = condition(self.alloc, tokens, Kind::On)?;
        Ok(Join {
            kind: JoinKind::Inner,
            source: source.into_inner(),
            on: unboxed(on),
        })
    }

    /// Behind a comma or CROSS JOIN: `source`
    #[tactic(auto, unfolding(hv_grammar::specs::QueryReading::cross_join))]
    fn cross_join(&self, tokens: &mut Tokens<'_>) -> Result<Join, ReadFault>
        requires { Nests self.now.depth (F.pre self.now.query) (F.post self.now.query) }
        ensures { Reads (reading.cross_join any_expr (reading.query any_expr self.now.depth)
            tokens.old) result tokens.new }
    {
        let source = self.source(tokens)?;
        Ok(Join {
            kind: JoinKind::Cross,
            source,
            on: None,
        })
    }

    /// A source that is joined to those before it.
    #[tactic(auto, unfolding(hv_grammar::specs::QueryReading::join, hv_grammar::specs::Readers::expect, hv_grammar::specs::Readers::after))]
    fn join(&self, tokens: &mut Tokens<'_>) -> Result<Join, ReadFault>
        requires { Nests self.now.depth (F.pre self.now.query) (F.post self.now.query) }
        ensures { Reads (reading.join any_expr (reading.query any_expr self.now.depth) tokens.old)
            result tokens.new }
    {
        let kind = tokens.peek();
        tokens.pass();
        match kind {
            Kind::Comma => self.cross_join(tokens),
            Kind::Cross => {
                if tokens.eat(Kind::Join) {
                    self.cross_join(tokens)
                } else {
                    Err(ReadFault::Syntax)
                }
            }
            Kind::Join => self.inner_join(tokens),
            Kind::Inner => {
                if tokens.eat(Kind::Join) {
                    self.inner_join(tokens)
                } else {
                    Err(ReadFault::Syntax)
                }
            }
            Kind::Left => self.left_join(tokens),
            Kind::Right => self.outer_join(tokens, JoinKind::Right),
            Kind::Full => self.outer_join(tokens, JoinKind::Full),
            _ => Err(ReadFault::Syntax),
        }
    }

    /// `{, source | join}`
    #[tactic(auto, unfolding(hv_grammar::specs::QueryReading::joins))]
    fn joins(&self, tokens: &mut Tokens<'_>) -> Result<List<Join>, ReadFault>
        requires { Nests self.now.depth (F.pre self.now.query) (F.post self.now.query) }
        ensures { Reads (reading.joins any_expr (reading.query any_expr self.now.depth) tokens.old)
            result tokens.new }
    {
        let mut found = Vec::new(self.alloc);
        for _turn in 0..tokens.left() {
            if !begins_join(tokens.peek()) {
                break;
            }
            found = pushed(found, self.join(tokens))?;
        }
        Ok(List::from_vec(found))
    }

    /// `source {, source | join} {lateral}`
    #[tactic(auto, unfolding(hv_grammar::specs::QueryReading::from))]
    fn from(&self, tokens: &mut Tokens<'_>) -> Result<From, ReadFault>
        requires { Nests self.now.depth (F.pre self.now.query) (F.post self.now.query) }
        ensures { Reads (reading.from any_expr (reading.query any_expr self.now.depth) tokens.old)
            result tokens.new }
    {
        let source = self.boxed_source(tokens)?;
        let joins = self.joins(tokens)?;
        let laterals = laterals(self.alloc, tokens)?;
        Ok(From {
            source: source.into_inner(),
            joins,
            laterals,
        })
    }

    /// `[FROM source {, source | join} {lateral}]`, boxed, so that a caller that leaves early drops
    /// a box and not each part.
    #[tactic(auto, unfolding(hv_grammar::specs::QueryReading::optional_from))]
    fn optional_from(&self, tokens: &mut Tokens<'_>) -> Result<Option<Boxed<From>>, ReadFault>
        requires { Nests self.now.depth (F.pre self.now.query) (F.post self.now.query) }
        ensures { Reads (reading.optional_from any_expr (reading.query any_expr self.now.depth)
            tokens.old) result tokens.new }
    {
        if tokens.eat(Kind::From) {
            Ok(Some(Boxed::new(self.alloc, self.from(tokens)?)?))
        } else {
            Ok(None)
        }
    }

    /// SELECT and what stands up to UNION or ORDER BY.
    #[tactic(auto, unfolding(hv_grammar::specs::QueryReading::select))]
    fn select(&self, tokens: &mut Tokens<'_>) -> Result<Select, ReadFault>
        requires { Nests self.now.depth (F.pre self.now.query) (F.post self.now.query) }
        ensures { Reads (reading.select any_expr (reading.query any_expr self.now.depth) tokens.old)
            result tokens.new }
    {
        tokens.expect(Kind::Select)?;
        let distinct = tokens.either(Kind::Distinct, Kind::All);
        let items = items(self.alloc, tokens)?;
        let from = self.optional_from(tokens)?;
        let filter = condition(self.alloc, tokens, Kind::Where)?;
        let group = group(self.alloc, tokens)?;
        let having = condition(self.alloc, tokens, Kind::Having)?;
        Ok(Select {
            distinct,
            items,
            from: unboxed(from),
            filter: unboxed(filter),
            group,
            having: unboxed(having),
        })
    }

    /// Behind UNION: `[ALL | DISTINCT] select`
    #[tactic(auto, unfolding(hv_grammar::specs::QueryReading::union))]
    fn union(&self, tokens: &mut Tokens<'_>) -> Result<Union, ReadFault>
        requires { Nests self.now.depth (F.pre self.now.query) (F.post self.now.query) }
        ensures { Reads (reading.union any_expr (reading.query any_expr self.now.depth) tokens.old)
            result tokens.new }
    {
        let all = tokens.either(Kind::All, Kind::Distinct);
        let select = self.select(tokens)?;
        Ok(Union { all, select })
    }

    /// `{UNION [ALL | DISTINCT] select}`
    #[tactic(auto, unfolding(hv_grammar::specs::QueryReading::unions))]
    fn unions(&self, tokens: &mut Tokens<'_>) -> Result<List<Union>, ReadFault>
        requires { Nests self.now.depth (F.pre self.now.query) (F.post self.now.query) }
        ensures { Reads (reading.unions any_expr (reading.query any_expr self.now.depth) tokens.old)
            result tokens.new }
    {
        let mut found = Vec::new(self.alloc);
        for _turn in 0..tokens.left() {
            if !tokens.eat(Kind::Union) {
                break;
            }
            found = pushed(found, self.union(tokens))?;
        }
        Ok(List::from_vec(found))
    }

    /// `select {UNION [ALL | DISTINCT] select} [ORDER BY key {, key}] [LIMIT number]`
    #[tactic(auto, unfolding(hv_grammar::specs::QueryReading::query_over))]
    fn query_over(&self, tokens: &mut Tokens<'_>) -> Result<Query, ReadFault>
        requires { Nests self.now.depth (F.pre self.now.query) (F.post self.now.query) }
        ensures { Reads (reading.query_over any_expr (reading.query any_expr self.now.depth)
            tokens.old) result tokens.new }
    {
        // Boxed, so that leaving early drops a box and not each part.
        let select = Boxed::new(self.alloc, self.select(tokens)?)?;
        let unions = self.unions(tokens)?;
        let order = order(self.alloc, tokens)?;
        let limit = limit(tokens)?;
        Ok(Query {
            select: select.into_inner(),
            unions,
            order,
            limit,
        })
    }
}

/// A query whose subqueries nest less deep than `depth`.
pub fn query(alloc: Global, tokens: &mut Tokens<'_>, depth: usize) -> Result<Query, ReadFault>
    ensures { Reads (reading.query any_expr depth tokens.old) result tokens.new }
{
    if depth == 0 {
        return Err(ReadFault::Syntax);
    }
    Queries {
        alloc,
        depth: depth - 1,
        query,
    }
    .query_over(tokens)
}

/// A query, however deep a text may nest.
pub fn any_query(alloc: Global, tokens: &mut Tokens<'_>) -> Result<Query, ReadFault>
    ensures { Reads (reading.any_query tokens.old) result tokens.new }
{
    query(alloc, tokens, MOST_LEVELS + 1)
}

/// `name [[AS] ident] | ( query ) [AS] ident`, however deep a text may nest, in a box, so that a caller that leaves
/// early drops a box and not each part.
pub fn any_source(alloc: Global, tokens: &mut Tokens<'_>) -> Result<Boxed<Source>, ReadFault>
    ensures { Reads (reading.source any_expr reading.any_query tokens.old) result tokens.new }
{
    Queries {
        alloc,
        depth: MOST_LEVELS + 1,
        query,
    }
    .boxed_source(tokens)
}
