//! Sources and joins.

ghost use Rattle.std.specs.Prelude.{◌≡◌, ◌++◌, IfOk, Ok, map, take, length, ◌∷◌, []};
ghost use Rattle.hv_typing.specs.Faults.{Types, and_then};
ghost use Rattle.hv_typing.specs.Sources.{is_among, is_taken, filter_typed, output_field, query_brought, first_source, join_kind, with_join, shows_right, if_shown, joined_with, join_onto, opened_none, opened_of};

use hv_ast::{Expr, JoinKind as WrittenKind};
use hv_base::{Boxed, Duplicate, List, NoMemory, Refusal, Text};
use hv_expr::TypedExpr;
use hv_types::condition_of;
use hv_typing::{
    Brought, Field, JoinKind, Opened, OutputColumn, Over, Sources, TypeFault, TypedFrom, TypedJoin,
    TypedQuery, TypedSource,
};
use std::alloc::Global;

pub(crate) const AMBIGUOUS: TypeFault = TypeFault::Refused(Refusal::Ambiguous);

pub(crate) fn is_among(names: &[Text], name: &Text) -> bool
    ensures { result ≡ is_among names.now name.now }
{
    for other in names {
        if *name == *other {
            return true;
        }
    }
    false
}

pub(crate) fn is_taken(sources: &Sources, alias: &Text) -> bool
    ensures { result ≡ is_taken sources.now alias.now }
{
    is_among(sources.aliases.as_slice(), alias) || is_among(sources.hidden.as_slice(), alias)
}

/// The condition of WHERE or of ON.
pub fn filter_typed(
    alloc: Global,
    fields: &[Field],
    filter: &Option<Expr>,
) -> Result<Option<Boxed<TypedExpr>>, TypeFault>
    ensures { Types result (filter_typed fields.now filter.now) }
{
    match filter {
        None => Ok(None),
        Some(filter) => Ok(Some(condition_of(alloc, filter, fields, Over::Row)?)),
    }
}

fn output_field(alloc: Global, alias: &Text, column: &OutputColumn) -> Result<Field, NoMemory>
    ensures { IfOk result (λ field. field ≡ output_field alias.now column.now) }
{
    Ok(Field {
        source: alias.duplicate(alloc)?,
        name: column.name.duplicate(alloc)?,
        kind: column.kind,
    })
}

fn output_fields(
    alloc: Global,
    alias: &Text,
    columns: &[OutputColumn],
) -> Result<List<Field>, NoMemory>
    ensures { IfOk result (λ fields. fields ≡ map (output_field alias.now) columns.now) }
{
    let mut fields = Vec::with_capacity(alloc, columns.len())?;
    for column in columns {
        fields.push(output_field(alloc, alias, column)?)?;
    }
    Ok(List::from_vec(fields))
}

/// A query in parentheses as a source.
pub fn query_brought(
    alloc: Global,
    alias: &Text,
    query: Boxed<TypedQuery>,
) -> Result<Boxed<Brought>, NoMemory>
    ensures { IfOk result (λ brought. brought ≡ query_brought alias.now query) }
{
    let fields = output_fields(alloc, alias, query.get().columns.as_slice())?;
    let alias = alias.duplicate(alloc)?;
    Boxed::new(
        alloc,
        Brought {
            source: TypedSource::Query(query),
            alias,
            fields,
        },
    )
}

fn alone(alloc: Global, name: Text) -> Result<List<Text>, NoMemory>
    ensures { IfOk result (λ names. names ≡ name ∷ []) }
{
    let mut names = Vec::with_capacity(alloc, 1)?;
    names.push(name)?;
    Ok(List::from_vec(names))
}

fn from_first(alloc: Global, source: TypedSource, width: u32) -> Result<Boxed<TypedFrom>, NoMemory>
    ensures { IfOk result (λ from. from ≡ record { source = source; width = width; joins = []; laterals = [] }) }
{
    Boxed::new(
        alloc,
        TypedFrom {
            source,
            width,
            joins: List::empty(alloc),
            laterals: List::empty(alloc),
        },
    )
}

/// The first source of FROM.
pub fn first_source(alloc: Global, first: Boxed<Brought>) -> Result<Boxed<Sources>, NoMemory>
    ensures { IfOk result (λ sources. sources ≡ first_source first) }
{
    let width = width_of(first.get().fields.as_slice())?;
    let Brought {
        source,
        alias,
        fields,
    } = first.into_inner();
    let from = from_first(alloc, source, width)?;
    let aliases = alone(alloc, alias)?;
    Boxed::new(
        alloc,
        Sources {
            from,
            aliases,
            hidden: List::empty(alloc),
            fields,
        },
    )
}

fn join_kind(written: WrittenKind) -> JoinKind
    ensures { result ≡ join_kind written }
{
    match written {
        WrittenKind::Cross => JoinKind::Inner,
        WrittenKind::Inner => JoinKind::Inner,
        WrittenKind::Left => JoinKind::Left,
        WrittenKind::Right => JoinKind::Right,
        WrittenKind::Full => JoinKind::Full,
        WrittenKind::LeftSemi => JoinKind::LeftSemi,
    }
}

fn with_join(
    alloc: Global,
    from: Boxed<TypedFrom>,
    join: TypedJoin,
) -> Result<Boxed<TypedFrom>, NoMemory>
    ensures { IfOk result (λ made. made ≡ with_join from join) }
{
    let TypedFrom {
        source,
        width,
        joins,
        laterals,
    } = from.into_inner();
    let mut joins = joins.into_vec();
    joins.push(join)?;
    Boxed::new(
        alloc,
        TypedFrom {
            source,
            width,
            joins: List::from_vec(joins),
            laterals,
        },
    )
}

fn shows_right(written: WrittenKind) -> bool
    ensures { result ≡ shows_right written }
{
    match written {
        WrittenKind::LeftSemi => false,
        _ => true,
    }
}

pub(crate) fn with_name(names: List<Text>, name: Text) -> Result<List<Text>, NoMemory>
    ensures { IfOk result (λ made. made ≡ names ++ name ∷ []) }
{
    let mut names = names.into_vec();
    names.push(name)?;
    Ok(List::from_vec(names))
}

pub(crate) fn with_fields(fields: List<Field>, more: List<Field>) -> Result<List<Field>, NoMemory>
    ensures { IfOk result (λ made. made ≡ fields ++ more) }
{
    let mut fields = fields.into_vec();
    let mut more = more.into_vec();
    fields.append(&mut more)?;
    Ok(List::from_vec(fields))
}

fn first_fields(fields: List<Field>, count: usize) -> List<Field>
    ensures { result ≡ take count fields }
{
    let mut fields = fields.into_vec();
    fields.truncate(count);
    List::from_vec(fields)
}

fn width_of(fields: &[Field]) -> Result<u32, NoMemory>
    ensures { IfOk result (λ width. width ≡ length fields.now) }
{
    let Ok(width) = u32::try_from(fields.len()) else {
        return Err(NoMemory);
    };
    Ok(width)
}

fn join_of(
    written: WrittenKind,
    source: TypedSource,
    width: u32,
    on: Option<Boxed<TypedExpr>>,
) -> TypedJoin
    ensures { result ≡ record { kind = join_kind written; source = source; width = width; on = on } }
{
    TypedJoin {
        kind: join_kind(written),
        source,
        width,
        on,
    }
}

// Behind the join, where the columns of both sides stand, so many of them the left ones.
fn joined_with(
    alloc: Global,
    sources: Sources,
    left: usize,
    written: WrittenKind,
    alias: Text,
    join: TypedJoin,
) -> Result<Boxed<Sources>, NoMemory>
    ensures { IfOk result (λ joined. joined ≡ record { from = with_join sources.from join; aliases = if_shown written (sources.aliases ++ alias ∷ []) sources.aliases; hidden = if_shown written sources.hidden (sources.hidden ++ alias ∷ []); fields = if_shown written sources.fields (take left sources.fields) }) }
{
    let Sources {
        from,
        aliases,
        hidden,
        fields,
    } = sources;
    let from = with_join(alloc, from, join)?;
    let made = if shows_right(written) {
        Sources {
            from,
            aliases: with_name(aliases, alias)?,
            hidden,
            fields,
        }
    } else {
        Sources {
            from,
            aliases,
            hidden: with_name(hidden, alias)?,
            fields: first_fields(fields, left),
        }
    };
    Boxed::new(alloc, made)
}

// ON sees the columns of both sides.
fn joined_on(
    alloc: Global,
    sources: Boxed<Sources>,
    written: WrittenKind,
    on: &Option<Expr>,
    right: Boxed<Brought>,
) -> Result<Boxed<Sources>, TypeFault>
    ensures { Types result (and_then (filter_typed (sources.fields ++ right.fields) on.now) (λ on. Ok (joined_with sources written right on))) }
{
    let width = width_of(right.get().fields.as_slice())?;
    let Brought {
        source,
        alias,
        fields: more,
    } = right.into_inner();
    let Sources {
        from,
        aliases,
        hidden,
        fields,
    } = sources.into_inner();
    let left = fields.len();
    let fields = with_fields(fields, more)?;
    let on = filter_typed(alloc, fields.as_slice(), on)?;
    let join = join_of(written, source, width, on);
    let both = Sources {
        from,
        aliases,
        hidden,
        fields,
    };
    Ok(joined_with(alloc, both, left, written, alias, join)?)
}

/// A source that is joined: its alias, then ON.
#[tactic(auto, unfolding(hv_typing::specs::Sources::join_onto))]
pub fn join_onto(
    alloc: Global,
    sources: Boxed<Sources>,
    written: WrittenKind,
    on: &Option<Expr>,
    right: Boxed<Brought>,
) -> Result<Boxed<Sources>, TypeFault>
    ensures { Types result (join_onto sources written on.now right) }
{
    if is_taken(sources.get(), &right.get().alias) {
        return Err(AMBIGUOUS);
    }
    joined_on(alloc, sources, written, on, right)
}

/// Without FROM there is one row without values.
pub fn opened_none(alloc: Global) -> Result<Boxed<Opened>, NoMemory>
    ensures { IfOk result (λ opened. opened ≡ opened_none) }
{
    Boxed::new(
        alloc,
        Opened {
            from: None,
            aliases: List::empty(alloc),
            fields: List::empty(alloc),
        },
    )
}

/// What items see of it all.
pub fn opened_of(alloc: Global, sources: Boxed<Sources>) -> Result<Boxed<Opened>, NoMemory>
    ensures { IfOk result (λ opened. opened ≡ opened_of sources) }
{
    let Sources {
        from,
        aliases,
        fields,
        ..
    } = sources.into_inner();
    Boxed::new(
        alloc,
        Opened {
            from: Some(from),
            aliases,
            fields,
        },
    )
}
