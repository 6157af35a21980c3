//! Lateral views.

ghost use Rattle.std.specs.Prelude.{◌≡◌, IfOk};
ghost use Rattle.hv_typing.specs.Faults.{Types};
ghost use Rattle.hv_typing.specs.Kinds.{scalar_type};
ghost use Rattle.hv_typing.specs.Sources.{array_typed, or_col, field_as, element_of, view_fields, has_positions, with_view, viewed_with, view_onto, all_viewed};

use crate::sources::{AMBIGUOUS, is_taken, with_fields, with_name};
use hv_ast::{Explode, Expr, Lateral};
use hv_base::{Boxed, Duplicate, List, NoMemory, Text};
use hv_expr::TypedExpr;
use hv_types::{kind_of, placed, type_expr};
use hv_typing::{Field, Over, Place, Sources, TypeFault, TypedFrom, TypedLateral};
use hv_value::{Elem, SqlType};
use std::alloc::Global;

fn array_typed(alloc: Global, fields: &[Field], array: &Expr) -> Result<Boxed<TypedExpr>, TypeFault>
    ensures { Types result (array_typed fields.now array.now) }
{
    let array = type_expr(alloc, array, fields, Over::Row)?;
    placed(alloc, Place::Array, array)
}

fn or_col(alloc: Global, name: &Option<Text>) -> Result<Text, NoMemory>
    ensures { IfOk result (λ made. made ≡ or_col name.now) }
{
    match name {
        None => Text::of(alloc, "col"),
        Some(name) => name.duplicate(alloc),
    }
}

fn field_as(alloc: Global, source: &Text, name: Text, kind: SqlType) -> Result<Field, NoMemory>
    ensures { IfOk result (λ field. field ≡ field_as source.now name kind) }
{
    Ok(Field {
        source: source.duplicate(alloc)?,
        name,
        kind,
    })
}

fn scalar_type(elem: Elem) -> SqlType
    ensures { result ≡ scalar_type elem }
{
    match elem {
        Elem::Null => SqlType::Null,
        Elem::Boolean => SqlType::Boolean,
        Elem::Int => SqlType::Int,
        Elem::BigInt => SqlType::BigInt,
        Elem::Str => SqlType::Str,
        Elem::Date => SqlType::Date,
    }
}

fn element_of(array: &TypedExpr) -> SqlType
    ensures { result ≡ element_of array.now }
{
    match kind_of(array) {
        SqlType::ArrayOf(elem) => scalar_type(elem),
        _ => SqlType::Null,
    }
}

fn view_fields(
    alloc: Global,
    alias: &Text,
    explode: &Explode,
    kind: SqlType,
) -> Result<List<Field>, NoMemory>
    ensures { IfOk result (λ fields. fields ≡ view_fields alias.now explode.now kind) }
{
    let mut fields = Vec::with_capacity(alloc, 2)?;
    match explode {
        Explode::Elements(name) => {
            fields.push(field_as(alloc, alias, or_col(alloc, name)?, kind)?)?;
        }
        Explode::Positions(position, name) => {
            let position = position.duplicate(alloc)?;
            fields.push(field_as(alloc, alias, position, SqlType::Int)?)?;
            fields.push(field_as(alloc, alias, name.duplicate(alloc)?, kind)?)?;
        }
    }
    Ok(List::from_vec(fields))
}

fn has_positions(explode: &Explode) -> bool
    ensures { result ≡ has_positions explode.now }
{
    match explode {
        Explode::Elements(_) => false,
        Explode::Positions(_, _) => true,
    }
}

fn with_view(
    alloc: Global,
    from: Boxed<TypedFrom>,
    view: TypedLateral,
) -> Result<Boxed<TypedFrom>, NoMemory>
    ensures { IfOk result (λ made. made ≡ with_view from view) }
{
    let TypedFrom {
        source,
        width,
        joins,
        laterals,
    } = from.into_inner();
    let mut laterals = laterals.into_vec();
    laterals.push(view)?;
    Boxed::new(
        alloc,
        TypedFrom {
            source,
            width,
            joins,
            laterals: List::from_vec(laterals),
        },
    )
}

fn viewed_with(
    alloc: Global,
    sources: Boxed<Sources>,
    lateral: &Lateral,
    array: Boxed<TypedExpr>,
) -> Result<Boxed<Sources>, NoMemory>
    ensures { IfOk result (λ viewed. viewed ≡ viewed_with sources lateral.now array) }
{
    let kind = element_of(array.get());
    let more = view_fields(alloc, &lateral.alias, &lateral.explode, kind)?;
    let alias = lateral.alias.duplicate(alloc)?;
    let Sources {
        from,
        aliases,
        hidden,
        fields,
    } = sources.into_inner();
    let view = TypedLateral {
        outer: lateral.outer,
        positions: has_positions(&lateral.explode),
        array: array.into_inner(),
    };
    let from = with_view(alloc, from, view)?;
    let aliases = with_name(aliases, alias)?;
    let fields = with_fields(fields, more)?;
    Boxed::new(
        alloc,
        Sources {
            from,
            aliases,
            hidden,
            fields,
        },
    )
}

#[tactic(auto, unfolding(hv_typing::specs::Sources::view_onto))]
fn view_onto(
    alloc: Global,
    sources: Boxed<Sources>,
    lateral: &Lateral,
) -> Result<Boxed<Sources>, TypeFault>
    ensures { Types result (view_onto sources lateral.now) }
{
    let array = array_typed(alloc, sources.get().fields.as_slice(), &lateral.array)?;
    if is_taken(sources.get(), &lateral.alias) {
        return Err(AMBIGUOUS);
    }
    Ok(viewed_with(alloc, sources, lateral, array)?)
}

/// The lateral views behind the sources.
pub fn all_viewed(
    alloc: Global,
    sources: Boxed<Sources>,
    laterals: &[Lateral],
) -> Result<Boxed<Sources>, TypeFault>
    ensures { Types result (all_viewed sources laterals.now) }
{
    let mut viewed = sources;
    for lateral in laterals {
        viewed = view_onto(alloc, viewed, lateral)?;
    }
    Ok(viewed)
}
