ghost use Rattle.std.specs.Prelude.{◌≡◌};
ghost use Rattle.hv_typing.specs.declared.places.Place.TheVariants as place;
ghost use Rattle.hv_typing.specs.Kinds.{asked, given, element_given};

use crate::kinds::{scalar_type, wider};
use hv_typing::{Gives, Place};
use hv_value::{Elem, SqlType};

fn asked_date(kind: SqlType) -> Option<SqlType>
    ensures { result ≡ asked place.Date kind }
{
    match kind {
        SqlType::Null | SqlType::Date | SqlType::Str => Some(SqlType::Date),
        _ => None,
    }
}

fn asked_integer(kind: SqlType) -> Option<SqlType>
    ensures { result ≡ asked place.Integer kind }
{
    match kind {
        SqlType::Null | SqlType::Int => Some(SqlType::Int),
        SqlType::BigInt => Some(SqlType::BigInt),
        _ => None,
    }
}

fn asked_array(kind: SqlType) -> Option<SqlType>
    ensures { result ≡ asked place.Array kind }
{
    match kind {
        SqlType::Null => Some(SqlType::ArrayOf(Elem::Null)),
        SqlType::ArrayOf(elem) => Some(SqlType::ArrayOf(elem)),
        _ => None,
    }
}

fn asked_ordered(kind: SqlType) -> Option<SqlType>
    ensures { result ≡ asked place.Ordered kind }
{
    match kind {
        SqlType::ArrayOf(_) => None,
        _ => Some(kind),
    }
}

fn asked_truth(kind: SqlType) -> Option<SqlType>
    ensures { result ≡ asked place.Truth kind }
{
    match kind {
        SqlType::Null | SqlType::Boolean => Some(SqlType::Boolean),
        _ => None,
    }
}

fn asked_int(kind: SqlType) -> Option<SqlType>
    ensures { result ≡ asked place.Int kind }
{
    match kind {
        SqlType::Null | SqlType::Int => Some(SqlType::Int),
        _ => None,
    }
}

fn asked_text(kind: SqlType) -> Option<SqlType>
    ensures { result ≡ asked place.Text kind }
{
    match kind {
        SqlType::Null | SqlType::Str => Some(SqlType::Str),
        _ => None,
    }
}

/// The type as which an operand of this type is taken at the place, None where it may not stand.
pub fn asked(place: Place, kind: SqlType) -> Option<SqlType>
    ensures { result ≡ asked place kind }
{
    match place {
        Place::Any => Some(kind),
        Place::Truth => asked_truth(kind),
        Place::Integer => asked_integer(kind),
        Place::Int => asked_int(kind),
        Place::Text => asked_text(kind),
        Place::Date => asked_date(kind),
        Place::Array => asked_array(kind),
        Place::Ordered => asked_ordered(kind),
    }
}

fn element_given(kind: SqlType) -> SqlType
    ensures { result ≡ element_given kind }
{
    match kind {
        SqlType::ArrayOf(elem) => scalar_type(elem),
        _ => SqlType::Null,
    }
}

pub(crate) fn given(gives: Gives, first: SqlType, second: SqlType) -> SqlType
    ensures { result ≡ given gives first second }
{
    match gives {
        Gives::Fixed(kind) => kind,
        Gives::Same => first,
        Gives::Wider => wider(first, second),
        Gives::Element => element_given(first),
    }
}
