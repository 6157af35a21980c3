ghost use Rattle.std.specs.Prelude.{◌≡◌};
ghost use Rattle.hv_typing.specs.Faults.{Types};
ghost use Rattle.hv_typing.specs.Scopes.{is_meant, is_any_meant, column_typed};

use hv_base::{Refusal, Text};
use hv_expr::TypedExpr;
use hv_typing::{Field, TypeFault};

fn is_meant(source: &Option<Text>, name: &Text, field: &Field) -> bool
    ensures { result ≡ is_meant source.now name.now field.now }
{
    match source {
        None => field.name == *name,
        Some(source) => field.source == *source && field.name == *name,
    }
}

fn is_any_meant(source: &Option<Text>, name: &Text, fields: &[Field]) -> bool
    ensures { result ≡ is_any_meant source.now name.now fields.now }
{
    for field in fields {
        if is_meant(source, name, field) {
            return true;
        }
    }
    false
}

// Places are numbers of 32 bits: there is no memory for more columns.
pub(crate) fn column_typed(
    source: &Option<Text>,
    name: &Text,
    scope: &[Field],
) -> Result<TypedExpr, TypeFault>
    ensures { Types result (column_typed 0 source.now name.now scope.now) }
{
    for i in 0..scope.len() {
        if is_meant(source, name, &scope[i]) {
            if is_any_meant(source, name, &scope[i + 1..]) {
                return Err(TypeFault::Refused(Refusal::Ambiguous));
            }
            let Ok(place) = u32::try_from(i) else {
                return Err(TypeFault::NoMemory);
            };
            return Ok(TypedExpr::Column(place, scope[i].kind));
        }
    }
    Err(TypeFault::Refused(Refusal::NoColumn))
}
