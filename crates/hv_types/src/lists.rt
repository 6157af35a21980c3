//! Arguments, by how many there are.

ghost use Rattle.std.specs.Prelude.{◌≡◌, IfOk};
ghost use Rattle.hv_typing.specs.Calls.{only, pair, triple};

use hv_base::{Boxed, List, NoMemory};
use hv_expr::TypedExpr;
use std::alloc::Global;

type Part = Boxed<TypedExpr>;

/// The one argument, None where there are more or none.
pub(crate) fn only(alloc: Global, exprs: List<TypedExpr>) -> Result<Option<Part>, NoMemory>
    ensures { IfOk result (λ found. found ≡ only exprs) }
{
    if exprs.len() != 1 {
        return Ok(None);
    }
    let mut exprs = exprs.into_vec();
    Ok(Some(Boxed::new(alloc, exprs.remove(0))?))
}

/// The two arguments.
pub(crate) fn pair(alloc: Global, exprs: List<TypedExpr>) -> Result<Option<(Part, Part)>, NoMemory>
    ensures { IfOk result (λ found. found ≡ pair exprs) }
{
    if exprs.len() != 2 {
        return Ok(None);
    }
    let mut exprs = exprs.into_vec();
    let first = Boxed::new(alloc, exprs.remove(0))?;
    let second = Boxed::new(alloc, exprs.remove(0))?;
    Ok(Some((first, second)))
}

/// The three arguments.
pub(crate) fn triple(
    alloc: Global,
    exprs: List<TypedExpr>,
) -> Result<Option<(Part, (Part, Part))>, NoMemory>
    ensures { IfOk result (λ found. found ≡ triple exprs) }
{
    if exprs.len() != 3 {
        return Ok(None);
    }
    let mut exprs = exprs.into_vec();
    let first = Boxed::new(alloc, exprs.remove(0))?;
    let second = Boxed::new(alloc, exprs.remove(0))?;
    let third = Boxed::new(alloc, exprs.remove(0))?;
    Ok(Some((first, (second, third))))
}
