//! What EXPLAIN FORMATTED lists.

ghost use Rattle.std.specs.Prelude.{◌≡◌, IfOk};
ghost use Rattle.hv_meaning.specs.Meaning.{explained};

use crate::touching::{Touching, untouched};
use hv_base::{List, NoMemory};
use hv_logic::Meaning;
use hv_stage::{explain, plan_stages};
use hv_typing::TypedQuery;
use std::alloc::Global;

/// No rows below the line of the query's stages.
pub(crate) fn explained(alloc: Global, query: &TypedQuery) -> Result<Touching, NoMemory>
    ensures { IfOk result (λ meaning. meaning ≡ explained query.now) }
{
    let stages = plan_stages(alloc, query)?;
    let line = explain(alloc, &stages)?;
    let mut names = Vec::new(alloc);
    names.push(line)?;
    let names = List::from_vec(names);
    Ok(untouched(alloc, Meaning::Listing(names, List::empty(alloc))))
}
