ghost use Rattle.std.specs.Prelude.{◌≡◌, IfOk};
ghost use Rattle.hv_seen.specs.Seen.{seen_value};
ghost use Rattle.hv_eval.specs.Held.{held_value};

use hv_base::NoMemory;
use hv_seen::{Seen, owned, view};
use hv_value::Value;
use std::alloc::Global;

// A scalar or a value that stands elsewhere, or one that was made.
#[derive(Drop)]
pub(crate) enum Held<'a> {
    Seen(Seen<'a>),
    Made(Value),
}

impl<'a> Held<'a> {
    pub(crate) fn seen(&self) -> Seen<'_>
        ensures { seen_value result ≡ held_value self.now }
    {
        match self {
            Held::Seen(seen) => *seen,
            Held::Made(value) => view(value),
        }
    }

    pub(crate) fn into_value(self, alloc: Global) -> Result<Value, NoMemory>
        ensures { IfOk result (λ value. value ≡ held_value self.entry) }
    {
        match self {
            Held::Seen(seen) => owned(alloc, &seen),
            Held::Made(value) => Ok(value),
        }
    }
}
