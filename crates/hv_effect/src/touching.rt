use hv_base::{List, Touch};
use hv_logic::Meaning;
use std::alloc::Global;
use std::marker::Model;

/// What a statement comes to, with the touches of its change: none where it comes to something else. Contracts see what
/// it comes to.
#[derive(Drop)]
pub struct Touching {
    pub meaning: Meaning,
    pub touches: List<Touch>,
}

impl Model for Touching {
    ghost use Rattle.std.specs.Prelude.{◌≡◌};
    ghost use Rattle.hv_logic.specs.declared.meaning.Meaning.{Meaning as MeaningOf};
    ghost use Rattle.hv_effect.specs.Touches.{touches_in};
    ghost use Rattle.hv_value.specs.contracts.value.Value as value;
    ghost use Rattle.std.specs.Coded.{codes};

    ghost Value = { MeaningOf };

    ghost coded = { Prim.hlevel (codes, value.the_row.coded) };

    ghost view = { λ touching. touching.meaning };

    ghost invariant = { λ touching. touching.touches ≡ touches_in touching.meaning };
}

ghost use Rattle.std.specs.Prelude.{◌≡◌, []};
ghost use Rattle.hv_effect.specs.Touches.{touches_in};

/// What is no change.
pub fn untouched(alloc: Global, meaning: Meaning) -> Touching
    requires { touches_in meaning ≡ [] }
    ensures { result ≡ meaning }
{
    Touching {
        meaning,
        touches: List::empty(alloc),
    }
}
