ghost use Rattle.std.specs.Prelude.{◌≡◌};

use hv_actor::Housed;
use hv_base::Limits;
use hv_shelf::Shelf;
use hv_trail::TrailItem;
use hv_turn::Storied;
use std::marker::PhantomData;

/// A house that seats take in turn. Its history is its trail.
pub struct Shared<D, H> {
    pub house: H,
    store: PhantomData<D>,
}

/// What no call changes of a house: the root of its history. No value of it is made.
pub struct Origin<D> {
    pub start: D,
    pub opened: u64,
    pub limits: Limits,
}

impl<D, H> Shared<D, H> {
    pub fn new(house: H) -> Shared<D, H>
        ensures house { result.house ≡ house }
    {
        Shared {
            house,
            store: PhantomData,
        }
    }

    /// The house, when all is done.
    pub fn into_house(self) -> H
        ensures house { result ≡ self.house }
    {
        let Shared {
            house,
            store: _store,
        } = self;
        house
    }
}

impl<D: Shelf, H: Housed<D>> Storied for Shared<D, H> {
    ghost use Rattle.std.specs.Prelude.{◌≡◌};
    ghost use Rattle.hv_seated.specs.Sharing.{origin_of, IsSharedLater, shared_itself, shared_further, same_origin, shared_begins};

    type Item = TrailItem;

    type Root = Origin<D>;

    ghost items = { λ shared. (H.seen shared.house).trail };

    ghost root = { λ shared. origin_of (H.seen shared.house) };

    ghost later = { IsSharedLater D.faults H.seen };

    ghost keeps = { λ shared. H.keeps shared.house × H.shuts shared.house };

    ghost reflexive = { shared_itself D.faults H.seen };

    ghost transitive = { shared_further D.faults H.seen };

    ghost same_root = { same_origin D.faults H.seen };

    ghost begins = { shared_begins D.faults H.seen };

    fn length(&self) -> u64 {
        self.house.items()
    }
}
