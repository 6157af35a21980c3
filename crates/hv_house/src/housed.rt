ghost use Rattle.std.specs.Prelude.{◌≡◌};

use crate::house::House;
use hv_actor::Housed;
use hv_shelf::Shelf;

impl<D: Shelf + Drop> Housed<D> for House<D> {
    ghost use Rattle.hv_house.specs.Steps.{seen_of};
    ghost use Rattle.hv_house.specs.Housed.{IsReadyOrClosed, ShutsHard};

    ghost seen = { seen_of };

    ghost keeps = { IsReadyOrClosed D.told };

    ghost shuts = { λ h. ShutsHard D.hard (seen_of h) };

    fn items(&self) -> u64 {
        self.trail.items()
    }

    fn opened(&self) -> u64 {
        self.trail.opened()
    }
}

impl<D: Shelf> House<D> {
    /// Whether the journal failed, or memory lacked in a publication. A closed house answers so to every call, and nothing of it changes.
    pub fn is_closed(&self) -> bool
        ensures closed { result ≡ self.now.trail.closed }
    {
        self.trail.is_closed()
    }

    /// Whether it is closed for want of memory: directories got their names, and the journal wasn't told.
    pub fn is_starved(&self) -> bool
        ensures starved { result ≡ self.now.trail.starved }
    {
        self.trail.is_starved()
    }
}
