ghost use Rattle.std.specs.Prelude.{◌≡◌};
ghost use Rattle.hv_telling.specs.hv_house.specs.Housed.{ShutsHard};
ghost use Rattle.hv_telling.specs.hv_house.specs.Steps.{seen_of};
ghost use Rattle.hv_telling.specs.Telling.{IsWhole};
ghost use Rattle.hv_acts.specs.Told.{IsWholeOrClosed};

use hv_actor::Housed;
use hv_shelf::Shelf;
use hv_telling::hv_house::House;

/// A house that acts keep whole: where the store that it was opened over told a legal book whose files stood, its book is
/// legal and its files stand, between any two of them. Where it is closed, the store's hard count rose since it was opened.
#[derive(Drop)]
pub struct ToldHouse<D> {
    pub house: House<D>,
}

impl<D: Shelf> ToldHouse<D> {
    /// A house that is whole, for those who act on it.
    pub fn new(house: House<D>) -> ToldHouse<D>
        requires whole { IsWhole D.told house }
        requires shuts { ShutsHard D.hard (seen_of house) }
        ensures house { result.house ≡ house }
        ensures keeps { IsWholeOrClosed D.told result.house }
        ensures shuts { ShutsHard D.hard (seen_of result.house) }
    {
        ToldHouse { house }
    }

    /// Whether the house's journal failed: then every act is refused.
    pub fn is_closed(&self) -> bool
        ensures closed { result ≡ self.now.house.trail.closed }
    {
        self.house.is_closed()
    }

    /// The house, when all is done.
    pub fn into_house(self) -> House<D>
        ensures house { result ≡ self.house }
    {
        let ToldHouse { house } = self;
        house
    }
}

impl<D: Shelf + Drop> Housed<D> for ToldHouse<D> {
    ghost use Rattle.hv_telling.specs.hv_house.specs.Steps.{seen_of};
    ghost use Rattle.hv_telling.specs.hv_house.specs.Housed.{ShutsHard};
    ghost use Rattle.hv_acts.specs.Told.{IsWholeOrClosed};

    ghost seen = { λ h. seen_of h.house };

    ghost keeps = { λ h. IsWholeOrClosed D.told h.house };

    ghost shuts = { λ h. ShutsHard D.hard (seen_of h.house) };

    fn items(&self) -> u64 {
        self.house.items()
    }

    fn opened(&self) -> u64 {
        self.house.opened()
    }
}
