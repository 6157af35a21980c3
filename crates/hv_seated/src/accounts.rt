ghost use Rattle.hv_seated.specs.Shares.{SharesDivide, SharesAreApart, SharesLieWithin, ItemsAreOfShares};

/// The own places of two seats that were joined are those of each of them. So what a turn says of its last seat, it says of all seats
/// that went into it.
pub fn shares_divide()
    ensures law { SharesDivide }
{}

/// No two seats have a place in common, and no seat has one before the start or behind the end.
pub fn shares_are_apart()
    ensures apart { SharesAreApart }
    ensures within { SharesLieWithin }
{}

/// Every item from the start on is at a place of some seat: what is true of the items at each seat's places is true of all.
pub fn items_are_of_shares()
    ensures law { ItemsAreOfShares }
{}
