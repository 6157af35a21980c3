ghost use Rattle.hv_law_once.specs.Once.{ItemsGoTogether, ItemsStandOnce};

/// The items at the places of two seats that were joined are those of the one and then those of the other.
pub fn items_go_together()
    ensures law { ItemsGoTogether }
{}

/// Where at most one item of a share passes a test, and every place from a place on is of that share, no two such places have items that
/// pass it.
pub fn items_stand_once()
    ensures law { ItemsStandOnce }
{}
