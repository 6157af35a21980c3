ghost use Rattle.hv_changes.specs.Laws.{PartsMeetAlike};

/// Of two values of a partition column's type `<=>` asks whether they are one value. So the condition of a
/// static partition is true of the rows that have its values, and of no others.
pub fn parts_meet_alike()
    ensures law { PartsMeetAlike }
{}
