ghost use Rattle.hv_values_text.specs.Laws.{OneRow, TwoRows, OnePartition, NoRow};

/// Some of the texts that are known, and one that isn't.
pub fn some_are_known()
    ensures one { OneRow }
    ensures two { TwoRows }
    ensures partition { OnePartition }
    ensures none { NoRow }
{}
