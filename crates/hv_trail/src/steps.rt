ghost use Rattle.std.specs.Prelude.{◌≡◌, ◌≤◌, List, ◌++◌, length, true};
ghost use Rattle.hv_trail.specs.Steps.{HouseSeen, Call, Outcome, gains, most_items, all_gains, Step, Run, KeepsRest};
ghost use Rattle.hv_trail.specs.Lasting.{GoesOn};

use hv_shelf::Shelf;

/// A call adds at most one item, or two where a statement begins, and none where the house is closed; what was there goes on.
pub fn a_step_adds_few<D: Shelf>()
    ensures few { (call : Call) (outcome : Outcome) → length (gains call outcome) ≤ most_items call }
    ensures two { (call : Call) → most_items call ≤ 2 }
    ensures goes_on { (call : Call) (outcome : Outcome) (before now : HouseSeen D)
        → Step D.told D.faults call outcome before now → GoesOn before.trail now.trail }
    ensures shut { (call : Call) (outcome : Outcome) (before now : HouseSeen D)
        → Step D.told D.faults call outcome before now → before.closed ≡ true → now.trail ≡ before.trail }
{}

/// Steps one after another add what each adds, in their order, and leave the rest.
pub fn steps_add_up<D: Shelf>()
    ensures adds { (calls : List (Call × Outcome)) (before now : HouseSeen D)
        → Run D.told D.faults calls before now → now.trail ≡ before.trail ++ all_gains calls }
    ensures goes_on { (calls : List (Call × Outcome)) (before now : HouseSeen D)
        → Run D.told D.faults calls before now → GoesOn before.trail now.trail }
    ensures rest { (calls : List (Call × Outcome)) (before now : HouseSeen D)
        → Run D.told D.faults calls before now → KeepsRest before now }
{}
