ghost use Rattle.std.specs.Prelude.{◌≡◌, ℕ, List, ◌++◌, length};
ghost use Rattle.hv_trail.specs.declared.trail.TrailItem.{TrailItem};
ghost use Rattle.hv_trail.specs.Own.{RiseWithin, items_at};
ghost use Rattle.hv_trail.specs.Steps.{HouseSeen};
ghost use Rattle.hv_actor.specs.Acting.{IsLater, Went, Nothing, Untouched, IsAlone, numbers_from};

use crate::actor::{Actor, Housed};
use hv_shelf::Shelf;

/// Steps one after another are one row of steps, whatever others did between.
pub fn steps_go_together<D: Shelf, H: Housed<D>, W: Actor<D, H>>()
    ensures law { (gained more : List TrailItem) (own next last : List ℕ) (a b c : List TrailItem)
        → Went W.between gained own next a b → Went W.between more next last b c
        → Went W.between (gained ++ more) own last a c }
{}

/// Where nobody else adds anything, one's own items stand one behind the other, and each place behind is one's own.
pub fn alone_adds_its_own()
    ensures trail { (gained : List TrailItem) (own next : List ℕ) (before now : List TrailItem)
        → Went Nothing gained own next before now → now ≡ before ++ gained }
    ensures places { (gained : List TrailItem) (own next : List ℕ) (before now : List TrailItem)
        → Went Nothing gained own next before now → next ≡ own ++ numbers_from (length before) (length gained) }
{}

/// One's own places rise, and at them stand the items that one's own steps added, whatever stands between.
pub fn own_places_have_own_items<D: Shelf, H: Housed<D>, W: Actor<D, H>>()
    ensures rise { (gained : List TrailItem) (own next : List ℕ) (before now : List TrailItem)
        → Went W.between gained own next before now → RiseWithin 0 own (length before)
        → RiseWithin 0 next (length now) }
    ensures items { (gained : List TrailItem) (own next : List ℕ) (before now : List TrailItem)
        → Went W.between gained own next before now → RiseWithin 0 own (length before)
        → items_at next now ≡ items_at own before ++ gained }
{}

/// Where others do nothing to a house, whoever acts on it is alone: it is found as it was left.
pub fn who_is_alone<H>()
    ensures law { IsAlone {H = H} Untouched }
{}

/// A house goes on to itself, and where it goes on twice, it goes on.
pub fn houses_go_on<D>()
    ensures itself { (faults : D → ℕ) (house : HouseSeen D) → IsLater faults house house }
    ensures further { (faults : D → ℕ) (a b c : HouseSeen D) → IsLater faults a b → IsLater faults b c
        → IsLater faults a c }
{}
