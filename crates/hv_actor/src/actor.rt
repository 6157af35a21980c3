ghost use Rattle.std.specs.Prelude.{◌≡◌, ◌≤◌, ℕ, List, length};
ghost use Rattle.hv_trail.specs.declared.trail.TrailItem.{TrailItem};
ghost use Rattle.hv_trail.specs.Steps.{HouseSeen, Call, Outcome, gains, Step};
ghost use Rattle.hv_actor.specs.Acting.{IsLater, sees, Held, Went, AreRows};

use hv_shelf::Shelf;
use std::alloc::Global;

/// A house over a store, as those see it who act on it.
pub trait Housed<D: Shelf>: Drop {
    ghost seen: { Self → HouseSeen D };

    /// What holds of it between two calls. Each act keeps it.
    ghost keeps: { Self → Type 0 };

    /// Why it is closed, where it is. Each act keeps this too; what it does rests on `keeps` alone.
    ghost shuts: { Self → Type 0 };

    /// How many items its trail has.
    fn items(&self) -> u64
        ensures items { result ≡ length (seen self.now).trail };

    /// How many of them its opening left, all of which still stand.
    fn opened(&self) -> u64
        ensures opened { result ≡ (seen self.now).opened }
        ensures within { (seen self.now).opened ≤ length (seen self.now).trail };
}

/// Something that is done in one hold of a house: one call on it, with what is tested before it.
pub trait Act<D: Shelf, H: Housed<D>>: Drop {
    type Answer;

    /// When it may be done.
    ghost can: { Self → HouseSeen D → Type 0 };

    /// The call that it makes on a house as it was, by what it answers.
    ghost call: { Self → HouseSeen D → Self.Answer → Call };

    /// How that call ended.
    ghost outcome: { Self → Self.Answer → Outcome };

    /// What it adds, by its answer alone.
    ghost adds: { Self → Self.Answer → List TrailItem };

    /// What is true of its answer, over the house as it was and as it is then.
    ghost does: { Self → HouseSeen D → HouseSeen D → Self.Answer → Type 0 };

    /// How many items it adds at most.
    ghost most: { ℕ };

    fn act(self, alloc: Global, house: &mut H) -> Self::Answer
        requires keeps { H.keeps house.old }
        requires shuts { H.shuts house.old }
        requires can { can self (H.seen house.old) }
        ensures keeps { H.keeps house.new }
        ensures shuts { H.shuts house.new }
        ensures step { Step D.told D.faults (call self (H.seen house.old) result) (outcome self result)
            (H.seen house.old) (H.seen house.new) }
        ensures adds { gains (call self (H.seen house.old) result) (outcome self result) ≡ adds self result }
        ensures does { does self (H.seen house.old) (H.seen house.new) result };

    /// It adds no more, whatever it answers.
    ghost few: { (act : Self) (answer : Self.Answer) → length (adds act answer) ≤ most };

    /// A house on which it was done goes on.
    ghost goes_on: { (act : Self) (answer : Self.Answer) (before now : HouseSeen D)
        → Step D.told D.faults (call act before answer) (outcome act answer) before now
        → does act before now answer → IsLater D.faults before now };
}

/// One who acts on a house, step by step, and may not be the only one.
pub trait Actor<D: Shelf, H: Housed<D>> {
    /// The house, as it was last seen.
    ghost house: { Self → H };

    /// The places of the trail that are its own.
    ghost own: { Self → List ℕ };

    /// What others may add between two of its steps.
    ghost between: { List TrailItem → Type 0 };

    /// What others may do to the house between two of its steps.
    ghost meanwhile: { H → H → Type 0 };

    /// What holds of it between two steps.
    ghost keeps: { Self → Type 0 };

    /// How many items one of its steps may add.
    ghost most: { ℕ };

    /// Lets one step happen. What the house is then was seen, and what the step added is its own.
    fn hold<A: Act<D, H>>(&mut self, alloc: Global, act: A) -> A::Answer
        requires keeps { keeps self.old }
        requires few { A.most ≤ most }
        requires can { (now : H) → H.keeps now → meanwhile (house self.old) now → A.can act (H.seen now) }
        ensures keeps { keeps self.new }
        ensures held { Held (sees D.told D.faults H.seen H.keeps) meanwhile (house self.old) (house self.new)
            (λ seen. A.call act seen result) (A.outcome act result) (λ before now. A.does act before now result) }
        ensures went { Went between (A.adds act result)
            (own self.old) (own self.new) (H.seen (house self.old)).trail (H.seen (house self.new)).trail };

    /// A house on which others act goes on.
    ghost goes_on: { (before now : H) → meanwhile before now → IsLater D.faults (H.seen before) (H.seen now) };

    /// What was last seen of the house is as each act keeps it.
    ghost kept: { (self : Self) → keeps self → H.keeps (house self) };

    /// And so is why it is closed, where it is.
    ghost shut: { (self : Self) → keeps self → H.shuts (house self) };

    /// What two rows of others' items may be, they may be together.
    ghost rows: { AreRows between };

    /// Any of its steps may add an item.
    ghost one: { 1 ≤ most };
}

/// A house on which nobody else acts.
impl<D: Shelf, H: Housed<D>> Actor<D, H> for H {
    ghost use Rattle.hv_actor.specs.Acting.{Nothing, Untouched, own_alone};
    ghost use Rattle.hv_actor.specs.Rows.{nothing_rows, untouched_goes_on, one_of_two};

    ghost house = { λ h. h };

    ghost own = { λ h. own_alone (H.seen h) };

    ghost between = { Nothing };

    ghost meanwhile = { Untouched };

    ghost keeps = { λ h. H.keeps h × H.shuts h };

    ghost most = { 2 };

    ghost goes_on = { untouched_goes_on D.faults H.seen };

    ghost kept = { λ h keeps. keeps.0 };

    ghost shut = { λ h keeps. keeps.1 };

    ghost rows = { nothing_rows };

    ghost one = { one_of_two };

    fn hold<A: Act<D, H>>(&mut self, alloc: Global, act: A) -> A::Answer {
        let _opened = self.opened();
        act.act(alloc, self)
    }
}
