ghost use Rattle.std.specs.Prelude.{ℕ, List};
ghost use Rattle.hv_history.specs.declared.entry.Entry.{Entry};
ghost use Rattle.hv_actor.specs.Acting.{IsLater, known};
ghost use Rattle.hv_beginning.specs.hv_steps.specs.hv_table_reader.specs.hv_acts.specs.declared.told.ToldHouse.{ToldHouse as House};
ghost use Rattle.hv_beginning.specs.hv_steps.specs.hv_table_reader.specs.hv_acts.specs.Told.{seen_in};
ghost use Rattle.hv_session.specs.declared.paused.Paused.{Paused};
ghost use Rattle.hv_beginning.specs.hv_steps.specs.Going.{AddsOwn};
ghost use Rattle.hv_session.specs.Doing.{CanFinish};

use hv_actor::Actor;
use hv_beginning::hv_steps::hv_table_reader::hv_acts::ToldHouse;
use hv_shelf::Shelf;

/// A statement that is held can be finished, whatever others do to the house meanwhile, and whatever one's own acts add to it.
pub fn what_is_held_can_be_finished<D: Shelf + Drop, W: Actor<D, ToldHouse<D>>>()
    ensures others { (before now : House D) (paused : Paused)
        → IsLater D.faults (seen_in before) (seen_in now) → CanFinish D.told before paused
        → CanFinish D.told now paused }
    ensures acts { (by : ℕ) (own own' : List ℕ) (before now : House D) (added : List Entry) (paused : Paused)
        → AddsOwn D.faults W.between by (known own before) (known own' now) added → CanFinish D.told before paused
        → CanFinish D.told now paused }
{}
