ghost use Rattle.hv_trail.specs.Kept.{trail_of};
ghost use Rattle.hv_telling.specs.hv_house.specs.House.{IsReady};
ghost use Rattle.hv_acts.specs.Reading.{HasPlace};
ghost use Rattle.hv_acts.specs.Showing.{ShowStep};

use crate::fault::ActFault;
use crate::told::ToldHouse;
use hv_actor::Act;
use hv_ast::Show;
use hv_base::NoMemory;
use hv_history::Shown;
use hv_shelf::Shelf;
use hv_showing::show_at;
use hv_telling::hv_house::{House, HouseFault};
use std::alloc::Global;

/// Asks what a SHOW lists of the book as it was at a place; None of a form that isn't built.
#[derive(Drop)]
pub struct ShowBook<'a> {
    pub place: u64,
    pub what: &'a Show,
}

fn show_book<D: Shelf>(
    alloc: Global,
    house: &House<D>,
    place: u64,
    what: &Show,
) -> Result<Option<Shown>, ActFault>
    requires ready { IsReady D.told house.now }
    requires place { HasPlace (trail_of house.now.trail) place }
    ensures shown { ShowStep D.told D.faults place what.now house.now result }
{
    match show_at(alloc, house.book(), place as usize, what) {
        Ok(shown) => Ok(shown),
        Err(NoMemory) => Err(ActFault::House(HouseFault::NoMemory)),
    }
}

impl<'a, D: Shelf + Drop> Act<D, ToldHouse<D>> for ShowBook<'a> {
    ghost use Rattle.std.specs.Prelude.{[]};
    ghost use Rattle.hv_trail.specs.Steps.{Ask};
    ghost use Rattle.hv_acts.specs.Answers.{answer_outcome};
    ghost use Rattle.hv_acts.specs.Reading.{HasPlace};
    ghost use Rattle.hv_acts.specs.Showing.{ShowAnswers};
    ghost use Rattle.hv_acts.specs.Few.{few_none};
    ghost use Rattle.hv_acts.specs.Laters.{show_later};

    type Answer = Result<Option<Shown>, ActFault>;

    ghost can = { λ act house. HasPlace house.trail act.place };

    ghost call = { λ act house answer. Ask };

    ghost outcome = { λ act answer. answer_outcome answer };

    ghost adds = { λ act answer. [] };

    ghost does = { λ act house now answer. ShowAnswers house act.place act.what.now answer };

    ghost most = { 1 };

    ghost few = { λ act answer. few_none };

    ghost goes_on = { λ act answer before now step does.
        show_later D.told D.faults act.place act.what.now answer before now step does };

    fn act(self, alloc: Global, house: &mut ToldHouse<D>) -> Result<Option<Shown>, ActFault> {
        if house.house.is_closed() {
            Err(ActFault::House(HouseFault::Store))
        } else {
            show_book(alloc, &house.house, self.place, self.what)
        }
    }
}
