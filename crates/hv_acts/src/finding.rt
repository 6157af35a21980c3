ghost use Rattle.hv_telling.specs.hv_house.specs.House.{IsReady};
ghost use Rattle.hv_acts.specs.Reading.{FindStep};

use crate::fault::ActFault;
use crate::told::ToldHouse;
use hv_actor::Act;
use hv_base::{NoMemory, Text};
use hv_logic::TableInfo;
use hv_shelf::Shelf;
use hv_telling::hv_house::{House, HouseFault};
use std::alloc::Global;

/// Finds the table of a name as it stood at a place of the book; None where there was none.
#[derive(Drop)]
pub struct FindTable<'a> {
    pub place: u64,
    pub name: &'a Text,
}

fn find_table<D: Shelf>(
    alloc: Global,
    house: &House<D>,
    place: u64,
    name: &Text,
) -> Result<Option<TableInfo>, ActFault>
    requires ready { IsReady D.told house.now }
    ensures found { FindStep D.told D.faults place name.now house.now result }
{
    match house.find(alloc, place, name) {
        Ok(found) => Ok(found),
        Err(NoMemory) => Err(ActFault::House(HouseFault::NoMemory)),
    }
}

impl<'a, D: Shelf + Drop> Act<D, ToldHouse<D>> for FindTable<'a> {
    ghost use Rattle.std.specs.Prelude.{[]};
    ghost use Rattle.hv_trail.specs.Steps.{Ask};
    ghost use Rattle.hv_acts.specs.Answers.{answer_outcome};
    ghost use Rattle.hv_acts.specs.Reading.{HasPlace, FindAnswers};
    ghost use Rattle.hv_acts.specs.Few.{few_none};
    ghost use Rattle.hv_acts.specs.Laters.{find_later};

    type Answer = Result<Option<TableInfo>, ActFault>;

    ghost can = { λ act house. HasPlace house.trail act.place };

    ghost call = { λ act house answer. Ask };

    ghost outcome = { λ act answer. answer_outcome answer };

    ghost adds = { λ act answer. [] };

    ghost does = { λ act house now answer. FindAnswers house act.place act.name.now answer };

    ghost most = { 1 };

    ghost few = { λ act answer. few_none };

    ghost goes_on = { λ act answer before now step does.
        find_later D.told D.faults act.place act.name.now answer before now step does };

    fn act(self, alloc: Global, house: &mut ToldHouse<D>) -> Result<Option<TableInfo>, ActFault> {
        if house.house.is_closed() {
            Err(ActFault::House(HouseFault::Store))
        } else {
            find_table(alloc, &house.house, self.place, self.name)
        }
    }
}
