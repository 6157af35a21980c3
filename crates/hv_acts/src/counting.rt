ghost use Rattle.hv_telling.specs.hv_house.specs.House.{IsReady};
ghost use Rattle.hv_acts.specs.Counting.{CountStep};

use crate::fault::ActFault;
use crate::told::ToldHouse;
use hv_actor::Act;
use hv_base::{NoMemory, TableId};
use hv_counts::{Due, dues_at};
use hv_shelf::Shelf;
use hv_telling::hv_house::{House, HouseFault};
use std::alloc::Global;

/// Asks what the commits of a table say before a place of the book: of each of its write ids, how many rows they inserted and deleted.
#[derive(Drop)]
pub struct CountDues {
    pub place: u64,
    pub table: TableId,
}

fn count_dues<D: Shelf>(
    alloc: Global,
    house: &House<D>,
    place: u64,
    table: TableId,
) -> Result<Vec<Due>, ActFault>
    requires ready { IsReady D.told house.now }
    ensures counted { CountStep D.told D.faults place table house.now result }
{
    match dues_at(alloc, house.book(), place as usize, table) {
        Ok(dues) => Ok(dues),
        Err(NoMemory) => Err(ActFault::House(HouseFault::NoMemory)),
    }
}

impl<D: Shelf + Drop> Act<D, ToldHouse<D>> for CountDues {
    ghost use Rattle.std.specs.Prelude.{[]};
    ghost use Rattle.hv_trail.specs.Steps.{Ask};
    ghost use Rattle.hv_acts.specs.Answers.{answer_outcome};
    ghost use Rattle.hv_acts.specs.Reading.{HasPlace};
    ghost use Rattle.hv_acts.specs.Counting.{CountAnswers};
    ghost use Rattle.hv_acts.specs.Few.{few_none};
    ghost use Rattle.hv_acts.specs.Laters.{count_later};

    type Answer = Result<Vec<Due>, ActFault>;

    ghost can = { λ act house. HasPlace house.trail act.place };

    ghost call = { λ act house answer. Ask };

    ghost outcome = { λ act answer. answer_outcome answer };

    ghost adds = { λ act answer. [] };

    ghost does = { λ act house now answer. CountAnswers house act.place act.table answer };

    ghost most = { 1 };

    ghost few = { λ act answer. few_none };

    ghost goes_on = { λ act answer before now step does.
        count_later D.told D.faults act.place act.table answer before now step does };

    fn act(self, alloc: Global, house: &mut ToldHouse<D>) -> Result<Vec<Due>, ActFault> {
        if house.house.is_closed() {
            Err(ActFault::House(HouseFault::Store))
        } else {
            count_dues(alloc, &house.house, self.place, self.table)
        }
    }
}
