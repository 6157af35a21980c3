ghost use Rattle.hv_table_rows.specs.Putting.{CanPut};
ghost use Rattle.hv_trail.specs.Kept.{trail_of};
ghost use Rattle.hv_telling.specs.hv_house.specs.Housed.{ShutsHard};
ghost use Rattle.hv_telling.specs.hv_house.specs.Steps.{seen_of};
ghost use Rattle.hv_telling.specs.Telling.{IsToldHouse, IsWhole};
ghost use Rattle.hv_acts.specs.Meant.{IsFileMeant};
ghost use Rattle.hv_acts.specs.Putting.{HasIdFor, FileStep, at_place};

use crate::fault::ActFault;
use crate::noting::{late, runs_with};
use crate::told::ToldHouse;
use hv_actor::Act;
use hv_base::TxnId;
use hv_route::OutFile;
use hv_shelf::{Place, Shelf};
use hv_telling::hv_house::{House, HouseFault};
use hv_telling::put;
use std::alloc::Global;

/// Puts a file of a change at its place, under a write id that its transaction was given.
#[derive(Drop)]
pub struct PutFile<'a> {
    pub by: TxnId,
    pub place: Place,
    pub file: &'a OutFile,
}

fn put_running<D: Shelf>(
    alloc: Global,
    house: &mut House<D>,
    by: TxnId,
    place: Place,
    file: &OutFile,
) -> Result<(), ActFault>
    requires whole { IsWhole D.told house.old }
    requires hard { ShutsHard D.hard (seen_of house.old) }
    requires can { CanPut file.now }
    requires given { HasIdFor (trail_of house.old.trail) by place file.now }
    requires truly { IsToldHouse D.told house.old → IsFileMeant (trail_of house.old.trail) by place file.now }
    ensures put { FileStep D.told D.faults (at_place by place file.now) house.old house.new result }
    ensures hard { ShutsHard D.hard (seen_of house.new) }
{
    if !runs_with(house, by, 1) {
        return Err(late(house, by));
    }
    match put(alloc, house, by, place, file) {
        Ok(()) => Ok(()),
        Err(fault) => Err(ActFault::House(fault)),
    }
}

impl<'a, D: Shelf + Drop> Act<D, ToldHouse<D>> for PutFile<'a> {
    ghost use Rattle.std.specs.Prelude.{IfErr};
    ghost use Rattle.hv_table_rows.specs.Putting.{CanPut, IsEncoded, bytes_of};
    ghost use Rattle.hv_trail.specs.declared.trail.Reader.TheVariants.{Txn};
    ghost use Rattle.hv_trail.specs.Steps.{Put};
    ghost use Rattle.hv_acts.specs.Answers.{answer_call, answer_outcome, NoTest, Answers, AnswerLeaves, WhyRises};
    ghost use Rattle.hv_telling.specs.Telling.{IsTold};
    ghost use Rattle.hv_acts.specs.Putting.{HasIdFor, adds_file};
    ghost use Rattle.hv_acts.specs.Meant.{RunsWith, IsFileMeant};
    ghost use Rattle.hv_acts.specs.Few.{few_file};
    ghost use Rattle.hv_acts.specs.Laters.{file_later};

    type Answer = Result<(), ActFault>;

    ghost can = { λ act house. CanPut act.file.now × HasIdFor house.trail act.by act.place act.file.now
        × (IsTold D.told house.start → IsFileMeant house.trail act.by act.place act.file.now) };

    ghost call = { λ act house answer. answer_call (Put (Txn act.by) act.place (bytes_of act.file.now)) answer };

    ghost outcome = { λ act answer. answer_outcome answer };

    ghost adds = { λ act answer. adds_file act.by act.place answer };

    ghost does = { λ act house now answer. Answers NoTest house.trail act.by (RunsWith house.trail act.by 1)
        (λ done. IsEncoded act.file.now) answer × AnswerLeaves D.told D.faults act.by.0 house now answer
        × IfErr answer (WhyRises D.faults house) };

    ghost most = { 1 };

    ghost few = { λ act answer. few_file act.by act.place answer };

    ghost goes_on = { λ act answer before now step does.
        file_later D.told D.faults (Put (Txn act.by) act.place (bytes_of act.file.now)) act.by.0 answer before
        now step does.1 does.2 };

    fn act(self, alloc: Global, house: &mut ToldHouse<D>) -> Result<(), ActFault> {
        if house.house.is_closed() {
            Err(ActFault::House(HouseFault::Store))
        } else {
            put_running(alloc, &mut house.house, self.by, self.place, self.file)
        }
    }
}
