ghost use Rattle.hv_telling.specs.hv_house.specs.Housed.{ShutsHard};
ghost use Rattle.hv_telling.specs.hv_house.specs.Steps.{seen_of};
ghost use Rattle.hv_telling.specs.Telling.{IsWhole};
ghost use Rattle.hv_acts.specs.Reading.{sought_at, GetStep};

use crate::told::ToldHouse;
use hv_actor::Act;
use hv_base::TxnId;
use hv_shelf::{Place, Shelf};
use hv_telling::hv_house::{GetFault, House, HouseFault};
use std::alloc::Global;

/// Gets, for a transaction that has not ended, the bytes of the file at a place.
#[derive(Drop)]
pub struct GetFile<'a> {
    pub by: TxnId,
    pub place: &'a Place,
}

fn get_file<D: Shelf>(
    alloc: Global,
    house: &mut House<D>,
    by: TxnId,
    place: &Place,
) -> Result<Vec<u8>, GetFault>
    requires whole { IsWhole D.told house.old }
    requires hard { ShutsHard D.hard (seen_of house.old) }
    ensures got { GetStep D.told D.faults (sought_at by place.now) house.old house.new result }
    ensures hard { ShutsHard D.hard (seen_of house.new) }
{
    house.get(alloc, by, place)
}

impl<'a, D: Shelf + Drop> Act<D, ToldHouse<D>> for GetFile<'a> {
    ghost use Rattle.std.specs.Prelude.{Some, IfErr};
    ghost use Rattle.hv_trail.specs.declared.trail.Reader.TheVariants.{Txn};
    ghost use Rattle.hv_trail.specs.Steps.{Read};
    ghost use Rattle.hv_telling.specs.hv_house.specs.Listing.{get_outcome};
    ghost use Rattle.hv_acts.specs.Reading.{GetAnswers, adds_getting, GetLeaves, GetRises};
    ghost use Rattle.hv_acts.specs.Few.{few_getting};
    ghost use Rattle.hv_acts.specs.Laters.{get_later};

    type Answer = Result<Vec<u8>, GetFault>;

    ghost can = { λ act house. Unit {0} };

    ghost call = { λ act house answer. Read (Some (Txn act.by)) };

    ghost outcome = { λ act answer. get_outcome answer };

    ghost adds = { λ act answer. adds_getting act.by answer };

    ghost does = { λ act house now answer. GetAnswers D.told house act.by act.place.now answer
        × GetLeaves D.told D.faults act.by.0 house now answer × IfErr answer (GetRises D.faults house) };

    ghost most = { 1 };

    ghost few = { λ act answer. few_getting act.by answer };

    ghost goes_on = { λ act answer before now step does.
        get_later D.told D.faults (Read (Some (Txn act.by))) act.by.0 answer before now step does.1 does.2 };

    fn act(self, alloc: Global, house: &mut ToldHouse<D>) -> Result<Vec<u8>, GetFault> {
        if house.house.is_closed() {
            Err(GetFault::House(HouseFault::Store))
        } else {
            get_file(alloc, &mut house.house, self.by, self.place)
        }
    }
}
