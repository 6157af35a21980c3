ghost use Rattle.std.specs.Prelude.{◌≡◌};
ghost use Rattle.hv_trail.specs.Kept.{trail_of};
ghost use Rattle.hv_telling.specs.hv_house.specs.Housed.{ShutsHard};
ghost use Rattle.hv_telling.specs.hv_house.specs.Steps.{seen_of};
ghost use Rattle.hv_telling.specs.Telling.{IsWhole};
ghost use Rattle.hv_acts.specs.Reading.{ListStep, ReadsTable, of_list};

use crate::fault::ActFault;
use crate::told::ToldHouse;
use hv_actor::Act;
use hv_base::{TableId, TxnId};
use hv_shelf::Shelf;
use hv_telling::hv_house::{House, HouseFault, ListFault, Listing};
use std::alloc::Global;

/// Lists, for a transaction that has not ended, the files of a table that are taken under the list of its write ids at the place of the
/// transaction's snapshot.
#[derive(Drop)]
pub struct ListTable {
    pub by: TxnId,
    pub place: u64,
    pub table: TableId,
}

/// Why the house listed nothing, as the act answers it.
fn act_fault(why: ListFault) -> ActFault
    ensures fault { result ≡ of_list why }
{
    match why {
        ListFault::NotOpen { at } => ActFault::Ended { at },
        ListFault::House(fault) => ActFault::House(fault),
    }
}

fn list_table<D: Shelf>(
    alloc: Global,
    house: &mut House<D>,
    by: TxnId,
    place: u64,
    table: TableId,
) -> Result<Listing, ActFault>
    requires whole { IsWhole D.told house.old }
    requires hard { ShutsHard D.hard (seen_of house.old) }
    requires reads { ReadsTable (trail_of house.old.trail) by place table.0 }
    ensures listed { ListStep D.told D.faults (record { by = by; place = place; table = table }) house.old house.new
        result }
    ensures hard { ShutsHard D.hard (seen_of house.new) }
{
    match house.list(alloc, by, place, table) {
        Ok(listing) => Ok(listing),
        Err(why) => Err(act_fault(why)),
    }
}

impl<D: Shelf + Drop> Act<D, ToldHouse<D>> for ListTable {
    ghost use Rattle.std.specs.Prelude.{Some, IfErr};
    ghost use Rattle.hv_trail.specs.declared.trail.Reader.TheVariants.{Txn};
    ghost use Rattle.hv_trail.specs.Steps.{Read};
    ghost use Rattle.hv_acts.specs.Answers.{answer_outcome, AnswerLeaves, WhyRises};
    ghost use Rattle.hv_acts.specs.Reading.{ReadsTable, ListAnswers, adds_listing};
    ghost use Rattle.hv_acts.specs.Few.{few_listing};
    ghost use Rattle.hv_acts.specs.Laters.{list_later};

    type Answer = Result<Listing, ActFault>;

    ghost can = { λ act house. ReadsTable house.trail act.by act.place act.table.0 };

    ghost call = { λ act house answer. Read (Some (Txn act.by)) };

    ghost outcome = { λ act answer. answer_outcome answer };

    ghost adds = { λ act answer. adds_listing act.by answer };

    ghost does = { λ act house now answer. ListAnswers D.told house act.by act.place act.table answer
        × AnswerLeaves D.told D.faults act.by.0 house now answer × IfErr answer (WhyRises D.faults house) };

    ghost most = { 1 };

    ghost few = { λ act answer. few_listing act.by answer };

    ghost goes_on = { λ act answer before now step does.
        list_later D.told D.faults (Read (Some (Txn act.by))) act.by.0 answer before now step does.1 does.2 };

    fn act(self, alloc: Global, house: &mut ToldHouse<D>) -> Result<Listing, ActFault> {
        if house.house.is_closed() {
            Err(ActFault::House(HouseFault::Store))
        } else {
            list_table(alloc, &mut house.house, self.by, self.place, self.table)
        }
    }
}
