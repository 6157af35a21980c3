ghost use Rattle.std.specs.Prelude.{◌≡◌, IfOk};
ghost use Rattle.hv_trail.specs.Kept.{trail_of};
ghost use Rattle.hv_telling.specs.hv_house.specs.Housed.{ShutsHard};
ghost use Rattle.hv_telling.specs.hv_house.specs.Steps.{seen_of};
ghost use Rattle.hv_telling.specs.Telling.{IsToldHouse, IsWhole};
ghost use Rattle.hv_acts.specs.Meant.{IsMakeMeant};
ghost use Rattle.hv_acts.specs.Making.{MakeStep};
ghost use Rattle.hv_acts.specs.Answers.{next_table};

use crate::fault::ActFault;
use crate::noting::{late, next_place, note_fitting, runs_with};
use crate::told::ToldHouse;
use hv_actor::Act;
use hv_base::{TableId, TxnId};
use hv_history::Entry;
use hv_shelf::Shelf;
use hv_telling::hv_house::{House, HouseFault};
use std::alloc::Global;

/// Ends a transaction by the table that its text makes, and answers its number and the place of its Create.
#[derive(Drop)]
pub struct MakeTable {
    pub txn: TxnId,
}

/// A table that was made: its number, and the place of its Create in the book.
#[derive(Clone, Copy)]
pub struct Made {
    pub table: TableId,
    pub at: u64,
}

/// The number of the table that is made next.
fn next_table<D: Shelf>(house: &House<D>) -> TableId
    ensures next { result ≡ next_table (trail_of house.now.trail) }
{
    TableId(house.book().tables().len() as u64 + 1)
}

#[tactic(auto, using(crate::proofs::Shorts::short_create))]
fn make_table<D: Shelf>(house: &mut House<D>, txn: TxnId) -> Result<Made, ActFault>
    requires whole { IsWhole D.told house.old }
    requires hard { ShutsHard D.hard (seen_of house.old) }
    requires truly { IsToldHouse D.told house.old → IsMakeMeant (trail_of house.old.trail) txn }
    ensures made { MakeStep D.told D.faults txn house.old house.new result }
    ensures next { IfOk result (λ made. made.table ≡ next_table (trail_of house.old.trail)) }
    ensures hard { ShutsHard D.hard (seen_of house.new) }
{
    if !runs_with(house, txn, 0) {
        return Err(late(house, txn));
    }
    let at = next_place(house);
    let table = next_table(house);
    match note_fitting(house, txn, Entry::Create { txn, table }) {
        Ok(()) => Ok(Made { table, at }),
        Err(fault) => Err(fault),
    }
}

impl<D: Shelf + Drop> Act<D, ToldHouse<D>> for MakeTable {
    ghost use Rattle.hv_history.specs.declared.entry.Entry.TheVariants as entry;
    ghost use Rattle.hv_trail.specs.Steps.{Note};
    ghost use Rattle.hv_telling.specs.Telling.{IsTold};
    ghost use Rattle.hv_acts.specs.Answers.{next_table, answer_call, answer_outcome, adds_entry, NoTest, Answers, AnswerLeaves};
    ghost use Rattle.hv_acts.specs.Meant.{IsMakeMeant};
    ghost use Rattle.hv_acts.specs.Making.{MakeFits, IsMadeAt, create_of};
    ghost use Rattle.hv_acts.specs.Few.{few_entry};
    ghost use Rattle.hv_acts.specs.Laters.{note_later};

    type Answer = Result<Made, ActFault>;

    ghost can = { λ act house. IsTold D.told house.start → IsMakeMeant house.trail act.txn };

    ghost call = { λ act house answer. answer_call (Note (entry.Create act.txn (next_table house.trail))) answer };

    ghost outcome = { λ act answer. answer_outcome answer };

    ghost adds = { λ act answer. adds_entry (create_of act.txn) answer };

    ghost does = { λ act house now answer. Answers NoTest house.trail act.txn (MakeFits house.trail act.txn)
        (IsMadeAt house.trail) answer
        × AnswerLeaves D.told D.faults act.txn.0 house now answer };

    ghost most = { 1 };

    ghost few = { λ act answer. few_entry (create_of act.txn) answer };

    ghost goes_on = { λ act answer before now step does.
        note_later D.told D.faults (entry.Create act.txn (next_table before.trail)) act.txn.0 answer before now
        step does.1 };

    fn act(self, _alloc: Global, house: &mut ToldHouse<D>) -> Result<Made, ActFault> {
        if house.house.is_closed() {
            Err(ActFault::House(HouseFault::Store))
        } else {
            make_table(&mut house.house, self.txn)
        }
    }
}
