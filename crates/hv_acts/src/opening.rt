ghost use Rattle.std.specs.Prelude.{◌≡◌, ◌≤◌, length};
ghost use Rattle.hv_built.specs.Running.{Runs};
ghost use Rattle.hv_trail.specs.Kept.{trail_of};
ghost use Rattle.hv_telling.specs.hv_house.specs.House.{IsReady};
ghost use Rattle.hv_telling.specs.hv_house.specs.Housed.{ShutsHard};
ghost use Rattle.hv_telling.specs.hv_house.specs.Steps.{seen_of};
ghost use Rattle.hv_telling.specs.Telling.{IsWhole};
ghost use Rattle.hv_acts.specs.Beginning.{IsHindered, begin_of, BeginStep};

use crate::fault::BeginFault;
use crate::noting::next_place;
use crate::told::ToldHouse;
use hv_actor::Act;
use hv_ast::{Stmt, discard};
use hv_base::{Text, TxnId};
use hv_locks::LockState;
use hv_shelf::Shelf;
use hv_telling::begin;
use hv_telling::hv_house::{House, HouseFault};
use std::alloc::Global;

/// Opens a statement and starts it, where no lock is held against it and there is room. `tree` is that of its text.
#[derive(Drop)]
pub struct Begin {
    pub session: Text,
    pub number: u64,
    pub text: Text,
    pub tree: Stmt,
}

/// A statement that was begun: its transaction, and the place of its `Start`.
#[derive(Clone, Copy)]
pub struct Begun {
    pub txn: TxnId,
    pub place: u64,
}

/// What stands in the way of a statement that cannot begin.
fn hindrance<D: Shelf>(house: &House<D>, tree: &Stmt) -> BeginFault
    requires ready { IsReady D.told house.now }
    ensures hindered { IsHindered (trail_of house.now.trail) tree.now result }
{
    match house.check(tree) {
        LockState::Waiting { blocker } => BeginFault::Held { by: blocker },
        LockState::Granted => BeginFault::Full {
            entries: next_place(house),
        },
    }
}

fn begin_free<D: Shelf>(
    house: &mut House<D>,
    session: Text,
    number: u64,
    text: Text,
    tree: Stmt,
) -> Result<Begun, BeginFault>
    requires whole { IsWhole D.told house.old }
    requires hard { ShutsHard D.hard (seen_of house.old) }
    requires runs { Runs text tree }
    requires short { length text ≤ 32768 }
    requires named { length session ≤ 32 }
    ensures begun { BeginStep D.told D.faults
        (begin_of (record { session = session; number = number; text = text }) tree) house.old house.new result }
    ensures hard { ShutsHard D.hard (seen_of house.new) }
{
    if !house.can_begin(&tree) {
        let why = hindrance(house, &tree);
        discard(tree);
        return Err(why);
    }
    match begin(house, session, number, text, tree) {
        Ok((txn, place)) => Ok(Begun { txn, place }),
        Err(fault) => Err(BeginFault::House(fault)),
    }
}

impl<D: Shelf + Drop> Act<D, ToldHouse<D>> for Begin {
    ghost use Rattle.std.specs.Prelude.{◌≤◌, length};
    ghost use Rattle.hv_built.specs.Running.{Runs};
    ghost use Rattle.hv_acts.specs.Beginning.{begin_call, begin_outcome, adds_beginning, BeginAnswers, BeginLeaves};
    ghost use Rattle.hv_acts.specs.Few.{few_beginning};
    ghost use Rattle.hv_acts.specs.Laters.{begin_later};

    type Answer = Result<Begun, BeginFault>;

    ghost can = { λ act house. Runs act.text act.tree × (length act.text ≤ 32768) × (length act.session ≤ 32) };

    ghost call = { λ act house answer. begin_call house.trail act.session act.number act.text answer };

    ghost outcome = { λ act answer. begin_outcome answer };

    ghost adds = { λ act answer. adds_beginning act.session act.number act.text answer };

    ghost does = { λ act house now answer. BeginAnswers house.trail act.tree answer
        × BeginLeaves D.told D.faults (record { session = act.session; number = act.number; text = act.text }) house now
        answer };

    ghost most = { 2 };

    ghost few = { λ act answer. few_beginning act.session act.number act.text answer };

    ghost goes_on = { λ act answer before now step does.
        begin_later D.told D.faults (record { session = act.session; number = act.number; text = act.text })
        answer before now step does.1 };

    fn act(self, _alloc: Global, house: &mut ToldHouse<D>) -> Result<Begun, BeginFault> {
        if house.house.is_closed() {
            discard(self.tree);
            Err(BeginFault::House(HouseFault::Store))
        } else {
            begin_free(
                &mut house.house,
                self.session,
                self.number,
                self.text,
                self.tree,
            )
        }
    }
}
