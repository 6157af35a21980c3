//! A statement of a session, over a house on which nobody else acts: all that is promised of it then.
ghost use Rattle.std.specs.Prelude.{◌≡◌, ◌≤◌, length, IfOk, IfErr};
ghost use Rattle.hv_actor.specs.Acting.{IsLater};
ghost use Rattle.hv_session.specs.hv_beginning.specs.hv_steps.specs.hv_table_reader.specs.hv_acts.specs.Told.{seen_in};
ghost use Rattle.hv_session.specs.hv_beginning.specs.hv_steps.specs.hv_table_reader.specs.hv_acts.specs.hv_telling.specs.hv_house.specs.Faults.{FileCause};
ghost use Rattle.hv_session.specs.hv_beginning.specs.hv_steps.specs.hv_table_reader.specs.hv_acts.specs.hv_telling.specs.hv_house.specs.House.{entries_of};
ghost use Rattle.hv_session.specs.hv_beginning.specs.hv_steps.specs.hv_table_reader.specs.hv_acts.specs.hv_telling.specs.hv_house.specs.Housed.{ShutsHard};
ghost use Rattle.hv_stands.specs.Running.{next_number};
ghost use Rattle.hv_session.specs.hv_beginning.specs.hv_steps.specs.hv_table_reader.specs.hv_acts.specs.hv_telling.specs.Telling.{IsWhole, IsToldHouse, StillOpens};
ghost use Rattle.hv_session.specs.Doing.{IsHold, CanFinish, CanFinishTaken};
ghost use Rattle.hv_session.specs.hv_beginning.specs.hv_steps.specs.Ending.{AddsOf, HasStopped};
ghost use Rattle.hv_session.specs.Taking.{asked_of, IsKeptIn, IsTakenAs, IsFinished};
ghost use Rattle.hv_session.specs.Ways.{StopsTaken};
ghost use Rattle.hv_program.specs.Keeping.{StandsTruly};
ghost use Rattle.hv_program.specs.Stops.{IsShutFor};

use hv_session::hv_beginning::hv_steps::Reply;
use hv_session::hv_beginning::hv_steps::hv_table_reader::hv_acts::ToldHouse;
use hv_session::hv_beginning::hv_steps::hv_table_reader::hv_acts::hv_telling::hv_house::HouseFault;
use hv_session::{Asking, How, Paused, Taken, finish, take_up};
use hv_shelf::Shelf;
use std::alloc::Global;

/// How a script's statements are taken up: nobody waits, and there is one worker.
const HOW: How = How {
    waits: false,
    workers: 1,
};

/// Takes up a statement.
pub fn take_alone<D: Shelf + Drop>(
    alloc: Global,
    house: &mut ToldHouse<D>,
    asking: Asking,
) -> Result<Taken, HouseFault>
    requires whole { IsWhole D.told house.old.house }
    requires hard { ShutsHard D.hard (seen_in house.old) }
    requires short { length asking.text ≤ 32768 }
    requires named { length asking.session ≤ 32 }
    requires hold { IsHold asking.hold }
    ensures whole { IfOk result (λ _. IsWhole D.told house.new.house) }
    ensures added { IfOk result (λ _. AddsOf (next_number (entries_of house.old.house))
        (D.faults house.old.house.shelf) (D.faults house.new.house.shelf)
        (entries_of house.old.house) (entries_of house.new.house)) }
    ensures later { IfOk result (λ _. IsLater D.faults (seen_in house.old) (seen_in house.new)) }
    ensures held { IfOk result (IsKeptIn (entries_of house.old.house) (entries_of house.new.house) (asked_of asking)) }
    ensures can { IfOk result (CanFinishTaken D.told house.new) }
    ensures taken { IsToldHouse D.told house.old.house → IfOk result (IsTakenAs
        (entries_of house.old.house) (entries_of house.new.house) (asked_of asking) asking.hold) }
    ensures start { house.new.house.start ≡ house.old.house.start }
    ensures stopped { IfErr result (λ why. StopsTaken D.told (asked_of asking) why house.old.house house.new.house) }
    ensures opens { IsToldHouse D.told house.old.house → IfErr result (λ _. StillOpens D.told house.new.house) }
    ensures cause { FileCause (D.faults house.old.house.shelf) (D.faults house.new.house.shelf) result }
    ensures hard { ShutsHard D.hard (seen_in house.new) }
    ensures shut { IfErr result (IsShutFor house.new) }
{
    take_up(alloc, house, asking, HOW)
}

/// Does a held statement to its end, or says that another statement has stopped it.
pub fn finish_alone<D: Shelf + Drop>(
    alloc: Global,
    house: &mut ToldHouse<D>,
    paused: Paused,
) -> Result<Reply, HouseFault>
    requires whole { IsWhole D.told house.old.house }
    requires hard { ShutsHard D.hard (seen_in house.old) }
    requires can { CanFinish D.told house.old paused }
    requires truly { IsToldHouse D.told house.old.house → StandsTruly (entries_of house.old.house) paused }
    ensures whole { IfOk result (λ _. IsWhole D.told house.new.house) }
    ensures added { IfOk result (λ _. AddsOf paused.way.txn.0
        (D.faults house.old.house.shelf) (D.faults house.new.house.shelf)
        (entries_of house.old.house) (entries_of house.new.house)) }
    ensures later { IfOk result (λ _. IsLater D.faults (seen_in house.old) (seen_in house.new)) }
    ensures finished { IsToldHouse D.told house.old.house → IfOk result (λ reply. IsFinished
        (entries_of house.old.house) (entries_of house.new.house) paused.way.txn.0 reply.text
        reply.refused reply.ended) }
    ensures start { house.new.house.start ≡ house.old.house.start }
    ensures stopped { IfErr result (λ why. HasStopped D.told paused.way.txn.0 why house.old.house house.new.house) }
    ensures opens { IsToldHouse D.told house.old.house → IfErr result (λ _. StillOpens D.told house.new.house) }
    ensures cause { FileCause (D.faults house.old.house.shelf) (D.faults house.new.house.shelf) result }
    ensures hard { ShutsHard D.hard (seen_in house.new) }
    ensures shut { IfErr result (IsShutFor house.new) }
{
    finish(alloc, house, paused)
}
