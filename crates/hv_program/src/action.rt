ghost use Rattle.std.specs.Prelude.{◌≡◌, ◌≤◌, [], None, false, length, IfOk, IfErr};
ghost use Rattle.hv_actor.specs.Acting.{IsLater};
ghost use Rattle.hv_session.specs.hv_beginning.specs.hv_steps.specs.hv_table_reader.specs.hv_acts.specs.Told.{seen_in};
ghost use Rattle.hv_script.specs.declared.actions.Action.TheVariants as action;
ghost use Rattle.hv_session.specs.hv_beginning.specs.hv_steps.specs.hv_table_reader.specs.hv_acts.specs.hv_telling.specs.hv_house.specs.Faults.{FileCause};
ghost use Rattle.hv_session.specs.hv_beginning.specs.hv_steps.specs.hv_table_reader.specs.hv_acts.specs.hv_telling.specs.hv_house.specs.House.{entries_of};
ghost use Rattle.hv_session.specs.hv_beginning.specs.hv_steps.specs.hv_table_reader.specs.hv_acts.specs.hv_telling.specs.hv_house.specs.Housed.{ShutsHard};
ghost use Rattle.hv_stands.specs.Running.{next_number};
ghost use Rattle.hv_session.specs.hv_beginning.specs.hv_steps.specs.hv_table_reader.specs.hv_acts.specs.hv_telling.specs.Telling.{IsWhole, IsToldHouse, StillOpens};
ghost use Rattle.hv_session.specs.Doing.{CanFinishTaken};
ghost use Rattle.hv_session.specs.hv_beginning.specs.hv_steps.specs.Ending.{AddsOf};
ghost use Rattle.hv_session.specs.Taking.{asked_of, IsKeptIn, IsTakenAs};
ghost use Rattle.hv_session.specs.Ways.{StopsTaken};
ghost use Rattle.hv_program.specs.Change.{from_to};
ghost use Rattle.hv_program.specs.Doing.{asking_of, session_line};
ghost use Rattle.hv_program.specs.Beside.{quietly};
ghost use Rattle.hv_program.specs.Keeping.{standing_of, AreHeld, AreTrulyHeld, CanAllFinish};
ghost use Rattle.hv_program.specs.Running.{Acts, IsFine, IsShort, Stops};
ghost use Rattle.hv_program.specs.Stops.{IsShutFor};

use crate::alone::{finish_alone, take_alone};
use crate::background::{clean, compact};
use crate::held::{Held, keep, let_go};
use hv_base::{Duplicate, List, NoMemory, Text};
use hv_script::{Action, Session, Statement};
use hv_session::hv_beginning::hv_steps::Reply;
use hv_session::hv_beginning::hv_steps::hv_table_reader::hv_acts::ToldHouse;
use hv_session::hv_beginning::hv_steps::hv_table_reader::hv_acts::hv_telling::hv_house::HouseFault;
use hv_session::{Asking, Taken, memory_reply};
use hv_shelf::Shelf;
use std::alloc::Global;

/// The line of a session, to which the statements behind it belong.
fn announce(alloc: Global, session: &Text) -> Result<Reply, NoMemory>
    ensures line { IfOk result (λ reply. reply.text ≡ session_line session.now) }
    ensures accepted { IfOk result (λ reply. reply.refused ≡ false) }
{
    let mut line = Vec::from_slice(alloc, b"-- session ")?;
    line.extend_from_slice(session.bytes())?;
    line.push(b'\n')?;
    Ok(Reply {
        text: List::from_vec(line),
        refused: false,
        ended: None,
    })
}

/// The reply of what prints nothing.
fn nothing(alloc: Global) -> Reply
    ensures { result ≡ record { text = []; refused = false; ended = None } }
{
    Reply {
        text: List::from_vec(Vec::new(alloc)),
        refused: false,
        ended: None,
    }
}

/// The reply of a pass, which prints nothing, where it was done.
fn quietly(alloc: Global, passed: Result<(), HouseFault>) -> Result<Reply, HouseFault>
    ensures { result ≡ quietly passed }
{
    match passed {
        Ok(()) => Ok(nothing(alloc)),
        Err(why) => Err(why),
    }
}

/// What a session is handed for a statement.
fn asking_of(alloc: Global, statement: &Statement) -> Result<Asking, NoMemory>
    ensures asked { IfOk result (λ asking. asked_of asking ≡ asking_of statement.now) }
    ensures hold { IfOk result (λ asking. asking.hold ≡ statement.now.hold) }
{
    Ok(Asking {
        session: statement.session.name.duplicate(alloc)?,
        place: statement.session.place,
        number: statement.number,
        text: statement.text.duplicate(alloc)?,
        hold: statement.hold,
    })
}

/// Takes up a statement; or says that memory lacks, where it does before that.
fn take<D: Shelf + Drop>(
    alloc: Global,
    house: &mut ToldHouse<D>,
    statement: &Statement,
) -> Result<Taken, HouseFault>
    requires whole { IsWhole D.told house.old.house }
    requires hard { ShutsHard D.hard (seen_in house.old) }
    requires short { IsShort statement.now }
    ensures whole { IfOk result (λ _. IsWhole D.told house.new.house) }
    ensures added { IfOk result (λ _. AddsOf (next_number (entries_of house.old.house))
        (D.faults house.old.house.shelf) (D.faults house.new.house.shelf)
        (entries_of house.old.house) (entries_of house.new.house)) }
    ensures later { IfOk result (λ _. IsLater D.faults (seen_in house.old) (seen_in house.new)) }
    ensures held { IfOk result (IsKeptIn (entries_of house.old.house) (entries_of house.new.house)
        (asking_of statement.now)) }
    ensures can { IfOk result (CanFinishTaken D.told house.new) }
    ensures taken { IsToldHouse D.told house.old.house → IfOk result (IsTakenAs
        (entries_of house.old.house) (entries_of house.new.house) (asking_of statement.now) statement.now.hold) }
    ensures start { house.new.house.start ≡ house.old.house.start }
    ensures stopped { IfErr result (λ why. StopsTaken D.told (asking_of statement.now) why house.old.house
        house.new.house) }
    ensures opens { IsToldHouse D.told house.old.house → IfErr result (λ _. StillOpens D.told house.new.house) }
    ensures cause { FileCause (D.faults house.old.house.shelf) (D.faults house.new.house.shelf) result }
    ensures hard { ShutsHard D.hard (seen_in house.new) }
    ensures shut { IfErr result (IsShutFor house.new) }
{
    match asking_of(alloc, statement) {
        Ok(asking) => take_alone(alloc, house, asking),
        Err(NoMemory) => Ok(Taken::Replied(memory_reply(alloc)?)),
    }
}

/// Takes up a statement. Where it is held from then on nothing is printed.
fn run_statement<D: Shelf + Drop>(
    alloc: Global,
    house: &mut ToldHouse<D>,
    held: &mut Vec<Held>,
    statement: &Statement,
) -> Result<Reply, HouseFault>
    requires whole { IsWhole D.told house.old.house }
    requires hard { ShutsHard D.hard (seen_in house.old) }
    requires held { AreHeld (entries_of house.old.house) held.old.items }
    requires truly { AreTrulyHeld D.told house.old.house held.old.items }
    requires can { CanAllFinish D.told house.old held.old.items }
    requires short { IsShort statement.now }
    ensures whole { IfOk result (λ _. IsWhole D.told house.new.house) }
    ensures held { IfOk result (λ _. AreHeld (entries_of house.new.house) held.new.items) }
    ensures truly { IfOk result (λ _. AreTrulyHeld D.told house.new.house held.new.items) }
    ensures can { IfOk result (λ _. CanAllFinish D.told house.new held.new.items) }
    ensures acted { IsToldHouse D.told house.old.house → IfOk result (λ reply. Acts
        (from_to (D.faults house.old.house.shelf) (D.faults house.new.house.shelf))
        (standing_of house.old.house held.old.items) (standing_of house.new.house held.new.items)
        (action.Run statement.now) reply.text reply.refused) }
    ensures later { IfOk result (λ _. IsLater D.faults (seen_in house.old) (seen_in house.new)) }
    ensures start { house.new.house.start ≡ house.old.house.start }
    ensures stopped { IfErr result (λ why. Stops (IsToldHouse D.told house.old.house) why
        (D.told house.new.house.shelf)
        (standing_of house.old.house held.old.items) (action.Run statement.now) (entries_of house.new.house)) }
    ensures opens { IsToldHouse D.told house.old.house → IfErr result (λ _. StillOpens D.told house.new.house) }
    ensures cause { FileCause (D.faults house.old.house.shelf) (D.faults house.new.house.shelf) result }
    ensures hard { ShutsHard D.hard (seen_in house.new) }
    ensures shut { IfErr result (IsShutFor house.new) }
{
    let session = statement.session.name.duplicate(alloc)?;
    held.reserve(1)?;
    match take(alloc, house, statement)? {
        Taken::Replied(found) => Ok(found),
        Taken::Kept(paused) => {
            keep(held, Held { session, paused });
            Ok(nothing(alloc))
        }
    }
}

/// Does the held statement of a session, if there is one, to its end.
fn release<D: Shelf + Drop>(
    alloc: Global,
    house: &mut ToldHouse<D>,
    held: &mut Vec<Held>,
    session: &Session,
) -> Result<Reply, HouseFault>
    requires whole { IsWhole D.told house.old.house }
    requires hard { ShutsHard D.hard (seen_in house.old) }
    requires held { AreHeld (entries_of house.old.house) held.old.items }
    requires truly { AreTrulyHeld D.told house.old.house held.old.items }
    requires can { CanAllFinish D.told house.old held.old.items }
    ensures whole { IfOk result (λ _. IsWhole D.told house.new.house) }
    ensures held { IfOk result (λ _. AreHeld (entries_of house.new.house) held.new.items) }
    ensures truly { IfOk result (λ _. AreTrulyHeld D.told house.new.house held.new.items) }
    ensures can { IfOk result (λ _. CanAllFinish D.told house.new held.new.items) }
    ensures acted { IsToldHouse D.told house.old.house → IfOk result (λ reply. Acts
        (from_to (D.faults house.old.house.shelf) (D.faults house.new.house.shelf))
        (standing_of house.old.house held.old.items) (standing_of house.new.house held.new.items)
        (action.Release session.now) reply.text reply.refused) }
    ensures later { IfOk result (λ _. IsLater D.faults (seen_in house.old) (seen_in house.new)) }
    ensures start { house.new.house.start ≡ house.old.house.start }
    ensures stopped { IfErr result (λ why. Stops (IsToldHouse D.told house.old.house) why
        (D.told house.new.house.shelf)
        (standing_of house.old.house held.old.items) (action.Release session.now) (entries_of house.new.house)) }
    ensures opens { IsToldHouse D.told house.old.house → IfErr result (λ _. StillOpens D.told house.new.house) }
    ensures cause { FileCause (D.faults house.old.house.shelf) (D.faults house.new.house.shelf) result }
    ensures hard { ShutsHard D.hard (seen_in house.new) }
    ensures shut { IfErr result (IsShutFor house.new) }
{
    match let_go(held, &session.name) {
        Some(paused) => finish_alone(alloc, house, paused),
        None => Ok(nothing(alloc)),
    }
}

/// Does an action, and gives what is to be printed.
pub fn act<D: Shelf + Drop>(
    alloc: Global,
    house: &mut ToldHouse<D>,
    held: &mut Vec<Held>,
    action: &Action,
) -> Result<Reply, HouseFault>
    requires whole { IsWhole D.told house.old.house }
    requires hard { ShutsHard D.hard (seen_in house.old) }
    requires begun { 1 ≤ length (entries_of house.old.house) }
    requires held { AreHeld (entries_of house.old.house) held.old.items }
    requires truly { AreTrulyHeld D.told house.old.house held.old.items }
    requires can { CanAllFinish D.told house.old held.old.items }
    requires fine { IsFine action.now }
    ensures whole { IfOk result (λ _. IsWhole D.told house.new.house) }
    ensures held { IfOk result (λ _. AreHeld (entries_of house.new.house) held.new.items) }
    ensures truly { IfOk result (λ _. AreTrulyHeld D.told house.new.house held.new.items) }
    ensures can { IfOk result (λ _. CanAllFinish D.told house.new held.new.items) }
    ensures acted { IsToldHouse D.told house.old.house → IfOk result (λ reply. Acts
        (from_to (D.faults house.old.house.shelf) (D.faults house.new.house.shelf))
        (standing_of house.old.house held.old.items) (standing_of house.new.house held.new.items)
        action.now reply.text reply.refused) }
    ensures later { IfOk result (λ _. IsLater D.faults (seen_in house.old) (seen_in house.new)) }
    ensures start { house.new.house.start ≡ house.old.house.start }
    ensures stopped { IfErr result (λ why. Stops (IsToldHouse D.told house.old.house) why
        (D.told house.new.house.shelf)
        (standing_of house.old.house held.old.items) action.now (entries_of house.new.house)) }
    ensures opens { IsToldHouse D.told house.old.house → IfErr result (λ _. StillOpens D.told house.new.house) }
    ensures cause { FileCause (D.faults house.old.house.shelf) (D.faults house.new.house.shelf) result }
    ensures hard { ShutsHard D.hard (seen_in house.new) }
    ensures shut { IfErr result (IsShutFor house.new) }
{
    match action {
        Action::Run(statement) => run_statement(alloc, house, held, statement),
        Action::Announce(session) => Ok(announce(alloc, &session.name)?),
        Action::Barrier => Ok(nothing(alloc)),
        Action::Release(session) => release(alloc, house, held, session),
        Action::Compact => quietly(alloc, compact(alloc, house)),
        Action::Clean => quietly(alloc, clean(alloc, house)),
    }
}
