//! The passes of a script beside its statements, over a house on which nobody else acts: what is due is asked for, one job is done, and
//! what nobody needs any more goes.

ghost use Rattle.std.specs.Prelude.{◌≡◌, ◌≤◌, length, IfOk, IfErr};
ghost use Rattle.hv_actor.specs.Acting.{IsLater};
ghost use Rattle.hv_session.specs.hv_beginning.specs.hv_steps.specs.hv_table_reader.specs.hv_acts.specs.Told.{seen_in};
ghost use Rattle.hv_session.specs.hv_beginning.specs.hv_steps.specs.hv_table_reader.specs.hv_acts.specs.hv_telling.specs.hv_house.specs.Faults.{FileCause};
ghost use Rattle.hv_session.specs.hv_beginning.specs.hv_steps.specs.hv_table_reader.specs.hv_acts.specs.hv_telling.specs.hv_house.specs.House.{entries_of};
ghost use Rattle.hv_session.specs.hv_beginning.specs.hv_steps.specs.hv_table_reader.specs.hv_acts.specs.hv_telling.specs.hv_house.specs.Housed.{ShutsHard};
ghost use Rattle.hv_session.specs.hv_beginning.specs.hv_steps.specs.hv_table_reader.specs.hv_acts.specs.hv_telling.specs.Telling.{IsWhole, IsToldHouse, StillOpens};
ghost use Rattle.hv_program.specs.Background.{IsCompacting, IsCleaning, Initiated, WorksOne, Compacts, Cleans};
ghost use Rattle.hv_program.specs.Beside.{fault_of, run_of, AddsBeside, StopsBeside};
ghost use Rattle.hv_program.specs.Stops.{IsShutFor};

use hv_clean::{PassFault, clean_pass};
use hv_compact::{RunFault, compact_one, initiate};
use hv_session::hv_beginning::hv_steps::hv_table_reader::hv_acts::ToldHouse;
use hv_session::hv_beginning::hv_steps::hv_table_reader::hv_acts::hv_telling::hv_house::HouseFault;
use hv_shelf::Shelf;
use std::alloc::Global;

/// Why the run stops, where it does: a pass or a job that has no room for its next entry ends there, and the run goes on.
fn fault_of(why: RunFault) -> Result<(), HouseFault>
    ensures { result ≡ fault_of why }
{
    match why {
        RunFault::Store => Err(HouseFault::Store),
        RunFault::Full { .. } => Ok(()),
        RunFault::NoMemory => Err(HouseFault::NoMemory),
    }
}

/// A pass of a cleaner stops as a run of acts does.
fn run_of(why: PassFault) -> RunFault
    ensures { result ≡ run_of why }
{
    match why {
        PassFault::Store => RunFault::Store,
        PassFault::Full { entries } => RunFault::Full { entries },
        PassFault::NoMemory => RunFault::NoMemory,
    }
}

/// Asks for the compactions that are due.
fn ask_for_due<D: Shelf + Drop>(alloc: Global, house: &mut ToldHouse<D>) -> Result<(), HouseFault>
    requires whole { IsWhole D.told house.old.house }
    requires hard { ShutsHard D.hard (seen_in house.old) }
    requires begun { 1 ≤ length (entries_of house.old.house) }
    ensures whole { IfOk result (λ _. IsWhole D.told house.new.house) }
    ensures added { IfOk result (λ _. AddsBeside IsCompacting
        (entries_of house.old.house) (entries_of house.new.house)) }
    ensures later { IfOk result (λ _. IsLater D.faults (seen_in house.old) (seen_in house.new)) }
    ensures done { IfOk result (λ _. Initiated (entries_of house.old.house) (entries_of house.new.house)) }
    ensures start { house.new.house.start ≡ house.old.house.start }
    ensures stopped { IfErr result (λ why. StopsBeside D.told IsCompacting why house.old.house house.new.house) }
    ensures opens { IsToldHouse D.told house.old.house → IfErr result (λ _. StillOpens D.told house.new.house) }
    ensures cause { FileCause (D.faults house.old.house.shelf) (D.faults house.new.house.shelf) result }
    ensures hard { ShutsHard D.hard (seen_in house.new) }
    ensures shut { IfErr result (IsShutFor house.new) }
{
    match initiate(alloc, house) {
        Ok(_count) => Ok(()),
        Err(why) => fault_of(why),
    }
}

/// Does the lowest job of a live table that waits.
fn do_one<D: Shelf + Drop>(alloc: Global, house: &mut ToldHouse<D>) -> Result<(), HouseFault>
    requires whole { IsWhole D.told house.old.house }
    requires hard { ShutsHard D.hard (seen_in house.old) }
    requires begun { 1 ≤ length (entries_of house.old.house) }
    ensures whole { IfOk result (λ _. IsWhole D.told house.new.house) }
    ensures added { IfOk result (λ _. AddsBeside IsCompacting
        (entries_of house.old.house) (entries_of house.new.house)) }
    ensures later { IfOk result (λ _. IsLater D.faults (seen_in house.old) (seen_in house.new)) }
    ensures done { IfOk result (λ _. WorksOne (entries_of house.old.house) (entries_of house.new.house)) }
    ensures start { house.new.house.start ≡ house.old.house.start }
    ensures stopped { IfErr result (λ why. StopsBeside D.told IsCompacting why house.old.house house.new.house) }
    ensures opens { IsToldHouse D.told house.old.house → IfErr result (λ _. StillOpens D.told house.new.house) }
    ensures cause { FileCause (D.faults house.old.house.shelf) (D.faults house.new.house.shelf) result }
    ensures hard { ShutsHard D.hard (seen_in house.new) }
    ensures shut { IfErr result (IsShutFor house.new) }
{
    match compact_one(alloc, house) {
        Ok(_done) => Ok(()),
        Err(why) => fault_of(why),
    }
}

/// Asks for the compactions that are due, and then does one job.
pub fn compact<D: Shelf + Drop>(alloc: Global, house: &mut ToldHouse<D>) -> Result<(), HouseFault>
    requires whole { IsWhole D.told house.old.house }
    requires hard { ShutsHard D.hard (seen_in house.old) }
    requires begun { 1 ≤ length (entries_of house.old.house) }
    ensures whole { IfOk result (λ _. IsWhole D.told house.new.house) }
    ensures added { IfOk result (λ _. AddsBeside IsCompacting
        (entries_of house.old.house) (entries_of house.new.house)) }
    ensures later { IfOk result (λ _. IsLater D.faults (seen_in house.old) (seen_in house.new)) }
    ensures done { IfOk result (λ _. Compacts (entries_of house.old.house) (entries_of house.new.house)) }
    ensures start { house.new.house.start ≡ house.old.house.start }
    ensures stopped { IfErr result (λ why. StopsBeside D.told IsCompacting why house.old.house house.new.house) }
    ensures opens { IsToldHouse D.told house.old.house → IfErr result (λ _. StillOpens D.told house.new.house) }
    ensures cause { FileCause (D.faults house.old.house.shelf) (D.faults house.new.house.shelf) result }
    ensures hard { ShutsHard D.hard (seen_in house.new) }
    ensures shut { IfErr result (IsShutFor house.new) }
{
    match ask_for_due(alloc, house) {
        Ok(()) => do_one(alloc, house),
        Err(why) => Err(why),
    }
}

/// Takes away what nobody needs any more.
pub fn clean<D: Shelf + Drop>(alloc: Global, house: &mut ToldHouse<D>) -> Result<(), HouseFault>
    requires whole { IsWhole D.told house.old.house }
    requires hard { ShutsHard D.hard (seen_in house.old) }
    requires begun { 1 ≤ length (entries_of house.old.house) }
    ensures whole { IfOk result (λ _. IsWhole D.told house.new.house) }
    ensures added { IfOk result (λ _. AddsBeside IsCleaning
        (entries_of house.old.house) (entries_of house.new.house)) }
    ensures later { IfOk result (λ _. IsLater D.faults (seen_in house.old) (seen_in house.new)) }
    ensures done { IfOk result (λ _. Cleans (entries_of house.old.house) (entries_of house.new.house)) }
    ensures start { house.new.house.start ≡ house.old.house.start }
    ensures stopped { IfErr result (λ why. StopsBeside D.told IsCleaning why house.old.house house.new.house) }
    ensures opens { IsToldHouse D.told house.old.house → IfErr result (λ _. StillOpens D.told house.new.house) }
    ensures cause { FileCause (D.faults house.old.house.shelf) (D.faults house.new.house.shelf) result }
    ensures hard { ShutsHard D.hard (seen_in house.new) }
    ensures shut { IfErr result (IsShutFor house.new) }
{
    match clean_pass(alloc, house) {
        Ok(_swept) => Ok(()),
        Err(why) => fault_of(run_of(why)),
    }
}
