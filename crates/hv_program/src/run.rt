ghost use Rattle.std.specs.Prelude.{◌≡◌, ◌≤◌, [], ◌∷◌, length, IfOk, IfErr, IsTrue};
ghost use Rattle.std.specs.List.{AllByRecursion};
ghost use Rattle.hv_base.specs.Told.{StaysTold};
ghost use Rattle.hv_session.specs.hv_beginning.specs.hv_steps.specs.hv_table_reader.specs.hv_acts.specs.Told.{seen_in};
ghost use Rattle.hv_session.specs.hv_beginning.specs.hv_steps.specs.hv_table_reader.specs.hv_acts.specs.hv_telling.specs.hv_house.specs.House.{entries_of};
ghost use Rattle.hv_session.specs.hv_beginning.specs.hv_steps.specs.hv_table_reader.specs.hv_acts.specs.hv_telling.specs.hv_house.specs.Housed.{ShutsHard};
ghost use Rattle.hv_session.specs.hv_beginning.specs.hv_steps.specs.hv_table_reader.specs.hv_acts.specs.hv_telling.specs.Telling.{IsWhole, IsToldHouse};
ghost use Rattle.hv_program.specs.Change.{from_to};
ghost use Rattle.hv_program.specs.Refused.{is_one_of};
ghost use Rattle.hv_program.specs.Running.{Halts, IsFine, PrintsAll};
ghost use Rattle.hv_program.specs.Stops.{status_of_stop, Blames, ShutsFor};

use crate::action::act;
use crate::stop::Stop;
use hv_base::{Sink, write_all};
use hv_script::Action;
use hv_session::hv_beginning::hv_steps::hv_table_reader::hv_acts::ToldHouse;
use hv_shelf::Shelf;
use std::alloc::Global;

/// Does the actions of a script, one after another, and writes their replies. Whether one of them
/// was refused.
pub fn run<O: Sink, D: Shelf + Drop>(
    alloc: Global,
    house: &mut ToldHouse<D>,
    sink: &mut O,
    actions: &[Action],
) -> Result<bool, Stop>
    requires whole { IsWhole D.told house.old.house }
    requires hard { ShutsHard D.hard (seen_in house.old) }
    requires begun { 1 ≤ length (entries_of house.old.house) }
    requires fine { AllByRecursion IsFine actions.now }
    ensures whole { IfOk result (λ _. IsWhole D.told house.new.house) }
    ensures prints { IsToldHouse D.told house.old.house → IfOk result (PrintsAll
        (from_to (D.faults house.old.house.shelf) (D.faults house.new.house.shelf)) (entries_of house.old.house)
        (entries_of house.new.house)
        actions.now (from_to (O.written sink.old) (O.written sink.new))) }
    ensures halts { IsToldHouse D.told house.old.house → IfErr result (λ stop. Halts stop
        (from_to (D.faults house.old.house.shelf) (D.faults house.new.house.shelf))
        (from_to (entries_of house.old.house) (entries_of house.new.house))
        actions.now (from_to (O.written sink.old) (O.written sink.new)) (D.told house.new.house.shelf)) }
    ensures start { house.new.house.start ≡ house.old.house.start }
    ensures heard { StaysTold (O.written sink.old) (O.written sink.new) }
    ensures later_store { D.faults house.old.house.shelf ≤ D.faults house.new.house.shelf }
    ensures later_sink { O.faults sink.old ≤ O.faults sink.new }
    ensures blames { IfErr result (λ stop. Blames stop (O.faults sink.old) (O.faults sink.new)
        (D.faults house.old.house.shelf) (D.faults house.new.house.shelf)) }
    ensures hard { ShutsHard D.hard (seen_in house.new) }
    ensures shut { IfErr result (ShutsFor house.new) }
    ensures why { IfErr result (λ stop. IsTrue (is_one_of (4 ∷ 5 ∷ 7 ∷ []) (status_of_stop stop))) }
{
    let mut held = Vec::new(alloc);
    let mut refused = false;
    for action in actions {
        let reply = act(alloc, house, &mut held, action)?;
        write_all(sink, reply.text.as_slice())?;
        refused |= reply.refused;
    }
    Ok(refused)
}
