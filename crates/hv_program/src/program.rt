ghost use Rattle.std.specs.Prelude.{◌≡◌, ◌≤◌, [], ◌∷◌, length, map};
ghost use Rattle.std.specs.List.{AllByRecursion};
ghost use Rattle.std.specs.String.{string_bytes};
ghost use Rattle.hv_base.specs.Told.{StaysTold};
ghost use Rattle.hv_program.specs.Change.{from_to};
ghost use Rattle.hv_program.specs.Headline.{Headline};
ghost use Rattle.hv_program.specs.Lines.{script_line, journal_line, full_line};
ghost use Rattle.hv_program.specs.Refused.{is_one_of, Refuses};
ghost use Rattle.hv_program.specs.Causes.{FailsStore, HasCauses, Completes};
ghost use Rattle.hv_program.specs.Running.{IsFine};
ghost use Rattle.hv_program.specs.Serving.{ran_status, Serves, BlamesOf, IsSaid, IsSaidOrNot, Opens};

use crate::reading::read_front;
use crate::run::run;
use crate::stop::Stop;
use hv_base::{Gate, Limits, Sink, Source, write_all};
use hv_script::{Action, MAX_SCRIPT, ScriptFault, read_actions, read_run};
use hv_session::hv_beginning::hv_steps::hv_table_reader::hv_acts::ToldHouse;
use hv_session::hv_beginning::hv_steps::hv_table_reader::hv_acts::hv_telling::hv_house::{
    BootFault, House,
};
use hv_shelf::Shelf;
use std::alloc::Global;
use std::sync::Wait;
use std::thread::Threads;

/// How much a warehouse holds: the limits of this project's profile.
pub const LIMITS: Limits = Limits { entries: 131_072 };

/// How a run ended: its status, and the store.
#[derive(Drop)]
pub struct Ended<D> {
    pub status: u8,
    pub shelf: D,
}

/// The status of a run that printed this line last.
fn said<O: Sink>(sink: &mut O, line: &[u8], status: u8) -> u8
    requires stopped { 2 ≤ status }
    ensures stopped { 2 ≤ result }
    ensures said { IsSaid status line.now (from_to (O.written sink.old) (O.written sink.new))
        (from_to (O.faults sink.old) (O.faults sink.new)) result }
    ensures heard { StaysTold (O.written sink.old) (O.written sink.new) }
{
    match write_all(sink, line) {
        Ok(()) => status,
        Err(_) => Stop::Sink.status(),
    }
}

/// Writes the line of a script that is refused at this line: the status then.
#[tactic(auto, unfolding(crate::specs::Lines::script_line))]
pub fn refused_script<O: Sink>(alloc: Global, sink: &mut O, line: u64) -> u8
    ensures stopped { 2 ≤ result }
    ensures said { IsSaidOrNot 8 (script_line line) (from_to (O.written sink.old) (O.written sink.new))
        (from_to (O.faults sink.old) (O.faults sink.new)) result }
    ensures heard { StaysTold (O.written sink.old) (O.written sink.new) }
{
    match format!(in alloc; "hive: script refused at line {line}\n") {
        Ok(text) => said(sink, text.as_bytes(), 8),
        Err(_) => Stop::NoMemory.status(),
    }
}

/// Writes the line of a journal that is bad at this byte: the status then.
#[tactic(auto, unfolding(crate::specs::Lines::journal_line))]
pub fn bad_journal<O: Sink>(alloc: Global, sink: &mut O, at: u64) -> u8
    ensures stopped { 2 ≤ result }
    ensures said { IsSaidOrNot 6 (journal_line at) (from_to (O.written sink.old) (O.written sink.new))
        (from_to (O.faults sink.old) (O.faults sink.new)) result }
    ensures heard { StaysTold (O.written sink.old) (O.written sink.new) }
{
    match format!(in alloc; "hive: bad journal at byte {at}\n") {
        Ok(text) => said(sink, text.as_bytes(), 6),
        Err(_) => Stop::NoMemory.status(),
    }
}

/// Writes the line of a journal that is full: the status then.
#[tactic(auto, unfolding(crate::specs::Lines::full_line))]
pub fn full_journal<O: Sink>(sink: &mut O) -> u8
    ensures stopped { 2 ≤ result }
    ensures said { IsSaid 9 full_line (from_to (O.written sink.old) (O.written sink.new))
        (from_to (O.faults sink.old) (O.faults sink.new)) result }
    ensures heard { StaysTold (O.written sink.old) (O.written sink.new) }
{
    said(sink, b"hive: journal full\n", 9)
}

/// The status of a run that did actions: with whether one was refused, or why it stopped.
pub fn status_of(ran: Result<bool, Stop>) -> u8
    ensures value { result ≡ ran_status ran }
{
    match ran {
        Ok(false) => 0,
        Ok(true) => 1,
        Err(stop) => stop.status(),
    }
}

/// Opens the store, does what the script asks for, and closes it.
fn serve<O: Sink, D: Shelf + Drop>(
    alloc: Global,
    sink: &mut O,
    shelf: D,
    actions: &[Action],
) -> Ended<D>
    requires fine { AllByRecursion IsFine actions.now }
    ensures served { Serves result.status (from_to (D.faults shelf) (D.faults result.shelf)) actions.now
        (from_to (O.written sink.old) (O.written sink.new)) (from_to (D.told shelf) (D.told result.shelf)) }
    ensures opened { Opens (O.written sink.old) (O.written sink.new)
        (D.told shelf) (D.told result.shelf) result.status }
    ensures blames { BlamesOf result.status (O.faults sink.old) (O.faults sink.new)
        (D.faults shelf) (D.faults result.shelf) }
    ensures hard { result.status ≡ 5 → FailsStore (D.hard shelf) (D.hard result.shelf)
        (from_to (D.told shelf) (D.told result.shelf)) }
    ensures heard { StaysTold (O.written sink.old) (O.written sink.new) }
{
    match House::boot(alloc, shelf, LIMITS) {
        Ok(house) => {
            let mut told = ToldHouse::new(house);
            let ran = run(alloc, &mut told, sink, actions);
            Ended {
                status: status_of(ran),
                shelf: told.into_house().close(),
            }
        }
        Err((BootFault::BadJournal { at }, shelf)) => Ended {
            status: bad_journal(alloc, sink, at),
            shelf,
        },
        Err((BootFault::Full { .. }, shelf)) => Ended {
            status: full_journal(sink),
            shelf,
        },
        Err((BootFault::Store, shelf)) => Ended {
            status: Stop::Store.status(),
            shelf,
        },
        Err((BootFault::NoMemory, shelf)) => Ended {
            status: Stop::NoMemory.status(),
            shelf,
        },
    }
}

/// Runs a script over a store: the words are `run`, the source gives the script, and the replies go
/// to the sink. The gate is not called yet.
///
/// The status is 0 where all was done and no reply is a refusal, 1 where all was done and one is, 2
/// for words that are no command, 3, 4 and 5 where the source, the sink or the store failed, 6 for
/// a journal that is bad, 7 for want of memory, 8 for a script that is refused, and 9 for a journal
/// that has no room for its opening.
pub fn hive<R: Threads + Wait + Sync, I: Source, O: Sink, D: Shelf + Send + Drop, G: Gate + Sync>(
    _rt: &R,
    alloc: Global,
    words: &[String],
    source: &mut I,
    sink: &mut O,
    shelf: D,
    _gate: &G,
) -> Ended<D>
    ensures headline { Headline (map string_bytes words.now)
        (record { source = I.left source.old; sink = O.written sink.old; store = D.told shelf })
        (record {
          source = I.left source.new;
          sink = O.written sink.new;
          store = D.told result.shelf;
        }) (D.faults shelf) (D.faults result.shelf) result.status }
    ensures refused { Refuses (map string_bytes words.now)
        (record { source = I.left source.old; sink = O.written sink.old; store = D.told shelf })
        (record {
          source = I.left source.new;
          sink = O.written sink.new;
          store = D.told result.shelf;
        }) result.status }
    ensures faults { HasCauses
        (record {
          source = I.faults source.old;
          sink = O.faults sink.old;
          store = D.faults shelf;
          hard = D.hard shelf;
        })
        (record {
          source = I.faults source.new;
          sink = O.faults sink.new;
          store = D.faults result.shelf;
          hard = D.hard result.shelf;
        }) (from_to (D.told shelf) (D.told result.shelf)) result.status }
    ensures complete { Completes (map string_bytes words.now)
        (record { source = I.left source.old; sink = O.written sink.old; store = D.told shelf })
        (record {
          source = I.faults source.old;
          sink = O.faults sink.old;
          store = D.faults shelf;
          hard = D.hard shelf;
        })
        (record {
          source = I.faults source.new;
          sink = O.faults sink.new;
          store = D.faults result.shelf;
          hard = D.hard result.shelf;
        }) result.status }
{
    if read_run(words).is_none() {
        return Ended {
            status: said(sink, b"hive: bad words\n", 2),
            shelf,
        };
    }
    let bytes = match read_front(alloc, source, MAX_SCRIPT + 1) {
        Ok(bytes) => bytes,
        Err(stop) => {
            return Ended {
                status: stop.status(),
                shelf,
            };
        }
    };
    match read_actions(alloc, &bytes) {
        Ok(actions) => serve(alloc, sink, shelf, actions.as_slice()),
        Err(ScriptFault::Refused { line }) => Ended {
            status: refused_script(alloc, sink, line),
            shelf,
        },
        Err(ScriptFault::NoMemory) => Ended {
            status: Stop::NoMemory.status(),
            shelf,
        },
    }
}
