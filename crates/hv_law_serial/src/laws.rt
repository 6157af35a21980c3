ghost use Rattle.std.specs.Prelude.{◌≡◌, true, Some, None, [], slice_get, take};
ghost use Rattle.hv_base.specs.declared.gate.Stage.TheVariants as stage;
ghost use Rattle.hv_history.specs.State.{state_of};
ghost use Rattle.hv_law_next.specs.Next.{due};
ghost use Rattle.hv_program.specs.Running.{beginning};
ghost use Rattle.hv_law_serial.specs.Serial.{text_runs, serial};
ghost use Rattle.hv_law_serial.specs.Worked.{text_by_hand, book_by_hand, actions_by_hand};
ghost use Rattle.hv_law_serial.specs.History.{SerialHistory};
ghost use Rattle.hv_law_serial.specs.Scripts.{ScriptHistory};

/// Where no device fails and memory is found, what a run makes of a script's actions is what one thread makes of them: the same book, and
/// the same statements wait.
pub(crate) fn serial_history()
    ensures law { SerialHistory }
{}

/// So a script that was done whole, while no count of faults rose and memory was found, leaves its serial history in the store.
pub(crate) fn script_history()
    ensures law { ScriptHistory }
{}

/// Worked out by hand: a CREATE TABLE that is held at its start, and one of the same name beside it, which is refused as blocked by it;
/// released, the first makes its table.
pub(crate) fn worked_by_hand()
    ensures runs { text_runs text_by_hand ≡ true }
    ensures starts { due (Some stage.Start) (state_of (take 1 book_by_hand)) 1 ≡ slice_get book_by_hand 1 }
    ensures held { due (Some stage.Start) (state_of (take 2 book_by_hand)) 1 ≡ None }
    ensures blocked { due None (state_of (take 3 book_by_hand)) 2 ≡ slice_get book_by_hand 3 }
    ensures ended { due None (state_of (take 4 book_by_hand)) 2 ≡ None }
    ensures makes { due None (state_of (take 4 book_by_hand)) 1 ≡ slice_get book_by_hand 4 }
    ensures whole { due None (state_of book_by_hand) 1 ≡ None }
    ensures script { serial (beginning []) actions_by_hand ≡ record { book = book_by_hand; waiting = [] } }
{}
