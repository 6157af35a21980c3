ghost use Rattle.hv_actor.specs.Acting.{among, Anything, Touched};
ghost use Rattle.hv_session.specs.hv_beginning.specs.hv_steps.specs.hv_table_reader.specs.hv_acts.specs.Told.{seen_in};
ghost use Rattle.hv_saying.specs.Owning.{OwningIsPlain, StoppingIsPlain};
ghost use Rattle.hv_saying.specs.Spans.{SaidStays};

use hv_shelf::Shelf;
use hv_waiting::own_entries_are_plain;

/// While others may add anything: of the items that own acts added for statements that were said, each Opened is of one of those that were opened, and
/// none has two; they block nobody, keep no count of faults but of this time, and say of no file that it is damaged. So it is of all of them where the run
/// stopped in one. What was said of each stands so in every longer book.
pub fn owning_is_plain<D: Shelf + Drop>()
    ensures said { OwningIsPlain (among D.told D.faults Anything (Touched D.faults seen_in)) }
    ensures stopped { StoppingIsPlain (among D.told D.faults Anything (Touched D.faults seen_in)) }
    ensures stays { SaidStays (among D.told D.faults Anything (Touched D.faults seen_in)) }
{
    own_entries_are_plain::<D>();
}
