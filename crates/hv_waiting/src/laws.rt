ghost use Rattle.hv_waiting.specs.Kinds.{RepliesPlainly, StopsPlainly};

use hv_shelf::Shelf;

/// Of the own entries of a statement that waits for its locks the first is its Opened, and no other is one. None of them aborts a transaction
/// since a lock is held against it, or as lost; and in a told house none says that a file is damaged.
pub fn own_entries_are_plain<D: Shelf + Drop>()
    ensures replied { RepliesPlainly D.told }
    ensures stopped { StopsPlainly }
{}
