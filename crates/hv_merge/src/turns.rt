ghost use Rattle.std.specs.Prelude.{◌≡◌, map};
ghost use Rattle.hv_merge.specs.Steps.{better, is_tied, turn_of};

use crate::order::{comes_before, is_before};
use hv_base::RowId;
use hv_rowfile::Rec;
use std::collections::VecDeque;

/// Which file the next records come from.
#[derive(Clone, Copy)]
pub struct Turn {
    /// The file's place.
    pub place: usize,
    /// The identifier that it begins with, which is the least.
    pub least: RowId,
    /// The least that another file begins with, if one isn't empty.
    pub others: Option<RowId>,
}

// The turn, where the file at this place begins with this identifier too.
fn better(found: Option<Turn>, place: usize, id: RowId) -> Turn
    ensures { result ≡ better found place id }
{
    match found {
        None => Turn {
            place,
            least: id,
            others: None,
        },
        Some(turn) if !is_before(id, turn.others) => turn,
        Some(turn) if comes_before(turn.least, id) => Turn {
            place: turn.place,
            least: turn.least,
            others: Some(id),
        },
        Some(turn) => Turn {
            place,
            least: id,
            others: Some(turn.least),
        },
    }
}

/// Looks at the first record of each file.
pub fn turn_of(heads: &[VecDeque<Rec>]) -> Option<Turn>
    ensures { result ≡ turn_of (map (λ head. head.items) heads.now) }
{
    let mut found = None;
    for place in 0..heads.len() {
        if let Some(rec) = heads[place].front() {
            found = Some(better(found, place, rec.id()));
        }
    }
    found
}

/// Whether several files begin with the least identifier.
pub fn is_tied(turn: Turn) -> bool
    ensures { result ≡ is_tied turn }
{
    match turn.others {
        Some(other) => other == turn.least,
        None => false,
    }
}
