ghost use Rattle.std.specs.Prelude.{◌≡◌};
ghost use Rattle.hv_rowfile.specs.Layout.{id_of};

use hv_base::{RowId, WriteId};
use hv_value::Row;

/// A record of a row file.
#[derive(Debug, Drop)]
pub enum Rec {
    /// A row that was inserted.
    Insert { id: RowId, row: Row },
    /// A row that the write `by` deleted.
    Delete { id: RowId, by: WriteId },
}

impl Rec {
    /// The identifier of the row that was inserted or deleted.
    pub fn id(&self) -> RowId
        ensures { result ≡ id_of self.now }
    {
        match self {
            Rec::Insert { id, .. } => *id,
            Rec::Delete { id, .. } => *id,
        }
    }
}
