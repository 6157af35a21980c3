ghost use Rattle.std.specs.Prelude.{◌≡◌, ◌↔◌, IfOk, IsTrue};
ghost use Rattle.hv_shelf.specs.Places.{is_in, is_of};

use hv_base::{Duplicate, NoMemory, TableId, Text};
use std::alloc::Global;
use std::cmp::Ordering;

/// Where a file stands: its table, its partition's text (empty where the table has none), its
/// directory's name and its bucket.
#[derive(Drop, PartialEq, Eq)]
pub struct Place {
    pub table: TableId,
    pub partition: Text,
    pub dir: Text,
    pub bucket: u32,
}

/// A directory of files.
#[derive(Drop)]
pub struct DirAt {
    pub table: TableId,
    pub partition: Text,
    pub dir: Text,
}

impl PartialOrd for Place {
    ghost use Rattle.std.specs.Ordering.{as_partial_cmp};
    ghost use Rattle.hv_shelf.specs.Places.{place_cmp, place_laws};

    ghost partial_cmp = { as_partial_cmp place_cmp };

    ghost laws = { place_laws };

    fn partial_cmp(&self, other: &Place) -> Option<Ordering> {
        Some(self.cmp(other))
    }
}

/// By table, then by partition, directory and bucket.
impl Ord for Place {
    ghost use Rattle.std.specs.Prelude.{refl};
    ghost use Rattle.hv_shelf.specs.Places.{place_cmp, place_total, place_ties};

    ghost cmp = { place_cmp };

    ghost total = { place_total };

    ghost matches_partial_cmp = { λ left right. refl };

    ghost matches_eq = { place_ties };

    #[tactic(auto, unfolding(crate::specs::Places::place_cmp))]
    fn cmp(&self, other: &Place) -> Ordering {
        self.table
            .cmp(&other.table)
            .then(self.partition.cmp(&other.partition))
            .then(self.dir.cmp(&other.dir))
            .then(self.bucket.cmp(&other.bucket))
    }
}

impl Duplicate for Place {
    fn duplicate(&self, alloc: Global) -> Result<Place, NoMemory> {
        Ok(Place {
            table: self.table,
            partition: self.partition.duplicate(alloc)?,
            dir: self.dir.duplicate(alloc)?,
            bucket: self.bucket,
        })
    }
}

impl Duplicate for DirAt {
    fn duplicate(&self, alloc: Global) -> Result<DirAt, NoMemory> {
        Ok(DirAt {
            table: self.table,
            partition: self.partition.duplicate(alloc)?,
            dir: self.dir.duplicate(alloc)?,
        })
    }
}

impl DirAt {
    /// Whether `place` is in this directory.
    pub fn has(&self, place: &Place) -> bool
        ensures { result ≡ is_in self.now place.now }
    {
        place.table == self.table && place.partition == self.partition && place.dir == self.dir
    }
}
