ghost use Rattle.std.specs.Prelude.{IfOk};
ghost use Rattle.std.specs.List.{AllByRecursion};
ghost use Rattle.hv_choosing.specs.Listing.{IsListed, AreListed, IsNamed};

use crate::dir::{Dir, dir_at};
use hv_base::{Duplicate, NoMemory};
use hv_shelf::Place;
use std::alloc::Global;

/// A file in a directory that a reader may take.
#[derive(Drop)]
pub struct DirFile {
    pub place: Place,
    pub dir: Dir,
}

impl Duplicate for DirFile {
    fn duplicate(&self, alloc: Global) -> Result<DirFile, NoMemory> {
        Ok(DirFile {
            place: self.place.duplicate(alloc)?,
            dir: self.dir,
        })
    }
}

/// The file at a place, where its directory has a name; none where it has none.
fn file_at(alloc: Global, place: Place) -> Result<Option<DirFile>, NoMemory>
    ensures { IfOk result (IsListed place) }
{
    match dir_at(alloc, &place.dir)? {
        Some(dir) => Ok(Some(DirFile { place, dir })),
        None => Ok(None),
    }
}

/// The files at these places whose directories a reader may take, in their order.
pub fn list_files(alloc: Global, places: Vec<Place>) -> Result<Vec<DirFile>, NoMemory>
    ensures listed { IfOk result (λ files. AreListed places.items files.items) }
    ensures named { IfOk result (λ files. AllByRecursion IsNamed files.items) }
{
    let mut files = Vec::new(alloc);
    for place in places {
        if let Some(file) = file_at(alloc, place)? {
            files.push(file)?;
        }
    }
    Ok(files)
}
