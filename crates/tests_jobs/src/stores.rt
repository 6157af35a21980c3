//! Which directories stand.

use crate::words::{add, say};
use hv_shelf::MemoryShelf;
use std::alloc::Global;
use std::io;

/// A store whose files can be told.
pub(crate) trait Listed {
    /// The places of the files that stand, by table, partition, directory and bucket.
    fn tell_files(&self, alloc: Global, said: &mut String) -> io::Result<()>;
}

impl Listed for MemoryShelf {
    fn tell_files(&self, alloc: Global, said: &mut String) -> io::Result<()> {
        add(said, "stand:")?;
        for place in self.files().keys() {
            let (table, bucket) = (place.table.0, place.bucket);
            let text = format!(in alloc; " {table}/{}/{}/{bucket}", place.partition, place.dir)?;
            add(said, text.as_str())?;
        }
        say(said, "")
    }
}
