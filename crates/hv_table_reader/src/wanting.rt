//! Which partitions of a table are read, and which of its files and of its commits' numbers are of these.

ghost use Rattle.std.specs.Prelude.{◌≡◌, ◌&&◌, ℕ, Bool, List, IfOk};
ghost use Rattle.std.specs.List.{list_all};
ghost use Rattle.hv_table_rows.specs.Reading.{files_wanted};
ghost use Rattle.hv_law_dues.specs.hv_counts.specs.Counts.{dues_wanted};
ghost use Rattle.hv_law_dues.specs.hv_counts.specs.Miscounts.{is_own_file};

use hv_acts::hv_telling::hv_house::Listing;
use hv_base::{Duplicate, NoMemory, Text};
use hv_choosing::DirFile;
use hv_law_dues::hv_counts::{Due, are_own};
use std::alloc::Global;

/// Which partitions of a table are wanted.
pub trait Wants {
    /// Whether the partition of that text is.
    ghost picks: { Self → List ℕ → Bool };

    fn wants(&self, alloc: Global, partition: &Text) -> Result<bool, NoMemory>
        ensures { IfOk result (λ is. is ≡ picks self.now partition.now) };
}

/// What is read of a table: the files of the partitions that are wanted, of which kinds they are counted, and how many rows commits say that
/// there are.
#[derive(Drop)]
pub struct Wanted {
    pub listing: Listing,
    pub counts_deletes: bool,
    pub counts_rows: bool,
    pub dues: Vec<Due>,
}

/// Whether files of a kind are counted: where all of them, and all of the rows', stand in own directories. A base covers deletes that aren't
/// taken.
fn are_counted(rows: &[DirFile], files: &[DirFile]) -> bool
    ensures { result ≡ (list_all is_own_file rows.now && list_all is_own_file files.now) }
{
    if !are_own(rows) {
        return false;
    }
    are_own(files)
}

/// Those of the files that stand in a partition that is wanted.
fn files_wanted<P: Wants>(
    alloc: Global,
    wants: &P,
    files: &[DirFile],
) -> Result<Vec<DirFile>, NoMemory>
    ensures { IfOk result (λ kept. kept.items ≡ files_wanted (P.picks wants.now) files.now) }
{
    let mut kept = Vec::new(alloc);
    for file in files {
        if wants.wants(alloc, &file.place.partition)? {
            kept.push(file.duplicate(alloc)?)?;
        }
    }
    Ok(kept)
}

fn copied(alloc: Global, due: &Due) -> Result<Due, NoMemory>
    ensures { IfOk result (λ copy. copy ≡ due.now) }
{
    Ok(Due {
        write: due.write,
        partition: due.partition.duplicate(alloc)?,
        inserted: due.inserted,
        deleted: due.deleted,
    })
}

/// What commits say of the partitions that are wanted.
fn dues_wanted<P: Wants>(alloc: Global, wants: &P, dues: &[Due]) -> Result<Vec<Due>, NoMemory>
    ensures { IfOk result (λ kept. kept.items ≡ dues_wanted (P.picks wants.now) dues.now) }
{
    let mut kept = Vec::new(alloc);
    for due in dues {
        if wants.wants(alloc, &due.partition)? {
            kept.push(copied(alloc, due)?)?;
        }
    }
    Ok(kept)
}

/// What is read of a table whose files were listed and whose commits say this.
pub fn narrowed<P: Wants>(
    alloc: Global,
    wants: &P,
    listing: Listing,
    dues: Vec<Due>,
) -> Result<Wanted, NoMemory>
    ensures list { IfOk result (λ wanted. wanted.listing.list ≡ listing.list) }
    ensures inserts { IfOk result (λ wanted. wanted.listing.inserts.items
        ≡ files_wanted (P.picks wants.now) listing.inserts.items) }
    ensures deletes { IfOk result (λ wanted. wanted.listing.deletes.items
        ≡ files_wanted (P.picks wants.now) listing.deletes.items) }
    ensures counts_rows { IfOk result (λ wanted. wanted.counts_rows
        ≡ (list_all is_own_file listing.inserts.items && list_all is_own_file listing.inserts.items)) }
    ensures counts_deletes { IfOk result (λ wanted. wanted.counts_deletes
        ≡ (list_all is_own_file listing.inserts.items && list_all is_own_file listing.deletes.items)) }
    ensures dues { IfOk result (λ wanted. wanted.dues.items ≡ dues_wanted (P.picks wants.now) dues.items) }
{
    let Listing {
        list,
        inserts,
        deletes,
    } = listing;
    let counts_rows = are_counted(inserts.as_slice(), inserts.as_slice());
    let counts_deletes = are_counted(inserts.as_slice(), deletes.as_slice());
    let rows = files_wanted(alloc, wants, inserts.as_slice())?;
    let gone = files_wanted(alloc, wants, deletes.as_slice())?;
    let due = dues_wanted(alloc, wants, dues.as_slice())?;
    Ok(Wanted {
        listing: Listing {
            list,
            inserts: rows,
            deletes: gone,
        },
        counts_deletes,
        counts_rows,
        dues: due,
    })
}
