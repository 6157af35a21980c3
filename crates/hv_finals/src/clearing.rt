ghost use Rattle.std.specs.Prelude.{OnOk, OnErr, IsErr};
ghost use Rattle.hv_base.specs.Told.{Moves};
ghost use Rattle.hv_finals.specs.Finals.{CallsCause, DirsGo, SomeDirsGo};

use hv_base::Failed;
use hv_shelf::{DirAt, Shelf};

/// Takes away all files of these directories, one after another.
///
/// # Errors
/// `Failed` where the store failed: some of their files may be gone then, and nothing else.
pub fn clear<D: Shelf>(shelf: &mut D, dirs: &[DirAt]) -> Result<(), Failed>
    ensures gone { OnOk result (Moves (DirsGo dirs.now) (D.told shelf.old) (D.told shelf.new)) }
    ensures some { OnErr result (Moves (SomeDirsGo dirs.now) (D.told shelf.old) (D.told shelf.new)) }
    ensures cause { CallsCause (IsErr result)
        (D.faults shelf.old) (D.faults shelf.new) (D.hard shelf.old) (D.hard shelf.new) }
{
    for dir in dirs {
        shelf.remove(dir)?;
    }
    Ok(())
}
