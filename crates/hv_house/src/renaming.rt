ghost use Rattle.std.specs.Prelude.{◌≡◌, OnOk, IfErr};
ghost use Rattle.hv_base.specs.Told.{Moves};
ghost use Rattle.hv_trail.specs.Steps.{AreMoved};
ghost use Rattle.hv_house.specs.Publishing.{CutsBy, RenamesCause, IsFailed};

use hv_shelf::{Shelf, ShelfFault};
use hv_trail::Renaming;

/// Why a directory didn't get its name, and whether one before it got its own.
#[derive(Clone, Copy)]
pub struct RenameFault {
    pub begun: bool,
    pub why: ShelfFault,
}

/// Gives directories their names, one after another.
///
/// # Errors
/// At the first one that didn't get its name: the ones before it have theirs.
pub fn rename_all<D: Shelf>(shelf: &mut D, renamings: &[Renaming]) -> Result<(), RenameFault>
    ensures moved { OnOk result (Moves (AreMoved renamings.now) (D.told shelf.old) (D.told shelf.new)) }
    ensures cut { IfErr result (λ why. Moves (CutsBy renamings.now why) (D.told shelf.old) (D.told shelf.new)) }
    ensures cause { RenamesCause (IsFailed result)
        (D.faults shelf.old) (D.faults shelf.new) (D.hard shelf.old) (D.hard shelf.new) }
{
    let mut begun = false;
    for renaming in renamings {
        match shelf.rename(&renaming.from, &renaming.to) {
            Ok(()) => begun = true,
            Err(why) => return Err(RenameFault { begun, why }),
        }
    }
    Ok(())
}
