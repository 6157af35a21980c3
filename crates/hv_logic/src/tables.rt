ghost use Rattle.std.specs.Prelude.{◌≡◌};
ghost use Rattle.std.specs.Option.{option_copied};
ghost use Rattle.hv_logic.specs.Tables.{named};

use crate::seen::Seen;
use hv_base::Text;

/// The table of that name.
pub fn named<'a>(name: &Text, tables: &'a [Seen]) -> Option<&'a Seen>
    ensures { option_copied result ≡ named name.now tables.now }
{
    for seen in tables {
        if seen.info.shape.name == *name {
            return Some(seen);
        }
    }
    None
}
