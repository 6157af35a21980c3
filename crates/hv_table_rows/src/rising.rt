ghost use Rattle.std.specs.Prelude.{◌≡◌};
ghost use Rattle.hv_table_rows.specs.Rising.{comes_before, rise};

use hv_logic::{Found, compare_found};

/// Whether a row comes before another.
#[tactic(auto, unfolding(crate::specs::Rising::comes_before))]
fn comes_before(first: &Found, second: &Found) -> bool
    ensures { result ≡ comes_before first.now second.now }
{
    compare_found(first, second).is_lt()
}

/// Whether each row comes before the one behind it.
pub fn rise(rows: &[Found]) -> bool
    ensures { result ≡ rise rows.now }
{
    let mut rest = rows;
    while let [first, behind @ ..] = rest {
        if let [second, ..] = behind {
            if !comes_before(first, second) {
                return false;
            }
        }
        rest = behind;
    }
    true
}
