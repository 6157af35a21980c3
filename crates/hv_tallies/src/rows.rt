ghost use Rattle.std.specs.Prelude.{◌≡◌};
ghost use Rattle.hv_tallies.specs.Tallies.{more, more_if, more_both};

/// The sum, or `u64::MAX` where it is more.
fn more(sum: u64, rows: u64) -> u64
    ensures { result ≡ more sum rows }
{
    if rows <= u64::MAX - sum {
        sum + rows
    } else {
        u64::MAX
    }
}

pub fn more_if(test: bool, sum: u64, rows: u64) -> u64
    ensures { result ≡ more_if test sum rows }
{
    if test { more(sum, rows) } else { sum }
}

pub fn more_both(test: bool, sum: u64, inserted: u64, deleted: u64) -> u64
    ensures { result ≡ more_both test sum inserted deleted }
{
    if test {
        more(more(sum, inserted), deleted)
    } else {
        sum
    }
}
