ghost use Rattle.std.specs.Prelude.{◌≡◌};
ghost use Rattle.std.specs.Option.{option_copied};
ghost use Rattle.hv_counts.specs.Tallies.{is_tally, ends, first_off};

use crate::tally::Tally;

/// Whether another one is of the same write id and partition.
fn is_beside(tally: &Tally, other: &Tally) -> bool
    ensures { result ≡ is_tally tally.now.write tally.now.partition other.now }
{
    other.write == tally.write && other.partition == tally.partition
}

/// Whether the next one is of another write id or partition, or there is none.
fn ends(tally: &Tally, next: Option<&Tally>) -> bool
    ensures { result ≡ ends tally.now (option_copied next.entry) }
{
    match next {
        Some(next) => !is_beside(tally, next),
        None => true,
    }
}

/// The last of the first ones of one write id and partition whose files don't have as many rows as commits say.
pub fn first_off(tallies: &[Tally]) -> Option<&Tally>
    ensures { option_copied result ≡ first_off 0 0 tallies.now }
{
    let mut stored: u128 = 0;
    let mut due: u128 = 0;
    for (i, tally) in tallies.iter().enumerate() {
        let rows = tally.stored;
        let said = tally.due;
        stored += u128::from(rows);
        due += u128::from(said);
        if ends(tally, tallies.get(i + 1)) {
            if stored != due {
                return Some(tally);
            }
            stored = 0;
            due = 0;
        }
    }
    None
}
