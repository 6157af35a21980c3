ghost use Rattle.std.specs.Prelude.{◌≡◌, refl, IfOk, IsSorted, IsPermutation};
ghost use Rattle.std.specs.Ordering.{as_partial_cmp, eq_by_cmp};
ghost use Rattle.std.specs.Cmp.{eq_by_cmp_equiv, partial_equiv_from_equiv, partial_order_from_total};
ghost use Rattle.hv_counts.specs.Tallies.{tally_cmp, tally_total};

use hv_base::{NoMemory, Text};
use std::cmp::Ordering;

/// How many rows a file has, or a commit says, of a write id in a partition. Files are numbered from 1; what a commit says has no file.
#[derive(Drop)]
pub struct Tally {
    pub write: u64,
    pub partition: Text,
    pub file: u64,
    pub stored: u64,
    pub due: u64,
}

impl PartialEq for Tally {
    ghost eq = { eq_by_cmp tally_cmp };

    ghost laws = { partial_equiv_from_equiv (eq_by_cmp_equiv tally_total) };

    fn eq(&self, other: &Tally) -> bool {
        self.cmp(other).is_eq()
    }
}

impl Eq for Tally {
    ghost laws = { eq_by_cmp_equiv tally_total };
}

impl PartialOrd for Tally {
    ghost partial_cmp = { as_partial_cmp tally_cmp };

    ghost laws = { partial_order_from_total tally_total };

    fn partial_cmp(&self, other: &Tally) -> Option<Ordering> {
        Some(self.cmp(other))
    }
}

/// By write id, partition and file.
impl Ord for Tally {
    ghost cmp = { tally_cmp };

    ghost total = { tally_total };

    ghost matches_partial_cmp = { λ left right. refl };

    ghost matches_eq = { λ left right. refl };

    #[tactic(auto, unfolding(crate::specs::Tallies::tally_cmp))]
    fn cmp(&self, other: &Tally) -> Ordering {
        self.write
            .cmp(&other.write)
            .then(self.partition.cmp(&other.partition))
            .then(self.file.cmp(&other.file))
    }
}

/// The same ones, rising.
pub fn tallies_rising(tallies: Vec<Tally>) -> Result<Vec<Tally>, NoMemory>
    ensures sorted { IfOk result (λ found. IsSorted tally_cmp found.items) }
    ensures same { IfOk result (λ found. IsPermutation tallies.items found.items) }
{
    let mut tallies = tallies;
    tallies.sort()?;
    Ok(tallies)
}
