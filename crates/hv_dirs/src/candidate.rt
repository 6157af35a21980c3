ghost use Rattle.std.specs.Prelude.{◌≡◌};
ghost use Rattle.hv_dirs.specs.Candidates.{candidate_named};

use crate::names::DirName;
use std::cmp::Ordering;

/// A delta, with the place of its name.
#[derive(Clone, Copy, PartialEq, Eq)]
pub struct Candidate {
    pub low: u64,
    pub high: u64,
    /// 0 for the delta of a range, which comes first, and 1 for that of a statement.
    pub rank: u32,
    pub statement: u32,
    pub place: usize,
}

impl Candidate {
    /// The delta of this name, if it is of the kind.
    pub fn of(name: &DirName, deletes: bool, place: usize) -> Option<Candidate>
        ensures { result ≡ candidate_named deletes name.now place }
    {
        match name {
            DirName::Own {
                deletes: kind,
                write,
                statement,
            } if *kind == deletes => Some(Candidate {
                low: write.0,
                high: write.0,
                rank: 1,
                statement: *statement,
                place,
            }),
            DirName::Wide {
                deletes: kind,
                low,
                high,
            } if *kind == deletes => Some(Candidate {
                low: low.0,
                high: high.0,
                rank: 0,
                statement: 0,
                place,
            }),
            _ => None,
        }
    }
}

impl PartialOrd for Candidate {
    ghost use Rattle.std.specs.Ordering.{as_partial_cmp};
    ghost use Rattle.hv_dirs.specs.Candidates.{candidate_cmp, candidate_laws};

    ghost partial_cmp = { as_partial_cmp candidate_cmp };

    ghost laws = { candidate_laws };

    fn partial_cmp(&self, other: &Candidate) -> Option<Ordering> {
        Some(self.cmp(other))
    }
}

/// Lower id rising, upper id falling, ranges before statements, statements rising.
impl Ord for Candidate {
    ghost use Rattle.std.specs.Prelude.{refl};
    ghost use Rattle.hv_dirs.specs.Candidates.{candidate_cmp, candidate_total, candidate_ties};

    ghost cmp = { candidate_cmp };

    ghost total = { candidate_total };

    ghost matches_partial_cmp = { λ left right. refl };

    ghost matches_eq = { candidate_ties };

    #[tactic(auto, unfolding(crate::specs::Candidates::candidate_cmp))]
    fn cmp(&self, other: &Candidate) -> Ordering {
        self.low
            .cmp(&other.low)
            .then(other.high.cmp(&self.high))
            .then(self.rank.cmp(&other.rank))
            .then(self.statement.cmp(&other.statement))
            .then(self.place.cmp(&other.place))
    }
}
