ghost use Rattle.std.specs.Prelude.{◌≡◌, refl};
ghost use Rattle.std.specs.Ordering.{as_partial_cmp, eq_by_cmp};
ghost use Rattle.std.specs.Cmp.{eq_by_cmp_equiv, partial_equiv_from_equiv, partial_order_from_total};
ghost use Rattle.hv_table_rows.specs.Orders.{placed_cmp, placed_total};

use hv_logic::{Found, compare_found};
use std::cmp::Ordering;

/// A row that stands in a table, ordered by where it stands.
#[derive(Drop)]
pub struct Placed {
    pub found: Found,
}

impl PartialEq for Placed {
    ghost eq = { eq_by_cmp placed_cmp };

    ghost laws = { partial_equiv_from_equiv (eq_by_cmp_equiv placed_total) };

    fn eq(&self, other: &Placed) -> bool {
        self.cmp(other).is_eq()
    }
}

impl Eq for Placed {
    ghost laws = { eq_by_cmp_equiv placed_total };
}

impl PartialOrd for Placed {
    ghost partial_cmp = { as_partial_cmp placed_cmp };

    ghost laws = { partial_order_from_total placed_total };

    fn partial_cmp(&self, other: &Placed) -> Option<Ordering> {
        Some(self.cmp(other))
    }
}

/// By partition and identifier.
impl Ord for Placed {
    ghost cmp = { placed_cmp };

    ghost total = { placed_total };

    ghost matches_partial_cmp = { λ left right. refl };

    ghost matches_eq = { λ left right. refl };

    #[tactic(auto, unfolding(crate::specs::Orders::placed_cmp))]
    fn cmp(&self, other: &Placed) -> Ordering {
        compare_found(&self.found, &other.found)
    }
}
