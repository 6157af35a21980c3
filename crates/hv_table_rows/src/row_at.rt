ghost use Rattle.std.specs.Prelude.{◌≡◌, refl};
ghost use Rattle.std.specs.Ordering.{as_partial_cmp, eq_by_cmp};
ghost use Rattle.std.specs.Cmp.{eq_by_cmp_equiv, partial_equiv_from_equiv, partial_order_from_total};
ghost use Rattle.hv_table_rows.specs.Orders.{row_at_cmp, row_at_total};

use hv_base::{RowId, Text};
use std::cmp::Ordering;

/// Where a row of a table stands: its partition and its identifier.
#[derive(Drop)]
pub struct RowAt {
    pub partition: Text,
    pub id: RowId,
}

impl PartialEq for RowAt {
    ghost eq = { eq_by_cmp row_at_cmp };

    ghost laws = { partial_equiv_from_equiv (eq_by_cmp_equiv row_at_total) };

    fn eq(&self, other: &RowAt) -> bool {
        self.cmp(other).is_eq()
    }
}

impl Eq for RowAt {
    ghost laws = { eq_by_cmp_equiv row_at_total };
}

impl PartialOrd for RowAt {
    ghost partial_cmp = { as_partial_cmp row_at_cmp };

    ghost laws = { partial_order_from_total row_at_total };

    fn partial_cmp(&self, other: &RowAt) -> Option<Ordering> {
        Some(self.cmp(other))
    }
}

/// By partition and identifier.
impl Ord for RowAt {
    ghost cmp = { row_at_cmp };

    ghost total = { row_at_total };

    ghost matches_partial_cmp = { λ left right. refl };

    ghost matches_eq = { λ left right. refl };

    #[tactic(auto, unfolding(crate::specs::Orders::row_at_cmp))]
    fn cmp(&self, other: &RowAt) -> Ordering {
        self.partition
            .cmp(&other.partition)
            .then(self.id.cmp(&other.id))
    }
}
