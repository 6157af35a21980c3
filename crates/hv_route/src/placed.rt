ghost use Rattle.std.specs.Prelude.{◌≡◌, refl};
ghost use Rattle.std.specs.Ordering.{as_partial_cmp, eq_by_cmp};
ghost use Rattle.std.specs.Cmp.{eq_by_cmp_equiv, partial_equiv_from_equiv, partial_order_from_total};
ghost use Rattle.hv_route.specs.Placing.{placed_cmp, placed_total};

use hv_base::Text;
use std::cmp::Ordering;

/// An item with the partition and the bucket in which it stands.
#[derive(Drop)]
pub struct Placed<T> {
    pub partition: Text,
    pub bucket: u32,
    pub item: T,
}

#[tactic(auto, unfolding(crate::specs::Placing::placed_cmp))]
fn compare_placed<T: Ord>(left: &Placed<T>, right: &Placed<T>) -> Ordering
    ensures { result ≡ placed_cmp T.cmp left.now right.now }
{
    left.partition
        .cmp(&right.partition)
        .then(left.bucket.cmp(&right.bucket))
        .then(left.item.cmp(&right.item))
}

impl<T: Ord> PartialEq for Placed<T> {
    ghost eq = { eq_by_cmp (placed_cmp T.cmp) };

    ghost laws = { partial_equiv_from_equiv (eq_by_cmp_equiv (placed_total T.total)) };

    fn eq(&self, other: &Placed<T>) -> bool {
        compare_placed(self, other).is_eq()
    }
}

impl<T: Ord> Eq for Placed<T> {
    ghost laws = { eq_by_cmp_equiv (placed_total T.total) };
}

impl<T: Ord> PartialOrd for Placed<T> {
    ghost partial_cmp = { as_partial_cmp (placed_cmp T.cmp) };

    ghost laws = { partial_order_from_total (placed_total T.total) };

    fn partial_cmp(&self, other: &Placed<T>) -> Option<Ordering> {
        Some(self.cmp(other))
    }
}

/// By partition, by bucket, and then by the items' own order.
impl<T: Ord> Ord for Placed<T> {
    ghost cmp = { placed_cmp T.cmp };

    ghost total = { placed_total T.total };

    ghost matches_partial_cmp = { λ left right. refl };

    ghost matches_eq = { λ left right. refl };

    fn cmp(&self, other: &Placed<T>) -> Ordering {
        compare_placed(self, other)
    }
}
