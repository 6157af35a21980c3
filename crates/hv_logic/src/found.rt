ghost use Rattle.std.specs.Prelude.{◌≡◌, ◌≤◌, OnOk, IfOk, length, insert};
ghost use Rattle.hv_logic.specs.Rows.{found_cmp};
ghost use Rattle.hv_base.specs.Sorting.{put_by, sorted_by};

use crate::effect::Found;
use hv_base::NoMemory;
use std::alloc::Global;
use std::cmp::Ordering;

/// By partition and identifier.
pub fn compare_found(left: &Found, right: &Found) -> Ordering
    ensures { result ≡ found_cmp left.now right.now }
{
    left.partition
        .cmp(&right.partition)
        .then(left.id.cmp(&right.id))
}

// The place before the first row that `found` doesn't come behind.
fn place_of(found: &Found, rows: &[Found]) -> usize
    ensures within { result ≤ length rows.now }
    ensures place { insert rows.now result found.now ≡ put_by found_cmp found.now rows.now }
{
    for (i, other) in rows.iter().enumerate() {
        if compare_found(found, other).is_le() {
            return i;
        }
    }
    rows.len()
}

fn put(rows: &mut Vec<Found>, found: Found) -> Result<(), NoMemory>
    ensures { OnOk result (rows.new.items ≡ put_by found_cmp found rows.old.items) }
{
    let place = place_of(&found, rows);
    rows.insert(place, found)?;
    Ok(())
}

/// Sorts rows by partition and identifier. Two rows of one identifier keep their order.
pub fn sort_found(alloc: Global, mut rows: Vec<Found>) -> Result<Vec<Found>, NoMemory>
    ensures { IfOk result (λ sorted. sorted.items ≡ sorted_by found_cmp rows.items) }
{
    let mut sorted = Vec::new(alloc);
    while let Some(found) = rows.pop() {
        put(&mut sorted, found)?;
    }
    Ok(sorted)
}
