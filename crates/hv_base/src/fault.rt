ghost use Rattle.std.specs.Prelude.{◌≡◌, ◌≤◌};
ghost use Rattle.hv_base.specs.Faults.{Rose, one_more};

/// Raises a count of faults, or of calls, by one. It ends at 2^64 - 1 and stays there.
pub fn raise(count: &mut u64)
    ensures counted { count.new ≡ one_more count.old }
    ensures later { count.old ≤ count.new }
    ensures rose { Rose count.old count.new }
{
    *count = count.saturating_add(1);
}
