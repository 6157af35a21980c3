ghost use Rattle.std.specs.Prelude.{◌≡◌};
ghost use Rattle.hv_merge.specs.Steps.{is_below, is_before};

use hv_base::RowId;

/// Whether an identifier comes before the other. This is `<` on them, which looks at all parts, but stops at the first that differs.
/// It makes no `Ordering` on the way: a merge asks this for each file of each row.
pub fn comes_before(id: RowId, other: RowId) -> bool
    ensures { result ≡ is_below other id }
{
    if id.write.0 != other.write.0 {
        return id.write.0 < other.write.0;
    }
    if id.statement != other.statement {
        return id.statement < other.statement;
    }
    if id.bucket != other.bucket {
        return id.bucket < other.bucket;
    }
    id.row < other.row
}

/// Whether an identifier comes before the other one, if there is one.
pub fn is_before(id: RowId, others: Option<RowId>) -> bool
    ensures { result ≡ is_before id others }
{
    match others {
        Some(other) => comes_before(id, other),
        None => true,
    }
}
