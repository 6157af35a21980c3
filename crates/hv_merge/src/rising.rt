ghost use Rattle.std.specs.Prelude.{◌≡◌, ◌↔◌, IsTrue, None};
ghost use Rattle.hv_rowfile.specs.Layout.{RisesFrom};
ghost use Rattle.hv_merge.specs.Steps.{rises_from};

use hv_base::RowId;
use hv_rowfile::Rec;

fn all_rise(recs: &[Rec]) -> bool
    ensures { result ≡ rises_from None recs.now }
{
    let mut before: Option<RowId> = None;
    for rec in recs {
        let id = rec.id();
        match before {
            Some(last) if last >= id => return false,
            _ => {}
        }
        before = Some(id);
    }
    true
}

/// Whether each record's identifier is above that of the one before it, as in every row file.
pub fn rises(recs: &[Rec]) -> bool
    ensures { IsTrue result ↔ RisesFrom None recs.now }
{
    all_rise(recs)
}
