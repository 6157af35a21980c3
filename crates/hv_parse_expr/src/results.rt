//! What comes behind a reading, whatever that gave. A caller hands on the whole result and so has one way out
//! less, on which nothing is dropped.

ghost use Rattle.std.specs.Prelude.{IfOk, IfErr};
ghost use Rattle.hv_parse_expr.specs.Handed.{GoesOn, IsRefused};

use crate::fault::ReadFault;

/// The items with what was read behind them.
pub fn pushed<T: Drop>(found: Vec<T>, read: Result<T, ReadFault>) -> Result<Vec<T>, ReadFault>
    ensures more { IfOk result (λ all. GoesOn read found.items all.items) }
    ensures refused { IfErr result (λ fault. IsRefused read fault) }
{
    let mut all = found;
    let item = read?;
    all.push(item)?;
    Ok(all)
}
