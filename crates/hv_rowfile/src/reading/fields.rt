ghost use Rattle.std.specs.Prelude.{◌≡◌, ◌∷◌, ◌≢◌, ◌++◌, Bool, List, ℕ, IfOk, IfErr, FitsSigned};
ghost use Rattle.std.specs.Int.{w32, w64};
ghost use Rattle.hv_bytes.specs.Reading.{Gives};
ghost use Rattle.hv_rowfile.specs.Layout.{int_spelling, big_spelling, truth_byte};
ghost use Rattle.hv_rowfile.specs.Reading.{int_at, big_at, truth_at};

use hv_bytes::{FieldFault, read_u32, read_u64};

#[inline]
#[tactic(auto, unfolding(crate::specs::Reading::int_at))]
pub fn read_int(bytes: &[u8]) -> Result<(i32, &[u8]), FieldFault>
    ensures exact { Gives (λ x. (x.0, x.1.now)) result (int_at bytes.now) }
    ensures found { IfOk result (λ x. FitsSigned w32 x.0 × (bytes.now ≡ int_spelling x.0 ++ x.1.now)) }
{
    let (number, rest) = read_u32(bytes)?;
    Ok((number.cast_signed(), rest))
}

#[inline]
#[tactic(auto, unfolding(crate::specs::Reading::big_at))]
pub fn read_big(bytes: &[u8]) -> Result<(i64, &[u8]), FieldFault>
    ensures exact { Gives (λ x. (x.0, x.1.now)) result (big_at bytes.now) }
    ensures found { IfOk result (λ x. FitsSigned w64 x.0 × (bytes.now ≡ big_spelling x.0 ++ x.1.now)) }
{
    let (number, rest) = read_u64(bytes)?;
    Ok((number.cast_signed(), rest))
}

#[inline]
#[tactic(auto, unfolding(crate::specs::Reading::truth_at))]
pub fn read_truth(bytes: &[u8]) -> Result<(bool, &[u8]), FieldFault>
    ensures exact { Gives (λ x. (x.0, x.1.now)) result (truth_at bytes.now) }
    ensures found { IfOk result (λ x. bytes.now ≡ truth_byte x.0 ∷ x.1.now) }
    ensures other { IfErr result (λ _. (truth : Bool) (after : List ℕ)
        → bytes.now ≢ truth_byte truth ∷ after) }
{
    match bytes {
        [0, rest @ ..] => Ok((false, rest)),
        [1, rest @ ..] => Ok((true, rest)),
        _ => Err(FieldFault::Damaged),
    }
}
