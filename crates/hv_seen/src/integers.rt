ghost use Rattle.std.specs.Prelude.{◌≡◌, false, option_map, ◌+ℤ◌, ◌-ℤ◌, ◌*ℤ◌, neg_ℤ, int_div, int_rem, pos, unsigned_abs};
ghost use Rattle.std.specs.Ordering.{int_eq};
ghost use Rattle.std.specs.Int.{int_wrap, w32, w64};
ghost use Rattle.hv_expr.specs.Values.{by, by_one};
ghost use Rattle.hv_expr.specs.Functions.{calculated, pmod, arithmetic_value, unless_zero};
ghost use Rattle.hv_seen.specs.Seen.{seen_value};

use crate::seen::{Seen, null, of_big, of_int};
use hv_expr::Arithmetic;

fn wide(number: &i32) -> i64
    ensures { result ≡ number.now }
{
    i64::from(*number)
}

#[tactic(auto, using(crate::proofs::Layers::wrapping))]
fn add_int(left: &i32, right: &i32) -> i32
    ensures { result ≡ int_wrap w32 (left.now +ℤ right.now) }
{
    left.wrapping_add(*right)
}

#[tactic(auto, using(crate::proofs::Layers::wrapping))]
fn subtract_int(left: &i32, right: &i32) -> i32
    ensures { result ≡ int_wrap w32 (left.now -ℤ right.now) }
{
    left.wrapping_sub(*right)
}

#[tactic(auto, using(crate::proofs::Layers::wrapping))]
fn multiply_int(left: &i32, right: &i32) -> i32
    ensures { result ≡ int_wrap w32 (left.now *ℤ right.now) }
{
    left.wrapping_mul(*right)
}

#[tactic(auto, using(crate::proofs::IntegerLemmas::quotients, crate::proofs::Layers::wrapping))]
fn quotient_int(left: i32, right: i32) -> i32
    requires { int_eq right (pos 0) ≡ false }
    ensures { result ≡ int_wrap w32 (int_div left right) }
{
    left.wrapping_div(right)
}

fn divide_int(left: &i32, right: &i32) -> Option<i32>
    ensures { result ≡ option_map (int_wrap w32) (unless_zero right.now (int_div left.now right.now)) }
{
    if *right == 0 {
        return None;
    }
    Some(quotient_int(*left, *right))
}

#[tactic(auto, using(crate::proofs::Layers::wrapping))]
fn remainder_int(left: &i32, right: &i32) -> Option<i32>
    ensures { result ≡ option_map (int_wrap w32) (unless_zero right.now (int_rem left.now right.now)) }
{
    if *right == 0 {
        return None;
    }
    Some(left.wrapping_rem(*right))
}

#[tactic(auto, using(crate::proofs::Layers::wrapping))]
fn remainder_again_int(left: &i32, right: &i32) -> Option<i32>
    ensures { result ≡ option_map (int_wrap w32) (unless_zero right.now (int_rem (int_wrap w32 (int_rem left.now right.now +ℤ right.now)) right.now)) }
{
    let first = remainder_int(left, right)?;
    remainder_int(&add_int(&first, right), right)
}

#[tactic(auto, using(crate::proofs::Layers::wrapping), unfolding(hv_expr::specs::Functions::pmod))]
fn pmod_int(left: &i32, right: &i32) -> Option<i32>
    ensures { result ≡ option_map (int_wrap w32) (pmod w32 left.now right.now) }
{
    if *right > 0 {
        return Some(left.rem_euclid(*right));
    }
    remainder_again_int(left, right)
}

fn calculate_int(operator: Arithmetic, left: &i32, right: &i32) -> Option<i32>
    ensures { result ≡ option_map (int_wrap w32) (calculated operator w32 left.now right.now) }
{
    match operator {
        Arithmetic::Add => Some(add_int(left, right)),
        Arithmetic::Subtract => Some(subtract_int(left, right)),
        Arithmetic::Multiply => Some(multiply_int(left, right)),
        Arithmetic::Divide => divide_int(left, right),
        Arithmetic::Remainder => remainder_int(left, right),
    }
}

#[tactic(auto, using(crate::proofs::Layers::wrapping))]
fn negated_int(number: &i32) -> i32
    ensures { result ≡ int_wrap w32 (neg_ℤ number.now) }
{
    number.wrapping_neg()
}

#[tactic(auto, using(crate::proofs::Layers::wrapping))]
fn absolute_int(number: &i32) -> i32
    ensures { result ≡ int_wrap w32 (pos (unsigned_abs number.now)) }
{
    if *number < 0 {
        negated_int(number)
    } else {
        same_int(number)
    }
}

#[tactic(auto, using(crate::proofs::Layers::wrapping))]
fn same_int(number: &i32) -> i32
    ensures { result ≡ int_wrap w32 number.now }
{
    *number
}

#[tactic(auto, using(crate::proofs::Layers::wrapping))]
fn add_big(left: &i64, right: &i64) -> i64
    ensures { result ≡ int_wrap w64 (left.now +ℤ right.now) }
{
    left.wrapping_add(*right)
}

#[tactic(auto, using(crate::proofs::Layers::wrapping))]
fn subtract_big(left: &i64, right: &i64) -> i64
    ensures { result ≡ int_wrap w64 (left.now -ℤ right.now) }
{
    left.wrapping_sub(*right)
}

#[tactic(auto, using(crate::proofs::Layers::wrapping))]
fn multiply_big(left: &i64, right: &i64) -> i64
    ensures { result ≡ int_wrap w64 (left.now *ℤ right.now) }
{
    left.wrapping_mul(*right)
}

#[tactic(auto, using(crate::proofs::IntegerLemmas::quotients, crate::proofs::Layers::wrapping))]
fn quotient_big(left: i64, right: i64) -> i64
    requires { int_eq right (pos 0) ≡ false }
    ensures { result ≡ int_wrap w64 (int_div left right) }
{
    left.wrapping_div(right)
}

fn divide_big(left: &i64, right: &i64) -> Option<i64>
    ensures { result ≡ option_map (int_wrap w64) (unless_zero right.now (int_div left.now right.now)) }
{
    if *right == 0 {
        return None;
    }
    Some(quotient_big(*left, *right))
}

#[tactic(auto, using(crate::proofs::Layers::wrapping))]
fn remainder_big(left: &i64, right: &i64) -> Option<i64>
    ensures { result ≡ option_map (int_wrap w64) (unless_zero right.now (int_rem left.now right.now)) }
{
    if *right == 0 {
        return None;
    }
    Some(left.wrapping_rem(*right))
}

#[tactic(auto, using(crate::proofs::Layers::wrapping))]
fn remainder_again_big(left: &i64, right: &i64) -> Option<i64>
    ensures { result ≡ option_map (int_wrap w64) (unless_zero right.now (int_rem (int_wrap w64 (int_rem left.now right.now +ℤ right.now)) right.now)) }
{
    let first = remainder_big(left, right)?;
    remainder_big(&add_big(&first, right), right)
}

#[tactic(auto, using(crate::proofs::Layers::wrapping), unfolding(hv_expr::specs::Functions::pmod))]
fn pmod_big(left: &i64, right: &i64) -> Option<i64>
    ensures { result ≡ option_map (int_wrap w64) (pmod w64 left.now right.now) }
{
    if *right > 0 {
        return Some(left.rem_euclid(*right));
    }
    remainder_again_big(left, right)
}

fn calculate_big(operator: Arithmetic, left: &i64, right: &i64) -> Option<i64>
    ensures { result ≡ option_map (int_wrap w64) (calculated operator w64 left.now right.now) }
{
    match operator {
        Arithmetic::Add => Some(add_big(left, right)),
        Arithmetic::Subtract => Some(subtract_big(left, right)),
        Arithmetic::Multiply => Some(multiply_big(left, right)),
        Arithmetic::Divide => divide_big(left, right),
        Arithmetic::Remainder => remainder_big(left, right),
    }
}

#[tactic(auto, using(crate::proofs::Layers::wrapping))]
fn negated_big(number: &i64) -> i64
    ensures { result ≡ int_wrap w64 (neg_ℤ number.now) }
{
    number.wrapping_neg()
}

#[tactic(auto, using(crate::proofs::Layers::wrapping))]
fn absolute_big(number: &i64) -> i64
    ensures { result ≡ int_wrap w64 (pos (unsigned_abs number.now)) }
{
    if *number < 0 {
        negated_big(number)
    } else {
        same_big(number)
    }
}

#[tactic(auto, using(crate::proofs::Layers::wrapping))]
fn same_big(number: &i64) -> i64
    ensures { result ≡ int_wrap w64 number.now }
{
    *number
}

/// What an operator gives of two integers: an INT of two INTs, else a BIGINT, wrapped.
#[tactic(auto, using(crate::proofs::Layers::sums))]
pub fn arithmetic<'a>(operator: Arithmetic, left: &Seen, right: &Seen) -> Seen<'a>
    ensures { seen_value result ≡ arithmetic_value operator (seen_value left.now) (seen_value right.now) }
{
    match (left, right) {
        (Seen::Int(left), Seen::Int(right)) => of_int(calculate_int(operator, left, right)),
        (Seen::Int(left), Seen::Big(right)) => of_big(calculate_big(operator, &wide(left), right)),
        (Seen::Big(left), Seen::Int(right)) => of_big(calculate_big(operator, left, &wide(right))),
        (Seen::Big(left), Seen::Big(right)) => of_big(calculate_big(operator, left, right)),
        _ => null(),
    }
}

/// `pmod`, in the width of the two integers.
#[tactic(auto, using(crate::proofs::Layers::sums))]
pub fn positive_remainder<'a>(left: &Seen, right: &Seen) -> Seen<'a>
    ensures { seen_value result ≡ by pmod (seen_value left.now) (seen_value right.now) }
{
    match (left, right) {
        (Seen::Int(left), Seen::Int(right)) => of_int(pmod_int(left, right)),
        (Seen::Int(left), Seen::Big(right)) => of_big(pmod_big(&wide(left), right)),
        (Seen::Big(left), Seen::Int(right)) => of_big(pmod_big(left, &wide(right))),
        (Seen::Big(left), Seen::Big(right)) => of_big(pmod_big(left, right)),
        _ => null(),
    }
}

// An integer of the same width.
macro_rules! width {
    ($number:expr, $int:ident, $big:ident) => {
        match $number {
            Seen::Int(number) => of_int(Some($int(number))),
            Seen::Big(number) => of_big(Some($big(number))),
            _ => null(),
        }
    };
}

/// `+e`
#[tactic(auto, using(crate::proofs::Layers::sums))]
pub fn plus<'a>(number: &Seen) -> Seen<'a>
    ensures { seen_value result ≡ by_one (λ a. a) (seen_value number.now) }
{
    width!(number, same_int, same_big)
}

/// `-e`, which wraps at the least.
#[tactic(auto, using(crate::proofs::Layers::sums))]
pub fn minus<'a>(number: &Seen) -> Seen<'a>
    ensures { seen_value result ≡ by_one neg_ℤ (seen_value number.now) }
{
    width!(number, negated_int, negated_big)
}

/// `abs`, which wraps at the least.
#[tactic(auto, using(crate::proofs::Layers::sums))]
pub fn absolute<'a>(number: &Seen) -> Seen<'a>
    ensures { seen_value result ≡ by_one (λ a. pos (unsigned_abs a)) (seen_value number.now) }
{
    width!(number, absolute_int, absolute_big)
}
