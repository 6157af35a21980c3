//! The three truth values, in one byte.

ghost use Rattle.std.specs.Prelude.{◌≡◌, option_map, not};
ghost use Rattle.hv_expr.specs.Values.{truth_of, truth_value, both, either};
ghost use Rattle.hv_seen.specs.Seen.{seen_value};
ghost use Rattle.hv_seen.specs.Truths.{told};

use crate::seen::{Seen, null, of_bool};

/// True, false, or neither.
#[derive(Clone, Copy)]
pub enum Truth {
    False,
    Unknown,
    True,
}

/// What a BOOLEAN says; every other value says nothing.
#[inline]
#[tactic(auto, using(crate::proofs::Layers::layers))]
pub fn truth_of(value: &Seen) -> Truth
    ensures { told result ≡ truth_of (seen_value value.now) }
{
    match value {
        Seen::False => Truth::False,
        Seen::True => Truth::True,
        _ => Truth::Unknown,
    }
}

/// The truth value of a BOOLEAN that is there or not.
#[inline]
pub fn of_option(truth: Option<bool>) -> Truth
    ensures { told result ≡ truth }
{
    match truth {
        Some(false) => Truth::False,
        None => Truth::Unknown,
        Some(true) => Truth::True,
    }
}

/// A BOOLEAN, or NULL.
#[inline]
pub fn of_truth<'a>(truth: Truth) -> Seen<'a>
    ensures { seen_value result ≡ truth_value (told truth) }
{
    match truth {
        Truth::False => of_bool(false),
        Truth::Unknown => null(),
        Truth::True => of_bool(true),
    }
}

/// AND: false with a false side, else unknown with an unknown one.
#[inline]
pub fn both(left: Truth, right: Truth) -> Truth
    ensures { told result ≡ both (told left) (told right) }
{
    match (left, right) {
        (Truth::False, _) | (_, Truth::False) => Truth::False,
        (Truth::True, Truth::True) => Truth::True,
        _ => Truth::Unknown,
    }
}

/// OR: true with a true side, else unknown with an unknown one.
#[inline]
pub fn either(left: Truth, right: Truth) -> Truth
    ensures { told result ≡ either (told left) (told right) }
{
    match (left, right) {
        (Truth::True, _) | (_, Truth::True) => Truth::True,
        (Truth::False, Truth::False) => Truth::False,
        _ => Truth::Unknown,
    }
}

/// NOT, of unknown unknown.
#[inline]
pub fn negated(truth: Truth) -> Truth
    ensures { told result ≡ option_map not (told truth) }
{
    match truth {
        Truth::False => Truth::True,
        Truth::Unknown => Truth::Unknown,
        Truth::True => Truth::False,
    }
}
