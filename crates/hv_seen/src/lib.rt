//! Values that are seen where they stand, and what the functions of SQL give of them: conversions,
//! comparisons, integers in their widths, truth values, and texts.
#![tactic(auto)]

mod casts;
mod comparisons;
mod integers;
mod seen;
mod texts;
mod truths;

pub use casts::cast;
pub use comparisons::{compare, equal, null_safe_equal};
pub use integers::{absolute, arithmetic, minus, plus, positive_remainder};
pub use seen::{
    Seen, day, int, is_null, null, number, of_big, of_bool, of_day, of_int, owned, taken, text,
    view,
};
pub use texts::{Maker, is_like, length_of, low_int, make, part_from, place_of, rest_from};
pub use truths::{Truth, both, either, negated, of_option, of_truth, truth_of};
