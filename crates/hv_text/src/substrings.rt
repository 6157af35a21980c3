ghost use Rattle.std.specs.Prelude.{◌≡◌};
ghost use Rattle.std.specs.Str.{chars};
ghost use Rattle.hv_text.specs.Characters.{from_place, substring_from, substring};

use crate::characters::{front, length, skip};

#[tactic(auto, using(crate::proofs::TextLemmas::empty))]
fn at_place(text: &str, place: i64) -> &str
    ensures { chars result.now ≡ from_place place (chars text.now) }
{
    if place > 0 {
        return skip(text, place as u64 - 1);
    }
    if place == 0 {
        return text;
    }
    let all = length(text) as u64;
    let before = place.unsigned_abs();
    if before <= all {
        skip(text, all - before)
    } else {
        ""
    }
}

/// The text from a place on: 1 is the first character, and so is 0; a negative place counts from the
/// end. A place outside gives the empty text.
#[tactic(auto, using(crate::proofs::TextLemmas::whole_texts))]
pub fn substring_from(text: &str, place: i64) -> &str
    ensures { result.now ≡ substring_from text.now place }
{
    at_place(text, place)
}

/// So many characters at most of the text from a place on, and none where the number is below 1.
pub fn substring(text: &str, place: i64, count: i64) -> &str
    ensures { result.now ≡ substring text.now place count }
{
    if count < 1 {
        return "";
    }
    front(at_place(text, place), count as u64)
}
