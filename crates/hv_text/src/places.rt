ghost use Rattle.std.specs.Prelude.{◌≡◌, ◌≤◌, IfSome, length};
ghost use Rattle.hv_text.specs.Characters.{found_behind};

use crate::characters;

/// How many characters stand before the first place where the part begins: None exactly where it
/// begins at none. An empty part begins at the first place.
///
/// The search goes over bytes: where the part's bytes stand, its characters do, since no character's
/// bytes begin within another's. So it takes time that grows with the two lengths added.
pub fn find(text: &str, part: &str) -> Option<usize>
    ensures value { result ≡ found_behind text.now part.now }
    ensures within { IfSome result (λ skipped. skipped ≤ length text.now) }
{
    match text.split_once(part) {
        Some((before, _behind)) => Some(characters::length(before)),
        None => None,
    }
}
