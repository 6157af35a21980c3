ghost use Rattle.std.specs.Prelude.{◌≡◌};
ghost use Rattle.std.specs.Str.{chars};
ghost use Rattle.hv_text.specs.Characters.{trimmed, without_front_spaces, without_end_spaces};

use crate::characters::{split_first, split_last};

fn without_front(text: &str) -> &str
    ensures { chars result.now ≡ without_front_spaces (chars text.now) }
{
    let mut rest = text;
    while let Some((first, behind)) = split_first(rest) {
        if first != ' ' {
            break;
        }
        rest = behind;
    }
    rest
}

fn without_end(text: &str) -> &str
    ensures { chars result.now ≡ without_end_spaces (chars text.now) }
{
    let mut rest = text;
    while let Some((before, last)) = split_last(rest) {
        if last != ' ' {
            break;
        }
        rest = before;
    }
    rest
}

/// The text without its outer spaces. Other white space stays.
#[tactic(auto, using(crate::proofs::TextLemmas::whole_texts))]
pub fn trim(text: &str) -> &str
    ensures { result.now ≡ trimmed text.now }
{
    without_end(without_front(text))
}
