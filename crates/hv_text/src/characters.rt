ghost use Rattle.std.specs.Prelude.{◌≡◌, ◌++◌, MatchOption, [], ◌∷◌, length, drop, take};
ghost use Rattle.std.specs.Str.{chars, encode_utf8_all};
ghost use Rattle.std.specs.Char.{encode_utf8};
ghost use Rattle.hv_text.specs.Characters.{character_count};

/// The number of a text's characters, in time that grows with the text.
#[tactic(auto, using(std::proofs::lemmas::Str::chars_from_encodes))]
pub fn length(text: &str) -> usize
    ensures { result ≡ character_count text.now }
{
    text.chars().count()
}

// The first character, and the text behind it.
pub(crate) fn split_first(text: &str) -> Option<(char, &str)>
    ensures { MatchOption result (chars text.now ≡ []) (λ split. chars text.now ≡ split.0 ∷ chars split.1.now) }
{
    let mut characters = text.chars();
    match characters.next() {
        Some(first) => Some((first, characters.as_str())),
        None => None,
    }
}

// The last character, and the text before it.
pub(crate) fn split_last(text: &str) -> Option<(&str, char)>
    ensures { MatchOption result (chars text.now ≡ []) (λ split. chars text.now ≡ chars split.0.now ++ split.1 ∷ []) }
{
    let mut characters = text.chars();
    match characters.next_back() {
        Some(last) => Some((characters.as_str(), last)),
        None => None,
    }
}

// The text behind so many characters, empty where there are not so many.
pub(crate) fn skip(text: &str, count: u64) -> &str
    ensures { chars result.now ≡ drop count (chars text.now) }
{
    let mut rest = text;
    let mut left = count;
    while left > 0 {
        match split_first(rest) {
            Some((_, behind)) => rest = behind,
            None => return rest,
        }
        left -= 1;
    }
    rest
}

// So many characters from the front, all of them where there are not so many.
pub(crate) fn front(text: &str, count: u64) -> &str
    ensures { result.now ≡ encode_utf8_all (take count (chars text.now)) }
{
    let behind = skip(text, count);
    &text[..text.len() - behind.len()]
}
