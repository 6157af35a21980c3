ghost use Rattle.std.specs.Prelude.{◌≡◌, ◌≤◌, ◌<◌, MatchOption, IsTrue, [], ◌∷◌, length};
ghost use Rattle.std.specs.Str.{chars};
ghost use Rattle.hv_text.specs.Patterns.{part_of, is_any, takes, pattern_parts, some_end, fits, is_like};
ghost use Rattle.hv_text.specs.Running.{RunsTo};
ghost use Rattle.hv_text.specs.declared.pattern.Part.TheVariants as part;

use crate::characters::split_first;

/// A part of a LIKE pattern.
#[derive(Clone, Copy)]
pub enum Part {
    /// `%`: any characters, or none.
    Any,
    /// `_`: one character.
    One,
    /// This character.
    Plain(char),
}

fn part_of(character: char) -> Part
    ensures { result ≡ part_of character }
{
    match character {
        '%' => Part::Any,
        '_' => Part::One,
        plain => Part::Plain(plain),
    }
}

// The first part of a pattern, and the pattern behind it.
fn split_part(pattern: &str) -> Option<(Part, &str)>
    ensures { MatchOption result (pattern_parts pattern.now ≡ []) (λ split. (pattern_parts pattern.now ≡ split.0 ∷ pattern_parts split.1.now) × (length (chars split.1.now) < length (chars pattern.now))) }
{
    let (first, behind) = split_first(pattern)?;
    if first != '\\' {
        return Some((part_of(first), behind));
    }
    match split_first(behind) {
        Some((plain, behind)) => Some((Part::Plain(plain), behind)),
        None => Some((Part::Plain('\\'), behind)),
    }
}

// How far a pattern goes along a text.
enum Run<'a> {
    // To the end of one of them: whether the pattern stands for the text.
    Ended(bool),
    // To a `%`: what is left of the text, and of the pattern behind the `%`.
    Stopped { text: &'a str, pattern: &'a str },
}

fn is_any(part: Part) -> bool
    ensures { result ≡ is_any part }
{
    matches!(part, Part::Any)
}

// Whether a part other than `%` stands for the character.
fn takes(part: Part, character: char) -> bool
    ensures { result ≡ takes part character }
{
    match part {
        Part::Any | Part::One => true,
        Part::Plain(plain) => plain == character,
    }
}

// Goes along the text up to the first `%`.
#[tactic(auto, using(crate::proofs::PatternLemmas::steps))]
fn go_along<'a>(text: &'a str, pattern: &'a str) -> Run<'a>
    ensures { RunsTo text.now pattern.now result }
{
    let mut text = text;
    let mut pattern = pattern;
    while let Some((part, pattern_behind)) = split_part(pattern) {
        if is_any(part) {
            return Run::Stopped {
                text,
                pattern: pattern_behind,
            };
        }
        match split_first(text) {
            Some((first, behind)) if takes(part, first) => text = behind,
            _ => return Run::Ended(false),
        }
        pattern = pattern_behind;
    }
    Run::Ended(split_first(text).is_none())
}

// Whether the pattern stands for some end of the text.
#[tactic(auto, using(crate::proofs::PatternLemmas::steps))]
fn fits_some_end(text: &str, pattern: &str) -> bool
    ensures { result ≡ some_end (fits (pattern_parts pattern.now)) (chars text.now) }
{
    let mut text = text;
    let mut pattern = pattern;
    loop {
        match go_along(text, pattern) {
            Run::Ended(true) => return true,
            Run::Ended(false) => match split_first(text) {
                Some((_, behind)) => text = behind,
                None => return false,
            },
            Run::Stopped {
                text: text_behind,
                pattern: pattern_behind,
            } => {
                text = text_behind;
                pattern = pattern_behind;
            }
        }
    }
}

/// Whether the pattern stands for the whole text: `%` for any characters, `_` for one, and every
/// other character for itself, as does each character behind a backslash.
///
/// It goes back to the last `%` alone, so it takes at most the product of the two lengths.
#[tactic(auto, unfolding(crate::specs::Patterns::is_like))]
pub fn like(text: &str, pattern: &str) -> bool
    ensures { result ≡ is_like text.now pattern.now }
{
    match go_along(text, pattern) {
        Run::Ended(answer) => answer,
        Run::Stopped { text, pattern } => fits_some_end(text, pattern),
    }
}
