use std::alloc::{AllocError, Global};

/// A row with the characters that its pictures stand for.
pub fn plain(alloc: Global, row: &str) -> Result<String, AllocError> {
    let mut text = String::new(alloc);
    for character in row.chars() {
        let meant = match character {
            '␀' => '\0',
            '␉' => '\t',
            '␊' => '\n',
            '␍' => '\r',
            _ => character,
        };
        text.push(meant)?;
    }
    Ok(text)
}

/// The argument at that place, or nothing.
pub fn piece<'a>(words: &[&'a str], at: usize) -> &'a str {
    match words.get(at) {
        Some(word) => *word,
        None => "",
    }
}

pub fn number(words: &[&str], at: usize) -> u64 {
    piece(words, at).parse::<u64>().unwrap_or(0)
}
