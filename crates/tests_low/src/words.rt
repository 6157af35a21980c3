use std::alloc::{AllocError, Global};

/// A row with the characters that its pictures stand for.
pub fn plain(alloc: Global, row: &str) -> Result<String, AllocError> {
    let mut text = String::new(alloc);
    for character in row.chars() {
        let meant = match character {
            '␀' => '\0',
            '␉' => '\t',
            '␊' => '\n',
            '␍' => '\r',
            _ => character,
        };
        text.push(meant)?;
    }
    Ok(text)
}

/// The argument at that place, or nothing.
pub fn piece<'a>(words: &[&'a str], at: usize) -> &'a str {
    match words.get(at) {
        Some(word) => *word,
        None => "",
    }
}

pub fn number(words: &[&str], at: usize) -> u64 {
    piece(words, at).parse::<u64>().unwrap_or(0)
}

/// The numbers of a text with spaces between them.
pub fn numbers(alloc: Global, text: &str) -> Result<Vec<u64>, AllocError> {
    text.split(' ')
        .filter_map(|word| word.parse::<u64>().ok())
        .collect(alloc)
}

/// The bytes that pairs of hexadecimal digits spell.
pub fn spelled(alloc: Global, text: &str) -> Result<Vec<u8>, AllocError> {
    let mut bytes = Vec::new(alloc);
    let mut half = None;
    for byte in text.as_bytes() {
        let digit = match byte {
            b'0'..=b'9' => *byte - b'0',
            b'a'..=b'f' => *byte - b'a' + 10,
            _ => 0,
        };
        half = match half {
            None => Some(digit),
            Some(high) => {
                bytes.push(high << 4 | digit)?;
                None
            }
        };
    }
    Ok(bytes)
}
