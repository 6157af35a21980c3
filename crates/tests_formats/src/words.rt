use std::alloc::{AllocError, Global};

/// The argument at that place, or nothing.
pub fn piece<'a>(words: &[&'a str], at: usize) -> &'a str {
    match words.get(at) {
        Some(word) => *word,
        None => "",
    }
}

pub fn number(words: &[&str], at: usize) -> u64 {
    piece(words, at).parse::<u64>().unwrap_or(0)
}

/// The bytes that pairs of hexadecimal digits spell.
pub fn spelled(alloc: Global, text: &str) -> Result<Vec<u8>, AllocError> {
    let mut bytes = Vec::new(alloc);
    let mut half = None;
    for byte in text.as_bytes() {
        let digit = match byte {
            b'0'..=b'9' => *byte - b'0',
            b'a'..=b'f' => *byte - b'a' + 10,
            _ => 0,
        };
        half = match half {
            None => Some(digit),
            Some(high) => {
                bytes.push(high << 4 | digit)?;
                None
            }
        };
    }
    Ok(bytes)
}
