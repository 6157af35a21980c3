/// The word at that place between semicolons, or nothing.
pub fn piece(call: &str, at: usize) -> &str {
    let mut left = at;
    for word in call.split(';') {
        if left == 0 {
            return word;
        }
        left -= 1;
    }
    ""
}

pub fn number(call: &str, at: usize) -> u64 {
    piece(call, at).parse::<u64>().unwrap_or(0)
}
