ghost use Rattle.std.specs.Prelude.{◌≡◌, ◌≤◌, ◌-◌, ◌^◌, length, drop, take, min, option_map, option_and_then, pos, neg_ℤ};
ghost use Rattle.std.specs.List.{prefix_len, suffix_len};
ghost use Rattle.hv_value.specs.Digits.{digit_count, numeral_value};
ghost use Rattle.hv_value.specs.Conversion.{is_space, without_end, without_front, trimmed, is_fraction, unsigned_of, signed_of, integer_of, kept_if, is_big, big_of, int_of};

fn spaces_before(bytes: &[u8]) -> usize
    ensures value { result ≡ prefix_len is_space bytes.now }
    ensures within { result ≤ length bytes.now }
{
    bytes.iter().take_while(|byte| **byte == b' ').count()
}

fn spaces_behind(bytes: &[u8]) -> usize
    ensures value { result ≡ suffix_len is_space bytes.now }
    ensures within { result ≤ length bytes.now }
{
    bytes.iter().rev().take_while(|byte| **byte == b' ').count()
}

fn without_end(bytes: &[u8]) -> &[u8]
    ensures { result.now ≡ without_end bytes.now }
{
    &bytes[..bytes.len() - spaces_behind(bytes)]
}

fn without_front(bytes: &[u8]) -> &[u8]
    ensures { result.now ≡ without_front bytes.now }
{
    &bytes[spaces_before(bytes)..]
}

/// The bytes without their outer spaces.
pub fn trimmed(bytes: &[u8]) -> &[u8]
    ensures { result.now ≡ trimmed bytes.now }
{
    without_front(without_end(bytes))
}

pub(crate) fn digit_count(bytes: &[u8]) -> usize
    ensures value { result ≡ digit_count bytes.now }
    ensures within { result ≤ length bytes.now }
{
    bytes
        .iter()
        .take_while(|byte| byte.is_ascii_digit())
        .count()
}

fn is_fraction(bytes: &[u8]) -> bool
    ensures { result ≡ is_fraction bytes.now }
{
    if bytes.is_empty() {
        return true;
    }
    let digits = &bytes[1..];
    bytes[0] == b'.' && digit_count(digits) == digits.len()
}

// The number that the digits write, or u64::MAX where it is larger.
#[tactic(auto, unfolding(crate::specs::Digits::numeral_value))]
pub(crate) fn capped_value(digits: &[u8]) -> u64
    ensures { result ≡ min (numeral_value digits.now) (2 ^ 64 - 1) }
{
    let mut value: u64 = 0;
    for digit in digits {
        value = value
            .saturating_mul(10)
            .saturating_add(u64::from(digit.saturating_sub(b'0')));
    }
    value
}

fn unsigned(bytes: &[u8]) -> Option<u64>
    ensures { result ≡ option_map (λ n. min n (2 ^ 64 - 1)) (unsigned_of bytes.now) }
{
    let digits = digit_count(bytes);
    if digits == 0 || !is_fraction(&bytes[digits..]) {
        return None;
    }
    Some(capped_value(&bytes[..digits]))
}

fn positive(number: u64) -> Option<i64>
    ensures { result ≡ kept_if is_big (pos number) }
{
    if number < 0x8000_0000_0000_0000 {
        Some(number as i64)
    } else {
        None
    }
}

fn negative(number: u64) -> Option<i64>
    ensures { result ≡ kept_if is_big (neg_ℤ (pos number)) }
{
    if number < 0x8000_0000_0000_0000 {
        Some(-(number as i64))
    } else if number == 0x8000_0000_0000_0000 {
        Some(i64::MIN)
    } else {
        None
    }
}

fn signed(bytes: &[u8]) -> Option<i64>
    ensures { result ≡ option_and_then (kept_if is_big) (signed_of bytes.now) }
{
    match bytes.first() {
        Some(b'-') => negative(unsigned(&bytes[1..])?),
        Some(b'+') => positive(unsigned(&bytes[1..])?),
        _ => positive(unsigned(bytes)?),
    }
}

/// The BIGINT that a text writes: None exactly where it writes none.
pub fn read_big(text: &[u8]) -> Option<i64>
    ensures { result ≡ big_of text.now }
{
    signed(trimmed(text))
}

/// The INT that a text writes: None exactly where it writes none.
pub fn read_int(text: &[u8]) -> Option<i32>
    ensures { result ≡ int_of text.now }
{
    let number = read_big(text)?;
    if number < -0x8000_0000 || number > 0x7fff_ffff {
        return None;
    }
    Some(number as i32)
}
