//! Numbers that SET gives the thresholds.
ghost use Rattle.std.specs.Prelude.{◌≡◌, ◌+◌, ◌*◌, ◌<◌, ◌≤◌, length, position};
ghost use Rattle.std.specs.List.{list_all};
ghost use Rattle.hv_history.specs.Thresholds.{is_digit, with_digit, is_point, are_digits, number_of, count_in, thousandths_by, thousandths_in};
ghost use Rattle.hv_queue.specs.Settings.{scale, padded, whole_thousandths};

use hv_tallies::both;

fn is_digit(byte: u8) -> bool
    ensures { result ≡ is_digit byte }
{
    both(byte >= b'0', byte <= b'9')
}

fn all_digits(text: &[u8]) -> bool
    ensures { result ≡ list_all is_digit text.now }
{
    for byte in text {
        if !is_digit(*byte) {
            return false;
        }
    }
    true
}

fn are_digits(text: &[u8], most: usize) -> bool
    ensures { result ≡ are_digits most text.now }
{
    both(0 < text.len(), both(text.len() <= most, all_digits(text)))
}

/// What a number is with a digit behind it.
fn with_digit(number: u64, byte: u8) -> u64
    requires { number < 1000000000 }
    ensures is { result ≡ with_digit number byte }
    ensures bound { result ≤ number * 10 + 255 }
{
    number * 10 + u64::from(byte.saturating_sub(48))
}

/// The number of at most six digits.
fn number_of(text: &[u8]) -> u64
    requires { length text.now ≤ 6 }
    ensures is { result ≡ number_of text.now }
    ensures bound { result < 1000000000 }
{
    let mut number = 0;
    for byte in text {
        number = with_digit(number, *byte);
    }
    number
}

pub fn count_in(text: &[u8]) -> Option<u64>
    ensures { result ≡ count_in text.now }
{
    if are_digits(text, 6) {
        Some(number_of(text))
    } else {
        None
    }
}

/// What so many digits of a fraction count in thousandths, the last one of them.
fn scale(digits: usize) -> u64
    ensures is { result ≡ scale digits }
    ensures bound { result ≤ 100 }
{
    if digits == 1 {
        100
    } else if digits == 2 {
        10
    } else {
        1
    }
}

/// The number of a fraction's digits with zeros behind them, three in all.
fn padded(fraction: &[u8]) -> u64
    requires some { 0 < length fraction.now }
    requires few { length fraction.now ≤ 3 }
    ensures is { result ≡ padded fraction.now }
    ensures bound { result < 1000000000000 }
{
    number_of(fraction) * scale(fraction.len())
}

fn thousandths_by(whole: &[u8], fraction: &[u8]) -> Option<u64>
    ensures { result ≡ thousandths_by whole.now fraction.now }
{
    let first = are_digits(whole, 3);
    let second = are_digits(fraction, 3);
    if both(first, second) {
        Some(number_of(whole) * 1000 + padded(fraction))
    } else {
        None
    }
}

fn whole_thousandths(text: &[u8]) -> Option<u64>
    ensures { result ≡ whole_thousandths text.now }
{
    if are_digits(text, 3) {
        Some(number_of(text) * 1000)
    } else {
        None
    }
}

/// The place of the point.
fn point(text: &[u8]) -> Option<usize>
    ensures { result ≡ position is_point text.now }
{
    text.iter().position(|byte| *byte == b'.')
}

pub fn thousandths_in(text: &[u8]) -> Option<u64>
    ensures { result ≡ thousandths_in text.now }
{
    match point(text) {
        Some(place) => thousandths_by(&text[..place], &text[place + 1..]),
        None => whole_thousandths(text),
    }
}
