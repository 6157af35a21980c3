//! SET: what its keys take.

ghost use Rattle.std.specs.Prelude.{◌≡◌, position};
ghost use Rattle.std.specs.Str.{all_ascii_digits};
ghost use Rattle.hv_typing.specs.Faults.{Types};
ghost use Rattle.hv_typing.specs.Scopes.{same_name};
ghost use Rattle.hv_typing.specs.Settings.{is_count, is_count_key, is_percent, is_percent_key, is_point, set_analysed, takes_value};

use hv_ast::Setting;
use hv_base::{Refusal, Text};
use hv_typing::{Logic, TypeFault};

/// The most digits of a number.
const COUNT_DIGITS: usize = 6;

/// The most digits before the point of a percentage, and behind it.
const PERCENT_DIGITS: usize = 3;

fn are_digits(value: &[u8]) -> bool
    ensures { result ≡ all_ascii_digits value.now }
{
    for byte in value {
        if !byte.is_ascii_digit() {
            return false;
        }
    }
    true
}

fn is_count(most: usize, value: &[u8]) -> bool
    ensures { result ≡ is_count most value.now }
{
    1 <= value.len() && (value.len() <= most && are_digits(value))
}

fn point(value: &[u8]) -> Option<usize>
    ensures { result ≡ position is_point value.now }
{
    value.iter().position(|byte| *byte == b'.')
}

fn is_percent(value: &[u8]) -> bool
    ensures { result ≡ is_percent value.now }
{
    match point(value) {
        None => is_count(PERCENT_DIGITS, value),
        Some(place) => {
            is_count(PERCENT_DIGITS, &value[..place])
                && is_count(PERCENT_DIGITS, &value[place + 1..])
        }
    }
}

fn is_key(name: &str, key: &Text) -> bool
    ensures { result ≡ same_name key.now name.now }
{
    key.as_str() == name
}

#[tactic(auto, unfolding(hv_typing::specs::Settings::is_percent_key))]
fn is_percent_key(key: &Text) -> bool
    ensures { result ≡ is_percent_key key.now }
{
    is_key("hive.compactor.delta.pct.threshold", key)
}

#[tactic(auto, unfolding(hv_typing::specs::Settings::is_count_key))]
fn is_count_key(key: &Text) -> bool
    ensures { result ≡ is_count_key key.now }
{
    is_key("hive.compactor.delta.num.threshold", key)
        || is_key("hive.compactor.abortedtxn.threshold", key)
}

/// Whether the key takes this value.
#[tactic(auto, unfolding(hv_typing::specs::Settings::takes_value))]
fn takes_value(setting: &Setting) -> bool
    ensures { result ≡ takes_value setting.now }
{
    let value = setting.value.as_str().as_bytes();
    if is_percent_key(&setting.key) {
        is_percent(value)
    } else if is_count_key(&setting.key) {
        is_count(COUNT_DIGITS, value)
    } else {
        true
    }
}

/// What SET comes to, or its fault.
#[tactic(auto, unfolding(hv_typing::specs::Settings::set_analysed))]
pub(crate) fn set_analysed(setting: &Setting) -> Result<Logic, TypeFault>
    ensures { Types result (set_analysed setting.now) }
{
    if takes_value(setting) {
        Ok(Logic::Nothing)
    } else {
        Err(TypeFault::Refused(Refusal::BadType))
    }
}
