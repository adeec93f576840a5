//! Checks an element: identifier, length, characters, check digit and date.

ghost use Rattle.std.specs.Prelude.{◌≡◌};
ghost use Rattle.std.specs.List.{list_all};
ghost use Rattle.qrcode_gs1.specs.Refusals.{cause_of, days_in, has_length, is_character, has_check_digit, is_date, is_dated, is_written};

use crate::errors::Cause;
use crate::table::{Rule, are_digits, fixed_length, number_of, prefix_of, rule_of, start};

// Returns whether all bytes are among the 82 characters of GS1.
#[tactic(auto, unfolding(crate::specs::Refusals::is_character))]
fn are_characters(bytes: &[u8]) -> bool
    ensures { result ≡ list_all is_character bytes.now }
{
    bytes.iter().all(|byte| {
        matches!(*byte, b'!' | b'"' | b'%'..=b'?' | b'A'..=b'Z' | b'_' | b'a'..=b'z')
    })
}

// Returns whether the last digit is the check digit of those before it.
fn is_checked(digits: &[u8]) -> bool
    ensures { result ≡ has_check_digit digits.now }
{
    let mut sum: usize = 0;
    let mut left = digits.len();
    for digit in digits {
        left -= 1;
        let weight = if left % 2 == 0 { 1 } else { 3 };
        sum = (sum + weight * usize::from(digit.saturating_sub(b'0'))) % 10;
    }
    sum == 0
}

// Returns whether the value has a length that the rule allows and, if it is predefined, the one
// that the first digits of the identifier say.
fn has_length(rule: &Rule, identifier: &[u8], value: &[u8]) -> bool
    ensures { result ≡ has_length rule.now (identifier.now, value.now) }
{
    let (least, most) = rule.1;
    let fixed = fixed_length(prefix_of(identifier));
    (least <= value.len())
        & (value.len() <= most)
        & ((fixed == 0) | (identifier.len() + value.len() == fixed))
}

// Returns whether the value has only characters that GS1 has, and digits where the rule needs them.
fn is_written(rule: &Rule, value: &[u8]) -> bool
    ensures { result ≡ is_written rule.now value.now }
{
    are_characters(value) & are_digits(start(value, rule.2))
}

// Returns whether the value of an identifier is a date.
fn is_dated(identifier: &[u8]) -> bool
    ensures { result ≡ is_dated identifier.now }
{
    matches!(prefix_of(identifier), 11..=13 | 15..=17)
}

// Returns how many days a month has, in a year of these last two digits.
fn days_in(year: usize, month: usize) -> usize
    ensures { result ≡ days_in year month }
{
    match month {
        2 if year % 4 == 0 => 29,
        2 => 28,
        4 | 6 | 9 | 11 => 30,
        _ => 31,
    }
}

// Returns whether these are six digits of a date: year, month and day, where day 00 leaves the day
// open.
#[tactic(auto, unfolding(crate::specs::Refusals::is_date))]
fn is_date(digits: &[u8]) -> bool
    ensures { result ≡ is_date digits.now }
{
    if digits.len() != 6 {
        return false;
    }
    let month = number_of(&digits[2..4]);
    let day = number_of(&digits[4..6]);
    0 < month && month < 13 && day <= days_in(number_of(&digits[..2]), month)
}

/// Returns what is wrong with an element, if anything: the first that applies of
/// `UnknownIdentifier`, `Length`, `Character`, `CheckDigit` and `Range`.
pub fn cause_of(identifier: &[u8], value: &[u8]) -> Option<Cause>
    ensures { result ≡ cause_of (identifier.now, value.now) }
{
    let Some(rule) = rule_of(identifier) else {
        return Some(Cause::UnknownIdentifier);
    };
    if !has_length(&rule, identifier, value) {
        return Some(Cause::Length);
    }
    if !is_written(&rule, value) {
        return Some(Cause::Character);
    }
    if !is_checked(start(value, rule.3)) {
        return Some(Cause::CheckDigit);
    }
    if is_dated(identifier) && !is_date(value) {
        return Some(Cause::Range);
    }
    None
}
