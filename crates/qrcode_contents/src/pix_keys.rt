//! Keys of Pix: CPF and CNPJ numbers, telephone numbers, e-mail addresses and random keys.

ghost use Rattle.std.specs.Prelude.{◌≡◌, ◌%◌};
ghost use Rattle.qrcode_contents.specs.PixKeys.{check_digit, has_tax_digits, has_wrong_digits, is_business, is_key, is_person, is_random, is_telephone, weighted_sum};

use crate::fields::characters::{are_capitals_or_digits, are_digits, matches_form};
use crate::upi::is_address;

// The weights of the second check digit of a CPF; those of the first are one place later.
static PERSON: [u8; 10] = [11, 10, 9, 8, 7, 6, 5, 4, 3, 2];

// The same for a CNPJ.
static BUSINESS: [u8; 13] = [6, 5, 4, 3, 2, 9, 8, 7, 6, 5, 4, 3, 2];

// The sum of the values of the characters, each by its weight, modulo 11. The value of a character
// is its code less that of 0.
fn weighted_sum(weights: &[u8], bytes: &[u8]) -> usize
    ensures { result ≡ weighted_sum weights.now bytes.now % 11 }
{
    let mut sum = 0;
    let (mut weights, mut bytes) = (weights, bytes);
    while let [weight, later @ ..] = weights {
        let [byte, more @ ..] = bytes else {
            return sum;
        };
        sum = (sum + usize::from(*weight) * usize::from(byte.saturating_sub(b'0'))) % 11;
        weights = later;
        bytes = more;
    }
    sum
}

// The check digit: 11 less this sum, or 0 for a sum of 0 or 1.
fn check_digit(weights: &[u8], bytes: &[u8]) -> usize
    ensures { result ≡ check_digit weights.now bytes.now }
{
    match weighted_sum(weights, bytes) {
        0 | 1 => 48,
        sum => 59 - sum,
    }
}

// Whether the last two digits check the characters before them.
fn has_tax_digits(weights: &[u8], bytes: &[u8]) -> bool
    ensures { result ≡ has_tax_digits weights.now bytes.now }
{
    let place = weights.len();
    place > 0
        && place < bytes.len()
        && usize::from(bytes[place - 1]) == check_digit(&weights[1..], bytes)
        && usize::from(bytes[place]) == check_digit(weights, bytes)
}

// Whether a text has the form of a CPF: eleven digits.
fn is_person(text: &str) -> bool
    ensures { result ≡ is_person text.now }
{
    text.len() == 11 && are_digits(text.as_bytes())
}

// Whether a text has the form of a CNPJ: fourteen digits and capitals.
fn is_business(text: &str) -> bool
    ensures { result ≡ is_business text.now }
{
    text.len() == 14 && are_capitals_or_digits(text)
}

/// Returns whether `text` has the form of a CPF or CNPJ, but other check digits.
pub fn has_wrong_digits(text: &str) -> bool
    ensures { result ≡ has_wrong_digits text.now }
{
    let bytes = text.as_bytes();
    (is_person(text) && !has_tax_digits(&PERSON, bytes))
        || (is_business(text) && !has_tax_digits(&BUSINESS, bytes))
}

// Whether a text is a telephone number with its country code: `+`, and 3 to 15 digits of which the
// first is not 0; in Brazil two digits of the area, of which the first is not 0, and 8 or 9 more.
fn is_telephone(text: &str) -> bool
    ensures { result ≡ is_telephone text.now }
{
    let bytes = text.as_bytes();
    if bytes.len() < 4 || bytes[0] != b'+' || bytes[1] == b'0' || !are_digits(&bytes[1..]) {
        return false;
    }
    if bytes.starts_with(b"+55") {
        bytes[3] != b'0' && matches!(bytes.len(), 13 | 14)
    } else {
        bytes.len() <= 16
    }
}

// Whether a text is a random key: 32 hexadecimal digits, in groups with hyphens between them.
fn is_random(text: &str) -> bool
    ensures { result ≡ is_random text.now }
{
    matches_form(b"hhhhhhhh-hhhh-hhhh-hhhh-hhhhhhhhhhhh", text.as_bytes())
}

/// Returns whether `text` has the form of a key.
pub fn is_key(text: &str) -> bool
    ensures { result ≡ is_key text.now }
{
    is_person(text)
        || is_business(text)
        || is_telephone(text)
        || is_address(text)
        || is_random(text)
}
