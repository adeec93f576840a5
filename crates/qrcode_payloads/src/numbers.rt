//! Numbers as people write them: digits, and perhaps a point and more digits.

ghost use Rattle.std.specs.Prelude.{◌≡◌, ◌++◌, ◌+◌, ◌-◌, ◌≤◌, ℕ, List, [], ◌∷◌, Option, Some, None, replicate, IfSome, if◌then◌else◌};
ghost use Rattle.std.specs.List.{list_all};
ghost use Rattle.std.specs.Str.Parse.{digits_value};
ghost use Rattle.qrcode_types.specs.Characters.{is_digit};
ghost use Rattle.qrcode_payloads.specs.Numbers.{at_most_u64, scaled_value, has_minus, unsigned, degrees_of};

use qrcode_contents::fields::characters::parts;

/// Reads a number with at most `places` digits after its point, in units of the last place: 12.5
/// with two places is 1250. A number that is too large becomes `u64::MAX`. Returns `None` for any
/// other text.
pub fn decimal(text: &str, places: usize) -> Option<u64>
    ensures value { result ≡ scaled_value places text.now }
{
    let (whole, part) = parts(text, '.');
    if whole.is_empty() || part.len() > places {
        return None;
    }
    let number = with_digits(with_digits(0, whole)?, part)?;
    Some(with_zeros(number, places - part.len()))
}

/// Reads degrees in millionths: perhaps a minus sign, and at most six digits after the point. More
/// than 2,000 degrees become 2,000. Returns `None` for any other text.
pub fn degrees(text: &str) -> Option<i32>
    ensures value { result ≡ degrees_of text.now }
{
    let (is_negative, digits) = unsigned(text);
    let millionths = decimal(digits, 6)?.min(2_000_000_000) as i32;
    Some(if is_negative { -millionths } else { millionths })
}

/// Splits off a minus sign: whether there is one, and the text without it.
pub(crate) fn unsigned(text: &str) -> (bool, &str)
    ensures sign { result.0 ≡ has_minus text.now }
    ensures number { result.1.now ≡ unsigned text.now }
{
    match text.strip_prefix('-') {
        Some(number) => (true, number),
        None => (false, text),
    }
}

// Appends digits to a number, at most `u64::MAX`; `None` if one of them is no digit.
fn with_digits(mut number: u64, digits: &str) -> Option<u64>
    ensures value { (before : List ℕ) → number ≡ at_most_u64 (digits_value 10 before)
        → result ≡ (if list_all is_digit digits.now
        then Some (at_most_u64 (digits_value 10 (before ++ digits.now))) else None) }
{
    for byte in digits.as_bytes() {
        number = with_digit(number, digit(*byte)?);
    }
    Some(number)
}

// Appends `count` zeros to a number, at most `u64::MAX`.
fn with_zeros(mut number: u64, count: usize) -> u64
    ensures value { (before : List ℕ) → number ≡ at_most_u64 (digits_value 10 before)
        → result ≡ at_most_u64 (digits_value 10 (before ++ replicate count 48)) }
{
    for _ in 0..count {
        number = with_digit(number, 0);
    }
    number
}

// Appends a digit to a number, at most `u64::MAX`.
fn with_digit(number: u64, digit: u8) -> u64
    ensures value { (before : List ℕ) → number ≡ at_most_u64 (digits_value 10 before)
        → digit ≤ 9
        → result ≡ at_most_u64 (digits_value 10 (before ++ (digit + 48) ∷ [])) }
{
    number.saturating_mul(10).saturating_add(u64::from(digit))
}

/// Returns the value of an ASCII digit; `None` for any other byte.
pub fn digit(byte: u8) -> Option<u8>
    ensures value { result ≡ (if is_digit byte then Some (byte - 48) else None) }
    ensures at_most { IfSome result (λ digit. digit ≤ 9) }
{
    match byte {
        b'0'..=b'9' => Some(byte - b'0'),
        _ => None,
    }
}
