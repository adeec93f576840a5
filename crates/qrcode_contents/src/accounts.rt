//! Account numbers (IBAN, ISO 13616) and creditor references (ISO 11649): two letters, two check
//! digits, and the characters that they check.

ghost use Rattle.std.specs.Prelude.{◌≡◌, ◌<◌, length};
ghost use Rattle.qrcode_contents.specs.Accounts.{has_form, check_number, has_check_digits};

use crate::fields::characters::{are_capitals, are_capitals_or_digits, are_digits};
use crate::fields::numbers::has_check_digits;

/// The smallest number of characters of either: one after the check digits.
pub const LEAST: usize = 5;

/// Returns whether `text` has the form of either: two capitals, two digits, then only capitals and
/// digits.
pub fn has_form(text: &str) -> bool
    ensures { result ≡ has_form text.now }
{
    let bytes = text.as_bytes();
    bytes.len() > 3
        && are_capitals(&bytes[..2])
        && are_digits(&bytes[2..4])
        && are_capitals_or_digits(text)
}

// The check digits as a number.
fn check_number(bytes: &[u8]) -> u32
    requires { 3 < length bytes.now }
    ensures { result ≡ check_number bytes.now }
{
    let tens = u32::from(bytes[2].saturating_sub(b'0'));
    tens * 10 + u32::from(bytes[3].saturating_sub(b'0'))
}

/// Returns whether the check digits are right: the remainder modulo 97 is 1, and they are 02 to 98,
/// since they are 98 minus a remainder.
pub fn is_checked(text: &str) -> bool
    ensures { result ≡ has_check_digits text.now }
{
    let bytes = text.as_bytes();
    bytes.len() > 3 && matches!(check_number(bytes), 2..=98) && has_check_digits(bytes)
}
