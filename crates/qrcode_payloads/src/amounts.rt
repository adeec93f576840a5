//! Amounts of money as people write them.

ghost use Rattle.std.specs.Prelude.{◌≡◌, IfOk, string_bytes};
ghost use Rattle.qrcode_payloads.specs.Amounts.{are_groups, is_grouped, is_whole, is_amount, ungrouped, plain_amount};

use crate::plain::{Cleaning, plain};
use qrcode_contents::fields::characters::{are_digits, parts};
use std::alloc::{AllocError, Global};

// Whether bytes are groups of three digits, with `separator` before each.
fn are_groups(separator: u8, bytes: &[u8]) -> bool
    ensures { result ≡ are_groups separator bytes.now }
{
    let mut rest = bytes;
    while let [sign, first, second, third, more @ ..] = rest {
        if *sign != separator || !are_digits(&[*first, *second, *third]) {
            return false;
        }
        rest = more;
    }
    rest.is_empty()
}

// Whether bytes are one to three digits, and then such groups.
fn is_grouped(separator: u8, bytes: &[u8]) -> bool
    ensures { result ≡ is_grouped separator bytes.now }
{
    let (first, groups) = bytes.split_at(bytes.len() % 4);
    !first.is_empty() && are_digits(first) && are_groups(separator, groups)
}

// Whether a text is digits, or groups of digits with spaces or apostrophes between them.
fn is_whole(text: &str) -> bool
    ensures { result ≡ is_whole text.now }
{
    let bytes = text.as_bytes();
    are_digits(bytes) || is_grouped(b' ', bytes) || is_grouped(b'\'', bytes)
}

// Whether a text is such digits, and perhaps a point and more digits.
fn is_amount(text: &str) -> bool
    ensures { result ≡ is_amount text.now }
{
    let (whole, part) = parts(text, '.');
    is_whole(whole) && are_digits(part.as_bytes())
}

// Removes spaces and apostrophes between groups. Any other text is no number, and stays unchanged.
fn ungrouped(alloc: Global, text: String) -> Result<String, AllocError>
    ensures { IfOk result (λ value. string_bytes value ≡ ungrouped (string_bytes text)) }
{
    if is_amount(text.as_str()) {
        plain(alloc, text.as_str(), Cleaning::Groups)
    } else {
        Ok(text)
    }
}

/// Returns an amount as formats write it: without separators of groups, and with a decimal point.
pub(crate) fn plain_amount(alloc: Global, text: &str) -> Result<String, AllocError>
    ensures { IfOk result (λ value. string_bytes value ≡ plain_amount text.now) }
{
    ungrouped(alloc, plain(alloc, text, Cleaning::Amount)?)
}
