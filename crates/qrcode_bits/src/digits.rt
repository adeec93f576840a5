//! Counts digits among bytes, sixteen bytes at a time.

ghost use Rattle.std.specs.Prelude.{◌≡◌, ◌≤◌, length};
ghost use Rattle.std.specs.List.{count_by, list_all};
ghost use Rattle.qrcode_types.specs.Characters as characters;

use qrcode_types::characters::is_digit;

// A count of this many bytes fits a byte.
const FEW: usize = 192;

/// Returns whether all bytes are digits.
pub(crate) fn are_digits(bytes: &[u8]) -> bool
    ensures { result ≡ list_all characters.is_digit bytes.now }
{
    count_digits(bytes) == bytes.len()
}

/// Counts the digits in `bytes`.
pub(crate) fn count_digits(bytes: &[u8]) -> usize
    ensures { result ≡ count_by characters.is_digit bytes.now }
{
    let mut count = 0;
    let mut rest = bytes;
    while rest.len() > FEW {
        let (few, more) = rest.split_at(FEW);
        count += usize::from(count_few(few));
        rest = more;
    }
    count + usize::from(count_few(rest))
}

// Counts the digits in a few bytes. The counter is a byte, so that LLVM counts sixteen at a time.
fn count_few(bytes: &[u8]) -> u8
    requires { length bytes.now ≤ 192 }
    ensures { result ≡ count_by characters.is_digit bytes.now }
{
    let mut count = 0;
    for byte in bytes {
        count += u8::from(is_digit(*byte));
    }
    count
}
