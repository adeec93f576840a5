//! Texts of bytes under ECI designators.

ghost use Rattle.std.specs.Prelude.{◌≡◌, ℕ, List, chars, string_bytes, IfOk, MatchOption};
ghost use Rattle.std.specs.List.{list_all};
ghost use Rattle.qrcode_charsets.specs.Eci.{has_seven_bits, is_taken, is_variant, IsReadIn, IsTextUnder};
ghost use Rattle.qrcode_charsets.specs.declared.sets.Charset.{Charset};

use crate::sets::Charset;
use std::alloc::{AllocError, Global};

/// Returns the text of `bytes` under the ECI designator `number`, or in UTF-8 without one. `None`
/// if they are none in its set, or it has no set here. Under 0, 2 and 27 only bytes below 128 are
/// text, and under 170 only those of them that are the same in all parts of ISO/IEC 646.
///
/// Errors: only if memory runs out.
pub fn decode_under(
    alloc: Global,
    number: Option<u32>,
    bytes: &[u8],
) -> Result<Option<String>, AllocError>
    ensures { IfOk result (λ found. MatchOption found
        ((text : List ℕ) → ¬ IsTextUnder number text bytes.now)
        (λ text. IsTextUnder number (chars (string_bytes text)) bytes.now)) }
{
    let Some(number) = number else {
        return Charset::Unmarked.decode(alloc, bytes);
    };
    if !are_taken(number, bytes) {
        return Ok(None);
    }
    match read_in(number) {
        Some(set) => set.decode(alloc, bytes),
        None => Ok(None),
    }
}

/// Returns the set in which bytes under the ECI designator `number` are decoded, if there is one.
pub fn read_in(number: u32) -> Option<Charset>
    ensures { MatchOption result ((set : Charset) → ¬ IsReadIn number set) (IsReadIn number) }
{
    match number {
        1 => Charset::numbered(3),
        _ if has_seven_bits(number) => Some(Charset::Utf8),
        _ => Charset::numbered(number),
    }
}

// Whether each byte is read under the designator `number`.
fn are_taken(number: u32, bytes: &[u8]) -> bool
    ensures { result ≡ list_all (is_taken number) bytes.now }
{
    bytes.iter().all(|byte| is_taken(number, *byte))
}

// Whether a byte is read under the designator `number`.
fn is_taken(number: u32, byte: u8) -> bool
    ensures { result ≡ is_taken number byte }
{
    !has_seven_bits(number) || byte < 128 && !(number == 170 && is_variant(byte))
}

// Whether only bytes below 128 are read under the designator `number`.
fn has_seven_bits(number: u32) -> bool
    ensures { result ≡ has_seven_bits number }
{
    matches!(number, 0 | 2 | 27 | 170)
}

// Whether ISO/IEC 646 leaves a byte to nations.
fn is_variant(byte: u8) -> bool
    ensures { result ≡ is_variant byte }
{
    matches!(byte, b'#' | b'$' | b'@' | b'['..=b'^' | b'`' | b'{'..=b'~')
}
