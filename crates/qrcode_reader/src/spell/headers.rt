//! Headers in a list of bits: ECI, FNC1 and Structured Append.

ghost use Rattle.std.specs.Prelude.{◌≡◌, ◌≢◌, ◌<◌, ◌≤◌, ◌^◌, ◌++◌, ℕ, List, Bool, IsTrue, IfSome, IfNone};
ghost use Rattle.qrcode_types.specs.Versions.{is_valid};
ghost use Rattle.qrcode_reader.specs.declared.spell.headers.Header.{Header};
ghost use Rattle.qrcode_reader.specs.spell.Parts.{IsPrefixed, BeginsWithArgument, BeginsWithHeader, header_indicator};

use crate::spell::fields::number_field;
use qrcode_types::types::Version;

/// A header, which may come before segments (ISO/IEC 18004:2006, 6.4.2, 6.4.8 and 8). Micro QR has
/// none.
#[derive(Debug, PartialEq, Eq, Copy, Clone)]
pub enum Header {
    /// ECI: the number, below 1,000,000, of the character set of the bytes after it.
    Eci(u32),
    /// FNC1 in the first position: the data are element strings of GS1.
    Fnc1First,
    /// FNC1 in the second position, with the application indicator as the symbol encodes it: two
    /// digits as their number, a letter as its ASCII code plus 100.
    Fnc1Second(u8),
    /// Structured Append: the symbol is one of several. `place` is its place from 0 on, `last` that
    /// of the last symbol, both at most 15, and `parity` the exclusive or of all bytes of the
    /// message.
    StructuredAppend { place: u8, last: u8, parity: u8 },
}

// Splits off `prefix`, in `width` bits, and a number in `count` bits; `None` if the bits begin
// otherwise.
pub(crate) fn prefixed(
    bits: &[bool],
    width: usize,
    prefix: u32,
    count: usize,
) -> Option<(u32, &[bool])>
    requires width_at_most { width ≤ 32 }
    requires count_at_most { count ≤ 32 }
    requires fits { prefix < 2 ^ width }
    ensures some { IfSome result (λ found. (front : List Bool)
        × IsPrefixed width prefix count found.0 front × (bits.now ≡ front ++ found.1.now)) }
    ensures none { IfNone result ((n : ℕ) (front rest : List Bool)
        → IsPrefixed width prefix count n front → bits.now ≢ front ++ rest) }
{
    let (first, behind) = number_field(bits, width)?;
    if first != prefix {
        return None;
    }
    number_field(behind, count)
}

// Splits off the number of an ECI, in one, two or three bytes.
fn eci(bits: &[bool]) -> Option<(Header, &[bool])>
    ensures some { IfSome result (λ found. BeginsWithArgument found.0 bits.now found.1.now
        × (header_indicator found.0 ≡ 7)) }
    ensures none { IfNone result ((h : Header) (rest : List Bool)
        → header_indicator h ≡ 7 → ¬ BeginsWithArgument h bits.now rest) }
{
    if let Some((number, rest)) = prefixed(bits, 1, 0b0, 7) {
        return Some((Header::Eci(number), rest));
    }
    if let Some((number, rest)) = prefixed(bits, 2, 0b10, 14) {
        return Some((Header::Eci(number), rest));
    }
    let (number, rest) = prefixed(bits, 3, 0b110, 21)?;
    if number >= 1_000_000 {
        return None;
    }
    Some((Header::Eci(number), rest))
}

// Splits off the application indicator of FNC1 in the second position.
fn fnc1_second(bits: &[bool]) -> Option<(Header, &[bool])>
    ensures some { IfSome result (λ found. BeginsWithArgument found.0 bits.now found.1.now
        × (header_indicator found.0 ≡ 9)) }
    ensures none { IfNone result ((h : Header) (rest : List Bool)
        → header_indicator h ≡ 9 → ¬ BeginsWithArgument h bits.now rest) }
{
    let (number, rest) = number_field(bits, 8)?;
    Some((Header::Fnc1Second(number as u8), rest))
}

// Splits off the places and the parity of Structured Append.
fn structured_append(bits: &[bool]) -> Option<(Header, &[bool])>
    ensures some { IfSome result (λ found. BeginsWithArgument found.0 bits.now found.1.now
        × (header_indicator found.0 ≡ 3)) }
    ensures none { IfNone result ((h : Header) (rest : List Bool)
        → header_indicator h ≡ 3 → ¬ BeginsWithArgument h bits.now rest) }
{
    let (number, rest) = number_field(bits, 16)?;
    let header = Header::StructuredAppend {
        place: (number / 4096) as u8,
        last: (number / 256 % 16) as u8,
        parity: (number % 256) as u8,
    };
    Some((header, rest))
}

// Splits off what follows the mode indicator `indicator` of a header.
fn argument(indicator: u32, bits: &[bool]) -> Option<(Header, &[bool])>
    ensures some { IfSome result (λ found. BeginsWithArgument found.0 bits.now found.1.now
        × (header_indicator found.0 ≡ indicator)) }
    ensures none { IfNone result ((h : Header) (rest : List Bool)
        → header_indicator h ≡ indicator → ¬ BeginsWithArgument h bits.now rest) }
{
    match indicator {
        3 => structured_append(bits),
        5 => Some((Header::Fnc1First, bits)),
        7 => eci(bits),
        9 => fnc1_second(bits),
        _ => None,
    }
}

// Splits off a header; `None` if the bits do not begin with one.
pub(crate) fn take_header(bits: &[bool], version: Version) -> Option<(Header, &[bool])>
    requires { IsTrue (is_valid version) }
    ensures some { IfSome result (λ found.
        BeginsWithHeader version found.0 bits.now found.1.now) }
    ensures none { IfNone result ((h : Header) (rest : List Bool)
        → ¬ BeginsWithHeader version h bits.now rest) }
{
    if version.is_micro() {
        return None;
    }
    let (indicator, behind) = number_field(bits, 4)?;
    argument(indicator, behind)
}
