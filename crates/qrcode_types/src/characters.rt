//! The characters that each mode can write, and their numbers.

ghost use Rattle.std.specs.Prelude.{◌≡◌, ◌+◌, ◌-◌, ◌*◌, ◌/◌, ◌%◌, ◌<◌, ◌≤◌, IsTrue};
ghost use Rattle.std.specs.List.{list_all};
ghost use Rattle.qrcode_types.specs.Characters as characters;

use crate::types::Mode;

/// Returns whether `mode` can write `bytes`.
pub fn can_write(mode: Mode, bytes: &[u8]) -> bool
    ensures { result ≡ characters.can_write mode bytes.now }
{
    match mode {
        Mode::Numeric => are_digits(bytes),
        Mode::Alphanumeric => are_alphanumeric(bytes),
        Mode::Byte => true,
        Mode::Kanji => are_kanji(bytes),
    }
}

/// Returns how many bytes a character takes in `mode`: two in Kanji, otherwise one.
pub fn bytes_each(mode: Mode) -> usize
    ensures value { result ≡ characters.bytes_each mode }
    ensures at_least { 1 ≤ result }
{
    match mode {
        Mode::Numeric | Mode::Alphanumeric | Mode::Byte => 1,
        Mode::Kanji => 2,
    }
}

/// Returns how many characters `bytes` bytes are in `mode`.
#[tactic(auto, using(crate::proofs::Writing::counted))]
pub fn character_count(mode: Mode, bytes: usize) -> usize
    ensures { result ≡ characters.character_count mode bytes }
{
    bytes / bytes_each(mode)
}

fn are_digits(bytes: &[u8]) -> bool
    ensures { result ≡ list_all characters.is_digit bytes.now }
{
    bytes.iter().all(|byte| is_digit(*byte))
}

fn are_alphanumeric(bytes: &[u8]) -> bool
    ensures { result ≡ list_all characters.is_alphanumeric bytes.now }
{
    bytes.iter().all(|byte| is_alphanumeric(*byte))
}

fn is_between(low: u8, high: u8, byte: u8) -> bool
    ensures { result ≡ characters.is_between low high byte }
{
    low <= byte && byte <= high
}

/// Returns whether `byte` is one of the characters `0` to `9`.
pub fn is_digit(byte: u8) -> bool
    ensures { result ≡ characters.is_digit byte }
{
    byte.is_ascii_digit()
}

/// Returns the value of a digit. `byte` must be one.
pub fn digit_number(byte: u8) -> u32
    requires { IsTrue (characters.is_digit byte) }
    ensures value { result ≡ byte - 48 }
    ensures at_most { result ≤ 9 }
{
    u32::from(byte - b'0')
}

/// Returns whether Alphanumeric mode can write `byte`.
#[tactic(auto, using(crate::proofs::Alphabet::is_alphanumeric_by_cases))]
pub fn is_alphanumeric(byte: u8) -> bool
    ensures { result ≡ characters.is_alphanumeric byte }
{
    matches!(byte, b'0'..=b'9' | b'A'..=b'Z' | b' ' | b'$' | b'%' | b'*' | b'+' | b'-'..=b'/' | b':')
}

/// Returns the number of a character in Alphanumeric mode, or 0 for any other byte (ISO/IEC
/// 18004:2006, table 5).
#[tactic(auto, using(crate::proofs::Alphabet::alphanumeric_number_by_cases))]
pub fn alphanumeric_number(byte: u8) -> u32
    ensures value { result ≡ characters.alphanumeric_number byte }
    ensures at_most { result ≤ 44 }
{
    match byte {
        b'0'..=b'9' => u32::from(byte - b'0'),
        b'A'..=b'Z' => u32::from(byte - b'A') + 10,
        b' ' => 36,
        b'$' => 37,
        b'%' => 38,
        b'*' => 39,
        b'+' => 40,
        b'-' => 41,
        b'.' => 42,
        b'/' => 43,
        b':' => 44,
        _ => 0,
    }
}

/// Returns whether `byte` can be the first byte of a Kanji pair.
pub fn is_lead(byte: u8) -> bool
    ensures { result ≡ characters.is_lead byte }
{
    is_between(0x81, 0x9f, byte) || is_between(0xe0, 0xeb, byte)
}

/// Returns whether Kanji mode can write this pair of bytes.
#[tactic(auto, unfolding(crate::specs::Characters::is_kanji))]
pub fn is_kanji(first: u8, second: u8) -> bool
    ensures { result ≡ characters.is_kanji first second }
{
    (is_between(0x81, 0x9f, first) || is_between(0xe0, 0xea, first))
        && (is_between(0x40, 0x7e, second) || is_between(0x80, 0xfc, second))
        || first == 0xeb && (is_between(0x40, 0x7e, second) || is_between(0x80, 0xbf, second))
}

fn are_kanji(bytes: &[u8]) -> bool
    ensures { result ≡ characters.are_kanji bytes.now }
{
    let mut rest = bytes;
    while let [first, second, more @ ..] = rest {
        if !is_kanji(*first, *second) {
            return false;
        }
        rest = more;
    }
    rest.is_empty()
}

/// Returns the 13-bit number of a pair that Kanji mode can write (ISO/IEC 18004:2006, 6.4.6). Pairs
/// from 0x8140 on are numbered in rows of 192; those from 0xe040 on follow them.
#[tactic(auto, using(crate::proofs::Pairs::least_pair), unfolding(crate::specs::Characters::kanji_number))]
pub fn kanji_number(first: u8, second: u8) -> u32
    requires { IsTrue (characters.is_kanji first second) }
    ensures value { result ≡ characters.kanji_number first second }
    ensures at_most { result ≤ 8191 }
{
    let pair = u32::from(first) * 256 + u32::from(second);
    if pair < 0xe040 {
        number_in_rows(pair - 0x8140)
    } else {
        number_in_rows(pair - 0xc140)
    }
}

fn number_in_rows(place: u32) -> u32
    requires { place < 65536 }
    ensures { result ≡ place / 256 * 0xc0 + place % 256 }
{
    place / 256 * 0xc0 + place % 256
}
