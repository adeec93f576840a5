//! Finds segments whose character set a reader has to guess.

ghost use Rattle.std.specs.Prelude.{◌≡◌, ◌↔◌, ◌&&◌, nat_le, IsTrue, IsUtf8};
ghost use Rattle.std.specs.List.{list_any};
ghost use Rattle.qrcode_check.specs.Guesses.{is_eci, has_bytes, AreGuesses};

use qrcode_reader::spell::{Header, Part};
use qrcode_types::types::Mode;
use std::str;

/// Byte segments with bytes above 127, before any ECI header.
#[derive(Debug, PartialEq, Eq, Copy, Clone)]
pub struct Guesses {
    /// How many there are.
    pub segments: usize,
    /// Whether each of them is UTF-8.
    pub are_utf8: bool,
}

// Returns whether a part is an ECI header.
fn is_eci(part: Part) -> bool
    ensures { result ≡ is_eci part }
{
    matches!(part, Part::Front(Header::Eci(_)))
}

// Returns whether a part is a Byte segment.
fn has_bytes(part: Part) -> bool
    ensures { result ≡ has_bytes part }
{
    matches!(part, Part::Bytes(Mode::Byte, _))
}

// Returns whether any byte is above 127.
fn is_any_above(bytes: &[u8]) -> bool
    ensures { result ≡ list_any (nat_le 128) bytes.now }
{
    bytes.iter().any(|byte| *byte >= 128)
}

// Returns whether a reader has to guess the character set of a part, whose bytes are `chunk`.
fn is_guessed(part: Part, chunk: &[u8]) -> bool
    ensures { result ≡ (has_bytes part && list_any (nat_le 128) chunk.now) }
{
    has_bytes(part) && is_any_above(chunk)
}

fn is_utf8(bytes: &[u8]) -> bool
    ensures { IsTrue result ↔ IsUtf8 bytes.now }
{
    str::from_utf8(bytes).is_ok()
}

/// Finds the segments whose character set a reader has to guess. `parts` are all headers and
/// segments, and `bytes` those of the segments, in order.
pub fn guesses_in(parts: &[Part], bytes: &[u8]) -> Guesses
    ensures { AreGuesses parts.now bytes.now result }
{
    let mut segments = 0;
    let mut are_utf8 = true;
    let mut rest = bytes;
    for part in parts {
        if is_eci(*part) {
            return Guesses { segments, are_utf8 };
        }
        let (chunk, behind) = rest.split_at(part.byte_count().min(rest.len()));
        if is_guessed(*part, chunk) {
            segments += 1;
            are_utf8 = are_utf8 & is_utf8(chunk);
        }
        rest = behind;
    }
    Guesses { segments, are_utf8 }
}
