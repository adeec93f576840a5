//! Texts of decoded codes.

ghost use Rattle.std.specs.Prelude.{◌≡◌, ℕ, List, chars, string_bytes, IfOk, MatchOption};
ghost use Rattle.qrcode_scan.specs.Texts.{is_readable, IsPushed, IsShownText};

use qrcode::types::Mode;
use qrcode_charsets::eci::decode_under;
use qrcode_reader::spell::{Header, Part};
use std::alloc::{AllocError, Global};

/// Returns the text of a code with these decoded `bytes` and these headers and segments: each run
/// of bytes under one ECI designator in its set, what comes before the first in UTF-8. `None` if a
/// run is no text in its set, or the set is unknown; or for Kanji segments that are not under ECI
/// 20.
///
/// Errors: only if memory runs out.
pub fn shown_text(alloc: Global, bytes: &[u8], parts: &[Part]) -> Result<Option<String>, AllocError>
    ensures { IfOk result (λ found. MatchOption found
        ((text : List ℕ) → ¬ IsShownText parts.now bytes.now text)
        (λ text. IsShownText parts.now bytes.now (chars (string_bytes text)))) }
{
    let mut text = String::new(alloc);
    let (mut number, mut own, mut count) = (None, bytes, 0_usize);
    let mut rest = parts;
    while let [part, behind @ ..] = rest {
        match *part {
            Part::Bytes(mode, length) => {
                if !is_readable(mode, number) {
                    return Ok(None);
                }
                count = count.saturating_add(length);
            }
            Part::Front(Header::Eci(next)) => {
                let Some((run, after)) = own.split_at_checked(count) else {
                    return Ok(None);
                };
                if !push_text(&mut text, number, run)? {
                    return Ok(None);
                }
                (number, own, count) = (Some(next), after, 0);
            }
            Part::Front(
                Header::Fnc1First | Header::Fnc1Second(_) | Header::StructuredAppend { .. },
            ) => {}
        }
        rest = behind;
    }
    // After FNC1 the bytes may be fewer than the segments have.
    if own.len() != bytes.len() && count != own.len() {
        return Ok(None);
    }
    if !push_text(&mut text, number, own)? {
        return Ok(None);
    }
    Ok(Some(text))
}

// Whether segments in a mode are text under the ECI designator `number`.
fn is_readable(mode: Mode, number: Option<u32>) -> bool
    ensures { result ≡ is_readable mode number }
{
    match (mode, number) {
        (Mode::Kanji, Some(number)) => number == 20,
        (Mode::Kanji, None) => false,
        _ => true,
    }
}

// Appends the text that `bytes` are under the ECI designator `number`; returns whether they are
// one.
fn push_text(text: &mut String, number: Option<u32>, bytes: &[u8]) -> Result<bool, AllocError>
    ensures { IfOk result (λ is_text. IsPushed number bytes.now
        (chars (string_bytes text.old)) (chars (string_bytes text.new)) is_text) }
{
    match decode_under(*text.allocator(), number, bytes)? {
        Some(more) => {
            text.push_str(more.as_str())?;
            Ok(true)
        }
        None => Ok(false),
    }
}
