//! Texts of decoded data.

ghost use Rattle.std.specs.Prelude.{◌≡◌, map, IfOk};
ghost use Rattle.qrcode_scan.specs.Texts.{IsShownText};
ghost use Rattle.goqlanis_buffers.specs.Texts.{piece_of, WritesDecoded, WritesText};

use crate::answers::Refusal;
use crate::scanning::Part;
use crate::symbols::put;
use qrcode::types::Mode;
use qrcode_charsets::eci::read_in;
use qrcode_reader::spell::{Header, Part as Piece};
use qrcode_scan::shown_text;
use std::alloc::{AllocError, Global};

/// Writes the text that a code with these decoded `bytes` and these `parts` shows, in UTF-8, to the
/// start of `text`, and returns its length.
///
/// Errors, the first that applies: `NotInSet` if it shows none, `SmallBuffer`; or `OutOfMemory`.
/// After an error `text` is unchanged.
pub fn text_into(
    alloc: Global,
    bytes: &[u8],
    parts: &[Part],
    text: &mut [u8],
) -> Result<usize, Refusal>
    ensures { WritesText (IsShownText (map piece_of parts.now) bytes.now)
        text.old text.new result }
{
    let pieces = pieces_of(alloc, parts)?;
    write_text(alloc, bytes, &pieces, text)
}

/// Writes the text of bytes under an ECI designator, or in UTF-8 if it is 0, like `text_into`.
///
/// Errors, the first that applies: `NoSuchSet`, `NotInSet`, `SmallBuffer`; or `OutOfMemory`. After
/// an error `text` is unchanged.
pub fn decode_into(
    alloc: Global,
    designator: u32,
    bytes: &[u8],
    text: &mut [u8],
) -> Result<usize, Refusal>
    ensures { WritesDecoded designator bytes.now text.old text.new result }
{
    if designator == 0 {
        return write_text(alloc, bytes, &[], text);
    }
    match read_in(designator) {
        Some(_) => write_text(alloc, bytes, &[Piece::Front(Header::Eci(designator))], text),
        None => Err(Refusal::NoSuchSet),
    }
}

// Writes the text of bytes with these headers and segments. Errors: as for `text_into`.
fn write_text(
    alloc: Global,
    bytes: &[u8],
    pieces: &[Piece],
    text: &mut [u8],
) -> Result<usize, Refusal>
    ensures { WritesText (IsShownText pieces.now bytes.now) text.old text.new result }
{
    let found = match shown_text(alloc, bytes, pieces) {
        Ok(Some(found)) => found,
        Ok(None) => return Err(Refusal::NotInSet),
        Err(_) => return Err(Refusal::OutOfMemory),
    };
    put(text, found.as_str().as_bytes())
}

// Converts parts from the form that C has.
fn pieces_of(alloc: Global, parts: &[Part]) -> Result<Vec<Piece>, AllocError>
    ensures { IfOk result (λ pieces. pieces.items ≡ map piece_of parts.now) }
{
    let mut pieces = Vec::new(alloc);
    for part in parts {
        pieces.push(piece_of(*part))?;
    }
    Ok(pieces)
}

// Converts a header or a segment. Of the headers, only ECI says something of the text.
fn piece_of(part: Part) -> Piece
    ensures { result ≡ piece_of part }
{
    match part.kind {
        0 => Piece::Bytes(Mode::Numeric, part.length),
        1 => Piece::Bytes(Mode::Alphanumeric, part.length),
        2 => Piece::Bytes(Mode::Byte, part.length),
        3 => Piece::Bytes(Mode::Kanji, part.length),
        4 => Piece::Front(Header::Eci(part.number)),
        _ => Piece::Front(Header::Fnc1First),
    }
}
