//! `--segment`: segments chosen by the user.

use crate::Done;
use goqlanis_files::failure::Failure;
use goqlanis_files::usage;
use goqlanis_options::modes::mode_named;
use goqlanis_request::Segment;
use hex::FromHexError;
use qrcode::types::Mode;
use std::alloc::Global;

/// Parses a segment: MODE:DATA, where the data of Kanji is Shift JIS in hex (decoded into a buffer
/// that is leaked), or eci:NUMBER.
pub(crate) fn segment_of<'a>(alloc: Global, word: &'a str) -> Done<Segment<'a>> {
    let (name, text) = word.split_once(':').unwrap_or(("", ""));
    let why = match mode_named(name) {
        Some(Mode::Kanji) => match hex::decode(alloc, text) {
            Ok(bytes) => return Ok(Segment::Data(Mode::Kanji, bytes.leak())),
            Err(FromHexError::OutOfMemory) => return Err(Failure::OutOfMemory),
            Err(_) => "the data of kanji is Shift JIS in hex, e.g. 935f",
        },
        Some(mode) => return Ok(Segment::Data(mode, text.as_bytes())),
        None if name.eq_ignore_ascii_case("eci") => match text.parse::<u32>() {
            Ok(number) if number <= 999_999 => return Ok(Segment::CharacterSet(number)),
            _ => "an ECI number is 0 to 999999, e.g. 26 for UTF-8",
        },
        None => "use MODE:DATA with the mode numeric, alphanumeric, byte or kanji, or eci:NUMBER",
    };
    usage!(alloc; "--segment {word}: {why}")
}

/// Says which characters a mode holds, for data that it cannot hold.
pub(crate) fn characters_of(mode: Mode) -> &'static str {
    match mode {
        Mode::Numeric => "numeric holds only digits",
        Mode::Alphanumeric => "alphanumeric holds only digits, capitals, spaces and $%*+-./:",
        Mode::Byte => "byte holds any text",
        Mode::Kanji => "kanji holds only Shift JIS, 8140 to 9ffc and e040 to ebbf",
    }
}
