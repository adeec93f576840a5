//! Makes the pushes of a bit list.

use crate::digest::Digest;
use crate::words::{Argument, Call};
use qrcode::bits::{Bits, DATA_LIMIT, ExtendedMode};
use qrcode::optimize::Parser;
use qrcode::types::{EcLevel, Mode, QrError, QrResult};
use std::alloc::Global;

/// What a failed push did to the bit list.
#[derive(Clone, Copy)]
pub enum Note {
    /// No push failed.
    Whole,
    /// The failed push left the length of the list as it was, and was made again.
    Unchanged,
    /// The list kept a part of what the failed push appends; nothing was pushed after it.
    Kept,
}

/// Returns the digest of the list of all pushes, and what a failed push did.
pub fn run(alloc: Global, asked: &Call<'_>) -> QrResult<(Digest, Note)> {
    let (bits, note) = list_of(alloc, asked)?;
    Ok((digest_of(bits), note))
}

/// Makes all pushes on a list of the version that is asked for, each once more if memory runs out.
pub fn list_of(alloc: Global, asked: &Call<'_>) -> QrResult<(Bits, Note)> {
    let version = asked.version();
    if !version.is_valid() {
        return Err(QrError::InvalidVersion);
    }
    let mut bits = Bits::new(alloc, version);
    let note = push_all(&mut bits, asked.given, asked.level())?;
    Ok((bits, note))
}

// Makes the pushes in order, and stops after one that was kept in part.
fn push_all(bits: &mut Bits, given: &[Argument<'_>], level: EcLevel) -> QrResult<Note> {
    let mut note = Note::Whole;
    for each in given {
        match push_again(bits, each, level)? {
            Note::Whole => {}
            Note::Unchanged => note = Note::Unchanged,
            Note::Kept => return Ok(Note::Kept),
        }
    }
    Ok(note)
}

// Makes a push, and makes it again if memory ran out. A push that fails for another reason is an
// error only if the list is as long as before.
fn push_again(bits: &mut Bits, given: &Argument<'_>, level: EcLevel) -> QrResult<Note> {
    let length = bits.len();
    match push(bits, given, level) {
        Ok(()) => return Ok(Note::Whole),
        Err(_) if bits.len() != length => return Ok(Note::Kept),
        Err(QrError::OutOfMemory) => {}
        Err(error) => return Err(error),
    }
    push(bits, given, level)?;
    Ok(Note::Unchanged)
}

// Pushes data, a mode indicator, a header or the terminator, as `given.kind` names it.
fn push(bits: &mut Bits, given: &Argument<'_>, level: EcLevel) -> QrResult<()> {
    match given.kind {
        "numeric" => bits.push_numeric_data(&given.bytes),
        "alphanumeric" => bits.push_alphanumeric_data(&given.bytes),
        "byte" => bits.push_byte_data(&given.bytes),
        "kanji" => bits.push_kanji_data(&given.bytes),
        "text" => bits.push_text(given.text()),
        "marked-text" => bits.push_marked_text(given.text()),
        "optimal" => bits.push_optimal_data(&given.bytes),
        "segments" => push_runs(bits, &given.bytes),
        "indicator" => bits.push_mode_indicator(mode_of(given.text())),
        "eci" => bits.push_eci_designator(given.number()),
        "fnc1-first" => bits.push_fnc1_first_position(),
        "fnc1-second" => bits.push_fnc1_second_position((given.number() % 256) as u8),
        "terminator" => bits.push_terminator(level),
        _ => Err(QrError::InvalidCharacter),
    }
}

// Pushes the segments that the parser and the optimizer make of `bytes`.
fn push_runs(bits: &mut Bits, bytes: &[u8]) -> QrResult<()> {
    if bytes.len() > DATA_LIMIT {
        return Err(QrError::DataTooLong);
    }
    let version = bits.version();
    bits.push_segments(bytes, Parser::new(bytes).optimize(version))
}

// Returns the mode called `name`; Kanji for any other name.
fn mode_of(name: &str) -> ExtendedMode {
    match name {
        "eci" => ExtendedMode::Eci,
        "fnc1" => ExtendedMode::Fnc1First,
        "fnc1-second" => ExtendedMode::Fnc1Second,
        "append" => ExtendedMode::StructuredAppend,
        "numeric" => ExtendedMode::Data(Mode::Numeric),
        "alphanumeric" => ExtendedMode::Data(Mode::Alphanumeric),
        "byte" => ExtendedMode::Data(Mode::Byte),
        _ => ExtendedMode::Data(Mode::Kanji),
    }
}

/// Returns the number of bits of the list, and the checksum of its bytes.
pub fn digest_of(bits: Bits) -> Digest {
    let length = bits.len();
    let Digest { sum, .. } = Digest::of(&bits.into_bytes());
    Digest { length, sum }
}
