//! Makes the calls of the reader that have no call of their own in C.

use crate::digest::{Digest, or_error};
use crate::words::Call;
use qrcode::QrCode;
use qrcode::types::{Color, EcLevel, QrError, QrResult};
use qrcode_reader::spell::{Unspelled, pieces};
use qrcode_reader::{BitReading, Unread, read_any_parts, read_bits};
use std::alloc::Global;

/// Reads the symbol of the data in the version at level L, with its last module inverted.
pub fn run(alloc: Global, asked: &Call<'_>) -> QrResult<Digest> {
    let code = QrCode::with_version(alloc, asked.data(), asked.version(), EcLevel::L)?;
    let mut colors = code.into_colors();
    if let Some(last) = colors.last_mut() {
        *last = !*last;
    }
    match asked.kind {
        "bits" => {
            let read = bits_of(alloc, &colors)?;
            Ok(Digest::of(&read.bits).and(Digest::of_sum(read.wrong.len(), 2)))
        }
        "pieces" => of_pieces(alloc, &bits_of(alloc, &colors)?),
        _ => of_parts(alloc, &colors),
    }
}

// Reads headers and segments, in any position.
fn of_parts(alloc: Global, colors: &[Color]) -> QrResult<Digest> {
    let read = or_error(read_any_parts(alloc, colors), Unread::OutOfMemory)?.reading;
    Ok(Digest::of(&read.parts.bytes).and(Digest::of_sum(read.wrong.len(), 2)))
}

// Reads the data bits.
fn bits_of(alloc: Global, colors: &[Color]) -> QrResult<BitReading> {
    or_error(read_bits(alloc, colors), Unread::OutOfMemory)
}

// Splits the data bits into headers and segments.
fn of_pieces(alloc: Global, read: &BitReading) -> QrResult<Digest> {
    if !read.version.is_valid() {
        return Err(QrError::InvalidVersion);
    }
    let found = or_error(
        pieces(alloc, &read.bits, read.version),
        Unspelled::OutOfMemory,
    )?;
    Ok(Digest::of(&found.bytes))
}
