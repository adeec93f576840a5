//! Calls the constructors that the C library does not call directly, and joins parts.

use crate::bits::{digest_of, list_of};
use crate::digest::{Digest, or_error};
use crate::words::Call;
use qrcode::QrCode;
use qrcode::bits::encode_auto;
use qrcode::types::{QrError, QrResult};
use qrcode_append::errors::JoinError;
use qrcode_append::{
    Part, Versions, encode_several, encode_several_within, encode_text_several,
    encode_text_several_within, join,
};
use qrcode_gs1::elements::Element;
use qrcode_gs1::errors::Gs1Error;
use qrcode_gs1::symbol::errors::SymbolError;
use qrcode_gs1::symbol::{for_application, gs1};
use std::alloc::Global;

/// Returns the digest of the symbol, symbols, bits or joined data that `asked.kind` names.
pub fn run(alloc: Global, asked: &Call<'_>) -> QrResult<Digest> {
    let (version, level) = (asked.version(), asked.level());
    match asked.kind {
        "several" => Ok(of_codes(&encode_several(alloc, asked.data(), version, level)?)),
        "text-several" => {
            Ok(of_codes(&encode_text_several(alloc, asked.text(), version, level)?))
        }
        "several-within" => {
            Ok(count_of(&encode_several_within(alloc, asked.data(), versions(asked), level)?))
        }
        "text-several-within" => {
            Ok(count_of(&encode_text_several_within(alloc, asked.text(), versions(asked), level)?))
        }
        "auto" => Ok(digest_of(encode_auto(alloc, asked.data(), level)?)),
        "join" => joined(alloc, asked.data(), (asked.number(1) % 256) as u8),
        _ => Ok(Digest::of(constructed(alloc, asked)?.colors())),
    }
}

// Returns the range of versions that the second and third data argument bound.
fn versions(asked: &Call<'_>) -> Versions {
    Versions {
        least: asked.number(1) as usize,
        greatest: asked.number(2) as usize,
    }
}

// Makes one symbol.
fn constructed(alloc: Global, asked: &Call<'_>) -> QrResult<QrCode> {
    let (data, text) = (asked.data(), asked.text());
    let (version, level) = (asked.version(), asked.level());
    match asked.kind {
        "text" => QrCode::of_text(alloc, text, level),
        "marked-text" => QrCode::of_marked_text(alloc, text, level),
        "text-in" => QrCode::of_text_in(alloc, text, version, level),
        "marked-text-in" => QrCode::of_marked_text_in(alloc, text, version, level),
        "in" => QrCode::with_version(alloc, data, version, level),
        "level" => QrCode::with_error_correction_level(alloc, data, level),
        "with-bits" => with_bits(alloc, asked),
        "application" => for_application(alloc, 37, data, level),
        "gs1" => of_elements(alloc, asked),
        _ => QrCode::new(alloc, data),
    }
}

// Makes the symbol of all pushes, unless they leave room.
fn with_bits(alloc: Global, asked: &Call<'_>) -> QrResult<QrCode> {
    let (bits, _) = list_of(alloc, asked)?;
    let level = asked.level();
    if !bits.version().has_level(level) {
        return QrCode::with_bits(alloc, bits, level);
    }
    match bits.max_len(level) {
        Ok(room) if room <= bits.len() => QrCode::with_bits(alloc, bits, level),
        _ => Err(QrError::InvalidCharacter),
    }
}

// Makes the GS1 symbol of two elements (91), both with the text that is asked for.
fn of_elements(alloc: Global, asked: &Call<'_>) -> QrResult<QrCode> {
    let element = Element {
        identifier: "91",
        value: asked.text(),
    };
    match gs1(alloc, &[element, element], asked.level()) {
        Ok(code) => Ok(code),
        Err(SymbolError::Symbol(error)) => Err(error),
        Err(SymbolError::Elements(Gs1Error::OutOfMemory)) => Err(QrError::OutOfMemory),
        Err(_) => Err(QrError::InvalidCharacter),
    }
}

// Returns the number of symbols, and the modules along a side of the last.
fn count_of(codes: &[QrCode]) -> Digest {
    match codes.last() {
        Some(code) => Digest::of_sum(codes.len(), (code.width() % 256) as u32),
        None => Digest::of_sum(0, 0),
    }
}

// Returns the digest of all symbols.
fn of_codes(codes: &[QrCode]) -> Digest {
    let mut digest = Digest::of::<u8>(&[]);
    for code in codes {
        digest = digest.and(Digest::of(code.colors()));
    }
    digest
}

// Joins `count` parts that all hold `data`. Their parity is 0, so `count` has to be even, or `data`
// has to have the parity 0.
fn joined(alloc: Global, data: &[u8], count: u8) -> QrResult<Digest> {
    let mut parts = Vec::new(alloc);
    for place in 0..count {
        parts.push(Part {
            place,
            last: count.saturating_sub(1),
            parity: 0,
            bytes: data,
        })?;
    }
    let bytes = or_error(join(alloc, &parts), JoinError::OutOfMemory)?;
    Ok(Digest::of(&bytes))
}
