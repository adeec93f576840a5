//! Makes the calls of a symbol.

use crate::digest::{Digest, or_error};
use crate::words::Call;
use qrcode::QrCode;
use qrcode::types::{Color, EcLevel, QrError, QrResult, Version};
use qrcode_damage::areas::{Area, Rectangle};
use qrcode_damage::covered::with_area;
use qrcode_damage::excess::Excess;
use std::alloc::Global;

/// Makes the symbol of eight digits in `version` at level L, or of one digit in Micro 1.
pub fn of_digits(alloc: Global, version: Version) -> QrResult<QrCode> {
    let digits = match version {
        Version::Micro(1) => b"1".as_slice(),
        _ => b"01234567".as_slice(),
    };
    QrCode::with_version(alloc, digits, version, EcLevel::L)
}

/// Makes the call that `asked.kind` names on the symbol of digits in the version.
pub fn run(alloc: Global, asked: &Call<'_>) -> QrResult<Digest> {
    let version = asked.version();
    let code = of_digits(alloc, version)?;
    match asked.kind {
        "to-vec" => Ok(Digest::of(&code.to_vec(alloc)?)),
        "into-vec" => Ok(Digest::of(&code.into_vec(alloc)?)),
        "to-colors" => Ok(Digest::of(&code.to_colors(alloc)?)),
        "into-colors" => Ok(Digest::of(&code.into_colors())),
        "to-debug-str" => Ok(Digest::of(code.to_debug_str(alloc, '#', '.')?.as_bytes())),
        "clone" => Ok(Digest::of(code.colors()).and(Digest::of(code.clone()?.colors()))),
        "covered" => covered(alloc, &code),
        _ => asked_of(&code, version),
    }
}

// Returns the digest of the symbol with one module covered.
fn covered(alloc: Global, code: &QrCode) -> QrResult<Digest> {
    let one = [Rectangle {
        left: 9,
        top: 9,
        width: 1,
        height: 1,
    }];
    let modules = or_error(with_area(alloc, code, &Area::of(&one)), Excess::OutOfMemory)?;
    Ok(Digest::of(&modules))
}

// Makes the calls that need no memory.
fn asked_of(code: &QrCode, version: Version) -> QrResult<Digest> {
    let Some(last) = code.width().checked_sub(1) else {
        return Err(QrError::InvalidVersion);
    };
    let is_level_l = code.error_correction_level() == EcLevel::L;
    let is_of_version = code.version() == version;
    Ok(Digest::of(&[
        is_level_l,
        is_of_version,
        last == 12,
        code.max_allowed_errors() == 1,
        code.mask().micro_number() == 1,
        code.is_functional(0, last),
        code[(last, last)] == Color::Dark,
    ]))
}
