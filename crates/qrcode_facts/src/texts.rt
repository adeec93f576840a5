//! The calls for texts, as docs/TEXTS.md shows them.

ghost use Rattle.std.specs.Prelude.{chars, IfOk};
ghost use Rattle.qrcode_types.specs.declared.types.EcLevel.TheVariants.{M};
ghost use Rattle.qrcode.specs.Drawing.{IsMaskOf};
ghost use Rattle.qrcode.specs.Texts.{IsShownAs};

use qrcode::bits::{Bits, Manner};
use qrcode::canvas::MaskPattern;
use qrcode::types::QrResult;
use qrcode::{EcLevel, QrCode, Version};
use std::alloc::Global;

/// Encodes `text` at level M, in the smallest Normal version. Readers that decode bytes as UTF-8
/// show it.
///
/// Errors: `DataTooLong` if no Normal version holds `text`; `OutOfMemory` if memory runs out.
pub fn sign(alloc: Global, text: &str) -> QrResult<QrCode>
    ensures { IfOk result (λ code. IsShownAs code.version M (chars text.now) code.modules) }
{
    QrCode::of_text(alloc, text, EcLevel::M)
}

/// Encodes `text` as `sign` does, but after ECI 26 (UTF-8), for readers that would guess the
/// encoding.
///
/// Errors: `DataTooLong` if no Normal version holds `text`; `OutOfMemory` if memory runs out.
pub fn marked_sign(alloc: Global, text: &str) -> QrResult<QrCode>
    ensures { IfOk result (λ code. IsShownAs code.version M (chars text.now) code.modules) }
{
    QrCode::of_marked_text(alloc, text, EcLevel::M)
}

/// Encodes `text` for a label that has room only for Normal 2, at level M.
///
/// Errors: `DataTooLong` if Normal 2 does not hold `text`; `OutOfMemory` if memory runs out.
pub fn small_label(alloc: Global, text: &str) -> QrResult<QrCode> {
    QrCode::of_text_in(alloc, text, Version::Normal(2), EcLevel::M)
}

/// Encodes `text` at level L, in the smallest of all 44 versions that holds it.
///
/// Errors: `DataTooLong` if no version holds `text`; `OutOfMemory` if memory runs out.
pub fn smallest(alloc: Global, text: &str) -> QrResult<QrCode> {
    let bytes = text.as_bytes();
    QrCode::at_least(alloc, bytes, Manner::Text, Version::Micro(1), EcLevel::L)
}

/// Encodes `text` as `smallest` does, but at the highest level for which that version has room.
///
/// Errors: `DataTooLong` if no version holds `text`; `OutOfMemory` if memory runs out.
pub fn smallest_and_safest(alloc: Global, text: &str) -> QrResult<QrCode> {
    let bytes = text.as_bytes();
    QrCode::at_least_boosted(alloc, bytes, Manner::Text, Version::Micro(1), EcLevel::L)
}

/// Encodes `bytes`, which need not be text, in Normal 5 at level H.
///
/// Errors: `DataTooLong` if Normal 5 does not hold `bytes`; `OutOfMemory` if memory runs out.
pub fn bytes_in_normal_5(alloc: Global, bytes: &[u8]) -> QrResult<QrCode> {
    QrCode::in_version(alloc, bytes, Manner::Bytes, Version::Normal(5), EcLevel::H)
}

/// Encodes two texts one after the other in a list of bits, the first after ECI 26 (UTF-8), in
/// Normal 4 at level Q.
///
/// Errors: `DataTooLong` if Normal 4 does not hold both; `OutOfMemory` if memory runs out.
pub fn in_two_parts(alloc: Global, first: &str, second: &str) -> QrResult<QrCode> {
    let mut bits = Bits::new(alloc, Version::Normal(4));
    bits.push_marked_text(first)?;
    bits.push_text(second)?;
    bits.push_terminator(EcLevel::Q)?;
    QrCode::with_bits(alloc, bits, EcLevel::Q)
}

/// Returns the mask of `code`.
pub fn mask_of(code: &QrCode) -> MaskPattern
    ensures { IsMaskOf code.now.version code.now.level result code.now.modules }
{
    code.mask()
}
