//! Splits data over several symbols, and joins it again (structured append, ISO/IEC 18004:2006, 8).
#![tactic(auto)]

mod choice;
mod division;
mod drawing;
pub mod errors;
mod holding;
mod joining;
pub mod laws;

ghost use Rattle.std.specs.Prelude.{ℕ, pos, IfOk, IfErr, IsOkUnless};
ghost use Rattle.qrcode_types.specs.declared.types.QrError.TheVariants.{OutOfMemory};
ghost use Rattle.qrcode_types.specs.declared.types.Version.TheVariants.{Normal};
ghost use Rattle.qrcode_bits.specs.declared.bits.manner.Manner.TheVariants.{Bytes, Text};
ghost use Rattle.qrcode_append.specs.Fewest.{IsAmong, AreFewest, AreNotHeld};
ghost use Rattle.qrcode_append.specs.Symbols.{HoldSeveral, AreSeveral, AreSymbolsRefused};

use choice::encode_as;
pub use choice::{Versions, encode_among, encode_counted};
pub use joining::{Part, join};
use qrcode::QrCode;
use qrcode::types::{EcLevel, QrResult, Version};
use qrcode_bits::bits::Manner;
use std::alloc::Global;

/// Encodes `bytes` in as few symbols of this version and level as hold them, at most 16, and
/// returns the symbols in order. The parts are even: their lengths differ by at most one byte. Each
/// symbol has a header with its place, the number of symbols and the XOR of all bytes, and then its
/// part in the fewest bits; a single symbol has no header.
///
/// Errors: `InvalidVersion` if there is no such version, it lacks the level, or it is a Micro
/// version, which has no such header; `DataTooLong` if 16 symbols do not hold the parts, or there
/// are more than 1,048,576 bytes; `OutOfMemory` if memory runs out.
pub fn encode_several(
    alloc: Global,
    bytes: &[u8],
    version: Version,
    ec_level: EcLevel,
) -> QrResult<Vec<QrCode>>
    ensures symbols { IfOk result (λ codes.
        AreSeveral Bytes version ec_level bytes.now codes.items) }
    ensures accepts { (count : ℕ) → HoldSeveral Bytes version ec_level bytes.now count
        → IsOkUnless result OutOfMemory }
    ensures causes { IfErr result (AreSymbolsRefused Bytes version ec_level bytes.now) }
{
    encode_as(alloc, bytes, Manner::Bytes, version, ec_level)
}

/// Encodes `text` in several symbols as `encode_several` does bytes, but divides no character: if
/// an even part would end within one, it ends before that character. Readers that decode bytes as
/// UTF-8 show each part.
///
/// Errors: as for `encode_several`.
pub fn encode_text_several(
    alloc: Global,
    text: &str,
    version: Version,
    ec_level: EcLevel,
) -> QrResult<Vec<QrCode>>
    ensures symbols { IfOk result (λ codes.
        AreSeveral Text version ec_level text.now codes.items) }
    ensures accepts { (count : ℕ) → HoldSeveral Text version ec_level text.now count
        → IsOkUnless result OutOfMemory }
    ensures causes { IfErr result (AreSymbolsRefused Text version ec_level text.now) }
{
    encode_as(alloc, text.as_bytes(), Manner::Text, version, ec_level)
}

/// Encodes `bytes` in as few symbols as any of `versions` allows, of the smallest version that
/// allows that number. The symbols are those that `encode_several` makes in that version.
///
/// Errors: `InvalidVersion` if none of `versions` exists; `DataTooLong` if 16 symbols hold the
/// parts in none of them, or there are more than 1,048,576 bytes; `OutOfMemory` if memory runs out.
pub fn encode_several_within(
    alloc: Global,
    bytes: &[u8],
    versions: Versions,
    ec_level: EcLevel,
) -> QrResult<Vec<QrCode>>
    ensures symbols { IfOk result (λ codes.
        AreFewest Bytes versions ec_level bytes.now codes.items) }
    ensures accepts { (n count : ℕ) → IsAmong versions n
        → HoldSeveral Bytes (Normal (pos n)) ec_level bytes.now count
        → IsOkUnless result OutOfMemory }
    ensures causes { IfErr result (AreNotHeld Bytes versions ec_level bytes.now) }
{
    encode_among(alloc, bytes, Manner::Bytes, versions, ec_level)
}

/// Encodes `text` as `encode_several_within` does bytes, but divides no character.
///
/// Errors: as for `encode_several_within`.
pub fn encode_text_several_within(
    alloc: Global,
    text: &str,
    versions: Versions,
    ec_level: EcLevel,
) -> QrResult<Vec<QrCode>>
    ensures symbols { IfOk result (λ codes.
        AreFewest Text versions ec_level text.now codes.items) }
    ensures accepts { (n count : ℕ) → IsAmong versions n
        → HoldSeveral Text (Normal (pos n)) ec_level text.now count
        → IsOkUnless result OutOfMemory }
    ensures causes { IfErr result (AreNotHeld Text versions ec_level text.now) }
{
    encode_among(alloc, text.as_bytes(), Manner::Text, versions, ec_level)
}
