//! Splits a text over several symbols, of the version in a range that takes the fewest.
//! docs/CALLING.md explains these calls.

ghost use Rattle.std.specs.Prelude.{◌≤◌, length, IfOk};
ghost use Rattle.qrcode_types.specs.declared.types.EcLevel.TheVariants.{M};
ghost use Rattle.qrcode_bits.specs.declared.bits.manner.Manner.TheVariants.{Text};
ghost use Rattle.qrcode_append.specs.Fewest.{AreFewest};

use qrcode::types::QrResult;
use qrcode::{EcLevel, QrCode};
use qrcode_append::{Versions, encode_text_several_within};
use std::alloc::Global;

/// Splits `text` evenly over at most 16 symbols at level M, in the version from Normal 5 to 10 that
/// takes the fewest: the smallest of these if several take as few. The texts that readers find in
/// them, in order, make `text`.
///
/// Errors: `DataTooLong` if 16 symbols of Normal 10 do not hold `text`; `OutOfMemory` if memory
/// runs out.
pub fn leaflets(alloc: Global, text: &str) -> QrResult<Vec<QrCode>>
    ensures symbols { IfOk result (λ codes.
        AreFewest Text (record { least = 5; greatest = 10 }) M text.now codes.items) }
    ensures at_most { IfOk result (λ codes. length codes.items ≤ 16) }
{
    let versions = Versions {
        least: 5,
        greatest: 10,
    };
    encode_text_several_within(alloc, text, versions, EcLevel::M)
}
