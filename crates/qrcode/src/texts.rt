//! Encodes text, and data in any `Manner`.

ghost use Rattle.std.specs.Prelude.{◌≡◌, ◌<◌, ◌≤◌, pos, false, length, chars, IsTrue, IfOk, IfErr, IsOkUnless, Err};
ghost use Rattle.qrcode_types.specs.Versions.{is_valid};
ghost use Rattle.qrcode_types.specs.declared.types.Version.{Version};
ghost use Rattle.qrcode_types.specs.declared.types.Version.TheVariants.{Normal};
ghost use Rattle.qrcode_types.specs.declared.types.QrError.TheVariants.{InvalidVersion, DataTooLong, OutOfMemory};
ghost use Rattle.qrcode_bits.specs.Choice.{NeedsVersion};
ghost use Rattle.qrcode_bits.specs.Manners.{rank, HoldsAs};
ghost use Rattle.qrcode_bits.specs.Refusals.{data_limit};
ghost use Rattle.qrcode_bits.specs.declared.bits.manner.Manner.TheVariants.{Text, MarkedText};
ghost use Rattle.qrcode.specs.Texts.{IsAutomaticAs, IsBoostedAs, IsGivenAs, IsShownAs};

use crate::QrCode;
use crate::bits::{self, Manner};
use crate::types::{EcLevel, QrResult, Version};
use std::alloc::Global;

// The smallest version for text.
const FIRST: Version = Version::Normal(1);

impl QrCode {
    /// Encodes `text` at level `ec_level`, in the smallest Normal version that holds it. Readers
    /// that decode bytes as UTF-8 show exactly this text; for those that guess the character set
    /// there is `of_marked_text`.
    ///
    /// Errors: `DataTooLong` if no Normal version holds `text`, or it has more than 1,048,576
    /// bytes; `OutOfMemory` if memory runs out.
    pub fn of_text(alloc: Global, text: &str, ec_level: EcLevel) -> QrResult<Self>
        ensures symbol { IsAutomaticAs Text (Normal (pos 1)) ec_level text.now result }
        ensures shown { IfOk result (λ code.
            IsShownAs code.version ec_level (chars text.now) code.modules) }
    {
        QrCode::at_least(alloc, text.as_bytes(), Manner::Text, FIRST, ec_level)
    }

    /// Encodes `text` as `of_text` does, after the ECI designator 26 for UTF-8, which takes 12
    /// bits.
    ///
    /// Errors: as for `of_text`.
    pub fn of_marked_text(alloc: Global, text: &str, ec_level: EcLevel) -> QrResult<Self>
        ensures symbol { IsAutomaticAs MarkedText (Normal (pos 1)) ec_level text.now result }
        ensures shown { IfOk result (λ code.
            IsShownAs code.version ec_level (chars text.now) code.modules) }
    {
        QrCode::at_least(alloc, text.as_bytes(), Manner::MarkedText, FIRST, ec_level)
    }

    /// Encodes `text` in the given version, Normal or Micro, at level `ec_level`.
    ///
    /// Errors: as for `in_version`.
    pub fn of_text_in(
        alloc: Global,
        text: &str,
        version: Version,
        ec_level: EcLevel,
    ) -> QrResult<Self>
        ensures symbol { IsGivenAs Text version ec_level text.now result }
        ensures shown { IfOk result (λ code.
            IsShownAs version ec_level (chars text.now) code.modules) }
    {
        QrCode::in_version(alloc, text.as_bytes(), Manner::Text, version, ec_level)
    }

    /// Encodes `text` as `of_text_in` does, after the ECI designator 26 for UTF-8, which takes 12
    /// bits.
    ///
    /// Errors: as for `in_version`; `UnsupportedCharacterSet` for every Micro version, since these
    /// have no ECI.
    pub fn of_marked_text_in(
        alloc: Global,
        text: &str,
        version: Version,
        ec_level: EcLevel,
    ) -> QrResult<Self>
        ensures symbol { IsGivenAs MarkedText version ec_level text.now result }
        ensures shown { IfOk result (λ code.
            IsShownAs version ec_level (chars text.now) code.modules) }
    {
        let bytes = text.as_bytes();
        QrCode::in_version(alloc, bytes, Manner::MarkedText, version, ec_level)
    }

    /// Encodes `bytes` as `manner` says, at level `ec_level`, in the smallest version that holds
    /// them, but no smaller than `from`. The order is Micro 1 to 4, Normal 1 to 40: from
    /// `Version::Micro(1)` on, the result is the smallest symbol of all.
    ///
    /// Errors, the first that applies: `InvalidVersion` if there is no version `from`;
    /// `DataTooLong` if there are more than 1,048,576 bytes; `DataTooLong` if no version from
    /// `from` on holds them. `OutOfMemory` if memory runs out; it may hide the last.
    pub fn at_least(
        alloc: Global,
        bytes: &[u8],
        manner: Manner,
        from: Version,
        ec_level: EcLevel,
    ) -> QrResult<Self>
        ensures { IsAutomaticAs manner from ec_level bytes.now result }
    {
        let bits = bits::encode_from(alloc, bytes, manner, from, ec_level)?;
        QrCode::with_bits(alloc, bits, ec_level)
    }

    /// Encodes `bytes` in the version that `at_least` chooses for `ec_level`, at the highest level
    /// from `ec_level` on at which that version holds them.
    ///
    /// Errors: as for `at_least`.
    pub fn at_least_boosted(
        alloc: Global,
        bytes: &[u8],
        manner: Manner,
        from: Version,
        ec_level: EcLevel,
    ) -> QrResult<Self>
        ensures symbol { IfOk result (IsBoostedAs manner from ec_level bytes.now) }
        ensures refusals { NeedsVersion manner from ec_level bytes.now result }
    {
        let (bits, highest) = bits::encode_boosted(alloc, bytes, manner, from, ec_level)?;
        QrCode::with_bits(alloc, bits, highest)
    }

    /// Encodes `bytes` as `manner` says, in the given version, Normal or Micro, at level
    /// `ec_level`.
    ///
    /// Errors, the first that applies: `InvalidVersion` if there is no such version; `DataTooLong`
    /// if there are more than 1,048,576 bytes; `UnsupportedCharacterSet` if the version has no ECI
    /// and `manner` needs it, or lacks a mode that the data needs; `InvalidVersion` if the version
    /// lacks the level; `DataTooLong` if the symbol does not hold the data. `OutOfMemory` if memory
    /// runs out; it may hide the last two.
    pub fn in_version(
        alloc: Global,
        bytes: &[u8],
        manner: Manner,
        version: Version,
        ec_level: EcLevel,
    ) -> QrResult<Self>
        ensures { IsGivenAs manner version ec_level bytes.now result }
    {
        let bits = bits::encode_in(alloc, bytes, manner, version, ec_level)?;
        QrCode::with_bits(alloc, bits, ec_level)
    }
}
