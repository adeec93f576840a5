//! Encodes a text in the character set in which it takes the fewest bits.

ghost use Rattle.std.specs.Prelude.{chars, IfOk, IfErr, IsOkUnless};
ghost use Rattle.qrcode_types.specs.declared.types.QrError.TheVariants.{OutOfMemory};
ghost use Rattle.qrcode_charsets.specs.Given.{IsRefusedIn};
ghost use Rattle.qrcode_charsets.specs.Shortest.{CanShow, IsShortestBoosted, IsShortestFrom, IsShortestIn, NeedsText};

use crate::sets::Charset;
use qrcode::QrCode;
use qrcode::types::{EcLevel, QrResult, Version};
use qrcode_bits::bits::highest_level;
use std::alloc::Global;

mod choice;
mod drawing;
mod measuring;

pub use choice::{any_has, rank, version_at};

/// Encodes `text` at level `ec_level`, in the smallest version from `from` on that can show it in
/// one of `sets`, and there in the fewest bits over these sets: the set's designator, if any, and
/// segments. Returns the code and its set, the first of those with the fewest bits. Readers that
/// follow ECI designators, and assume UTF-8 where there is none, show exactly this text.
///
/// Errors, the first that applies: `InvalidVersion` if there is no version `from`; `DataTooLong` if
/// `text` has more than 1,048,576 bytes; `UnsupportedCharacterSet` if each of `sets` lacks one of
/// its characters; `DataTooLong` if no version from `from` on can show it. `OutOfMemory` if memory
/// runs out; it may hide the last.
pub fn shortest_from(
    alloc: Global,
    text: &str,
    sets: &[Charset],
    from: Version,
    ec_level: EcLevel,
) -> QrResult<(QrCode, Charset)>
    ensures symbol { IfOk result (λ made.
        IsShortestFrom sets.now from ec_level (chars text.now) made.1 made.0) }
    ensures refusals { NeedsText sets.now from ec_level text.now result }
{
    let (version, measured) = choice::choose(alloc, text, sets, from, ec_level)?;
    drawing::symbol_of(alloc, measured, version, ec_level)
}

/// Encodes `text` in the version that `shortest_from` chooses for `ec_level`, at the highest level
/// from `ec_level` on at which that version can show it.
///
/// Errors: as for `shortest_from`.
pub fn shortest_boosted(
    alloc: Global,
    text: &str,
    sets: &[Charset],
    from: Version,
    ec_level: EcLevel,
) -> QrResult<(QrCode, Charset)>
    ensures symbol { IfOk result (λ made.
        IsShortestBoosted sets.now from ec_level (chars text.now) made.1 made.0) }
    ensures refusals { NeedsText sets.now from ec_level text.now result }
{
    let (version, measured) = choice::choose(alloc, text, sets, from, ec_level)?;
    let highest = highest_level(version, measured.used, ec_level);
    drawing::symbol_of(alloc, measured, version, highest)
}

/// Encodes `text` as `shortest_from` does, in the given version.
///
/// Errors, the first that applies: `InvalidVersion` if there is no such version; `DataTooLong` if
/// `text` has more than 1,048,576 bytes; `UnsupportedCharacterSet` if each of `sets` lacks one of
/// its characters; `InvalidVersion` if the version lacks the level; `UnsupportedCharacterSet` if
/// the version has no ECI, or lacks a mode, that the sets with all characters need; `DataTooLong`
/// if the version cannot show the text. `OutOfMemory` if memory runs out; it may hide the last two.
pub fn shortest_in(
    alloc: Global,
    text: &str,
    sets: &[Charset],
    version: Version,
    ec_level: EcLevel,
) -> QrResult<(QrCode, Charset)>
    ensures symbol { IfOk result (λ made.
        IsShortestIn sets.now version ec_level (chars text.now) made.1 made.0) }
    ensures accepts { CanShow sets.now version ec_level (chars text.now)
        → IsOkUnless result OutOfMemory }
    ensures causes { IfErr result (IsRefusedIn sets.now version ec_level text.now) }
{
    let measured = choice::choose_in(alloc, text, sets, version, ec_level)?;
    drawing::symbol_of(alloc, measured, version, ec_level)
}
