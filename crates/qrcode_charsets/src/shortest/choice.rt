//! Chooses the version and the set of a text.

ghost use Rattle.std.specs.Prelude.{◌≡◌, ◌≤◌, chars, IfOk, IfErr, IsOkUnless, IsTrue, IsFalse};
ghost use Rattle.qrcode_types.specs.Versions.{is_valid};
ghost use Rattle.qrcode_types.specs.declared.types.QrError.TheVariants.{OutOfMemory};
ghost use Rattle.qrcode_bits.specs.Manners as manners;
ghost use Rattle.qrcode_charsets.specs.Given.{IsRefusedIn};
ghost use Rattle.qrcode_charsets.specs.Laid.{HasRoom, IsChosen, IsFitting};
ghost use Rattle.qrcode_charsets.specs.Shortest.{NeedsText, NoneHas};

use super::measuring::{Measured, measure_least};
use crate::sets::Charset;
use qrcode_bits::bits::DATA_LIMIT;
use qrcode_types::tables;
use qrcode_types::types::{EcLevel, QrError, QrResult, Version};
use std::alloc::Global;

// Finds the smallest version from `from` on that can show the text in one of `sets`, and the set
// and the segments with the fewest bits there. Fails as `shortest_from` does.
pub(super) fn choose(
    alloc: Global,
    text: &str,
    sets: &[Charset],
    from: Version,
    ec_level: EcLevel,
) -> QrResult<(Version, Measured)>
    ensures chosen { IfOk result (λ made.
        IsChosen sets.now from ec_level (chars text.now) made.0 made.1) }
    ensures refusals { NeedsText sets.now from ec_level text.now result }
{
    if !from.is_valid() {
        return Err(QrError::InvalidVersion);
    }
    if text.len() > DATA_LIMIT {
        return Err(QrError::DataTooLong);
    }
    if !any_has(sets, text) {
        return Err(QrError::UnsupportedCharacterSet);
    }
    for place in rank(from)..45 {
        let version = version_at(place);
        match choose_in(alloc, text, sets, version, ec_level) {
            Ok(measured) => return Ok((version, measured)),
            Err(error) => match error {
                QrError::OutOfMemory => return Err(error),
                _ => {}
            },
        }
    }
    Err(QrError::DataTooLong)
}

// Finds the set and the segments with the fewest bits in `version`. Fails as `shortest_in` does.
pub(super) fn choose_in(
    alloc: Global,
    text: &str,
    sets: &[Charset],
    version: Version,
    ec_level: EcLevel,
) -> QrResult<Measured>
    ensures fitting { IfOk result (IsFitting sets.now version ec_level (chars text.now)) }
    ensures accepts { HasRoom sets.now version ec_level (chars text.now)
        → IsOkUnless result OutOfMemory }
    ensures causes { IfErr result (IsRefusedIn sets.now version ec_level text.now) }
{
    if !version.is_valid() {
        return Err(QrError::InvalidVersion);
    }
    if text.len() > DATA_LIMIT {
        return Err(QrError::DataTooLong);
    }
    if !any_has(sets, text) {
        return Err(QrError::UnsupportedCharacterSet);
    }
    let Some(room) = tables::capacity(version, ec_level) else {
        return Err(QrError::InvalidVersion);
    };
    let Some(measured) = measure_least(alloc, text, sets, version)? else {
        return Err(QrError::UnsupportedCharacterSet);
    };
    if measured.used > room {
        return Err(QrError::DataTooLong);
    }
    Ok(measured)
}

/// Returns whether one of `sets` has all characters of `text`.
pub fn any_has(sets: &[Charset], text: &str) -> bool
    ensures has { IsTrue result → ¬ NoneHas sets.now (chars text.now) }
    ensures none { IsFalse result → NoneHas sets.now (chars text.now) }
{
    for set in sets {
        if set.lacks(text).is_none() {
            return true;
        }
    }
    false
}

/// Returns the place of a version in the order of sizes, M1 to M4 and then 1 to 40, from 1 to 44.
pub fn rank(version: Version) -> usize
    requires { IsTrue (is_valid version) }
    ensures value { result ≡ manners.rank version }
    ensures at_least { 1 ≤ result }
    ensures at_most { result ≤ 44 }
{
    match version {
        Version::Micro(number) => number as usize,
        Version::Normal(number) => 4 + number as usize,
    }
}

/// Returns the version at this place.
pub fn version_at(place: usize) -> Version
    requires at_least { 1 ≤ place }
    requires at_most { place ≤ 44 }
    ensures valid { IsTrue (is_valid result) }
    ensures place { manners.rank result ≡ place }
{
    if place <= 4 {
        Version::Micro(place as i16)
    } else {
        Version::Normal(place as i16 - 4)
    }
}
