//! Chooses how many symbols hold the data, and in which version.

ghost use Rattle.std.specs.Prelude.{◌≡◌, ◌⊎◌, ℕ, ◌<◌, ◌≤◌, pos, length, MatchOption, IfOk, IfErr, IsOkUnless};
ghost use Rattle.qrcode_types.specs.declared.types.QrError.TheVariants.{DataTooLong, OutOfMemory};
ghost use Rattle.qrcode_types.specs.declared.types.Version.TheVariants.{Normal};
ghost use Rattle.qrcode_bits.specs.Refusals.{data_limit};
ghost use Rattle.qrcode_append.specs.Fewest.{IsAmong, IsLeastAmong, AreCounted, AreFewest, AreNotHeld};
ghost use Rattle.qrcode_append.specs.Symbols.{HoldSeveral, AreSeveral, AreSymbolsRefused};

use crate::drawing::symbols;
use crate::holding::{Plan, hold};
use qrcode::QrCode;
use qrcode::types::{EcLevel, QrError, QrResult, Version};
use qrcode_bits::bits::{DATA_LIMIT, Manner};
use std::alloc::Global;

/// A range of Normal versions, by their numbers.
#[derive(Copy, Clone, PartialEq, Eq, Debug)]
pub struct Versions {
    /// The smallest version.
    pub least: usize,
    /// The largest version, included in the range.
    pub greatest: usize,
}

// Encodes `bytes` in as few symbols of this version as hold the parts.
pub(crate) fn encode_as(
    alloc: Global,
    bytes: &[u8],
    manner: Manner,
    version: Version,
    ec_level: EcLevel,
) -> QrResult<Vec<QrCode>>
    ensures symbols { IfOk result (λ codes.
        AreSeveral manner version ec_level bytes.now codes.items) }
    ensures accepts { (count : ℕ) → HoldSeveral manner version ec_level bytes.now count
        → IsOkUnless result OutOfMemory }
    ensures causes { IfErr result (AreSymbolsRefused manner version ec_level bytes.now) }
{
    let number = match version {
        Version::Normal(number) if number > 0 => number as usize,
        _ => return Err(QrError::InvalidVersion),
    };
    let versions = Versions {
        least: number,
        greatest: number,
    };
    encode_among(alloc, bytes, manner, versions, ec_level)
}

/// Encodes `bytes` as `manner` says, in as few symbols as any of `versions` allows, of the smallest
/// version that allows that number. `MarkedText` is written as `Text` is.
///
/// Errors: as for `encode_several_within`.
pub fn encode_among(
    alloc: Global,
    bytes: &[u8],
    manner: Manner,
    versions: Versions,
    ec_level: EcLevel,
) -> QrResult<Vec<QrCode>>
    ensures symbols { IfOk result (λ codes.
        AreFewest manner versions ec_level bytes.now codes.items) }
    ensures accepts { (n count : ℕ) → IsAmong versions n
        → HoldSeveral manner (Normal (pos n)) ec_level bytes.now count
        → IsOkUnless result OutOfMemory }
    ensures causes { IfErr result (AreNotHeld manner versions ec_level bytes.now) }
{
    if versions.least.max(1) > versions.greatest.min(40) {
        return Err(QrError::InvalidVersion);
    }
    if bytes.len() > DATA_LIMIT {
        return Err(QrError::DataTooLong);
    }
    for count in 1..17 {
        match encode_counted(alloc, bytes, manner, versions, ec_level, count) {
            Err(QrError::DataTooLong) => {}
            made => return made,
        }
    }
    Err(QrError::DataTooLong)
}

/// Encodes `bytes` as `manner` says, in `count` symbols of the smallest of `versions` in which that
/// many hold the parts.
///
/// Errors: `DataTooLong` if `count` symbols hold the parts in none of the versions (also if none of
/// them exists), if `count` is 0 or more than 16, or if there are more than 1,048,576 bytes;
/// `OutOfMemory` if memory runs out.
pub fn encode_counted(
    alloc: Global,
    bytes: &[u8],
    manner: Manner,
    versions: Versions,
    ec_level: EcLevel,
    count: usize,
) -> QrResult<Vec<QrCode>>
    ensures symbols { IfOk result (λ codes.
        AreCounted manner versions ec_level bytes.now count codes.items) }
    ensures accepts { (n : ℕ) → IsAmong versions n
        → HoldSeveral manner (Normal (pos n)) ec_level bytes.now count
        → IsOkUnless result OutOfMemory }
    ensures causes { IfErr result (λ e. (e ≡ OutOfMemory) ⊎ ((e ≡ DataTooLong) × ((n : ℕ)
        → IsAmong versions n → ¬ HoldSeveral manner (Normal (pos n)) ec_level bytes.now count))) }
{
    if bytes.len() > DATA_LIMIT || count == 0 || count > 16 {
        return Err(QrError::DataTooLong);
    }
    match least_number(alloc, bytes, manner, versions, ec_level, count)? {
        Some(number) => {
            let wanted = Plan {
                manner,
                version: Version::Normal(number as i16),
                ec_level,
            };
            symbols(alloc, bytes, wanted, count)
        }
        None => Err(QrError::DataTooLong),
    }
}

// Returns the smallest of `versions` in which `count` symbols hold the data.
fn least_number(
    alloc: Global,
    bytes: &[u8],
    manner: Manner,
    versions: Versions,
    ec_level: EcLevel,
    count: usize,
) -> QrResult<Option<usize>>
    requires length_at_most { length bytes.now ≤ data_limit }
    requires at_least { 0 < count }
    requires at_most { count ≤ 16 }
    ensures value { IfOk result (λ found. MatchOption found
        ((n : ℕ) → IsAmong versions n
        → ¬ HoldSeveral manner (Normal (pos n)) ec_level bytes.now count)
        (IsLeastAmong manner versions ec_level bytes.now count)) }
    ensures memory { IsOkUnless result OutOfMemory }
{
    for number in versions.least.max(1)..versions.greatest.min(40) + 1 {
        let wanted = Plan {
            manner,
            version: Version::Normal(number as i16),
            ec_level,
        };
        if hold(alloc, bytes, wanted, count)? {
            return Ok(Some(number));
        }
    }
    Ok(None)
}
