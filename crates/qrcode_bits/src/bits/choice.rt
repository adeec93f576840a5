//! Finds the smallest version that holds the data.

ghost use Rattle.std.specs.Prelude.{◌≡◌, ℕ, ◌+◌, ◌<◌, ◌≤◌, pos, length, List, MatchOption, IsTrue, IfOk, IfErr, IsOkUnless};
ghost use Rattle.qrcode_types.specs.Modes.{by_band};
ghost use Rattle.qrcode_types.specs.Versions as versions;
ghost use Rattle.qrcode_types.specs.declared.types.Version.{Version};
ghost use Rattle.qrcode_types.specs.declared.types.Version.TheVariants.{Normal};
ghost use Rattle.qrcode_types.specs.declared.types.QrError.TheVariants.{OutOfMemory};
ghost use Rattle.qrcode_bits.specs.Segments.{total_cost};
ghost use Rattle.qrcode_bits.specs.Cuts.{IsCut, IsCutIn, NeedsCut};
ghost use Rattle.qrcode_bits.specs.Choice.{IsRefusedFrom, NeedsVersion};
ghost use Rattle.qrcode_bits.specs.Chosen.{IsMeasured, IsHeldBy, IsFirstHeld};
ghost use Rattle.qrcode_bits.specs.Manners.{modes_of, HoldsAs, NoneHolds, rank};
ghost use Rattle.qrcode_bits.specs.Refusals.{data_limit};
ghost use Rattle.qrcode_bits.specs.declared.optimize.Segment.{Segment};

use super::{DATA_LIMIT, Manner};
use crate::digits::count_digits;
use crate::optimize::{Segment, least_segments_in, total_encoded_len};
use qrcode_types::tables;
use qrcode_types::types::{EcLevel, QrError, QrResult, Version};
use std::alloc::Global;

// A version, the segments with the fewest bits there, and the bits that they take together with
// those before them.
#[derive(Drop)]
pub(super) struct Chosen {
    pub(super) version: Version,
    pub(super) segments: Vec<Segment>,
    pub(super) used: usize,
}

// How the data is written and at which level, and a lower bound for the bits of its segments.
#[derive(Copy, Clone)]
struct Wanted {
    manner: Manner,
    ec_level: EcLevel,
    least: usize,
}

// Finds the smallest version from `from` on that holds the data. Fails with `InvalidVersion` if
// there is no version `from`, and with `DataTooLong` if none holds the data, or it has too many
// bytes.
pub(super) fn choose(
    alloc: Global,
    bytes: &[u8],
    manner: Manner,
    from: Version,
    ec_level: EcLevel,
) -> QrResult<Chosen>
    ensures chosen { IfOk result (IsFirstHeld manner (rank from) ec_level bytes.now) }
    ensures refusals { NeedsVersion manner from ec_level bytes.now result }
{
    if !from.is_valid() {
        return Err(QrError::InvalidVersion);
    }
    if bytes.len() > DATA_LIMIT {
        return Err(QrError::DataTooLong);
    }
    choose_within(alloc, bytes, manner, from, ec_level)
}

// Does what `choose` does, for a version that exists and data within the limit.
fn choose_within(
    alloc: Global,
    bytes: &[u8],
    manner: Manner,
    from: Version,
    ec_level: EcLevel,
) -> QrResult<Chosen>
    requires valid { IsTrue (versions.is_valid from) }
    requires length_at_most { length bytes.now ≤ data_limit }
    ensures chosen { IfOk result (IsFirstHeld manner (rank from) ec_level bytes.now) }
    ensures causes { IfErr result (IsRefusedFrom manner from ec_level bytes.now) }
{
    let wanted = Wanted {
        manner,
        ec_level,
        least: least_bits(bytes),
    };
    match from {
        Version::Micro(number) => {
            if let Some(chosen) = choose_micro(alloc, bytes, wanted, number as usize)? {
                return Ok(chosen);
            }
            choose_normal(alloc, bytes, wanted, 1)
        }
        Version::Normal(number) => choose_normal(alloc, bytes, wanted, number as usize),
    }
}

// Finds the smallest Micro version from `first` on that holds the data.
fn choose_micro(
    alloc: Global,
    bytes: &[u8],
    wanted: Wanted,
    first: usize,
) -> QrResult<Option<Chosen>>
    requires length_at_most { length bytes.now ≤ data_limit }
    requires at_least { 1 ≤ first }
    requires at_most { first ≤ 4 }
    ensures chosen { IfOk result (λ found. MatchOption found
        (NoneHolds wanted.manner wanted.ec_level bytes.now first 5)
        (IsFirstHeld wanted.manner first wanted.ec_level bytes.now)) }
    ensures memory { IsOkUnless result OutOfMemory }
{
    for number in first..5 {
        if let Some(chosen) = choose_at(alloc, bytes, wanted, Version::Micro(number as i16))? {
            return Ok(Some(chosen));
        }
    }
    Ok(None)
}

// Returns this version, if it holds the data.
fn choose_at(
    alloc: Global,
    bytes: &[u8],
    wanted: Wanted,
    version: Version,
) -> QrResult<Option<Chosen>>
    requires valid { IsTrue (versions.is_valid version) }
    requires length_at_most { length bytes.now ≤ data_limit }
    ensures chosen { IfOk result (λ found. MatchOption found
        (¬ HoldsAs wanted.manner version wanted.ec_level bytes.now)
        (λ chosen. (chosen.version ≡ version)
        × IsHeldBy wanted.manner wanted.ec_level bytes.now chosen)) }
    ensures memory { IsOkUnless result OutOfMemory }
{
    let Some(room) = tables::capacity(version, wanted.ec_level) else {
        return Ok(None);
    };
    if !wanted.manner.has_front(version) {
        return Ok(None);
    }
    match measure(alloc, bytes, wanted.manner, version) {
        Ok(chosen) if chosen.used <= room => Ok(Some(chosen)),
        Ok(_) | Err(QrError::UnsupportedCharacterSet) => Ok(None),
        Err(error) => Err(error),
    }
}

// Finds the smallest Normal version from `first` on that holds the data. In each band of versions,
// length fields have one size, so that one search for segments does for all of them.
fn choose_normal(alloc: Global, bytes: &[u8], wanted: Wanted, first: usize) -> QrResult<Chosen>
    requires length_at_most { length bytes.now ≤ data_limit }
    requires least { (version : Version) (segments : List Segment)
        → IsCut version bytes.now segments → wanted.least ≤ total_cost version segments }
    requires at_least { 1 ≤ first }
    requires at_most { first ≤ 40 }
    ensures chosen { IfOk result (IsFirstHeld wanted.manner (4 + first) wanted.ec_level bytes.now) }
    ensures causes { IfErr result
        (IsRefusedFrom wanted.manner (Normal (pos first)) wanted.ec_level bytes.now) }
{
    let mut next = first;
    while next <= 40 {
        if let Some(chosen) = choose_in_band(alloc, bytes, wanted, next)? {
            return Ok(chosen);
        }
        next = last_in_band(next) + 1;
    }
    Err(QrError::DataTooLong)
}

// Finds the smallest version from `first` on in its band that holds the data. The search is skipped
// if even the lower bound is more than the last version of the band holds.
fn choose_in_band(
    alloc: Global,
    bytes: &[u8],
    wanted: Wanted,
    first: usize,
) -> QrResult<Option<Chosen>>
    requires length_at_most { length bytes.now ≤ data_limit }
    requires least { (version : Version) (segments : List Segment)
        → IsCut version bytes.now segments → wanted.least ≤ total_cost version segments }
    requires at_least { 1 ≤ first }
    requires at_most { first ≤ 40 }
    ensures chosen { IfOk result (λ found. MatchOption found
        (NoneHolds wanted.manner wanted.ec_level bytes.now (4 + first) (5 + by_band first 9 26 40))
        (IsFirstHeld wanted.manner (4 + first) wanted.ec_level bytes.now)) }
    ensures memory { IsOkUnless result OutOfMemory }
{
    let last = last_in_band(first);
    let room = normal_capacity(last, wanted.ec_level);
    if wanted.least > room {
        return Ok(None);
    }
    let mut chosen = measure(alloc, bytes, wanted.manner, Version::Normal(last as i16))?;
    if chosen.used > room {
        return Ok(None);
    }
    let number = first_with_room(wanted.ec_level, chosen.used, first, last);
    chosen.version = Version::Normal(number as i16);
    Ok(Some(chosen))
}

// Finds the segments with the fewest bits for a version, whether or not they fit. Fails with
// `UnsupportedCharacterSet` if its modes cannot write the data.
pub(super) fn measure(
    alloc: Global,
    bytes: &[u8],
    manner: Manner,
    version: Version,
) -> QrResult<Chosen>
    requires valid { IsTrue (versions.is_valid version) }
    requires length_at_most { length bytes.now ≤ data_limit }
    ensures measured { IfOk result (IsMeasured manner version bytes.now) }
    ensures refusals { NeedsCut (IsCutIn (modes_of manner) version bytes.now) result }
{
    let segments = least_segments_in(alloc, bytes, version, manner.modes())?;
    let used = manner.front_length() + total_encoded_len(&segments, version);
    Ok(Chosen {
        version,
        segments,
        used,
    })
}

// Returns a lower bound for the bits of any segments: ten for three digits, eleven for two other
// bytes.
fn least_bits(bytes: &[u8]) -> usize
    requires { length bytes.now ≤ data_limit }
    ensures { (version : Version) (segments : List Segment) → IsCut version bytes.now segments
        → result ≤ total_cost version segments }
{
    let digits = count_digits(bytes);
    (20 * digits + 33 * (bytes.len() - digits)) / 6
}

// Returns the last Normal version with the same sizes of length fields.
fn last_in_band(number: usize) -> usize
    ensures { result ≡ by_band number 9 26 40 }
{
    match number {
        0..=9 => 9,
        10..=26 => 26,
        _ => 40,
    }
}

// Returns the first Normal version from `first` to `last` that holds `used` bits, as `last` does.
fn first_with_room(ec_level: EcLevel, used: usize, first: usize, last: usize) -> usize
    requires at_least { 1 ≤ first }
    requires ordered { first ≤ last }
    requires at_most { last ≤ 40 }
    requires room { used ≤ versions.capacity (Normal (pos last)) ec_level }
    ensures at_least { first ≤ result }
    ensures at_most { result ≤ last }
    ensures room { used ≤ versions.capacity (Normal (pos result)) ec_level }
    ensures least { (number : ℕ) → first ≤ number → number < result
        → versions.capacity (Normal (pos number)) ec_level < used }
{
    for number in first..last {
        if used <= normal_capacity(number, ec_level) {
            return number;
        }
    }
    last
}

// Returns how many bits a Normal version holds.
#[tactic(auto, using(crate::proofs::Bands::normal_level))]
fn normal_capacity(number: usize, ec_level: EcLevel) -> usize
    requires at_least { 1 ≤ number }
    requires at_most { number ≤ 40 }
    ensures { result ≡ versions.capacity (Normal (pos number)) ec_level }
{
    tables::capacity(Version::Normal(number as i16), ec_level).unwrap()
}
