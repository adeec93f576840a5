//! Writes data as a terminated list of bits, for a version that is chosen or given.

ghost use Rattle.std.specs.Prelude.{◌≡◌, ℕ, false, ◌<◌, ◌≤◌, pos, length, Err, IsTrue, IfOk, OnOk, ◌+◌, IfErr, IsOkUnless, ◌↔◌};
ghost use Rattle.qrcode_types.specs.Versions.{is_valid, has_level, level_number, capacity};
ghost use Rattle.qrcode_types.specs.declared.types.EcLevel.{EcLevel};
ghost use Rattle.qrcode_types.specs.declared.types.Version.{Version};
ghost use Rattle.qrcode_types.specs.declared.types.Version.TheVariants.{Normal};
ghost use Rattle.qrcode_types.specs.declared.types.QrError.TheVariants.{DataTooLong, InvalidVersion, OutOfMemory};
ghost use Rattle.qrcode_bits.specs.Choice.{Holds, IsRefused, IsRefusedIn, NeedsVersion};
ghost use Rattle.qrcode_bits.specs.Chosen.{IsHeldBy};
ghost use Rattle.qrcode_bits.specs.Encoded.{IsChosenList, IsListAs, IsListFrom, IsBoostedList};
ghost use Rattle.qrcode_bits.specs.Manners.{front, has_front, HoldsAs};
ghost use Rattle.qrcode_bits.specs.Pushes.{with_bits};
ghost use Rattle.qrcode_bits.specs.Refusals.{data_limit, bit_limit};

use super::choice::{Chosen, choose, measure};
use super::manner::UTF8_NUMBER;
use super::{Bits, DATA_LIMIT, Manner};
use qrcode_types::tables;
use qrcode_types::types::{EcLevel, QrError, QrResult, Version};
use std::alloc::Global;

/// Writes `bytes` in the fewest bits, terminated, for the smallest Normal version that holds them.
/// The segments are those for Normal 9, 26 or 40, the first of these that holds the data: up to
/// each of them, length fields have one size.
///
/// Errors: `DataTooLong` if no Normal version holds `bytes`, or there are more than 1,048,576;
/// `OutOfMemory` if memory runs out.
pub fn encode_auto(alloc: Global, bytes: &[u8], ec_level: EcLevel) -> QrResult<Bits>
    ensures bits { IfOk result (IsChosenList ec_level bytes.now) }
    ensures accepts { (n : ℕ) → Holds (Normal (pos n)) ec_level bytes.now
        → IsOkUnless result OutOfMemory }
    ensures causes { IfErr result (IsRefused ec_level bytes.now) }
    ensures too_long { data_limit < length bytes.now → result ≡ Err DataTooLong }
{
    encode_from(alloc, bytes, Manner::Bytes, Version::Normal(1), ec_level)
}

/// Writes `bytes` as `manner` says in the fewest bits, terminated, for the smallest version from
/// `from` on that holds them, in the order Micro 1 to 4, Normal 1 to 40.
///
/// Errors, the first that applies: `InvalidVersion` if there is no version `from`; `DataTooLong` if
/// there are more than 1,048,576 bytes; `DataTooLong` if no version from `from` on holds them.
/// `OutOfMemory` if memory runs out; it may hide the last.
pub fn encode_from(
    alloc: Global,
    bytes: &[u8],
    manner: Manner,
    from: Version,
    ec_level: EcLevel,
) -> QrResult<Bits>
    ensures bits { IfOk result (IsListFrom manner from ec_level bytes.now) }
    ensures refusals { NeedsVersion manner from ec_level bytes.now result }
{
    let chosen = choose(alloc, bytes, manner, from, ec_level)?;
    encode_chosen(alloc, bytes, manner, ec_level, chosen)
}

/// Writes `bytes` for the version that `encode_from` chooses for `ec_level`, at the highest level
/// from `ec_level` on at which that version holds them. Returns the list and that level.
///
/// Errors: as for `encode_from`.
pub fn encode_boosted(
    alloc: Global,
    bytes: &[u8],
    manner: Manner,
    from: Version,
    ec_level: EcLevel,
) -> QrResult<(Bits, EcLevel)>
    ensures bits { IfOk result (λ p. IsBoostedList manner from ec_level bytes.now p.1 p.0) }
    ensures refusals { NeedsVersion manner from ec_level bytes.now result }
{
    let chosen = choose(alloc, bytes, manner, from, ec_level)?;
    let highest = highest_level(chosen.version, chosen.used, ec_level);
    let bits = encode_chosen(alloc, bytes, manner, highest, chosen)?;
    Ok((bits, highest))
}

/// Writes `bytes` as `manner` says in the fewest bits, terminated, for the given version and level.
///
/// Errors, the first that applies: `InvalidVersion` if there is no such version; `DataTooLong` if
/// there are more than 1,048,576 bytes; `UnsupportedCharacterSet` if the version has no ECI and
/// `manner` needs it, or lacks a mode that the data needs; `InvalidVersion` if the version lacks
/// the level; `DataTooLong` if the symbol does not hold the data. `OutOfMemory` if memory runs out;
/// it may hide the last two.
pub fn encode_in(
    alloc: Global,
    bytes: &[u8],
    manner: Manner,
    version: Version,
    ec_level: EcLevel,
) -> QrResult<Bits>
    ensures bits { IfOk result (IsListAs manner ec_level bytes.now) }
    ensures version { IfOk result (λ bits. bits.version ≡ version) }
    ensures accepts { HoldsAs manner version ec_level bytes.now → IsOkUnless result OutOfMemory }
    ensures causes { IfErr result (IsRefusedIn manner version ec_level bytes.now) }
    ensures too_long { IsTrue (is_valid version) → data_limit < length bytes.now
        → result ≡ Err DataTooLong }
{
    if !version.is_valid() {
        return Err(QrError::InvalidVersion);
    }
    if bytes.len() > DATA_LIMIT {
        return Err(QrError::DataTooLong);
    }
    if !manner.has_front(version) {
        return Err(QrError::UnsupportedCharacterSet);
    }
    let chosen = measure(alloc, bytes, manner, version)?;
    let Some(room) = tables::capacity(version, ec_level) else {
        return Err(QrError::InvalidVersion);
    };
    if chosen.used > room {
        return Err(QrError::DataTooLong);
    }
    encode_chosen(alloc, bytes, manner, ec_level, chosen)
}

/// Returns the highest level at which the version holds `used` bits, as it does at `ec_level`.
pub fn highest_level(version: Version, used: usize, ec_level: EcLevel) -> EcLevel
    requires exists { IsTrue (has_level version ec_level) }
    requires room { used ≤ capacity version ec_level }
    ensures exists { IsTrue (has_level version result) }
    ensures room { used ≤ capacity version result }
    ensures at_least { level_number ec_level ≤ level_number result }
    ensures highest { (level : EcLevel) → level_number result < level_number level
        → IsTrue (has_level version level) → capacity version level < used }
{
    if holds_at(version, used, EcLevel::H) {
        return EcLevel::H;
    }
    if ec_level.number() < 2 && holds_at(version, used, EcLevel::Q) {
        return EcLevel::Q;
    }
    if ec_level.number() < 1 && holds_at(version, used, EcLevel::M) {
        return EcLevel::M;
    }
    ec_level
}

// Returns whether the version has the level and holds `used` bits at it.
fn holds_at(version: Version, used: usize, ec_level: EcLevel) -> bool
    ensures { IsTrue result
        ↔ (IsTrue (has_level version ec_level) × (used ≤ capacity version ec_level)) }
{
    match tables::capacity(version, ec_level) {
        Some(room) => used <= room,
        None => false,
    }
}

// Writes the ECI designator that the manner needs, the segments and the terminator.
fn encode_chosen(
    alloc: Global,
    bytes: &[u8],
    manner: Manner,
    ec_level: EcLevel,
    chosen: Chosen,
) -> QrResult<Bits>
    requires held { IsHeldBy manner ec_level bytes.now chosen }
    ensures bits { IfOk result (IsListAs manner ec_level bytes.now) }
    ensures version { IfOk result (λ bits. bits.version ≡ chosen.version) }
    ensures memory { IsOkUnless result OutOfMemory }
{
    let mut bits = Bits::new(alloc, chosen.version);
    bits.push_front(manner)?;
    bits.end_with(bytes, chosen.segments, ec_level)?;
    Ok(bits)
}

impl Bits {
    // Appends what the manner needs before the segments: an ECI designator or nothing.
    pub(super) fn push_front(&mut self, manner: Manner) -> QrResult<()>
        requires exists { IsTrue (has_front self.old.version manner) }
        requires room { length self.old.bits + length (front manner) ≤ bit_limit }
        ensures appends { OnOk result (self.new ≡ with_bits self.old (front manner)) }
        ensures memory { IsOkUnless result OutOfMemory }
    {
        match manner {
            Manner::Bytes | Manner::Text => Ok(()),
            Manner::MarkedText => self.push_eci_designator(UTF8_NUMBER),
        }
    }
}
