//! Checks whether symbols hold the parts of the data.

ghost use Rattle.std.specs.Prelude.{◌≡◌, ◌⊎◌, ℕ, ◌+◌, ◌≤◌, ◌<◌, ◌-◌, ◌↔◌, List, length, IsTrue, IfOk, IfErr, IsOkUnless};
ghost use Rattle.qrcode_types.specs.Versions.{is_valid};
ghost use Rattle.qrcode_types.specs.declared.types.QrError.TheVariants.{UnsupportedCharacterSet, OutOfMemory};
ghost use Rattle.qrcode_bits.specs.Cuts.{IsCutIn};
ghost use Rattle.qrcode_bits.specs.Manners.{modes_of};
ghost use Rattle.qrcode_bits.specs.Refusals.{data_limit};
ghost use Rattle.qrcode_bits.specs.declared.optimize.Segment.{Segment};
ghost use Rattle.qrcode_append.specs.Division.{part};
ghost use Rattle.qrcode_append.specs.Symbols.{IsLeastLength, front_length, PartFits, HoldSeveral};

use crate::division::part;
use qrcode::types::{EcLevel, QrError, QrResult, Version};
use qrcode_bits::bits::Manner;
use qrcode_bits::optimize::{least_segments_in, total_encoded_len};
use qrcode_types::tables;
use std::alloc::Global;

// How data is written, and the version and level of its symbols.
#[derive(Copy, Clone)]
pub(crate) struct Plan {
    pub(crate) manner: Manner,
    pub(crate) version: Version,
    pub(crate) ec_level: EcLevel,
}

// Returns the fewest bits in which segments hold the data. Fails with `UnsupportedCharacterSet` if
// the version's modes cannot write it.
fn measure(alloc: Global, bytes: &[u8], manner: Manner, version: Version) -> QrResult<usize>
    requires valid { IsTrue (is_valid version) }
    requires length_at_most { length bytes.now ≤ data_limit }
    ensures measured { IfOk result (IsLeastLength manner version bytes.now) }
    ensures at_most { IfOk result (λ bits. bits ≤ 33554432) }
    ensures accepts { (segments : List Segment)
        → IsCutIn (modes_of manner) version bytes.now segments → IsOkUnless result OutOfMemory }
    ensures causes { IfErr result (λ e. (e ≡ UnsupportedCharacterSet) ⊎ (e ≡ OutOfMemory)) }
{
    let segments = least_segments_in(alloc, bytes, version, manner.modes())?;
    Ok(total_encoded_len(&segments, version))
}

// Returns whether the data fits into `room` bits after `front` bits.
fn fits(alloc: Global, bytes: &[u8], wanted: Plan, front: usize, room: usize) -> QrResult<bool>
    requires valid { IsTrue (is_valid wanted.version) }
    requires length_at_most { length bytes.now ≤ data_limit }
    requires front_at_most { front ≤ 20 }
    ensures value { IfOk result (λ fits. IsTrue fits
        ↔ PartFits wanted.manner wanted.version bytes.now front room) }
    ensures memory { IsOkUnless result OutOfMemory }
{
    // Each byte takes at least three bits: parts that are far too long need no search.
    if front + 3 * bytes.len() > room {
        return Ok(false);
    }
    match measure(alloc, bytes, wanted.manner, wanted.version) {
        Ok(bits) => Ok(front + bits <= room),
        Err(QrError::UnsupportedCharacterSet) => Ok(false),
        Err(error) => Err(error),
    }
}

// Returns whether `count` symbols hold even parts of the data.
pub(crate) fn hold(alloc: Global, bytes: &[u8], wanted: Plan, count: usize) -> QrResult<bool>
    requires length_at_most { length bytes.now ≤ data_limit }
    requires at_least { 0 < count }
    requires at_most { count ≤ 16 }
    ensures value { IfOk result (λ all. IsTrue all
        ↔ HoldSeveral wanted.manner wanted.version wanted.ec_level bytes.now count) }
    ensures memory { IsOkUnless result OutOfMemory }
{
    if wanted.version.is_micro() {
        return Ok(false);
    }
    match tables::capacity(wanted.version, wanted.ec_level) {
        Some(room) => parts_fit(alloc, bytes, wanted, count, room),
        None => Ok(false),
    }
}

// Returns whether each of `count` parts fits a symbol of `room` bits.
fn parts_fit(alloc: Global, bytes: &[u8], wanted: Plan, count: usize, room: usize) -> QrResult<bool>
    requires valid { IsTrue (is_valid wanted.version) }
    requires length_at_most { length bytes.now ≤ data_limit }
    requires at_least { 0 < count }
    requires at_most { count ≤ 16 }
    ensures value { IfOk result (λ all. IsTrue all ↔ ((place : ℕ) → place < count
        → PartFits wanted.manner wanted.version (part wanted.manner bytes.now count place)
        (front_length (count - 1)) room)) }
    ensures memory { IsOkUnless result OutOfMemory }
{
    let front = front_bits(count);
    for place in 0..count {
        let data = part(bytes, wanted.manner, count, place);
        let held = fits(alloc, data, wanted, front, room)?;
        if !held {
            return Ok(false);
        }
    }
    Ok(true)
}

// Returns how many bits the header takes in each of `count` symbols.
fn front_bits(count: usize) -> usize
    requires { 0 < count }
    ensures value { result ≡ front_length (count - 1) }
    ensures at_most { result ≤ 20 }
{
    if count == 1 { 0 } else { 20 }
}
