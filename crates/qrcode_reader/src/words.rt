//! Joins the bits of the free places to codewords.

ghost use Rattle.std.specs.Prelude.{◌≡◌, ◌+◌, ◌*◌, ◌<◌, ◌≤◌, ◌++◌, false, length, take, drop, slice_index_or, IsTrue, OnOk, IfOk, if◌then◌else◌};
ghost use Rattle.qrcode_types.specs.Bits.{byte_at, bytes_of};
ghost use Rattle.qrcode_types.specs.Versions.{has_level};
ghost use Rattle.qrcode_ec.specs.Blocks.{codewords};

use qrcode_types::tables::{Blocks, capacity};
use qrcode_types::types::{EcLevel, Version};
use std::alloc::{AllocError, Global};

// Returns the first `count` bits, or all if there are fewer.
fn front(bits: &[bool], count: usize) -> &[bool]
    ensures value { result.now ≡ take count bits.now }
    ensures at_most { length result.now ≤ count }
{
    bits.get(..count).unwrap_or(bits)
}

/// Returns the bits after the first `count`; none if there are fewer.
pub fn behind(bits: &[bool], count: usize) -> &[bool]
    ensures { result.now ≡ drop count bits.now }
{
    bits.get(count..).unwrap_or(&[])
}

// Returns the bit at `place` as a number; zero after the end.
fn bit(bits: &[bool], place: usize) -> u8
    ensures value { result ≡ (if slice_index_or bits.now place false then 1 else 0) }
    ensures at_most { result ≤ 1 }
{
    u8::from(place < bits.len() && bits[place])
}

// Returns byte `i`, with zeros after the end.
fn byte_at(bits: &[bool], i: usize) -> u8
    requires { i ≤ 30000 }
    ensures { result ≡ byte_at bits.now i }
{
    let at = 8 * i;
    let high = 8 * bit(bits, at)
        + 4 * bit(bits, at + 1)
        + 2 * bit(bits, at + 2)
        + bit(bits, at + 3);
    let low = 8 * bit(bits, at + 4)
        + 4 * bit(bits, at + 5)
        + 2 * bit(bits, at + 6)
        + bit(bits, at + 7);
    16 * high + low
}

// Appends `bits` as bytes, the last one filled up with zeros.
fn push_bytes(bytes: &mut Vec<u8>, bits: &[bool]) -> Result<(), AllocError>
    requires { length bits.now ≤ 30000 }
    ensures { OnOk result (bytes.new.items ≡ bytes.old.items ++ bytes_of bits.now) }
{
    for i in 0..(bits.len() + 7) / 8 {
        bytes.push(byte_at(bits, i))?;
    }
    Ok(())
}

/// Returns the codewords of `bits`, the bits of the free places with the mask taken off: the data
/// codewords, the last one filled up with zeros if it has four bits, and then the error correction
/// codewords (ISO/IEC 18004:2006, 6.7.3).
///
/// Errors: only `AllocError`, if memory runs out.
pub fn codewords(
    alloc: Global,
    bits: &[bool],
    version: Version,
    ec_level: EcLevel,
) -> Result<Vec<u8>, AllocError>
    requires { IsTrue (has_level version ec_level) }
    ensures value { IfOk result (λ words. words.items ≡ codewords version ec_level bits.now) }
{
    let blocks = Blocks::of(version, ec_level).unwrap();
    let capacity = capacity(version, ec_level).unwrap();
    let ec_length = blocks.total_ec_length();
    let mut words = Vec::with_capacity(alloc, blocks.data_length() + ec_length)?;
    push_bytes(&mut words, front(bits, capacity))?;
    push_bytes(&mut words, front(behind(bits, capacity), 8 * ec_length))?;
    Ok(words)
}
