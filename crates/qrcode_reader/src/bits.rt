//! Splits data bytes into data bits.

ghost use Rattle.std.specs.Prelude.{◌≡◌, ◌++◌, take, IsTrue, OnOk, IfOk};
ghost use Rattle.qrcode_types.specs.Bits as numbers;
ghost use Rattle.qrcode_types.specs.Versions as tables;
ghost use Rattle.qrcode_types.specs.Versions.{has_level};

use qrcode_types::tables::capacity;
use qrcode_types::types::{EcLevel, Version};
use std::alloc::{AllocError, Global};

// A one and a zero, with short names so that four bits fit in a row of the table.
const I: bool = true;

const O: bool = false;

// The bits of the numbers below 16, highest first.
#[rattlefmt::skip]
static HALVES: [[bool; 4]; 16] = [
    [O, O, O, O], [O, O, O, I], [O, O, I, O], [O, O, I, I],
    [O, I, O, O], [O, I, O, I], [O, I, I, O], [O, I, I, I],
    [I, O, O, O], [I, O, O, I], [I, O, I, O], [I, O, I, I],
    [I, I, O, O], [I, I, O, I], [I, I, I, O], [I, I, I, I],
];

// Appends the bits of `byte`, highest first, four at a time.
#[inline(always)]
fn push_byte(bits: &mut Vec<bool>, byte: u8) -> Result<(), AllocError>
    ensures { OnOk result (bits.new.items ≡ bits.old.items ++ numbers.number_bits 8 byte) }
{
    bits.extend_from_slice(&HALVES[usize::from(byte / 16)])?;
    bits.extend_from_slice(&HALVES[usize::from(byte % 16)])?;
    Ok(())
}

/// Returns the data bits of the data bytes of all blocks, block by block: all their bits, without
/// the last four if the last data codeword has only four (ISO/IEC 18004:2006, 6.4.10).
pub(crate) fn data_bits(
    alloc: Global,
    bytes: &[u8],
    version: Version,
    ec_level: EcLevel,
) -> Result<Vec<bool>, AllocError>
    requires { IsTrue (has_level version ec_level) }
    ensures value { IfOk result (λ bits. bits.items
        ≡ take (tables.capacity version ec_level) (numbers.bits_of bytes.now)) }
{
    let mut bits = Vec::with_capacity(alloc, bytes.len().saturating_mul(8))?;
    for byte in bytes {
        push_byte(&mut bits, *byte)?;
    }
    bits.truncate(capacity(version, ec_level).unwrap());
    Ok(bits)
}
