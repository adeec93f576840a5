//! Decodes squares to headers and segments.

ghost use Rattle.std.specs.Prelude.{IfOk, IfErr};
ghost use Rattle.qrcode_reader.specs.Readings.{IsPartsReading, IsPartsCause};

use crate::correction::WrongCodeword;
use crate::reading::read_bits;
use crate::refusals::Unread;
use crate::spell::{Parts, pieces};
use qrcode_layout::masks::MaskPattern;
use qrcode_types::types::{Color, EcLevel, Version};
use std::alloc::Global;

/// A square decoded to headers and segments.
#[derive(Drop)]
pub struct PartsReading {
    /// The version, known from the side.
    pub version: Version,
    /// The level that the format word names.
    pub ec_level: EcLevel,
    /// The mask that the format word names.
    pub mask: MaskPattern,
    /// The headers and segments, and the bytes of the segments.
    pub parts: Parts,
    /// The codewords that were wrong, block by block.
    pub wrong: Vec<WrongCodeword>,
}

/// Decodes a square of modules, given row by row from the top left corner, to headers and segments,
/// as `spell::pieces` does its data bits. As much may be wrong as for `read`.
///
/// Errors: the first of `NoSuchSide`, `NoFormat`, `Damaged` and `NotSpelled` that applies, if the
/// square decodes to no headers and segments; `OutOfMemory` if memory runs out.
pub fn read_parts(alloc: Global, modules: &[Color]) -> Result<PartsReading, Unread>
    ensures value { IfOk result (λ read. IsPartsReading modules.now
        read.version read.ec_level read.mask read.parts.bytes.items read.parts.parts.items
        read.wrong.items) }
    ensures causes { IfErr result (IsPartsCause modules.now) }
{
    let read = read_bits(alloc, modules)?;
    let parts = pieces(alloc, &read.bits, read.version)?;
    Ok(PartsReading {
        version: read.version,
        ec_level: read.ec_level,
        mask: read.mask,
        parts,
        wrong: read.wrong,
    })
}
