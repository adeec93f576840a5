//! Decodes squares to bits and to bytes.

ghost use Rattle.std.specs.Prelude.{◌≡◌, ℕ, Bool, List, IfOk, IfErr, IsOkUnless};
ghost use Rattle.qrcode_types.specs.declared.types.Version.{Version};
ghost use Rattle.qrcode_types.specs.declared.types.EcLevel.{EcLevel};
ghost use Rattle.qrcode_types.specs.declared.types.Color.{Color};
ghost use Rattle.qrcode_symbol.specs.Symbol.{IsDamaged};
ghost use Rattle.qrcode_symbol.specs.Reading.{ReadsBits};
ghost use Rattle.qrcode.specs.Reading.{Reads, EncodesBits, EncodesBytes};
ghost use Rattle.qrcode_reader.specs.Readings.{IsBitReading, IsReading, IsBitCause, IsUnreadCause};
ghost use Rattle.qrcode_reader.specs.declared.refusals.Unread.TheVariants.{OutOfMemory};

use crate::bits::data_bits;
use crate::correction::{WrongCodeword, correct_blocks};
use crate::formats::read_format;
use crate::refusals::Unread;
use crate::sizes::version_of;
use crate::spell::spell;
use crate::walk::stream;
use crate::words::codewords;
use qrcode_layout::masks::MaskPattern;
use qrcode_types::types::{Color, EcLevel, Version};
use std::alloc::Global;

/// A square decoded to bits.
#[derive(Drop)]
pub struct BitReading {
    /// The version, known from the side.
    pub version: Version,
    /// The level that the format word names.
    pub ec_level: EcLevel,
    /// The mask that the format word names.
    pub mask: MaskPattern,
    /// The data bits: segments, terminator and padding.
    pub bits: Vec<bool>,
    /// The codewords that were wrong, block by block.
    pub wrong: Vec<WrongCodeword>,
}

/// A square decoded to bytes.
#[derive(Drop)]
pub struct Reading {
    /// The version, known from the side.
    pub version: Version,
    /// The level that the format word names.
    pub ec_level: EcLevel,
    /// The mask that the format word names.
    pub mask: MaskPattern,
    /// The bytes of the segments.
    pub data: Vec<u8>,
    /// The codewords that were wrong, block by block.
    pub wrong: Vec<WrongCodeword>,
}

/// Decodes a square of modules, given row by row from the top left corner, to its data bits
/// (ISO/IEC 18004:2006, 6.9 and Annex B). There is no quiet zone. Each copy of the format word may
/// have three wrong bits, and each block half as many wrong codewords as it has error correction
/// codewords. What the bits mean is not checked.
///
/// Errors: the first of `NoSuchSide`, `NoFormat` and `Damaged` that applies, if the square has no
/// data bits; `OutOfMemory` if memory runs out.
pub fn read_bits(alloc: Global, modules: &[Color]) -> Result<BitReading, Unread>
    ensures value { IfOk result (λ read. IsBitReading modules.now
        read.version read.ec_level read.mask read.bits.items read.wrong.items) }
    ensures accepts { (version : Version) (level : EcLevel) (bits : List Bool)
        → ReadsBits modules.now version level bits → IsOkUnless result OutOfMemory }
    ensures causes { IfErr result (IsBitCause modules.now) }
    // The symbol of some bits decodes to these bits, also within the promised damage.
    ensures gives_back { (version : Version) (level : EcLevel) (bits : List Bool)
        (symbol : List Color) → (encodes : EncodesBits version level bits symbol)
        → IsDamaged version level encodes.mask symbol modules.now
        → IsOkUnless result OutOfMemory × IfOk result (λ read. (read.version ≡ version)
        × (read.ec_level ≡ level) × (read.bits.items ≡ bits)) }
{
    let Some(version) = version_of(modules.len()) else {
        return Err(Unread::NoSuchSide);
    };
    let Some((ec_level, mask)) = read_format(version, modules) else {
        return Err(Unread::NoFormat);
    };
    let walked = stream(alloc, version, mask, modules)?;
    let words = codewords(alloc, &walked, version, ec_level)?;
    let blocks = correct_blocks(alloc, &words, version, ec_level)?;
    let bits = data_bits(alloc, &blocks.data, version, ec_level)?;
    Ok(BitReading {
        version,
        ec_level,
        mask,
        bits,
        wrong: blocks.wrong,
    })
}

/// Decodes a square of modules, given row by row from the top left corner, to bytes (ISO/IEC
/// 18004:2006, 6.4, 6.9 and Annex B). There is no quiet zone. Each copy of the format word may have
/// three wrong bits, and each block half as many wrong codewords as it has error correction
/// codewords.
///
/// Errors: the first of `NoSuchSide`, `NoFormat`, `Damaged` and `NotSpelled` that applies, if the
/// square decodes to no bytes; `OutOfMemory` if memory runs out.
pub fn read(alloc: Global, modules: &[Color]) -> Result<Reading, Unread>
    ensures value { IfOk result (λ read. IsReading modules.now
        read.version read.ec_level read.mask read.data.items read.wrong.items) }
    ensures accepts { (bytes : List ℕ)
        → Reads modules.now bytes → IsOkUnless result OutOfMemory }
    ensures causes { IfErr result (IsUnreadCause modules.now) }
    // A symbol decodes to the bytes that it was made from, also within the promised damage.
    ensures gives_back { (version : Version) (level : EcLevel) (bits : List Bool)
        (bytes : List ℕ) (symbol : List Color)
        → (encodes : EncodesBytes version level bits bytes symbol)
        → IsDamaged version level encodes.encodes.mask symbol modules.now
        → IsOkUnless result OutOfMemory × IfOk result (λ read. (read.version ≡ version)
        × (read.ec_level ≡ level) × (read.data.items ≡ bytes)) }
{
    let read = read_bits(alloc, modules)?;
    let data = spell(alloc, &read.bits, read.version)?;
    Ok(Reading {
        version: read.version,
        ec_level: read.ec_level,
        mask: read.mask,
        data,
        wrong: read.wrong,
    })
}
