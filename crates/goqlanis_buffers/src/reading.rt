//! Decodes squares of modules into buffers.

ghost use Rattle.std.specs.Prelude.{◌≡◌, ◌*◌, length, IsTrue, IfOk, IfErr};
ghost use Rattle.qrcode_types.specs.Versions.{has_level, side};
ghost use Rattle.qrcode_reader.specs.Formats.{HasFormat};
ghost use Rattle.goqlanis_buffers.specs.Answers.{IsMaskCause};
ghost use Rattle.goqlanis_buffers.specs.Calls.{TellsMask, WritesAnyReading, WritesReading, WritesTextReading};
ghost use Rattle.goqlanis_buffers.specs.Shades.{colors_of};
ghost use Rattle.qrcode_check.specs.Masks.{mask_place};
ghost use Rattle.goqlanis_buffers.specs.Readings.{position_number, IsReadingOf};

use crate::answers::Refusal;
use crate::names::{level_number, version_number};
use crate::symbols::{colors_of, put};
use qrcode::canvas::MaskPattern;
use qrcode::types::{EcLevel, Version};
use qrcode_check::masks::place_of;
use qrcode_reader::{
    Position, Reading as Found, UnreadText, read, read_any, read_format, read_text, version_of,
};
use std::alloc::Global;

/// What a square decodes to, besides its bytes.
#[repr(C)]
#[derive(Clone, Copy)]
pub struct Reading {
    /// 1 to 40 for Normal, 41 to 44 for Micro.
    pub version: u32,
    /// 0 for `L`, 1 for `M`, 2 for `Q`, 3 for `H`.
    pub level: u32,
    /// The number of the mask: 0 to 7, in Micro 0 to 3.
    pub mask: u32,
    /// How many codewords were wrong.
    pub wrong: usize,
    /// How many bytes there are.
    pub length: usize,
}

/// What a square in any position decodes to, besides its bytes.
#[repr(C)]
#[derive(Clone, Copy)]
pub struct AnyReading {
    pub reading: Reading,
    /// The number of the position, plus 8 if dark and light are swapped.
    pub position: u32,
}

/// Decodes a square of modules: bytes, row by row, dark if not zero. Writes its data to the start
/// of `bytes`, and returns what else it decodes to.
///
/// Errors: `NoSuchSide`, `NoFormat`, `Damaged`, `NotSpelled`, `SmallBuffer` or `OutOfMemory`. After
/// an error `bytes` is unchanged.
#[tactic(auto, using(crate::proofs::Known::only_these, crate::proofs::Known::existing, crate::proofs::Known::no_side))]
pub fn read_into(alloc: Global, modules: &[u8], bytes: &mut [u8]) -> Result<Reading, Refusal>
    ensures { WritesReading modules.now bytes.old bytes.new result }
{
    if version_of(modules.len()).is_none() {
        return Err(Refusal::NoSuchSide);
    }
    let colors = colors_of(alloc, modules)?;
    let found = read(alloc, &colors)?;
    put(bytes, &found.data)?;
    Ok(reported(&found))
}

/// Decodes like `read_into`, but a square in any position: in the first of the sixteen in which it
/// decodes.
///
/// Errors: `NotRead`, `SmallBuffer` or `OutOfMemory`. After an error `bytes` is unchanged.
#[tactic(auto, using(crate::proofs::Known::existing, crate::proofs::Known::nowhere))]
pub fn read_any_into(alloc: Global, modules: &[u8], bytes: &mut [u8]) -> Result<AnyReading, Refusal>
    ensures { WritesAnyReading modules.now bytes.old bytes.new result }
{
    if version_of(modules.len()).is_none() {
        return Err(Refusal::NotRead);
    }
    let colors = colors_of(alloc, modules)?;
    let found = match read_any(alloc, &colors) {
        Ok(Some(found)) => found,
        Ok(None) => return Err(Refusal::NotRead),
        Err(_) => return Err(Refusal::OutOfMemory),
    };
    put(bytes, &found.reading.data)?;
    Ok(AnyReading {
        reading: reported(&found.reading),
        position: position_number(found.position, found.is_inverted),
    })
}

/// Decodes a square of modules into the text that readers show. Writes it to the start of `text`,
/// and returns what else the square decodes to.
///
/// Errors: `NoSuchSide`, `NoFormat`, `Damaged`, `NotShown`, `SmallBuffer` or `OutOfMemory`. After
/// an error `text` is unchanged.
#[tactic(auto, using(crate::proofs::Known::shown_existing, crate::proofs::Known::only_shown, crate::proofs::Known::no_side))]
pub fn read_text_into(alloc: Global, modules: &[u8], text: &mut [u8]) -> Result<Reading, Refusal>
    ensures { WritesTextReading modules.now text.old text.new result }
{
    if version_of(modules.len()).is_none() {
        return Err(Refusal::NoSuchSide);
    }
    let colors = colors_of(alloc, modules)?;
    let found = match read_text(alloc, &colors) {
        Ok(found) => found,
        Err(UnreadText::NoBits(cause)) => return Err(Refusal::from(cause)),
        Err(UnreadText::NotShown) => return Err(Refusal::NotShown),
    };
    let length = put(text, found.text.as_bytes())?;
    Ok(Reading {
        version: version_number(found.version),
        level: level_number(found.ec_level),
        mask: mask_number(found.version, found.mask),
        wrong: found.wrong.len(),
        length,
    })
}

/// Returns the number of the mask of a square of modules.
///
/// Errors: `NoSuchSide`, `NoFormat` or `OutOfMemory`.
pub fn mask_of(alloc: Global, modules: &[u8]) -> Result<u32, Refusal>
    ensures { TellsMask modules.now result }
{
    let format = format_of(alloc, modules)?;
    Ok(mask_number(format.version, format.mask))
}

// The version of a square, and what its format information names.
#[derive(Clone, Copy)]
pub(crate) struct FormatInformation {
    pub(crate) version: Version,
    pub(crate) level: EcLevel,
    pub(crate) mask: MaskPattern,
}

// Reads the format information of a square of modules.
#[tactic(auto, using(crate::proofs::Known::no_side))]
pub(crate) fn format_of(alloc: Global, modules: &[u8]) -> Result<FormatInformation, Refusal>
    ensures square { IfOk result (λ f.
        length (colors_of modules.now) ≡ side f.version * side f.version) }
    ensures named { IfOk result (λ f. HasFormat f.version (colors_of modules.now) f.level f.mask) }
    ensures causes { IfErr result (IsMaskCause modules.now) }
{
    let Some(version) = version_of(modules.len()) else {
        return Err(Refusal::NoSuchSide);
    };
    let colors = colors_of(alloc, modules)?;
    match read_format(version, &colors) {
        Some((level, mask)) => Ok(FormatInformation {
            version,
            level,
            mask,
        }),
        None => Err(Refusal::NoFormat),
    }
}

// Converts a reading, except its bytes.
pub(crate) fn reported(read: &Found) -> Reading
    requires exists { IsTrue (has_level read.now.version read.now.ec_level) }
    ensures value { IsReadingOf read.now.version read.now.ec_level read.now.mask
        (length read.now.wrong.items) (length read.now.data.items) result }
{
    Reading {
        version: version_number(read.version),
        level: level_number(read.ec_level),
        mask: mask_number(read.version, read.mask),
        wrong: read.wrong.len(),
        length: read.data.len(),
    }
}

// The number of a position, plus 8 if inverted.
pub(crate) fn position_number(position: Position, is_inverted: bool) -> u32
    ensures value { result ≡ position_number position is_inverted }
{
    let number = position as u32;
    if is_inverted { number + 8 } else { number }
}

// The number of a mask in a version: 0 to 7, in Micro 0 to 3.
pub(crate) fn mask_number(version: Version, mask: MaskPattern) -> u32
    ensures { result ≡ mask_place version mask }
{
    place_of(version, mask) as u32
}
