//! Colours of pictures, and those that parts of a code have of their own. A colour is transparency,
//! red, green and blue, 0 to 255 each, in the bytes of a number, from the highest down.

ghost use Rattle.std.specs.Prelude.{◌≡◌, ◌++◌, flat_map, map, string_bytes, IfOk, IfSome, IsOkUnless, IsTrue, OnOk};
ghost use Rattle.qrcode_types.specs.Versions.{is_valid, side};
ghost use Rattle.qrcode_types.specs.declared.types.QrError.TheVariants.{OutOfMemory};
ghost use Rattle.qrcode_sheets.specs.Sheets.{shade_of};
ghost use Rattle.goqlanis_buffers.specs.Colours.{blue_of, colour_name, green_of, has_colours, hex_text, named_shade, opacity_of, red_of};
ghost use Rattle.goqlanis_buffers.specs.Tints.{has_parts, have_tints, ink_paint, is_plain, has_common_colour, may_be, named_paint, paint_in, tints, version_across, version_for};

use crate::pictures::Drawing;
use qrcode::types::{Color, QrResult, Version};
use qrcode_sheets::formats::{Colours, Format};
use qrcode_sheets::sheet::Ink;
use qrcode_sheets::{CodePart, PartInk};
use std::alloc::{AllocError, Global};
use std::fmt::Write;

/// The colour of the dark or the light modules of a part, as C gives it.
#[derive(Clone, Copy)]
pub struct Tint {
    pub part: CodePart,
    pub tone: Color,
    /// `SAME` if these modules have the colour of all dark or light ones.
    pub colour: u32,
}

/// A tint, and the name of its colour in SVG.
#[derive(Drop)]
pub struct NamedTint {
    pub tint: Tint,
    pub name: String,
}

const BLACK: u32 = 0;

const WHITE: u32 = 0x00ff_ffff;

// The first colour that is not opaque.
const CLEAR: u32 = 1 << 24;

// No colour of its own.
const SAME: u32 = 0xffff_ffff;

/// Returns the colours of a drawing, for the dark and the light modules of each part.
#[rattlefmt::skip]
pub(crate) fn tints(drawing: &Drawing) -> [Tint; 12]
    ensures { result ≡ tints drawing.now }
{
    [
        Tint { part: CodePart::Finder, tone: Color::Dark, colour: drawing.finder_dark },
        Tint { part: CodePart::Finder, tone: Color::Light, colour: drawing.finder_light },
        Tint { part: CodePart::Alignment, tone: Color::Dark, colour: drawing.alignment_dark },
        Tint { part: CodePart::Alignment, tone: Color::Light, colour: drawing.alignment_light },
        Tint { part: CodePart::Timing, tone: Color::Dark, colour: drawing.timing_dark },
        Tint { part: CodePart::Timing, tone: Color::Light, colour: drawing.timing_light },
        Tint { part: CodePart::FormatWord, tone: Color::Dark, colour: drawing.format_dark },
        Tint { part: CodePart::FormatWord, tone: Color::Light, colour: drawing.format_light },
        Tint { part: CodePart::VersionWord, tone: Color::Dark, colour: drawing.version_dark },
        Tint { part: CodePart::VersionWord, tone: Color::Light, colour: drawing.version_light },
        Tint { part: CodePart::Data, tone: Color::Dark, colour: drawing.data_dark },
        Tint { part: CodePart::Data, tone: Color::Light, colour: drawing.data_light },
    ]
}

// Whether modules have the colour of all dark or light ones.
fn has_common_colour(tint: Tint) -> bool
    ensures { result ≡ has_common_colour tint }
{
    tint.colour == SAME
}

/// Returns whether no part has a colour of its own.
pub(crate) fn is_plain(drawing: &Drawing) -> bool
    ensures value { result ≡ is_plain drawing.now }
{
    let tints = tints(drawing);
    tints.iter().all(|tint| has_common_colour(*tint))
}

/// Returns whether a format supports the colours that parts have of their own.
pub(crate) fn have_tints(format: Format, drawing: &Drawing) -> bool
    ensures value { result ≡ have_tints format drawing.now }
{
    let colours = format.row().parts;
    let tints = tints(drawing);
    tints.iter().all(|tint| may_be(colours, *tint))
}

// Whether a part may have this colour, or has none of its own.
fn may_be(colours: Colours, tint: Tint) -> bool
    ensures { result ≡ may_be colours tint }
{
    match colours {
        Colours::Any => true,
        Colours::Opaque => tint.colour < CLEAR || has_common_colour(tint),
        Colours::Fixed => has_common_colour(tint),
    }
}

/// Returns whether it is known which modules belong to parts, if any has a colour of its own: a
/// version has so many modules along a side.
pub(crate) fn has_parts(width: u32, drawing: &Drawing) -> bool
    ensures value { result ≡ has_parts width drawing.now }
{
    version_across(width).is_some() || is_plain(drawing)
}

/// Returns the version with so many modules along a side; version 1 if none has.
pub(crate) fn version_for(width: u32) -> Version
    ensures value { result ≡ version_for width }
    ensures valid { IsTrue (is_valid result) }
{
    version_across(width).unwrap_or(Version::Normal(1))
}

// The version with so many modules along a side.
fn version_across(width: u32) -> Option<Version>
    ensures value { result ≡ version_across width }
    ensures side { IfSome result (λ version. side version ≡ width) }
    ensures valid { IfSome result (λ version. IsTrue (is_valid version)) }
{
    if 21 <= width && width <= 177 && width % 4 == 1 {
        return Some(Version::Normal(((width - 17) / 4) as i16));
    }
    if 11 <= width && width <= 17 && width % 2 == 1 {
        return Some(Version::Micro(((width - 9) / 2) as i16));
    }
    None
}

/// Returns those of the tints that are colours of their own, with their names. Errors: only
/// `OutOfMemory`.
#[tactic(auto, using(qrcode_scan::proofs::Pieces::flat_map_more))]
pub(crate) fn own_tints(alloc: Global, tints: &[Tint]) -> QrResult<Vec<NamedTint>>
    ensures value { IfOk result (λ own. map named_paint own.items ≡ flat_map paint_in tints.now) }
    ensures memory { IsOkUnless result OutOfMemory }
{
    let mut own = Vec::new(alloc);
    for tint in tints {
        push_own(alloc, &mut own, *tint)?;
    }
    Ok(own)
}

// Appends a colour with its name, unless it is none of its own.
fn push_own(alloc: Global, own: &mut Vec<NamedTint>, tint: Tint) -> QrResult<()>
    ensures appends { OnOk result (map named_paint own.new.items
        ≡ map named_paint own.old.items ++ paint_in tint) }
    ensures memory { IsOkUnless result OutOfMemory }
{
    if !has_common_colour(tint) {
        let name = name_of(alloc, tint.colour)?;
        own.push(NamedTint { tint, name })?;
    }
    Ok(())
}

/// Returns the colours as a sheet has them. Errors: only `AllocError`.
pub(crate) fn inks_of<'a>(
    alloc: Global,
    own: &'a [NamedTint],
) -> Result<Vec<PartInk<'a>>, AllocError>
    ensures value { IfOk result (λ inks. map ink_paint inks.items ≡ map named_paint own.now) }
{
    let mut inks = Vec::with_capacity(alloc, own.len())?;
    for i in 0..own.len() {
        inks.push(part_ink(&own[i]))?;
    }
    Ok(inks)
}

// A colour as a sheet has it.
fn part_ink<'a>(own: &'a NamedTint) -> PartInk<'a>
    ensures { ink_paint result ≡ named_paint own.now }
{
    PartInk {
        part: own.tint.part,
        tone: own.tint.tone,
        ink: ink_of(&own.name, own.tint.colour),
    }
}

/// Returns whether a format supports these colours of dark and light modules.
pub(crate) fn has_colours(format: Format, dark: u32, light: u32) -> bool
    ensures value { result ≡ has_colours format dark light }
{
    match format.row().colours {
        Colours::Any => true,
        Colours::Opaque => dark < CLEAR && light < CLEAR,
        Colours::Fixed => dark == BLACK && light == WHITE,
    }
}

/// Returns the channels of a colour, with its name.
pub(crate) fn ink_of<'a>(name: &'a str, colour: u32) -> Ink<'a>
    ensures value { shade_of result ≡ named_shade name.now colour }
    ensures red { result.red ≡ red_of colour }
    ensures green { result.green ≡ green_of colour }
    ensures blue { result.blue ≡ blue_of colour }
    ensures opacity { result.opacity ≡ opacity_of colour }
{
    Ink {
        name,
        red: (colour / 65_536 % 256) as u8,
        green: (colour / 256 % 256) as u8,
        blue: (colour % 256) as u8,
        opacity: (255 - colour / 16_777_216) as u8,
    }
}

/// Returns the name of a colour in SVG. Errors: only `OutOfMemory`.
pub(crate) fn name_of(alloc: Global, colour: u32) -> QrResult<String>
    ensures value { IfOk result (λ name. string_bytes name ≡ colour_name colour) }
    ensures memory { IsOkUnless result OutOfMemory }
{
    if colour == BLACK {
        return Ok(String::from_str(alloc, "#000")?);
    }
    if colour == WHITE {
        return Ok(String::from_str(alloc, "#fff")?);
    }
    let ink = ink_of("", colour);
    if ink.opacity == 0 {
        return Ok(String::from_str(alloc, "none")?);
    }
    let mut text = String::from_str(alloc, "#")?;
    push_byte(&mut text, ink.red)?;
    push_byte(&mut text, ink.green)?;
    push_byte(&mut text, ink.blue)?;
    if ink.opacity != 255 {
        push_byte(&mut text, ink.opacity)?;
    }
    Ok(text)
}

// Appends a byte as two hexadecimal digits.
#[tactic(auto, using(std::proofs::lemmas::Fmt::hex_byte))]
fn push_byte(text: &mut String, byte: u8) -> QrResult<()>
    ensures appends { OnOk result (string_bytes text.new ≡ string_bytes text.old ++ hex_text byte) }
    ensures memory { IsOkUnless result OutOfMemory }
{
    write!(text, "{byte:02x}")?;
    Ok(())
}
