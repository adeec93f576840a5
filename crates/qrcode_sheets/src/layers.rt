//! The colours of parts, layer upon layer, and what lies over them.

ghost use Rattle.std.specs.Prelude.{◌≡◌, ◌<◌, ◌≤◌, length, IfOk, IsOkUnless};
ghost use Rattle.qrcode_types.specs.declared.types.QrError.TheVariants.{OutOfMemory};
ghost use Rattle.qrcode_sheets.specs.Layers.{is_painted, layer, units, AreOver, IsLayer};
ghost use Rattle.qrcode_sheets.specs.Sheets.{sheet_of};

use crate::formats::Format;
use crate::parts::{CodePart, part_of};
use crate::render::{eps_ink, renderer_of, rgb};
use crate::sheet::{Ink, Overlay, Sheet};
use crate::svg_path::PathElement;
use crate::{eps, pdf};
use qrcode_layout::figures::color_of;
use qrcode_types::types::{Color, QrResult};
use qrcode_types::versions::side;
use std::alloc::{AllocError, Global};

/// A colour for the dark or the light modules of one part, in PNG, SVG, EPS and PDF.
#[derive(Clone, Copy)]
pub struct PartInk<'a> {
    pub part: CodePart,
    /// Whether the dark or the light modules get the colour.
    pub tone: Color,
    pub ink: Ink<'a>,
}

/// Whether the module at `index`, in row order, gets this colour.
pub(crate) fn is_painted(sheet: &Sheet<'_, '_, '_>, ink: &PartInk<'_>, index: usize) -> bool
    requires { index < length sheet.now.modules.now }
    ensures { result ≡ is_painted (sheet_of sheet.now) ink.now index }
{
    let width = side(sheet.version);
    let (x, y) = (index % width, index / width);
    ink.tone == sheet.modules[index] && ink.part == part_of(sheet.version, x, y)
}

// Marks the modules that get this colour as dark, and the others as light.
fn layer(
    alloc: Global,
    sheet: &Sheet<'_, '_, '_>,
    ink: &PartInk<'_>,
) -> Result<Vec<Color>, AllocError>
    ensures { IfOk result (λ colors. colors.items ≡ layer (sheet_of sheet.now) ink.now) }
{
    let mut colors = Vec::with_capacity(alloc, sheet.modules.len())?;
    for index in 0..sheet.modules.len() {
        colors.push(color_of(is_painted(sheet, ink, index)))?;
    }
    Ok(colors)
}

/// Returns the size of a module of `pixels` pixels in the units that overlays are placed in: 1 in
/// `SvgPath` and `Pdf`, where a module is the unit, and `pixels` in other formats.
pub fn units(format: Format, pixels: u32) -> u32
    requires { 1 ≤ pixels }
    ensures value { result ≡ units format pixels }
    ensures at_least { 1 ≤ result }
    ensures at_most { result ≤ pixels }
{
    match format {
        Format::SvgPath | Format::Pdf => 1,
        _ => pixels,
    }
}

/// Returns what a format draws over the modules: a layer for each colour, then shapes.
pub(crate) fn over(alloc: Global, format: Format, sheet: &Sheet<'_, '_, '_>) -> QrResult<Vec<u8>>
    ensures value { IfOk result (λ text. AreOver format (sheet_of sheet.now) text.items) }
    ensures memory { IsOkUnless result OutOfMemory }
{
    let mut text = Vec::new(alloc);
    for ink in sheet.parts {
        text.extend_from_slice(&layer_in(alloc, format, sheet, ink)?)?;
    }
    if let Overlay::Shapes(shapes) = sheet.over {
        text.extend_from_slice(shapes)?;
    }
    Ok(text)
}

// The layer of one colour.
fn layer_in(
    alloc: Global,
    format: Format,
    sheet: &Sheet<'_, '_, '_>,
    ink: &PartInk<'_>,
) -> QrResult<Vec<u8>>
    ensures value { IfOk result (λ text. IsLayer format (sheet_of sheet.now) ink.now text.items) }
    ensures memory { IsOkUnless result OutOfMemory }
{
    let modules = layer(alloc, sheet, ink)?;
    let unit = units(format, sheet.scale);
    match format {
        Format::Eps => {
            let color = eps_ink(ink.ink);
            eps::layer(alloc, &renderer_of(sheet, &modules, unit, color, color))
        }
        Format::Pdf => {
            let color = pdf::Color(rgb(ink.ink));
            pdf::layer(alloc, color, &modules, sheet.width, sheet.zone)
        }
        _ => {
            let (dark, light) = (PathElement(ink.ink.name), PathElement("none"));
            let element = renderer_of(sheet, &modules, unit, dark, light).build(alloc)?;
            Ok(element.into_bytes())
        }
    }
}
