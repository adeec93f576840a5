//! Draws a sheet in each format.

ghost use Rattle.std.specs.Prelude.{◌≡◌, ◌*◌, ◌^◌, ◌<◌, ◌≤◌, ◌&&◌, length, true, false, string_bytes, IsTrue, IfOk, IfErr, IsOkUnless};
ghost use Rattle.qrcode_types.specs.declared.types.QrError.TheVariants.{OutOfMemory};
ghost use Rattle.qrcode_render.specs.Picture.{picture};
ghost use Rattle.qrcode_sheets.specs.Printers.{packed_file};
ghost use Rattle.qrcode_render.specs.Setting.{fits};
ghost use Rattle.qrcode_sheets.specs.Drawn.{IsDrawCause, IsSheetFile, IsPng, ended, half_block_text, has_layers, takes_overlay, takes_parts};
ghost use Rattle.qrcode_sheets.specs.Sheets.{dark_of, eps_ink, light_of, overlay_of, per_metre, png_ink, rgb, setting_in, setting_of, shade_of, sheet_of};
ghost use Rattle.qrcode_sheets.specs.declared.formats.Format.TheVariants.{Eps, Pdf, Png, SvgPath, Tspl, Zpl};

use crate::formats::{Colours, Format, LogoForm};
use crate::layers::{PartInk, over};
use crate::packed::{Dot, Packing};
use crate::pbm::Bit;
use crate::shades::png_file;
use crate::sheet::{Ink, Overlay, Sheet};
use crate::svg_path::{Path, framed};
use crate::terminal::coloured;
use crate::{eps, escpos, pdf, pgm, ppm, tspl, xbm, zpl};
use qrcode_png::with_density;
use qrcode_render::image::Luma;
use qrcode_render::string::Str;
use qrcode_render::unicode::Dense1x2;
use qrcode_render::{Pixel, Renderer, pic, svg};
use qrcode_types::types::{Color, QrResult};
use std::alloc::Global;

/// Why a sheet is not drawn.
#[derive(Clone, Copy)]
pub enum DrawError {
    /// The format has no colours of parts.
    NoParts,
    /// The format lacks what lies over the modules.
    NoOverlay,
    /// Memory runs out, or the picture is too large.
    OutOfMemory,
}

/// Draws a sheet in a format.
///
/// Errors: `NoParts`, `NoOverlay`; or `OutOfMemory`, if memory runs out or the picture is too large:
/// a PNG or ESC/POS picture of more than 65,535 pixels a side, or a PNG file with colours of parts
/// or a picture of more than `GREATEST_PAINTED`, or a PNG file without pixels.
pub fn draw(alloc: Global, format: Format, sheet: &Sheet<'_, '_, '_>) -> Result<Vec<u8>, DrawError>
    ensures drawing { IfOk result (λ file. IsSheetFile format (sheet_of sheet.now) file.items) }
    ensures whole { IfOk result (λ _. IsTrue (takes_parts format sheet.now.parts.now
        && takes_overlay format (overlay_of sheet.now.over))) }
    ensures causes { IfErr result (IsDrawCause format (sheet_of sheet.now)) }
{
    if !takes_parts(format, sheet.parts) {
        return Err(DrawError::NoParts);
    }
    if !takes_overlay(format, sheet.over) {
        return Err(DrawError::NoOverlay);
    }
    file_of(alloc, format, sheet).map_err(|_| DrawError::OutOfMemory)
}

/// Whether a format has colours of parts, or there are none.
pub fn takes_parts(format: Format, parts: &[PartInk<'_>]) -> bool
    ensures { result ≡ takes_parts format parts.now }
{
    parts.is_empty() || !matches!(format.row().parts, Colours::Fixed)
}

/// Whether a format has what lies over the modules.
pub fn takes_overlay(format: Format, over: Overlay<'_>) -> bool
    ensures { result ≡ takes_overlay format (overlay_of over.entry) }
{
    match (format.row().middle, over) {
        (_, Overlay::Nothing)
        | (LogoForm::Element | LogoForm::Operators, Overlay::Shapes(_))
        | (LogoForm::Pixels, Overlay::Pixels(..)) => true,
        _ => false,
    }
}

// The file of a sheet, without what the format lacks.
fn file_of(alloc: Global, format: Format, sheet: &Sheet<'_, '_, '_>) -> QrResult<Vec<u8>>
    ensures drawing { IfOk result (λ file. IsSheetFile format (sheet_of sheet.now) file.items) }
    ensures memory { IsOkUnless result OutOfMemory }
{
    let (dark, light) = (sheet.dark, sheet.light);
    match format {
        Format::HalfBlocks => lines(sheet, half_blocks(alloc, sheet)?),
        Format::LightHalfBlocks => {
            lines(sheet, drawn(alloc, sheet, Dense1x2::Light, Dense1x2::Dark)?)
        }
        Format::Terminal => coloured(alloc, &half_blocks(alloc, sheet)?),
        Format::Chars => lines(sheet, drawn(alloc, sheet, '\u{2588}', ' ')?),
        Format::Ascii => lines(sheet, drawn(alloc, sheet, Str("##"), Str("  "))?),
        Format::Png => png(alloc, sheet),
        Format::Svg => {
            let (dark, light) = (svg::Color(dark.name), svg::Color(light.name));
            Ok(drawn(alloc, sheet, dark, light)?.into_bytes())
        }
        Format::SvgPath => path(alloc, sheet),
        Format::Eps => eps(alloc, sheet),
        Format::Pic => Ok(drawn(alloc, sheet, pic::Color, pic::Color)?.into_bytes()),
        Format::Pbm => drawn(alloc, sheet, Bit::Black, Bit::White),
        Format::Pgm => drawn(alloc, sheet, pgm::Grey(0), pgm::Grey(255)),
        Format::Grey => Ok(drawn(alloc, sheet, Luma([0]), Luma([255]))?.into_raw()),
        Format::Pdf => pdf_file(alloc, sheet),
        Format::Ppm => drawn(alloc, sheet, ppm::Color(rgb(dark)), ppm::Color(rgb(light))),
        Format::Zpl => zpl(alloc, sheet),
        Format::Tspl => tspl(alloc, sheet),
        Format::EscPos => bits::<escpos::Raster>(alloc, sheet),
        Format::Xbm => bits::<xbm::SourceText>(alloc, sheet),
    }
}

// Draws black and white pixels, eight in a byte.
fn bits<F: Packing>(alloc: Global, sheet: &Sheet<'_, '_, '_>) -> QrResult<Vec<u8>>
    ensures picture { IfOk result (λ file. file.items ≡ packed_file F.before F.row_of F.behind
        (dark_of (sheet_of sheet.now) true false) (light_of (sheet_of sheet.now) true false)
        (picture (sheet_of sheet.now).at sheet.now.modules.now)) }
    ensures memory { IsOkUnless result OutOfMemory }
{
    let (dark, light) = (Dot::<F>::of(Bit::Black), Dot::<F>::of(Bit::White));
    drawn(alloc, sheet, dark, light)
}

// Draws the modules of a sheet with these values for dark and light, exchanged if it is inverted.
fn drawn<P: Pixel>(
    alloc: Global,
    sheet: &Sheet<'_, '_, '_>,
    dark: P,
    light: P,
) -> QrResult<P::Image>
    ensures picture { IfOk result (P.Canvas.is_picture (setting_of sheet.now dark light)) }
    ensures memory { IsOkUnless result OutOfMemory }
{
    renderer(sheet, dark, light).build(alloc)
}

// Returns the renderer of a sheet's modules, with these values for dark and light.
fn renderer<'a, P: Pixel>(sheet: &Sheet<'a, '_, '_>, dark: P, light: P) -> Renderer<'a, P>
    ensures value { result ≡ setting_of sheet.now dark light }
    ensures fits { IsTrue (fits result) }
{
    let (dark, light) = if sheet.is_inverted {
        (light, dark)
    } else {
        (dark, light)
    };
    renderer_of(sheet, sheet.modules, sheet.scale, dark, light)
}

/// Returns the renderer of these modules in place of a sheet's, each of `unit` pixels, with these
/// values for dark and light.
pub(crate) fn renderer_of<'a, P: Pixel>(
    sheet: &Sheet<'_, '_, '_>,
    modules: &'a [Color],
    unit: u32,
    dark: P,
    light: P,
) -> Renderer<'a, P>
    requires square { length modules.now ≡ sheet.now.width * sheet.now.width }
    requires at_least { 1 ≤ unit }
    requires at_most { unit < 2 ^ 16 }
    ensures value { result ≡ setting_in sheet.now modules.entry.now unit dark light }
    ensures fits { IsTrue (fits result) }
{
    let mut renderer = Renderer::new(modules, sheet.width as usize, sheet.zone);
    renderer.dark_color(dark);
    renderer.light_color(light);
    renderer.module_size(unit);
    renderer
}

// Half blocks that are drawn where pixels are dark.
fn half_blocks(alloc: Global, sheet: &Sheet<'_, '_, '_>) -> QrResult<String>
    ensures value { IfOk result (λ text.
        string_bytes text ≡ half_block_text (sheet_of sheet.now) true false) }
    ensures memory { IsOkUnless result OutOfMemory }
{
    drawn(alloc, sheet, Dense1x2::Dark, Dense1x2::Light)
}

// A PNG file.
fn png(alloc: Global, sheet: &Sheet<'_, '_, '_>) -> QrResult<Vec<u8>>
    ensures shows { IfOk result (λ file. IsSheetFile Png (sheet_of sheet.now) file.items) }
    ensures memory { IsOkUnless result OutOfMemory }
{
    if has_layers(sheet) {
        return png_file(alloc, sheet);
    }
    two_colours(alloc, sheet)
}

// Whether parts have their own colours, or a picture lies over the modules.
fn has_layers(sheet: &Sheet<'_, '_, '_>) -> bool
    ensures { result ≡ has_layers (sheet_of sheet.now) }
{
    !sheet.parts.is_empty() || matches!(sheet.over, Overlay::Pixels(..))
}

// A PNG file in two colours.
fn two_colours(alloc: Global, sheet: &Sheet<'_, '_, '_>) -> QrResult<Vec<u8>>
    ensures shows { IfOk result (λ file. IsPng false (sheet_of sheet.now) file.items) }
    ensures memory { IsOkUnless result OutOfMemory }
{
    let renderer = renderer(sheet, png_ink(sheet.dark), png_ink(sheet.light));
    match sheet.dpi {
        None => renderer.build(alloc),
        Some(dpi) => with_density(alloc, &renderer, per_metre(dpi)),
    }
}

// An SVG file with one path, with the size and title of the sheet's frame.
fn path(alloc: Global, sheet: &Sheet<'_, '_, '_>) -> QrResult<Vec<u8>>
    ensures shows { IfOk result (λ file. IsSheetFile SvgPath (sheet_of sheet.now) file.items) }
    ensures memory { IsOkUnless result OutOfMemory }
{
    let over = over(alloc, Format::SvgPath, sheet)?;
    let (dark, light) = (Path(sheet.dark.name), Path(sheet.light.name));
    framed(alloc, &renderer(sheet, dark, light), &sheet.frame, &over)
}

// ZPL II, with the picture at the sheet's place on the label.
fn zpl(alloc: Global, sheet: &Sheet<'_, '_, '_>) -> QrResult<Vec<u8>>
    ensures shows { IfOk result (λ file. IsSheetFile Zpl (sheet_of sheet.now) file.items) }
    ensures memory { IsOkUnless result OutOfMemory }
{
    let (dark, light) = (zpl::Dot::of(Bit::Black), zpl::Dot::of(Bit::White));
    zpl::at_place(alloc, &renderer(sheet, dark, light), sheet.place)
}

// TSPL, with the picture at the sheet's place on the label.
fn tspl(alloc: Global, sheet: &Sheet<'_, '_, '_>) -> QrResult<Vec<u8>>
    ensures value { IfOk result (λ file. IsSheetFile Tspl (sheet_of sheet.now) file.items) }
    ensures memory { IsOkUnless result OutOfMemory }
{
    let (dark, light) = (tspl::Dot::of(Bit::Black), tspl::Dot::of(Bit::White));
    tspl::at_place(alloc, &renderer(sheet, dark, light), sheet.place)
}

// An EPS file. Without pixels per inch, a pixel is a point.
fn eps(alloc: Global, sheet: &Sheet<'_, '_, '_>) -> QrResult<Vec<u8>>
    ensures shows { IfOk result (λ file. IsSheetFile Eps (sheet_of sheet.now) file.items) }
    ensures memory { IsOkUnless result OutOfMemory }
{
    let over = over(alloc, Format::Eps, sheet)?;
    let renderer = renderer(sheet, eps_ink(sheet.dark), eps_ink(sheet.light));
    eps::with_extras(alloc, &renderer, sheet.dots, &over)
}

// A PDF file with the title of the sheet's frame, unless it is empty. Without pixels per inch, a
// pixel is a point.
fn pdf_file(alloc: Global, sheet: &Sheet<'_, '_, '_>) -> QrResult<Vec<u8>>
    ensures shows { IfOk result (λ file. IsSheetFile Pdf (sheet_of sheet.now) file.items) }
    ensures memory { IsOkUnless result OutOfMemory }
{
    let over = over(alloc, Format::Pdf, sheet)?;
    let (dark, light) = (pdf::Color(rgb(sheet.dark)), pdf::Color(rgb(sheet.light)));
    let extras = pdf::Extras {
        dots: sheet.dots.unwrap_or(72).max(1),
        over: &over,
        title: sheet.frame.title,
    };
    pdf::with_extras(alloc, &renderer(sheet, dark, light), extras)
}

/// Returns red, green and blue.
pub(crate) fn rgb(ink: Ink<'_>) -> [u8; 3]
    ensures value { result ≡ rgb (shade_of ink.entry) }
{
    [ink.red, ink.green, ink.blue]
}

/// Converts dots per inch to dots per metre, rounded to the nearest; an inch is 0.0254 metres.
pub(crate) fn per_metre(dpi: u16) -> u32
    ensures value { result ≡ per_metre dpi }
    ensures at_most { result < 2 ^ 31 }
{
    (10000 * dpi as u32 + 127) / 254
}

// The bytes of a text, with a newline at the end if the sheet asks for one.
fn lines(sheet: &Sheet<'_, '_, '_>, mut text: String) -> QrResult<Vec<u8>>
    ensures value { IfOk result (λ lines.
        lines.items ≡ ended (sheet_of sheet.now) (string_bytes text)) }
    ensures memory { IsOkUnless result OutOfMemory }
{
    if sheet.ends_lines {
        text.push('\n')?;
    }
    Ok(text.into_bytes())
}

/// Returns the colour for EPS.
pub(crate) fn eps_ink(ink: Ink<'_>) -> eps::Color
    ensures value { result ≡ eps_ink (shade_of ink.entry) }
{
    let [red, green, blue] = rgb(ink);
    eps::Color { red, green, blue }
}

// The colour for PNG.
pub(crate) fn png_ink(ink: Ink<'_>) -> qrcode_png::Color
    ensures value { result ≡ png_ink (shade_of ink.entry) }
{
    qrcode_png::Color([ink.red, ink.green, ink.blue, ink.opacity])
}
