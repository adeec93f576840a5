//! Draws pictures into buffers.

ghost use Rattle.std.specs.Prelude.{◌≡◌, ◌≢◌, ◌↔◌, ◌<◌, ◌^◌, ℕ, length, map, IfOk, IfErr, IfSome, IsOkUnless, IsTrue};
ghost use Rattle.qrcode_types.specs.declared.types.QrError.TheVariants.{OutOfMemory};
ghost use Rattle.qrcode_sheets.specs.Formats.{row};
ghost use Rattle.qrcode_sheets.specs.Drawn.{takes_overlay};
ghost use Rattle.qrcode_sheets.specs.Paths.{frame_of, plain_frame};
ghost use Rattle.qrcode_sheets.specs.Sheets.{overlay_of};
ghost use Rattle.goqlanis_buffers.specs.Shades.{colors_of};
ghost use Rattle.goqlanis_request.specs.Drawings.{sized};
ghost use Rattle.goqlanis_buffers.specs.Colours.{colour_name};
ghost use Rattle.goqlanis_buffers.specs.Calls.{TellsLength, WritesPicture};
ghost use Rattle.goqlanis_buffers.specs.Answers.{HasSize};
ghost use Rattle.goqlanis_buffers.specs.declared.answers.Refusal.TheVariants.{SmallBuffer};
ghost use Rattle.goqlanis_buffers.specs.Asking.{known_length, side_of, HasLength, IsCauseFor, IsDrawable};
ghost use Rattle.goqlanis_buffers.specs.Drawings.{density, dots, has_side, is_sayable, most_side, IsPictureOver};
ghost use Rattle.goqlanis_buffers.specs.Tints.{named_paint, paints};

use crate::answers::Refusal;
use crate::symbols::{colors_of, fill};
use crate::tints::{
    NamedTint, has_colours, has_parts, have_tints, ink_of, inks_of, is_plain, name_of, own_tints,
    tints, version_for,
};
use qrcode::types::{Color, QrError, QrResult};
use qrcode_sheets::formats::{Density, Format, format_numbered};
use qrcode_sheets::sheet::{Overlay, Sheet};
use qrcode_sheets::svg_path::{Frame, Size};
use qrcode_sheets::{DrawError, GREATEST_PAINTED, draw};
use std::alloc::Global;

/// How C wants modules drawn. A colour is transparency, red, green and blue in its four bytes, from
/// the highest down.
#[repr(C)]
#[derive(Clone, Copy)]
pub struct Drawing {
    /// The size of this struct in bytes.
    pub size: u32,
    /// The number of a format.
    pub format: u32,
    /// The width of the quiet zone in modules.
    pub zone: u32,
    /// The pixels per module, across and down.
    pub scale: u32,
    /// The colour of dark modules.
    pub dark: u32,
    /// The colour of light modules and the quiet zone.
    pub light: u32,
    /// The dots per inch that a PNG file states, or the pixels of an inch in SVG, EPS and PDF; 0 for
    /// none.
    pub dpi: u32,
    /// The colours of the dark and the light modules of each part, or `0xffffffff` for none of
    /// their own.
    pub finder_dark: u32,
    pub finder_light: u32,
    pub alignment_dark: u32,
    pub alignment_light: u32,
    pub timing_dark: u32,
    pub timing_light: u32,
    pub format_dark: u32,
    pub format_light: u32,
    pub version_dark: u32,
    pub version_light: u32,
    pub data_dark: u32,
    pub data_light: u32,
}

// The size of a `Drawing` in bytes.
const SIZE: u32 = 76;

/// What is to be drawn, as C gives it.
#[derive(Clone, Copy)]
pub struct Asked<'a> {
    /// The modules, row by row, dark if not zero.
    pub modules: &'a [u8],
    /// The number of modules along a side.
    pub width: u32,
    pub drawing: &'a Drawing,
}

/// Draws a picture to the start of `out`, and returns its length.
///
/// Errors, the first that applies: `NoSuchStruct`, `NoSuchFormat`, `NotSquare`, `NoSuchSize`,
/// `NotInFormat`, `NoSuchSide`, `SmallBuffer`; or `OutOfMemory`. After an error `out` is unchanged.
/// If the length follows from the side, a picture that does not fit is not drawn.
pub fn put_picture(alloc: Global, asked: &Asked<'_>, out: &mut [u8]) -> Result<usize, Refusal>
    ensures { WritesPicture asked.now.modules.now asked.now.width asked.now.drawing.now
        out.old out.new result }
{
    let format = format_of(asked)?;
    match known_length(alloc, asked, format)? {
        Some(length) if out.len() < length => return Err(Refusal::SmallBuffer),
        _ => {}
    }
    let bytes = drawn(alloc, asked, format, Overlay::Nothing)?;
    if out.len() < bytes.len() {
        return Err(Refusal::SmallBuffer);
    }
    fill(out, &bytes);
    Ok(bytes.len())
}

/// Returns the length of a picture.
///
/// Errors, the first that applies: `NoSuchStruct`, `NoSuchFormat`, `NotSquare`, `NoSuchSize`,
/// `NotInFormat`, `NoSuchSide`; or `OutOfMemory`.
pub fn length_of(alloc: Global, asked: &Asked<'_>) -> Result<usize, Refusal>
    ensures { TellsLength asked.now.modules.now asked.now.width asked.now.drawing.now result }
{
    let format = match format_of(asked) {
        Ok(format) => format,
        Err(refusal) => return Err(refusal),
    };
    match known_length(alloc, asked, format)? {
        Some(length) => Ok(length),
        None => Ok(drawn(alloc, asked, format, Overlay::Nothing)?.len()),
    }
}

/// Returns the format, if the picture can be drawn in it.
pub(crate) fn format_of(asked: &Asked<'_>) -> Result<Format, Refusal>
    ensures drawable { IfOk result (IsDrawable asked.now) }
    ensures causes { (room : ℕ) → IfErr result (IsCauseFor asked.now room) }
    ensures no_buffer { IfErr result (λ refusal. refusal ≢ SmallBuffer) }
{
    let drawing = asked.drawing;
    if drawing.size != SIZE {
        return Err(Refusal::NoSuchStruct);
    }
    let Some(format) = format_numbered(drawing.format) else {
        return Err(Refusal::NoSuchFormat);
    };
    if asked.modules.len() as u64 != u64::from(asked.width) * u64::from(asked.width) {
        return Err(Refusal::NotSquare);
    }
    if !has_size(format, asked.width, drawing) {
        return Err(Refusal::NoSuchSize);
    }
    if !is_sayable(format, drawing) {
        return Err(Refusal::NotInFormat);
    }
    if !has_parts(asked.width, drawing) {
        return Err(Refusal::NoSuchSide);
    }
    Ok(format)
}

// Whether the sides in modules and in pixels, and the scale, are within their limits.
fn has_size(format: Format, width: u32, drawing: &Drawing) -> bool
    ensures size { IsTrue result ↔ HasSize width drawing.now format }
{
    let side = u64::from(width) + 2 * u64::from(drawing.zone);
    if width > 177 || side > 8_191 {
        return false;
    }
    if drawing.scale == 0 || drawing.scale > 65_535 {
        return false;
    }
    has_side(format, is_plain(drawing), side * u64::from(drawing.scale))
}

// Whether a picture in a format may have this many pixels a side; it is plain if no part has a
// colour of its own.
fn has_side(format: Format, is_plain: bool, pixels: u64) -> bool
    ensures value { result ≡ has_side format is_plain pixels }
{
    u64::from(format.row().least) <= pixels && pixels <= u64::from(most_side(format, is_plain))
}

// The most pixels a side.
fn most_side(format: Format, is_plain: bool) -> u32
    ensures { result ≡ most_side format is_plain }
{
    match format {
        Format::Png if !is_plain => GREATEST_PAINTED,
        _ => format.row().most,
    }
}

// Whether a format supports the colours, and the dots per inch if any.
fn is_sayable(format: Format, drawing: &Drawing) -> bool
    ensures value { result ≡ is_sayable format drawing.now }
{
    let row = format.row();
    let most = match row.density {
        Density::Stored => 65_535,
        _ if row.is_exact => u32::MAX,
        _ => 0,
    };
    drawing.dpi <= most
        && has_colours(format, drawing.dark, drawing.light)
        && have_tints(format, drawing)
}

/// Draws a picture with `over` on top. Errors: only `OutOfMemory`.
pub(crate) fn drawn(
    alloc: Global,
    asked: &Asked<'_>,
    format: Format,
    over: Overlay<'_>,
) -> QrResult<Vec<u8>>
    requires drawable { IsDrawable asked.now format }
    requires taken { IsTrue (takes_overlay format (overlay_of over)) }
    ensures picture { IfOk result (λ bytes. IsPictureOver (overlay_of over.entry) format
        asked.now.modules.now asked.now.width asked.now.drawing.now bytes.items) }
    ensures memory { IsOkUnless result OutOfMemory }
{
    let colors = colors_of(alloc, asked.modules)?;
    let dark = name_of(alloc, asked.drawing.dark)?;
    let light = name_of(alloc, asked.drawing.light)?;
    let own = own_tints(alloc, &tints(asked.drawing))?;
    let names = Names {
        dark: &dark,
        light: &light,
        own: &own,
    };
    draw_named(alloc, asked, format, &colors, names, over)
}

// The names of colours: of dark and of light modules, and of those that parts have of their own.
#[derive(Clone, Copy)]
struct Names<'a> {
    dark: &'a str,
    light: &'a str,
    own: &'a [NamedTint],
}

// Draws a picture with these modules and names of colours, and with `over` on top.
fn draw_named<'a>(
    alloc: Global,
    asked: &Asked<'_>,
    format: Format,
    modules: &'a [Color],
    names: Names<'a>,
    over: Overlay<'a>,
) -> QrResult<Vec<u8>>
    requires drawable { IsDrawable asked.now format }
    requires modules { modules.now ≡ colors_of asked.now.modules.now }
    requires dark { names.dark.now ≡ colour_name asked.now.drawing.now.dark }
    requires light { names.light.now ≡ colour_name asked.now.drawing.now.light }
    requires own { map named_paint names.own.now ≡ paints asked.now.drawing.now }
    requires taken { IsTrue (takes_overlay format (overlay_of over)) }
    ensures drawing { IfOk result (λ bytes. IsPictureOver (overlay_of over.entry) format
        asked.now.modules.now asked.now.width asked.now.drawing.now bytes.items) }
    ensures memory { IsOkUnless result OutOfMemory }
{
    let drawing = asked.drawing;
    let dark = ink_of(names.dark, drawing.dark);
    let light = ink_of(names.light, drawing.light);
    let inks = inks_of(alloc, names.own)?;
    let dots = dots_of(format, drawing);
    let sheet = Sheet {
        modules,
        width: asked.width,
        zone: drawing.zone,
        scale: drawing.scale,
        dark,
        light,
        is_inverted: false,
        dpi: density(format, drawing),
        ends_lines: false,
        dots,
        place: (0, 0),
        frame: sized_frame(dots),
        version: version_for(asked.width),
        parts: &inks,
        over,
    };
    match draw(alloc, format, &sheet) {
        Ok(file) => Ok(file),
        Err(DrawError::OutOfMemory) => Err(QrError::OutOfMemory),
        Err(DrawError::NoParts | DrawError::NoOverlay) => unreachable!(),
    }
}

// The dots per inch that a PNG file states, if there are any.
fn density(format: Format, drawing: &Drawing) -> Option<u16>
    requires sayable { IsTrue (is_sayable format drawing.now) }
    ensures value { result ≡ density (row format).density drawing.now.dpi }
{
    match format.row().density {
        Density::Stored if drawing.dpi > 0 => Some(drawing.dpi as u16),
        _ => None,
    }
}

// The pixels of an inch in SVG, EPS and PDF, if they are given.
fn dots_of(format: Format, drawing: &Drawing) -> Option<u32>
    ensures value { result ≡ dots (row format).is_exact drawing.now.dpi }
{
    (format.row().is_exact && drawing.dpi > 0).then_some(drawing.dpi)
}

// A frame with the size that these pixels per inch give, if there are any.
fn sized_frame(dots: Option<u32>) -> Frame<'static>
    ensures value { frame_of result ≡ sized dots plain_frame }
{
    let plain = Frame::plain();
    match dots {
        Some(dots) => Frame {
            size: Size::Dots(dots),
            ..plain
        },
        None => plain,
    }
}

// Returns the length of a picture in a format that stores each pixel or each eight. `None` for
// other formats: their pictures take few bytes per module, or have few pixels. Errors: only
// `OutOfMemory`.
fn known_length(alloc: Global, asked: &Asked<'_>, format: Format) -> QrResult<Option<usize>>
    requires drawable { IsDrawable asked.now format }
    ensures length { IfOk result (λ length. IfSome length (HasLength asked.now)) }
    ensures memory { IsOkUnless result OutOfMemory }
{
    length_by_side(alloc, format, side_of(asked, format))
}

/// Returns the number of pixels along a side.
pub(crate) fn side_of(asked: &Asked<'_>, format: Format) -> usize
    requires drawable { IsDrawable asked.now format }
    ensures value { result ≡ side_of asked.now }
    ensures at_most { result < 2 ^ 29 }
{
    let drawing = asked.drawing;
    (asked.width as usize + 2 * drawing.zone as usize) * drawing.scale as usize
}

// The length of a picture of `side` by `side` pixels: its head, its rows and its tail.
fn length_by_side(alloc: Global, format: Format, side: usize) -> QrResult<Option<usize>>
    requires at_most { side < 2 ^ 29 }
    ensures value { IfOk result (λ length. length ≡ known_length format side) }
    ensures memory { IsOkUnless result OutOfMemory }
{
    let bytes = (side + 7) / 8;
    match format {
        Format::Grey => Ok(Some(side * side)),
        Format::Pbm => {
            let head = format!(in alloc; "P4\n{side} {side}\n")?;
            Ok(Some(head.len() + side * bytes))
        }
        Format::Pgm => {
            let head = format!(in alloc; "P5\n{side} {side}\n255\n")?;
            Ok(Some(head.len() + side * side))
        }
        Format::Ppm => {
            let head = format!(in alloc; "P6\n{side} {side}\n255\n")?;
            Ok(Some(head.len() + side * side * 3))
        }
        Format::EscPos => Ok(Some(8 + side * bytes)),
        Format::Tspl => {
            let head = format!(in alloc;
                "SIZE {side} dot,{side} dot\r\nCLS\r\nBITMAP 0,0,{bytes},{side},0,"
            )?;
            Ok(Some(head.len() + side * bytes + 11))
        }
        Format::Xbm => {
            let head = format!(in alloc;
                "#define symbol_width {side}\n#define symbol_height {side}\n\
                 static unsigned char symbol_bits[] = {{\n"
            )?;
            Ok(Some(head.len() + side * (5 * bytes + 1) + 3))
        }
        _ => Ok(None),
    }
}
