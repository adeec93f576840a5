//! Draws symbols with an empty area in the middle, and what is in it: a logo, or the Swiss cross.

ghost use Rattle.std.specs.Prelude.{◌≡◌, ◌⊎◌, ◌<◌, ◌*◌, ◌^◌, max, length, map, if◌then◌else◌, string_bytes, IfOk, IfErr, IfNone, IfSome, IsTrue};
ghost use Rattle.qrcode_types.specs.Versions.{side};
ghost use Rattle.qrcode_types.specs.declared.types.QrError.TheVariants.{InvalidVersion, OutOfMemory};
ghost use Rattle.std.specs.List.{range_with_len};
ghost use Rattle.qrcode_png.specs.Image.{grey_shade, rgba};
ghost use Rattle.qrcode_sheets.specs.Drawn.{takes_overlay};
ghost use Rattle.qrcode_sheets.specs.Sheets.{overlay_of};
ghost use Rattle.goqlanis_request.specs.Drawings.{scale_for};
ghost use Rattle.goqlanis_request.specs.Masks.{LacksMask};
ghost use Rattle.goqlanis_request.specs.Overlays.{IsCrossSize, IsCrossWidth, IsShownWith, LacksRoom, cross_for, cross_shade, cross_text, is_black_unit, is_in_bar, lies_between, overlay_for, overlay_with, svg_element, window_of};

use crate::drawing::{drawn, quiet_zone, scale, unit};
use crate::masking::modules_under;
use crate::places::place_in;
use crate::request::Request;
use qrcode::QrCode;
use qrcode::types::QrResult;
use qrcode_damage::areas::{Area, Rectangle};
use qrcode_damage::covered::lightened;
use qrcode_sheets::formats::{Format, LogoForm};
use qrcode_sheets::sheet::Overlay;
use qrcode_sheets::{Inset, Region, Window};
use std::alloc::{AllocError, Global};

/// Returns the modules along the side of the area that the Swiss cross of a bill covers, in a
/// symbol with `side` modules. The cross is 7 mm of 46 mm wide (Swiss Implementation Guidelines
/// QR-bill); the area has the smallest odd number of modules that covers it.
pub fn cross_size(side: usize) -> usize
    ensures { side < 2 ^ 32 → IsCrossSize side result }
{
    let modules = side.saturating_mul(7).div_ceil(46);
    modules + 1 - modules % 2
}

/// Returns the pixels along the side of the Swiss cross of a bill, rounded to the nearest.
pub fn cross_width(request: &Request<'_>, code: &QrCode) -> u32
    ensures { IsCrossWidth (side code.now.version * max (scale_for request.now code.now.version) 1)
        result }
{
    let pixels = code.width() as u64 * scale(request, code).max(1) as u64;
    ((7 * pixels + 23) / 46) as u32
}

// An `svg` element at `place`; `rest` is everything after its position and size.
fn svg_element(alloc: Global, place: Region, rest: &str) -> Result<String, AllocError>
    ensures { IfOk result (λ text. string_bytes text ≡ svg_element place rest.now) }
{
    let (left, top, width, height) = (place.left, place.top, place.width, place.height);
    format!(in alloc; "<svg x=\"{left}\" y=\"{top}\" width=\"{width}\" height=\"{height}\"{rest}")
}

// The Swiss cross of a bill in the middle of an SVG, EPS or PDF drawing: 7 mm of 46 mm wide.
fn cross(alloc: Global, request: &Request<'_>, code: &QrCode) -> Result<String, AllocError>
    ensures { IfOk result (λ text. string_bytes text ≡ cross_for request.now code.now.version) }
{
    let (side, zone) = (code.width(), quiet_zone(request, code) as usize);
    let unit = unit(request, code);
    cross_text(alloc, request.format, unit, side, 1656 * zone + 702 * side)
}

// The cross in a format: `unit` is the size of a module, `side` the symbol's side in modules, and
// `left` where the cross begins, in 1656ths of a module: 0.000603864734 is 1 / 1656.
fn cross_text(
    alloc: Global,
    format: Format,
    unit: u32,
    side: usize,
    left: usize,
) -> Result<String, AllocError>
    ensures { IfOk result (λ text. string_bytes text ≡ cross_text format unit side left) }
{
    match format {
        Format::Eps => format!(in alloc;
            "gsave {unit} 1656 div dup scale {left} dup translate {side} dup scale\n\
            1 setgray 0 0 252 252 rectfill 0 setgray 18 18 216 216 rectfill\n\
            1 setgray 105 56 42 140 rectfill 56 105 140 42 rectfill grestore\n"
        ),
        Format::Pdf => format!(in alloc;
            "q .000603864734 0 0 .000603864734 0 0 cm {side} 0 0 {side} {left} {left} cm\n\
            1 g 0 0 252 252 re f 0 g 18 18 216 216 re f\n\
            1 g 105 56 42 140 re 56 105 140 42 re f Q"
        ),
        _ => format!(in alloc;
            "<g transform=\"scale({unit}) scale(.000603864734) translate({left} {left}) \
            scale({side})\" shape-rendering=\"auto\"><path fill=\"#fff\" d=\"M0 0h252v252H0z\"/>\
            <path d=\"M18 18h216v216H18z\"/>\
            <path fill=\"#fff\" d=\"M105 56h42v49h49v42h-49v49h-42v-49H56v-42h49z\"/></g>"
        ),
    }
}

/// The cells along a side of the grid on which the Swiss cross of a bill is drawn.
pub const CROSS_UNITS: u16 = 252;

/// Returns the pixels of the Swiss cross of a bill, one for each cell of its grid: black with a
/// white frame.
///
/// Errors: only `AllocError`, if memory runs out.
pub fn cross_pixels(alloc: Global) -> Result<Vec<[u8; 4]>, AllocError>
    ensures { IfOk result (λ pixels. map rgba pixels.items
        ≡ map cross_shade (range_with_len 0 (252 * 252))) }
{
    let mut pixels = Vec::new(alloc);
    for i in 0..252u32 * 252 {
        pixels.push(cross_pixel(i % 252, i / 252))?;
    }
    Ok(pixels)
}

// The pixel of a cell.
fn cross_pixel(x: u32, y: u32) -> [u8; 4]
    ensures { rgba result ≡ grey_shade (if is_black_unit x y then 0 else 1) }
{
    if is_black_unit(x, y) {
        [0, 0, 0, 255]
    } else {
        [255; 4]
    }
}

// Whether a cell is black: inside the frame, and in neither bar of the cross.
fn is_black_unit(x: u32, y: u32) -> bool
    ensures { result ≡ is_black_unit x y }
{
    let is_inside = lies_between(18, 234, x) && lies_between(18, 234, y);
    is_inside && !is_in_bar(x, y) && !is_in_bar(y, x)
}

// Whether a cell is in the upright bar of the cross.
fn is_in_bar(x: u32, y: u32) -> bool
    ensures { result ≡ is_in_bar x y }
{
    lies_between(105, 147, x) && lies_between(56, 196, y)
}

// Whether `n` is at least `from` and below `to`.
fn lies_between(from: u32, to: u32, n: u32) -> bool
    ensures { result ≡ lies_between from to n }
{
    from <= n && n < to
}

/// What is in the area.
#[derive(Clone, Copy)]
pub enum Inside<'a> {
    /// Nothing: its modules are light.
    Nothing,
    /// The Swiss cross of a bill, black with a white frame, in SVG, EPS and PDF. It is in the
    /// middle.
    Cross,
    /// An `svg` element: the margin in modules on each side, and everything after its position and
    /// size.
    Element(u8, &'a str),
    /// A picture, in PNG.
    Pixels(Inset<'a>),
}

/// Draws `code` as requested, with the modules of `area` light and `inside` on top of everything.
/// Returns `None` if the format lacks `inside`, or if an element has no room: its margin leaves no
/// module, or `area` is not inside the symbol.
///
/// Errors: `InvalidVersion` if the version of `code` lacks the requested mask; `OutOfMemory` if
/// memory runs out, or if the picture is larger than its format allows, as `draw` says.
pub fn with_logo(
    alloc: Global,
    request: &Request<'_>,
    code: &QrCode,
    area: Rectangle,
    inside: Inside<'_>,
) -> QrResult<Option<Vec<u8>>>
    ensures shown { IfOk result (λ drawn. IfSome drawn (λ bytes.
        IsShownWith request.now code.now area inside.entry bytes.items)) }
    ensures none { IfOk result (λ drawn. IfNone drawn
        (LacksRoom request.now.format code.now.version area inside.entry)) }
    ensures causes { IfErr result (λ e. (e ≡ OutOfMemory)
        ⊎ ((e ≡ InvalidVersion) × LacksMask request.now.mask code.now.version)) }
{
    let Some(text) = element(alloc, request, code, area, inside)? else {
        return Ok(None);
    };
    let _width = code.width();
    let modules = modules_under(alloc, code, request.mask)?;
    let rectangles = [area];
    let light = lightened(alloc, code.version(), &modules, &Area::of(&rectangles))?;
    let over = overlay_in(area, inside, &text);
    let bytes = drawn(alloc, request, code, &light, over)?;
    Ok(Some(bytes))
}

// What lies over the modules: `text`, or the picture.
fn overlay_in<'a>(area: Rectangle, inside: Inside<'a>, text: &'a str) -> Overlay<'a>
    ensures { overlay_of result ≡ overlay_with area inside.entry text.entry.now }
{
    match inside {
        Inside::Nothing => Overlay::Nothing,
        Inside::Cross | Inside::Element(..) => Overlay::Shapes(text.as_bytes()),
        Inside::Pixels(inset) => Overlay::Pixels(window_of(area), inset),
    }
}

/// Returns an area as a window of a picture.
pub fn window_of(area: Rectangle) -> Window
    ensures { result ≡ window_of area }
{
    Window {
        left: area.left,
        top: area.top,
        width: area.width,
        height: area.height,
    }
}

// The text to draw on top, empty for a picture; or `None` if it has no room, or the format lacks
// what is in the area.
fn element(
    alloc: Global,
    request: &Request<'_>,
    code: &QrCode,
    area: Rectangle,
    inside: Inside<'_>,
) -> Result<Option<String>, AllocError>
    ensures some { IfOk result (λ found. IfSome found (λ text.
        overlay_with area inside.entry (string_bytes text)
        ≡ overlay_for request.now code.now.version area inside.entry)) }
    ensures taken { IfOk result (λ found. IfSome found (λ _. IsTrue (takes_overlay
        request.now.format (overlay_for request.now code.now.version area inside.entry)))) }
    ensures none { IfOk result (λ found. IfNone found
        (LacksRoom request.now.format code.now.version area inside.entry)) }
{
    match (inside, request.format.row().middle) {
        (Inside::Nothing, _) | (Inside::Pixels(_), LogoForm::Pixels) => {
            Ok(Some(String::new(alloc)))
        }
        (Inside::Cross, LogoForm::Element | LogoForm::Operators) => {
            Ok(Some(cross(alloc, request, code)?))
        }
        (Inside::Element(margin, rest), LogoForm::Element) => {
            match place_in(request, code, area, margin) {
                Some(place) => Ok(Some(svg_element(alloc, place, rest)?)),
                None => Ok(None),
            }
        }
        _ => Ok(None),
    }
}
