//! Makes symbols, and draws them as requested.

ghost use Rattle.std.specs.Prelude.{◌≡◌, ◌≤◌, ◌⊎◌, length, unwrap_or, IfOk, IfErr, IsOkUnless, IsTrue};
ghost use Rattle.qrcode_types.specs.declared.types.QrError.TheVariants.{InvalidVersion, OutOfMemory};
ghost use Rattle.qrcode.specs.Pictures.{quiet_zone};
ghost use Rattle.qrcode_sheets.specs.Drawn.{IsSheetFile, takes_overlay};
ghost use Rattle.goqlanis_request.specs.Drawings.{IsShownIn, dots_for, scale_for, sheet_for, unit_for};
ghost use Rattle.goqlanis_request.specs.Masks.{LacksMask};
ghost use Rattle.qrcode_sheets.specs.Sheets.{overlay_of, sheet_of};
ghost use Rattle.goqlanis_request.specs.Symbols.{IsSymbolIn, IsRefusedFor};

use crate::masking::modules_under;
use crate::request::{Choice, Extent, Request};
use qrcode::QrCode;
use qrcode::bits::Manner;
use qrcode::types::{Color, EcLevel, QrError, QrResult};
use qrcode_sheets::sheet::{Overlay, Sheet};
use qrcode_sheets::svg_path::{Frame, Size};
use qrcode_sheets::{DrawError, draw, units};
use std::alloc::Global;

/// Encodes `bytes` at `level` in a version that `choice` allows, written as `manner` says.
///
/// Errors: those of `QrCode::at_least`, `QrCode::at_least_boosted` and `QrCode::in_version`,
/// `OutOfMemory` among them.
pub fn symbol_in(
    alloc: Global,
    choice: Choice,
    manner: Manner,
    level: EcLevel,
    bytes: &[u8],
) -> QrResult<QrCode>
    ensures symbol { IfOk result (IsSymbolIn choice manner level bytes.now) }
    ensures causes { IfErr result (IsRefusedFor choice manner level bytes.now) }
{
    match choice {
        Choice::From(version) => QrCode::at_least(alloc, bytes, manner, version, level),
        Choice::Boosted(version) => QrCode::at_least_boosted(alloc, bytes, manner, version, level),
        Choice::At(version) => QrCode::in_version(alloc, bytes, manner, version, level),
    }
}

/// Draws `code` as requested, under the requested mask.
///
/// Errors: `InvalidVersion` if the version of `code` lacks that mask; `OutOfMemory` if memory runs
/// out, or if the picture is larger than its format allows, as `draw` says.
pub fn drawing_of(alloc: Global, request: &Request<'_>, code: &QrCode) -> QrResult<Vec<u8>>
    ensures shown { IfOk result (λ file. IsShownIn request.now code.now file.items) }
    ensures causes { IfErr result (λ e. (e ≡ OutOfMemory)
        ⊎ ((e ≡ InvalidVersion) × LacksMask request.now.mask code.now.version)) }
{
    let modules = modules_under(alloc, code, request.mask)?;
    drawn(alloc, request, code, &modules, Overlay::Nothing)
}

/// Draws these modules of a symbol as requested, with `over` on top.
///
/// Errors: only `OutOfMemory`, as `draw` says.
pub fn drawn(
    alloc: Global,
    request: &Request<'_>,
    code: &QrCode,
    modules: &[Color],
    over: Overlay<'_>,
) -> QrResult<Vec<u8>>
    requires modules { length modules.now ≡ length code.now.modules }
    requires taken { IsTrue (takes_overlay request.now.format (overlay_of over)) }
    ensures shown { IfOk result (λ file. IsSheetFile request.now.format (sheet_for request.now
        code.now.version modules.now (overlay_of over.entry)) file.items) }
    ensures memory { IsOkUnless result OutOfMemory }
{
    let sheet = sheet(request, code, modules, over);
    match draw(alloc, request.format, &sheet) {
        Ok(file) => Ok(file),
        Err(DrawError::OutOfMemory) => Err(QrError::OutOfMemory),
        Err(DrawError::NoParts | DrawError::NoOverlay) => unreachable!(),
    }
}

// Returns the sheet for these modules of a symbol, with `over` on top.
fn sheet<'a>(
    request: &Request<'a>,
    code: &QrCode,
    modules: &'a [Color],
    over: Overlay<'a>,
) -> Sheet<'a, 'a, 'a>
    requires { length modules.now ≡ length code.now.modules }
    ensures value { sheet_of result ≡ sheet_for request.now code.now.version modules.entry.now
        (overlay_of over.entry) }
{
    let dots = dots(request, code);
    let size = match dots {
        Some(dots) => Size::Dots(dots),
        None => request.frame.size,
    };
    Sheet {
        modules,
        width: code.width() as u32,
        zone: quiet_zone(request, code),
        scale: scale(request, code).max(1),
        dark: request.dark,
        light: request.light,
        is_inverted: request.is_inverted,
        dpi: request.dpi,
        ends_lines: true,
        dots: dots.or(request.dpi.map(u32::from)),
        place: request.place,
        frame: Frame {
            size,
            ..request.frame
        },
        version: code.version(),
        parts: request.parts,
        over,
    }
}

/// Returns the pixels per inch that an exact size sets.
pub fn dots(request: &Request<'_>, code: &QrCode) -> Option<u32>
    ensures { result ≡ dots_for request.now code.now.version }
{
    match request.extent {
        Extent::Exact(length) if length.is_side => {
            let side = code.width() as u32 + 2 * quiet_zone(request, code);
            Some(length.dots as u32 * side)
        }
        Extent::Exact(length) => Some(length.dots as u32),
        Extent::Module(_) | Extent::Side(..) => None,
    }
}

/// Returns the width of the quiet zone in modules.
pub fn quiet_zone(request: &Request<'_>, code: &QrCode) -> u32
    ensures value { result ≡ unwrap_or request.now.zone (quiet_zone code.now.version) }
    ensures at_most { result ≤ 255 }
{
    match request.zone {
        Some(zone) => zone as u32,
        None if code.version().is_micro() => 2,
        None => 4,
    }
}

/// Returns the size of a module in the units that overlays are placed in.
pub(crate) fn unit(request: &Request<'_>, code: &QrCode) -> u32
    ensures value { result ≡ unit_for request.now code.now.version }
    ensures at_least { 1 ≤ result }
    ensures at_most { result ≤ 65535 }
{
    units(request.format, scale(request, code).max(1))
}

/// Returns the pixels of a module: those requested, or as many as fit in the requested side; of an
/// exact size, its count. 0 if a module does not fit.
pub fn scale(request: &Request<'_>, code: &QrCode) -> u32
    ensures value { result ≡ scale_for request.now code.now.version }
    ensures at_most { result ≤ 65535 }
{
    match request.extent {
        Extent::Module(pixels) => pixels as u32,
        Extent::Side(pixels, _) => {
            let side = code.width() as u32 + 2 * quiet_zone(request, code);
            pixels as u32 / side
        }
        Extent::Exact(length) => length.count as u32,
    }
}
