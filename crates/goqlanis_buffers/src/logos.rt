//! Draws PNG files with a logo over some modules.

ghost use Rattle.std.specs.Prelude.{◌≡◌, ℕ, List, Some, IfOk, IfErr, IsOkUnless};
ghost use Rattle.qrcode_types.specs.declared.types.QrError.TheVariants.{OutOfMemory};
ghost use Rattle.qrcode_png.specs.Image.{image_of};
ghost use Rattle.qrcode_sheets.specs.Places.{HasPixels};
ghost use Rattle.goqlanis_buffers.specs.Asking.{IsDrawable};
ghost use Rattle.goqlanis_buffers.specs.Logos.{logo_place, logo_refusal, IsPlaceCause, IsWithLogo, MayHaveLogo, WritesLogo};

use crate::answers::Refusal;
use crate::pictures::{Asked, drawn, format_of, side_of};
use crate::symbols::fill;
use goqlanis_request::overlays::window_of;
use goqlanis_request::places::place_at;
use goqlanis_request::shrinking::shrunk;
use qrcode::types::QrResult;
use qrcode_damage::areas::Rectangle;
use qrcode_png::{Picture, PngError, read};
use qrcode_sheets::formats::Format;
use qrcode_sheets::sheet::Overlay;
use qrcode_sheets::{GREATEST_PAINTED, Inset, Region};
use std::alloc::Global;

/// Draws a picture with a logo, the PNG file `logo`, over the modules of `area` to the start of
/// `out`, and returns its length.
///
/// Errors, the first that applies: `NoSuchStruct`, `NoSuchFormat`, `NotSquare`, `NoSuchSize`,
/// `NotInFormat`, `NoSuchSide`; `NotInFormat` if it is no PNG file, `NoSuchSize` if it has more than
/// `GREATEST_PAINTED` pixels a side, `NoSuchArea`, `NotPicture`, `BrokenPicture`, `SmallBuffer`; or
/// `OutOfMemory`. After an error `out` is unchanged.
pub fn put_with_logo(
    alloc: Global,
    asked: &Asked<'_>,
    logo: &[u8],
    area: Rectangle,
    out: &mut [u8],
) -> Result<usize, Refusal>
    ensures { WritesLogo asked.now logo.now area out.old out.new result }
{
    let format = format_of(asked)?;
    let place = place_of(asked, format, area)?;
    let picture = match read(alloc, logo) {
        Ok(picture) => picture,
        Err(unread) => return Err(logo_refusal(unread)),
    };
    let Ok(bytes) = drawn_over(alloc, asked, area, place, &picture) else {
        return Err(logo_refusal(PngError::OutOfMemory));
    };
    if out.len() < bytes.len() {
        return Err(Refusal::SmallBuffer);
    }
    fill(out, &bytes);
    Ok(bytes.len())
}

// The place of an area in pixels, if the picture may have a logo there.
fn place_of(asked: &Asked<'_>, format: Format, area: Rectangle) -> Result<Region, Refusal>
    requires { IsDrawable asked.now format }
    ensures may { IfOk result (λ _. MayHaveLogo asked.now area) }
    ensures value { IfOk result (λ place. place ≡ logo_place asked.now area) }
    ensures pixels { IfOk result HasPixels }
    ensures causes { IfErr result (IsPlaceCause asked.now area) }
{
    if !matches!(format, Format::Png) {
        return Err(Refusal::NotInFormat);
    }
    if side_of(asked, format) > GREATEST_PAINTED as usize {
        return Err(Refusal::NoSuchSize);
    }
    let (zone, scale) = (asked.drawing.zone, asked.drawing.scale);
    place_at(asked.width as usize, zone, scale, area, 0).ok_or(Refusal::NoSuchArea)
}

// Converts the error of a file that is not read.
fn logo_refusal(unread: PngError) -> Refusal
    ensures { result ≡ logo_refusal unread }
{
    match unread {
        PngError::NotPng => Refusal::NotPicture,
        PngError::OutOfMemory => Refusal::OutOfMemory,
        _ => Refusal::BrokenPicture,
    }
}

// Draws a picture with a logo in its place. Errors: only `OutOfMemory`.
fn drawn_over(
    alloc: Global,
    asked: &Asked<'_>,
    area: Rectangle,
    place: Region,
    picture: &Picture,
) -> QrResult<Vec<u8>>
    requires may { MayHaveLogo asked.now area }
    requires place { place ≡ logo_place asked.now area }
    requires pixels { HasPixels place }
    ensures shown { (file : List ℕ) → image_of file ≡ Some picture.now
        → IfOk result (λ bytes. IsWithLogo asked.now file area bytes.items) }
    ensures memory { IsOkUnless result OutOfMemory }
{
    let pixels = picture.pixels(alloc)?;
    let (across, down) = picture.sides();
    let (across, down) = (across as u16, down as u16);
    let whole = Inset {
        pixels: &pixels,
        across,
        down,
        place: place.fitted(across, down),
    };
    let small = shrunk(alloc, whole)?;
    let shown = match &small {
        Some(pixels) => Inset {
            pixels,
            across: whole.place.width as u16,
            down: whole.place.height as u16,
            ..whole
        },
        None => whole,
    };
    let over = Overlay::Pixels(window_of(area), shown);
    drawn(alloc, asked, Format::Png, over)
}
