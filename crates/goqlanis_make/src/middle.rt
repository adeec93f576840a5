//! The middle of a code: a logo, the Swiss cross, or an empty area.

ghost use Rattle.std.specs.Prelude.{IfOk, IsErr};
ghost use Rattle.qrcode_sheets.specs.Places.{HasPixels};

use crate::Done;
use crate::logos::{element_of, pixels_of};
use goqlanis_files::failure::Failure;
use goqlanis_files::refused;
use goqlanis_files::streams::read_file;
use goqlanis_options::asked::Job;
use goqlanis_options::logos::{AskedLogo, Logo, Middle};
use goqlanis_request::Request;
use goqlanis_request::overlays::{CROSS_UNITS, Inside, cross_pixels, cross_width, with_logo};
use goqlanis_request::places::place_in;
use goqlanis_request::shrinking::shrunk;
use qrcode::QrCode;
use qrcode_damage::areas::Rectangle;
use qrcode_sheets::formats::LogoForm;
use qrcode_sheets::{Inset, Region};
use std::alloc::Global;

// The maximum size of a logo file: 1 MiB.
const MOST_LOGO: usize = 1_048_576;

/// Reads the logo file, once for all codes; returns `None` without `--logo`.
pub(crate) fn read_logo(rt: &HostRuntime, asked: &Job<'_, '_>) -> Done<Option<Logo>> {
    let Some(path) = asked.logo.and_then(|logo| logo.file) else {
        return Ok(None);
    };
    let file = read_file(rt, path, MOST_LOGO)?;
    Ok(Some(if asked.request.format.row().middle == LogoForm::Pixels {
        pixels_of(rt, asked.doubts, path, &file)?
    } else {
        element_of(rt, asked.doubts, path, &file)?
    }))
}

/// Whether what is in the middle is drawn as pixels.
pub(crate) fn has_pixels(asked: &Job<'_, '_>) -> bool {
    asked
        .logo
        .as_ref()
        .is_some_and(|logo| !matches!(logo.middle, Middle::Light))
}

/// Draws a code with the requested logo, cross or nothing in this area.
///
/// Errors: `Refused` if a logo has no room there; `OutOfMemory`.
pub(crate) fn draw_with_middle(
    alloc: Global,
    request: &Request<'_>,
    logo: &AskedLogo<'_>,
    code: &QrCode,
    area: Rectangle,
) -> Done<Vec<u8>> {
    let is_png = request.format.row().middle == LogoForm::Pixels;
    let spot = Spot {
        alloc,
        request,
        code,
        area,
    };
    match logo.middle {
        Middle::Logo(Logo::Pixels(pixels, across, down)) => {
            let place = spot.place(logo.margin)?.fitted(*across, *down);
            spot.draw_logo(Inset {
                pixels,
                across: *across,
                down: *down,
                place,
            })
        }
        Middle::Logo(Logo::Element(_, _, rest)) => {
            spot.draw(Inside::Element(logo.margin, rest.as_str()))
        }
        Middle::Cross if is_png => spot.draw_cross(),
        Middle::Cross => spot.draw(Inside::Cross),
        Middle::Light => spot.draw(Inside::Nothing),
    }
}

// An area in a code that is drawn as requested.
#[derive(Clone, Copy)]
struct Spot<'a> {
    alloc: Global,
    request: &'a Request<'a>,
    code: &'a QrCode,
    area: Rectangle,
}

impl Spot<'_> {
    // Draws the code with a logo in the area, as a PNG file. A logo with more pixels than its place
    // is shrunk to them.
    fn draw_logo(&self, logo: Inset<'_>) -> Done<Vec<u8>> {
        let small = shrunk(self.alloc, logo)?;
        let shown = match &small {
            Some(pixels) => Inset {
                pixels,
                across: logo.place.width as u16,
                down: logo.place.height as u16,
                ..logo
            },
            None => logo,
        };
        self.draw(Inside::Pixels(shown))
    }

    // Draws the code with the Swiss cross, as a PNG file.
    fn draw_cross(&self) -> Done<Vec<u8>> {
        let width = cross_width(self.request, self.code);
        let pixels = cross_pixels(self.alloc)?;
        self.draw(Inside::Pixels(Inset {
            pixels: &pixels,
            across: CROSS_UNITS,
            down: CROSS_UNITS,
            place: self.place(0)?.square(width),
        }))
    }

    // Draws the code with something in the area.
    fn draw(&self, inside: Inside<'_>) -> Done<Vec<u8>> {
        match with_logo(self.alloc, self.request, self.code, self.area, inside) {
            Ok(Some(bytes)) => Ok(bytes),
            Ok(None) => self.no_room(),
            Err(_) => Err(Failure::OutOfMemory),
        }
    }

    // Returns the place of the area within a margin, in pixels.
    fn place(&self, margin: u8) -> Done<Region>
        ensures { IfOk result HasPixels }
    {
        match place_in(self.request, self.code, self.area, margin) {
            Some(place) => Ok(place),
            None => self.no_room(),
        }
    }

    // Fails: the area is too small for a logo within its margin.
    fn no_room<T>(&self) -> Done<T>
        ensures { IsErr result }
    {
        let (width, height) = (self.area.width, self.area.height);
        refused!(self.alloc;
            "the area of {width} by {height} modules leaves no room for a logo within its margin; \
            use a smaller --logo-margin, a larger --logo-size, or a larger version with -v"
        )
    }
}
