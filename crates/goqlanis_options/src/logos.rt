//! The logo options.

use crate::options::Purpose;
use clap::ArgMatches;
use goqlanis_files::failure::Failure;
use goqlanis_files::usage;
use goqlanis_request::areas::LogoSize;
use qrcode_damage::rectangles::Kept;
use qrcode_sheets::formats::{Format, LogoForm};
use std::alloc::Global;

/// A logo, ready to draw: pixels for PNG, or an element for SVG.
#[derive(Drop)]
pub enum Logo {
    /// Red, green, blue and opacity of each pixel, row by row; then width and height in pixels.
    Pixels(Vec<[u8; 4]>, u16, u16),
    /// Width and height, in proportion; and the rest of its `svg` element after the position: the
    /// `viewBox`, and the file as an image.
    Element(u32, u32, String),
}

/// The middle of a code.
#[derive(Clone, Copy)]
pub enum Middle<'a> {
    /// An empty area of light modules.
    Light,
    Logo(&'a Logo),
    /// The Swiss cross of a bill.
    Cross,
}

/// The logo or empty area that the command line asks for.
#[derive(Clone, Copy)]
pub struct AskedLogo<'a> {
    /// The file of the logo.
    pub file: Option<&'a str>,
    /// What to draw there; `Light` until the logo file is read.
    pub middle: Middle<'a>,
    pub size: LogoSize,
    /// The patterns that the area must not cover.
    pub kept: Kept,
    /// The light modules around the logo.
    pub margin: u8,
}

// The Swiss cross in the middle of a bill.
const SWISS_CROSS: AskedLogo<'static> = AskedLogo {
    file: None,
    middle: Middle::Cross,
    size: LogoSize::Largest,
    kept: Kept::ButAlignment,
    margin: 0,
};

/// Returns the logo or empty area that the command line asks for, if any; the file is read later. A
/// bill has the Swiss cross, in formats that support it.
///
/// Errors: `Usage` for a size that is not one, or options that need `--logo` or `--logo-area`, or
/// if the code has no room for them; `OutOfMemory`.
pub fn logo_of<'a>(
    alloc: Global,
    purpose: Purpose,
    given: &ArgMatches<'a>,
    format: Format,
) -> Result<Option<AskedLogo<'a>>, Failure> {
    let keeps_alignment = given.get_flag("keep-alignment");
    if given.contains_id("logo") || given.get_flag("logo-area") {
        if purpose.is_bill() {
            return usage!(alloc; "--logo, --logo-area: a bill has the Swiss cross in its middle");
        }
        if matches!(purpose, Purpose::Damage) {
            return usage!(alloc; "--logo, --logo-area: a damaged code has no room for them");
        }
        return Ok(Some(AskedLogo {
            file: given.get_str("logo"),
            middle: Middle::Light,
            size: size_of(alloc, given.get_str("logo-size"))?,
            kept: if keeps_alignment {
                Kept::AllPatterns
            } else {
                Kept::ButAlignment
            },
            margin: given.get_one::<u8>("logo-margin").unwrap_or(1),
        }));
    }
    if keeps_alignment || given.contains_id("logo-size") || given.contains_id("logo-margin") {
        return usage!(alloc;
            "--logo-size, --logo-margin and --keep-alignment go with --logo FILE or --logo-area"
        );
    }
    let has_cross = purpose.is_bill() && format.row().middle != LogoForm::Light;
    Ok(has_cross.then_some(SWISS_CROSS))
}

// Parses the size of the area: modules, or percent of the side.
fn size_of(alloc: Global, text: Option<&str>) -> Result<LogoSize, Failure> {
    let Some(text) = text else {
        return Ok(LogoSize::Largest);
    };
    let size = match text.strip_suffix('%') {
        Some(part) => part.parse::<u32>().map(LogoSize::Percent),
        None => text.parse::<usize>().map(LogoSize::Modules),
    };
    match size {
        Ok(size) if !matches!(size, LogoSize::Percent(0)) => Ok(size),
        _ => usage!(alloc;
            "--logo-size {text}: use modules, e.g. 9, or percent of the code's side, e.g. 20%"
        ),
    }
}
