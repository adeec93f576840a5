//! The size options: `--scale`, `--size`, `--module` and `--dpi`.

use crate::options::Purpose;
use clap::ArgMatches;
use goqlanis_files::failure::Failure;
use goqlanis_files::usage;
use goqlanis_request::{Extent, Length};
use qrcode_payloads::kinds::Kind;
use qrcode_payloads::numbers::decimal;
use qrcode_sheets::formats::{Density, Format};
use std::alloc::Global;

/// Returns the pixels per printed inch, if known: those of `--dpi`, or else of the format.
pub fn pixels_per_inch(format: Format, dpi: Option<u16>) -> Option<u16> {
    match format.row().density {
        Density::Unit => dpi.or(Some(72)),
        _ => dpi,
    }
}

/// Parses the size options. SVG, EPS and PDF take exact lengths unless `--dpi` is given.
///
/// Errors: `Usage` for a size that is malformed, out of range, or that needs `--dpi`;
/// `OutOfMemory`.
pub fn extent_of(
    alloc: Global,
    purpose: Purpose,
    given: &ArgMatches<'_>,
    format: Format,
) -> Result<Extent, Failure> {
    let dpi = given.get_one::<u16>("dpi");
    let is_exact = dpi.is_none() && format.row().is_exact;
    let dots = pixels_per_inch(format, dpi);
    // The size of a bill stands where no option says otherwise.
    let has_own = purpose.is_bill() && (is_exact || dpi.is_some()) && !given.get_flag("no-size");
    let size = given.get_str("size").or(has_own.then_some("46mm"));
    let (option, text, extent) = match (given.get_str("scale"), given.get_str("module"), size) {
        (Some(text), _, _) => ("scale", text, scale_of(text, format, is_exact)),
        (_, Some(text), _) => ("module", text, size_of(text, dots, is_exact, false)),
        (_, _, Some(text)) => ("size", text, size_of(text, dots, is_exact, true)),
        _ => return Ok(Extent::Module(format.row().pixels)),
    };
    match extent {
        Ok(extent) => Ok(extent),
        Err(why) => {
            let tip = scale_tip(purpose, option, text);
            usage!(alloc; "--{option} {text}: {why}{tip}")
        }
    }
}

// Parses the pixels of a module, or explains what to write instead. A number with a decimal makes an
// exact length: an inch has 96 pixels in SVG, and 72 in EPS and PDF.
fn scale_of(text: &str, format: Format, is_exact: bool) -> Result<Extent, &'static str> {
    let dots = if format == Format::SvgPath { 960 } else { 720 };
    match (decimal(text, 0), decimal(text, 1)) {
        (Some(whole), _) if 1 <= whole && whole <= 1_000 => Ok(Extent::Module(whole as u16)),
        (None, Some(tenths)) if is_exact && 10 <= tenths && tenths <= 10_000 => {
            Ok(Extent::Exact(Length {
                count: tenths as u16,
                dots,
                is_side: false,
            }))
        }
        _ if is_exact => Err("use a number, 1 to 1,000, with at most one decimal"),
        (None, Some(_)) if format.row().is_exact => {
            Err("use a whole number, 1 to 1,000, or leave out --dpi")
        }
        (None, Some(_)) => Err(
            "pixels are whole; use a whole number, 1 to 1,000, or --format svg, eps or pdf",
        ),
        _ => Err("use a whole number, 1 to 1,000"),
    }
}

// What else to say about a scale that is wrong: -s is no name of a network.
fn scale_tip(purpose: Purpose, option: &str, text: &str) -> &'static str {
    let is_wifi = matches!(purpose, Purpose::Content(Kind::Wifi)) && option == "scale";
    let is_number = text.starts_with(|first: char| first.is_ascii_digit() || first == '-');
    if is_wifi && !is_number {
        "; the name of the network is --ssid"
    } else {
        ""
    }
}

// Parses the size of a side, which may be in pixels, or else of a module; or explains what to write
// instead.
fn size_of(
    text: &str,
    dots: Option<u16>,
    is_exact: bool,
    is_side: bool,
) -> Result<Extent, &'static str> {
    let number = text.strip_suffix("px").unwrap_or(text).trim();
    match (parts_of(text), number.parse::<u16>()) {
        (Some(parts), _) if is_exact => length_of(parts, is_side),
        (Some(parts), _) if is_side => {
            let pixels = pixels_of(parts, dots, 0)?;
            Ok(Extent::Side(pixels, Some(parts / 18_000)))
        }
        (Some(parts), _) => Ok(Extent::Module(pixels_of(parts, dots, INCH / 2)?)),
        (None, Ok(pixels)) if is_side && pixels > 0 => Ok(Extent::Side(pixels, None)),
        _ => Err(size_help(text, is_exact, is_side)),
    }
}

// The units of exact lengths, as numbers in an inch: micrometres and tens and hundreds of them;
// points, with up to two decimals; and parts of an inch, with up to four.
static EXACT: &[u16] = &[25_400, 2_540, 254, 72, 720, 7_200, 100, 1_000, 10_000];

// Returns an exact length of the side or of a module, in the first unit of which it is a multiple.
fn length_of(parts: u64, is_side: bool) -> Result<Extent, &'static str> {
    for dots in EXACT {
        if let Some(count) = multiple_of(parts, *dots) {
            return Ok(Extent::Exact(Length {
                count,
                dots: *dots,
                is_side,
            }));
        }
    }
    if parts > INCH && parts <= MOST_EXACT {
        return Err("this long it takes fewer decimals; leave out the last");
    }
    Err(size_help("", true, is_side))
}

// The longest exact length: 65,535 tenths of a millimetre.
const MOST_EXACT: u64 = 65_535 * 180_000;

// Returns how many units a length has, of which an inch has `dots`, if that is a whole number.
fn multiple_of(parts: u64, dots: u16) -> Option<u16> {
    let unit = INCH.checked_div(dots as u64)?;
    let count = parts.checked_div(unit)?;
    match u16::try_from(count) {
        Ok(scale) if scale > 0 && count.saturating_mul(unit) == parts => Some(scale),
        _ => None,
    }
}

// Explains which sizes are valid, unless only the point is wrong.
fn size_help(text: &str, is_exact: bool, is_side: bool) -> &'static str {
    match (is_exact, is_side) {
        _ if text.contains(',') => "write a point, e.g. 3.5cm",
        (true, true) => "use pixels, 1 to 65,535, or a length, 0.001mm to 6553.5mm, e.g. 30mm",
        (true, false) => "use a length, 0.001mm to 6553.5mm, e.g. 0.5mm",
        (false, true) => "use pixels, 1 to 65,535, or a length with --dpi, e.g. 30mm",
        (false, false) => "use a length with --dpi, e.g. 0.5mm",
    }
}

// Lengths are counted in these parts of an inch, of which a micrometre, 0.001 pt and 0.0001 in are
// whole multiples.
const INCH: u64 = 45_720_000;

// Units of length: name, decimals allowed, and the parts in one unit of the last decimal.
static UNITS: &[(&str, usize, u64)] = &[
    ("mm", 3, 1_800),
    ("cm", 4, 1_800),
    ("in", 4, 4_572),
    ("pt", 3, 635),
];

/// The advice on a length of two words, a number and its unit.
pub const UNIT_APART: &str = "write the unit with the number, e.g. --size 30mm";

/// Whether a command line has a length of two words, such as `--size 30 mm`.
pub fn has_unit_apart(words: &[String]) -> bool {
    let mut is_length = false;
    for (word, next) in words.iter().zip(words.iter().skip(1)) {
        let number = match word.as_str().split_once('=') {
            Some(("--size" | "--module", number)) => number,
            None if is_length => word.as_str(),
            _ => "",
        };
        if is_number(number) && is_unit(next.as_str()) {
            return true;
        }
        is_length = matches!(word.as_str(), "--size" | "--module");
    }
    false
}

// Whether a word is a number, without a unit.
fn is_number(word: &str) -> bool {
    word.bytes().any(|byte| byte.is_ascii_digit())
        && word.bytes().all(|byte| byte.is_ascii_digit() || matches!(byte, b'.' | b','))
}

// Whether a word is a unit of lengths.
fn is_unit(word: &str) -> bool {
    let mut units = UNITS.iter().map(|(name, _, _)| *name).chain(["px"]);
    units.any(|name| word.eq_ignore_ascii_case(name))
}

// Parses a length, into parts of an inch.
fn parts_of(text: &str) -> Option<u64> {
    let end = text.len().checked_sub(2)?;
    let (number, unit) = text.get(..end).zip(text.get(end..))?;
    for (name, places, parts) in UNITS {
        if unit.eq_ignore_ascii_case(name) {
            return Some(decimal(number.trim(), *places)?.saturating_mul(*parts));
        }
    }
    None
}

// Converts a length to pixels, after adding `more` parts: rounded down without them.
fn pixels_of(parts: u64, dots: Option<u16>, more: u64) -> Result<u16, &'static str> {
    let dots = dots.ok_or(
        "lengths need --dpi, e.g. 300 for PNG or 203 for labels, or --format svg, eps or pdf",
    )?;
    let parts = parts.saturating_mul(dots as u64);
    match u16::try_from(parts.saturating_add(more) / INCH) {
        Ok(pixels) if parts >= INCH => Ok(pixels),
        Ok(_) => Err("less than a dot; use a longer one, or a higher --dpi"),
        Err(_) => Err("more than 65,535 pixels; use a lower --dpi"),
    }
}
