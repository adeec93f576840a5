//! The colour options.

use crate::formats::{takers, takes};
use crate::nearest::nearest;
use clap::ArgMatches;
use goqlanis_files::failure::Failure;
use goqlanis_files::usage;
use goqlanis_request::Request;
use qrcode::types::Color;
use qrcode_sheets::colours::{Colour, NAMES, colour_named};
use qrcode_sheets::sheet::Ink;
use qrcode_sheets::{CodePart, PartInk};
use std::alloc::{AllocError, Global};

// The options for colours of the dark or the light modules of one part of a code.
#[rattlefmt::skip]
static PART_COLOURS: &[(&str, CodePart, Color)] = &[
    ("finder-dark", CodePart::Finder, Color::Dark), ("finder-light", CodePart::Finder, Color::Light),
    ("alignment-dark", CodePart::Alignment, Color::Dark), ("alignment-light", CodePart::Alignment, Color::Light),
    ("timing-dark", CodePart::Timing, Color::Dark), ("timing-light", CodePart::Timing, Color::Light),
    ("format-dark", CodePart::FormatWord, Color::Dark), ("format-light", CodePart::FormatWord, Color::Light),
    ("version-dark", CodePart::VersionWord, Color::Dark), ("version-light", CodePart::VersionWord, Color::Light),
    ("data-dark", CodePart::Data, Color::Dark), ("data-light", CodePart::Data, Color::Light),
];

// Returns the options for colours of parts, each with its part and tone.
fn part_colours() -> &'static [(&'static str, CodePart, Color)] {
    PART_COLOURS
}

/// Returns the colours of parts that the command line gives; `--invert` swaps dark and light.
///
/// Errors: `Usage` for an unknown colour; `OutOfMemory`.
pub fn part_inks<'a>(alloc: Global, given: &ArgMatches<'a>) -> Result<Vec<PartInk<'a>>, Failure> {
    let is_inverted = given.get_flag("invert");
    let mut inks = Vec::new(alloc);
    for (option, part, tone) in part_colours() {
        if let Some(text) = given.get_str(option) {
            let ink = ink_of(alloc, option, text)?;
            let (part, tone) = (*part, if is_inverted { !*tone } else { *tone });
            inks.push(PartInk { part, tone, ink })?;
        }
    }
    Ok(inks)
}

/// Parses `text`, the value of `--option`, as a colour.
///
/// Errors: `Usage` for an unknown colour; `OutOfMemory`.
pub fn ink_of<'a>(alloc: Global, option: &str, text: &'a str) -> Result<Ink<'a>, Failure> {
    match colour_named(text) {
        Some(colour) => Ok(Ink {
            name: svg_name(alloc, text, colour)?,
            red: colour.red,
            green: colour.green,
            blue: colour.blue,
            opacity: colour.opacity,
        }),
        None => Err(Failure::Usage(unknown_colour(alloc, option, text)?)),
    }
}

// Returns the colour as SVG writes it: the given text, with # before digits (in a string that is
// leaked), or `none` for transparent.
fn svg_name<'a>(alloc: Global, text: &'a str, colour: Colour) -> Result<&'a str, AllocError> {
    if colour.opacity == 0 {
        return Ok("none");
    }
    if !text.bytes().all(|byte| byte.is_ascii_hexdigit()) {
        return Ok(text);
    }
    let digits: &'a [u8] = format!(in alloc; "#{text}")?.into_bytes().leak();
    Ok(str::from_utf8(digits).unwrap_or(text))
}

// Explains that a text is not a colour.
fn unknown_colour(alloc: Global, option: &str, text: &str) -> Result<String, AllocError> {
    let names = NAMES.iter().map(|row| row.0).collect::<Vec<&str>>(alloc)?;
    match nearest(alloc, text, &names)? {
        Some(name) => format!(in alloc; "--{option} {text}: no such colour; did you mean {name}?"),
        None => format!(in alloc;
            "--{option} {text}: no such colour; use a CSS name such as navy, or #rgb, #rrggbb or \
            #rrggbbaa"
        ),
    }
}

/// Checks that the format supports the colours: not all support transparency.
///
/// Errors: `Usage`, with the formats that do; `OutOfMemory`.
pub fn check_colours(alloc: Global, request: &Request<'_>) -> Result<(), Failure> {
    let is_opaque = request.dark.opacity == 255 && request.light.opacity == 255;
    let are_opaque = request.parts.iter().all(|part| part.ink.opacity == 255);
    let (what, of) = if !is_opaque && !takes(request.format, "transparent") {
        ("transparent", "")
    } else if !are_opaque && !takes(request.format, "transparent-parts") {
        ("transparent-parts", " of parts")
    } else {
        return Ok(());
    };
    let names = takers(alloc, what)?;
    usage!(alloc; "transparent colours{of} go with --format {names}")
}

/// Returns the first option on the command line that colours a part.
pub fn part_colour(given: &ArgMatches<'_>) -> Option<&'static str> {
    let mut options = part_colours().iter().map(|(option, _, _)| *option);
    options.find(|option| given.contains_id(option))
}
