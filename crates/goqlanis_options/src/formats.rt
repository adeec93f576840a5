//! Formats: which one is drawn, and the options that each takes.

use crate::asked::{Target, is_given};
use crate::colours::part_colour;
use clap::ArgMatches;
use goqlanis_files::failure::Failure;
use goqlanis_files::streams::has_colours;
use goqlanis_files::usage;
use qrcode_sheets::formats::{
    Colours, Density, FORMATS, Format, LogoForm, format_named, format_of_ending,
};
use std::alloc::{AllocError, Global};
use std::fs;

/// Returns the format: the given one, or that of the file extension, or the one for terminals; PNG
/// if nothing is drawn.
///
/// Errors: `Usage` for a file extension that no format has; `OutOfMemory`.
pub(crate) fn format_of(
    rt: &HostRuntime,
    name: Option<&str>,
    target: Target<'_>,
    is_dry: bool,
) -> Result<Format, Failure> {
    let path = match (name.and_then(format_named), target) {
        (Some(format), _) => return Ok(format),
        (None, Target::File(path)) => path,
        (None, _) if is_dry => return Ok(Format::Png),
        (None, Target::Terminal) if has_colours(rt) => return Ok(Format::Terminal),
        (None, _) => return Ok(Format::HalfBlocks),
    };
    if let Some(format) = ending_format(path) {
        return Ok(format);
    }
    if fs::metadata(rt, path).is_ok_and(|found| found.is_dir()) {
        return usage!(rt.alloc(); "--output {path}: it is a folder; name a file in it");
    }
    let known = FORMATS
        .iter()
        .filter_map(|row| row.ending)
        .collect::<Vec<&str>>(rt.alloc())?;
    let endings = known.join(rt.alloc(), " .")?;
    usage!(rt.alloc();
        "--output {path}: the file extension is none of .{endings}; use one of these and convert \
        the file, or add --format"
    )
}

/// Returns the format that belongs to the file extension of `path`.
pub(crate) fn ending_format(path: &str) -> Option<Format> {
    let (_, ending) = path.rsplit_once('.')?;
    format_of_ending(ending)
}

/// Whether a format takes an option; or a series of pictures, or transparent colours of all modules
/// or of parts.
pub fn takes(format: Format, option: &str) -> bool {
    let row = format.row();
    match option {
        "series" => row.is_series || format == Format::Pdf,
        "dark" | "light" => row.colours != Colours::Fixed,
        "transparent" => row.colours == Colours::Any,
        "transparent-parts" => row.parts == Colours::Any,
        "dpi" => row.density != Density::Nothing,
        "invert" => format != Format::Pic,
        "at" => row.has_place,
        "logo" => matches!(row.middle, LogoForm::Element | LogoForm::Pixels),
        "svg-title" | "svg-desc" | "svg-id" | "svg-class" | "no-size" => format == Format::SvgPath,
        "pdf-title" => format == Format::Pdf,
        _ => row.parts != Colours::Fixed,
    }
}

/// Returns the names of the formats that take an option, with commas between.
///
/// Errors: only `AllocError`.
pub(crate) fn takers(alloc: Global, option: &str) -> Result<String, AllocError> {
    let mut names = Vec::new(alloc);
    for row in FORMATS {
        if let Some(name) = row.name.filter(|_| takes(row.format, option)) {
            names.push(name)?;
        }
    }
    names.join(alloc, ", ")
}

// Options that not all formats take, besides the colours of parts.
const LIMITED: &str =
    "dark light dpi invert at logo svg-title svg-desc svg-id svg-class no-size pdf-title";

/// Checks that the format takes the given options.
///
/// Errors: `Usage`, with the formats that do; `OutOfMemory`.
pub(crate) fn check_format(
    alloc: Global,
    given: &ArgMatches<'_>,
    format: Format,
) -> Result<(), Failure> {
    // (No option is called "".)
    let part = part_colour(given).unwrap_or("");
    for option in LIMITED.split(' ').chain([part]) {
        if is_given(given, option) && !takes(format, option) {
            let names = takers(alloc, option)?;
            let tip = match option {
                "logo" => "; --logo-area leaves room for one in any format",
                "dpi" if format == Format::SvgPath => "; lengths in SVG are exact without it",
                _ => "",
            };
            return usage!(alloc; "--{option} goes with --format {names}{tip}");
        }
    }
    Ok(())
}
