//! The options for positions on labels, and for titles and attributes of SVG and PDF.

use clap::ArgMatches;
use goqlanis_files::failure::Failure;
use goqlanis_files::usage;
use qrcode_sheets::svg_path::{Frame, Size};
use std::alloc::Global;

/// Returns the position on a label, in dots from the left and from the top.
///
/// Errors: `Usage` if `--at` is malformed or beyond 32,000 dots; `OutOfMemory`.
pub fn place_of(alloc: Global, given: &ArgMatches<'_>) -> Result<(u32, u32), Failure> {
    let Some(text) = given.get_str("at") else {
        return Ok((0, 0));
    };
    let place = text.split_once(',').unwrap_or(("", ""));
    match (place.0.parse::<u32>(), place.1.parse::<u32>()) {
        (Ok(x), Ok(y)) if x.max(y) <= 32_000 => Ok((x, y)),
        _ => usage!(alloc;
            "--at {text}: use dots from the left and from the top, each 0 to 32,000, e.g. 50,30"
        ),
    }
}

/// Returns the attributes and texts of the SVG element; of a PDF file, the title.
///
/// Errors: `Usage` for a text that is empty, has line breaks, or characters that XML forbids;
/// `OutOfMemory`.
pub fn frame_of<'a>(alloc: Global, given: &ArgMatches<'a>) -> Result<Frame<'a>, Failure> {
    Ok(Frame {
        id: text_of(alloc, given, "svg-id")?,
        class: text_of(alloc, given, "svg-class")?,
        title: match text_of(alloc, given, "pdf-title")? {
            "" => text_of(alloc, given, "svg-title")?,
            title => title,
        },
        description: text_of(alloc, given, "svg-desc")?,
        size: if given.get_flag("no-size") {
            Size::Free
        } else {
            Size::Pixels
        },
    })
}

// Returns the text of an option, one line that XML allows; empty if the option is absent.
fn text_of<'a>(alloc: Global, given: &ArgMatches<'a>, option: &str) -> Result<&'a str, Failure> {
    let Some(text) = given.get_str(option) else {
        return Ok("");
    };
    if text.is_empty() || text.contains('\n') {
        return usage!(alloc; "--{option}: it must be one line, and not empty");
    }
    if option == "svg-id" && text.contains(' ') {
        return usage!(alloc; "--svg-id: an ID has no spaces");
    }
    if let Some(character) = text.chars().find(is_foreign) {
        let code = character as u32;
        return usage!(alloc;
            "--{option}: it contains U+{code:04X}, which is not allowed; remove it"
        );
    }
    Ok(text)
}

// Whether a character cannot occur in one line of XML.
fn is_foreign(character: &char) -> bool {
    matches!(character, '\0'..='\x1f' | '\u{fffe}' | '\u{ffff}')
}
