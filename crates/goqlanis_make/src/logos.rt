//! Logo files: PNG and SVG.

use crate::Done;
use base64::engine::general_purpose::STANDARD;
use goqlanis_files::failure::{Doubts, Failure, warn_of_more};
use goqlanis_files::refused;
use goqlanis_options::logos::Logo;
use qrcode_png::{Picture, PngError, read};
use std::alloc::{AllocError, Global};

/// Decodes a PNG logo to pixels; `path` names the file in messages, and `file` is its content.
/// Extra or faulty data beside the picture gets a warning, or is an error.
pub(crate) fn pixels_of(
    rt: &HostRuntime,
    doubts: Doubts<'_>,
    path: &str,
    file: &[u8],
) -> Done<Logo> {
    let why = "a PNG file takes a PNG logo; save it as PNG, or use --format svg";
    let picture = picture_of(rt, doubts, path, file, why)?;
    let (across, down) = picture.sides();
    Ok(Logo::Pixels(picture.pixels(rt.alloc())?, across as u16, down as u16))
}

/// Makes an SVG element of a PNG or SVG logo; `path` names the file in messages, and `file` is its
/// content. Data after a PNG picture gets a warning, or is an error.
pub(crate) fn element_of(
    rt: &HostRuntime,
    doubts: Doubts<'_>,
    path: &str,
    file: &[u8],
) -> Done<Logo> {
    let alloc = rt.alloc();
    let Ok(text) = str::from_utf8(file) else {
        let (across, down) = picture_of(rt, doubts, path, file, UNKNOWN)?.sides();
        return Ok(image(alloc, across as u32, down as u32, "png", file)?);
    };
    match svg_sides(text) {
        Ok((across, down)) => Ok(image(alloc, across, down, "svg+xml", file)?),
        Err(why) => refused!(alloc; "--logo {path}: {why}"),
    }
}

// Decodes a PNG file; `other` is the message for any other kind of file.
fn picture_of(
    rt: &HostRuntime,
    doubts: Doubts<'_>,
    path: &str,
    file: &[u8],
    other: &str,
) -> Done<Picture> {
    let alloc = rt.alloc();
    match read(alloc, file) {
        Ok(picture) => {
            if picture.has_faults() {
                warn_of_more(rt, doubts, path)?;
            }
            Ok(picture)
        }
        Err(PngError::OutOfMemory) => Err(Failure::OutOfMemory),
        Err(PngError::NotPng) => refused!(alloc; "--logo {path}: {other}"),
        Err(why) => refused!(alloc; "--logo {path}: {why}"),
    }
}

// Messages for files that cannot be logos.
const UNKNOWN: &str = "it is neither a PNG file nor SVG in UTF-8";

const SCRIPTS: &str = "it has scripts or entities; save it as plain SVG";

const SIZELESS: &str = "its svg element needs a viewBox, or width and height in pixels";
// Without it, no browser draws the file as an image.
const NAMELESS: &str =
    "its svg element needs xmlns=\"http://www.w3.org/2000/svg\", as every SVG file has";

// Embeds a picture file of this width and height as an image: so it draws nothing outside its box,
// and its styles do not affect the code.
fn image(
    alloc: Global,
    across: u32,
    down: u32,
    kind: &str,
    file: &[u8],
) -> Result<Logo, AllocError> {
    let data = STANDARD.encode(alloc, file)?;
    let rest = format!(in alloc;
        " viewBox=\"0 0 {across} {down}\"><image width=\"{across}\" height=\"{down}\" \
        xmlns:xlink=\"http://www.w3.org/1999/xlink\" \
        xlink:href=\"data:image/{kind};base64,{data}\"/></svg>"
    )?;
    Ok(Logo::Element(across, down, rest))
}

// Returns the width and height of an SVG file, in proportion.
fn svg_sides(text: &str) -> Result<(u32, u32), &'static str> {
    if text.contains("<script") || text.contains("<!ENTITY") || has_handler(text) {
        return Err(SCRIPTS);
    }
    let root = behind_prolog(text).and_then(|text| text.strip_prefix("<svg"));
    let root = root.filter(|_| text.trim_end().ends_with("</svg>"));
    root.map_or(Err(UNKNOWN), sides)
}

// Whether an SVG file has an attribute that browsers execute, such as `onload`.
fn has_handler(text: &str) -> bool {
    let mut begins = false;
    for word in text.split_whitespace() {
        if begins && word.starts_with('=') {
            return true;
        }
        begins = word.starts_with("on");
        if begins && word.contains('=') {
            return true;
        }
    }
    text.contains("javascript:")
}

// How what may precede the root of an XML file begins and ends: a declaration, a comment, and the
// document type.
static PROLOG: &[(&str, &str)] = &[("<?", "?>"), ("<!--", "-->"), ("<!DOCTYPE", ">")];

// Skips what precedes the root of an XML file.
fn behind_prolog(text: &str) -> Option<&str> {
    let mut left = text.strip_prefix('\u{feff}').unwrap_or(text);
    for _ in 0..100 {
        left = left.trim_start();
        let Some((_, end)) = PROLOG.iter().find(|(begin, _)| left.starts_with(*begin)) else {
            return Some(left);
        };
        left = left.split_once(*end)?.1;
    }
    None
}

// Parses an attribute: returns its name, its value, and the rest.
fn next_attribute(text: &str) -> Option<(&str, &str, &str)> {
    let (name, behind) = text.split_once('=')?;
    let behind = behind.trim_start();
    let mark = if behind.starts_with('"') { '"' } else { '\'' };
    let (value, rest) = behind.strip_prefix(mark)?.split_once(mark)?;
    let name = name.trim_end();
    if name.contains(|c: char| c.is_whitespace() || matches!(c, '<' | '>' | '/')) {
        return None;
    }
    Some((name, value, rest))
}

// Returns the value of an attribute of the root element, whose name is left out: empty if it has no
// such attribute, `None` if it is no element.
fn attribute<'a>(root: &'a str, wanted: &str) -> Option<&'a str> {
    let (mut left, mut found) = (root, "");
    for _ in 0..root.len() {
        left = left.trim_start();
        if left.starts_with('>') {
            return Some(found);
        }
        let (name, value, rest) = next_attribute(left)?;
        if name == wanted {
            found = value;
        }
        left = rest;
    }
    None
}

// Returns the proportions of a root element: of its width and height in pixels, or of its viewBox.
fn sides(root: &str) -> Result<(u32, u32), &'static str> {
    let value = |name| attribute(root, name).ok_or(UNKNOWN);
    let mut units = value("viewBox")?
        .split(|c: char| c == ',' || c.is_ascii_whitespace())
        .filter(|number| !number.is_empty())
        .skip(2);
    let found = pixels(value("width")?).zip(pixels(value("height")?));
    let (across, down) = found.or(units.next().zip(units.next())).ok_or(SIZELESS)?;
    if value("xmlns")? != "http://www.w3.org/2000/svg" {
        return Err(NAMELESS);
    }
    whole(across).zip(whole(down)).ok_or(SIZELESS)
}

// Strips the unit of a number of pixels; `None` if it is not one.
fn pixels(text: &str) -> Option<&str> {
    let number = text
        .strip_suffix("px")
        .map_or(text, |number| number.trim_end());
    let is_number = number
        .bytes()
        .all(|byte| byte.is_ascii_digit() || byte == b'.');
    (is_number && !number.is_empty()).then_some(number)
}

// Returns the integer part of a decimal number, at least 1; `None` if the number is 0, or none.
fn whole(number: &str) -> Option<u32> {
    let digits = number.split_once('.').map_or(number, |(digits, _)| digits);
    let is_zero = number.bytes().all(|byte| matches!(byte, b'0' | b'.'));
    let whole = digits.parse::<u32>().ok()?.max(1);
    (!is_zero).then_some(whole)
}
