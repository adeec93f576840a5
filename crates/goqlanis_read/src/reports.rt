//! Reports on decoded codes, as text or JSON.

use crate::checking::push_check;
use crate::pictures::FoundCodes;
use goqlanis_files::streams::shown;
use goqlanis_options::charsets::eci_name;
use goqlanis_options::json::{self, push_string};
use goqlanis_options::modes::mode_name;
use goqlanis_options::push_either;
use goqlanis_request::VersionName;
use qrcode::types::Mode;
use qrcode_check::masks::place_of;
use qrcode_reader::spell::{Header, Part};
use qrcode_reader::{Position, WrongCodeword};
use qrcode_scan::{Scan, shown_text};
use std::alloc::{AllocError, Global};
use std::fmt;

/// The ECI number of a character set; displayed with its name.
#[derive(Clone, Copy)]
pub(crate) struct CharacterSet(u32);

impl fmt::Display for CharacterSet {
    fn fmt<W: fmt::Write>(&self, f: &mut fmt::Formatter<W>) -> fmt::Result {
        let number = self.0;
        match eci_name(number) {
            Some(name) => write!(f, "ECI {number}, {name}"),
            None => write!(f, "ECI {number}, a character set without a known name"),
        }
    }
}

/// Returns the first character set in the headers other than UTF-8, ASCII and binary data.
pub(crate) fn other_set(parts: &[Part]) -> Option<CharacterSet> {
    for part in parts {
        if let Part::Front(Header::Eci(number)) = *part {
            if !matches!(number, 26 | 27 | 170 | 899) {
                return Some(CharacterSet(number));
            }
        }
    }
    None
}

/// Reports on what is found in a file: as JSON objects, with the data of decoded codes, or as lines
/// of text, with a heading for each of several checks; with the name of the file unless it is
/// empty. The first object is the first of all if it `is_first`.
///
/// Errors: only `AllocError`.
pub(crate) fn report(
    alloc: Global,
    found: &FoundCodes,
    file: &str,
    is_json: bool,
    is_first: bool,
) -> Result<String, AllocError> {
    let mut text = String::new(alloc);
    if !is_json && !file.is_empty() {
        write!(text, "{}:\n", shown(file))?;
    }
    for scan in &found.scans {
        if is_json {
            begin_object(&mut text, file, is_first)?;
        }
        push_scan(&mut text, scan, is_json)?;
    }
    let count = found.checks.len();
    for (place, check) in found.checks.iter().enumerate() {
        let number = place.saturating_add(1);
        if is_json {
            begin_object(&mut text, file, is_first)?;
        } else if count > 1 {
            write!(text, "code {number} of {count}\n")?;
        }
        push_check(&mut text, check, is_json)?;
    }
    Ok(text)
}

// Begins a JSON object on a line of its own, with the name of a file unless it is empty. In an
// empty text it is the first of all if it `is_first`.
fn begin_object(text: &mut String, file: &str, is_first: bool) -> Result<(), AllocError> {
    let sign = if is_first && text.is_empty() {
        '['
    } else {
        ','
    };
    write!(text, "{sign}\n{{")?;
    if file.is_empty() {
        Ok(())
    } else {
        json::push_file(text, file)
    }
}

// Appends the report on one code: the rest of its JSON object, or lines of text.
fn push_scan(text: &mut String, scan: &Scan, is_json: bool) -> Result<(), AllocError> {
    push_symbol(text, scan, is_json)?;
    push_wrong(text, &scan.any.reading.wrong, is_json)?;
    let mut sign = "";
    for part in &scan.parts {
        text.push_str(sign)?;
        push_part(text, *part, is_json)?;
        sign = if is_json { ", " } else { "" };
    }
    if is_json {
        push_data(text, scan)
    } else {
        Ok(())
    }
}

// Appends version, level, mask, sizes and position of a code.
fn push_symbol(text: &mut String, scan: &Scan, is_json: bool) -> Result<(), AllocError> {
    let (square, reading) = (&scan.square, &scan.any.reading);
    let (version, level) = (VersionName(reading.version), reading.ec_level);
    let mask = place_of(reading.version, reading.mask);
    let (count, zone, scale) = (square.count, square.zone, square.scale);
    push_either!(text, is_json;
        "\"version\": \"{version}\", \"level\": \"{level:?}\", \"mask\": {mask}, \
        \"modules\": {count}",
        "version {version}, level {level:?}, mask {mask}\n\
        modules: {count} by {count}; pixels of a module: {scale}"
    )?;
    if scan.grid.is_none() {
        push_either!(text, is_json; ", \"quiet_zone\": {zone}", "; quiet zone: {zone}")?;
    }
    let place = position_text(scan.any.position);
    let inverted = scan.is_inverted != scan.any.is_inverted;
    let shades = if inverted { ", inverted" } else { "" };
    push_either!(text, is_json;
        ", \"scale\": {scale}, \"position\": \"{place}\", \"inverted\": {inverted}, ",
        "\nposition: {place}{shades}\n"
    )
}

// Appends the wrong codewords: their number, and the block and place of each.
fn push_wrong(text: &mut String, wrong: &[WrongCodeword], is_json: bool) -> Result<(), AllocError> {
    let count = wrong.len();
    push_either!(text, is_json; "\"wrong_codewords\": [", "wrong codewords: {count}")?;
    let mut sign = if is_json {
        ""
    } else {
        ", all corrected; block.place, from 0: "
    };
    for each in wrong {
        let (block, place) = (each.block, each.place);
        push_either!(text, is_json; "{sign}[{block}, {place}]", "{sign}{block}.{place}")?;
        sign = ", ";
    }
    text.push_str(if is_json { "], \"parts\": [" } else { "\n" })
}

// Appends a segment or a header: a JSON object, or a line of text.
fn push_part(text: &mut String, part: Part, is_json: bool) -> Result<(), AllocError> {
    match part {
        Part::Bytes(mode, count) => {
            let mode = mode_name(mode);
            push_either!(text, is_json;
                "{{\"mode\": \"{mode}\", \"bytes\": {count}}}",
                "segment: {mode} mode, bytes: {count}\n"
            )
        }
        Part::Front(Header::Eci(number)) => push_set(text, CharacterSet(number), is_json),
        Part::Front(Header::Fnc1First) => push_either!(text, is_json;
            "{{\"fnc1\": \"first\"}}",
            "header: FNC1 in first position, GS1 data\n"
        ),
        Part::Front(Header::Fnc1Second(indicator)) => {
            let application = Application(indicator);
            push_either!(text, is_json;
                "{{\"fnc1\": \"second\", \"application\": \"{application}\"}}",
                "header: FNC1 in second position, application {application}\n"
            )
        }
        Part::Front(
            Header::StructuredAppend {
                place,
                last,
                parity,
            },
        ) => {
            let (number, count) = (place.saturating_add(1), last.saturating_add(1));
            push_either!(text, is_json;
                "{{\"symbol\": {number}, \"of\": {count}, \"parity\": {parity}}}",
                "header: structured append, code {number} of {count}, parity {parity}\n"
            )
        }
    }
}

// Appends the header of a character set.
fn push_set(text: &mut String, set: CharacterSet, is_json: bool) -> Result<(), AllocError> {
    let number = set.0;
    match eci_name(number) {
        _ if !is_json => write!(text, "header: {set}\n"),
        Some(name) => write!(text, "{{\"eci\": {number}, \"name\": \"{name}\"}}"),
        None => write!(text, "{{\"eci\": {number}}}"),
    }
}

// An application indicator: two digits, or a letter, encoded as its ASCII code plus 100.
#[derive(Clone, Copy)]
struct Application(u8);

impl fmt::Display for Application {
    fn fmt<W: fmt::Write>(&self, f: &mut fmt::Formatter<W>) -> fmt::Result {
        let (indicator, code) = (self.0, self.0.saturating_sub(100));
        if code.is_ascii_alphabetic() {
            let letter = char::from(code);
            write!(f, "{letter}")
        } else {
            write!(f, "{indicator:02}")
        }
    }
}

// Names a position.
fn position_text(position: Position) -> &'static str {
    match position {
        Position::Upright => "upright",
        Position::TurnedLeft => "rotated left",
        Position::UpsideDown => "upside down",
        Position::TurnedRight => "rotated right",
        Position::Mirrored => "mirrored",
        Position::Flipped => "flipped",
        Position::Transposed => "transposed",
        Position::Antitransposed => "antitransposed",
    }
}

// Ends the JSON object of a code with its data: as text if it is one, and in hex.
fn push_data(text: &mut String, scan: &Scan) -> Result<(), AllocError> {
    let data = scan.any.reading.data.as_slice();
    text.push_str("], ")?;
    if let Some(known) = shown_text(*text.allocator(), data, &scan.parts)? {
        text.push_str("\"text\": \"")?;
        push_string(text, known.as_str())?;
        text.push_str("\", ")?;
    }
    let data = hex::encode(*text.allocator(), data)?;
    write!(text, "\"hex\": \"{data}\"}}")
}
