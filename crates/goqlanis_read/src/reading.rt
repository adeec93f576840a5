//! `goqlanis read` and `check`: reports on the codes in pictures.

use crate::Done;
use crate::pictures::{FoundCodes, reported};
use crate::reports::{other_set, report};
use goqlanis_files::streams::{shown, write_data};
use goqlanis_files::warning;
use goqlanis_options::asked::ReportForm;
use goqlanis_options::pictures::{Pictures, STANDARD_INPUT};
use qrcode::types::Version;
use qrcode_scan::{Scan, shown_text};
use std::process::ExitCode;

/// Decodes pictures, and writes the data of their codes. Of several pictures, one that cannot be
/// read is reported, and the status is then 1.
pub fn read(rt: &HostRuntime, pictures: &Pictures<'_, '_>) -> Done<ExitCode> {
    write_found(rt, pictures, false)
}

/// Checks the codes in pictures and prints a report. The status is 1 if a code departs from the
/// standard or is not decoded, or if one of several pictures cannot be read.
pub fn check(rt: &HostRuntime, pictures: &Pictures<'_, '_>) -> Done<ExitCode> {
    write_found(rt, pictures, true)
}

// Writes what is decoded in pictures, or the reports on their codes if they are checked.
fn write_found(rt: &HostRuntime, pictures: &Pictures<'_, '_>, is_checked: bool) -> Done<ExitCode> {
    let is_json = pictures.report == ReportForm::Json;
    let mut is_whole = true;
    let mut data = Vec::new(rt.alloc());
    for name in pictures.names.unwrap_or(STANDARD_INPUT) {
        let done = push_found(rt, pictures, name, is_checked, &mut data);
        is_whole = reported(rt, pictures.is_many || is_json, done)? && is_whole;
    }
    if is_json {
        let end = if data.is_empty() { "[\n]\n" } else { "\n]\n" };
        data.extend_from_slice(end.as_bytes())?;
    }
    write_data(rt, pictures.output, &data)?;
    Ok(ExitCode::from(u8::from(!is_whole)))
}

// Appends what is decoded in the pictures of a file, or the reports on their codes if they are
// checked. Returns whether all pictures are read and, if checked, follow the standard.
fn push_found(
    rt: &HostRuntime,
    pictures: &Pictures<'_, '_>,
    name: &str,
    is_checked: bool,
    data: &mut Vec<u8>,
) -> Done<bool> {
    let file = if pictures.is_many { name } else { "" };
    let is_json = pictures.report == ReportForm::Json;
    let mut found = FoundCodes::nothing(rt.alloc(), is_checked);
    let is_whole = found.push_file(rt, name)?;
    if is_checked || pictures.report != ReportForm::Nothing {
        let text = report(rt.alloc(), &found, file, is_json, data.is_empty())?;
        if is_checked || is_json {
            data.extend_from_slice(text.as_bytes())?;
        } else {
            let _ = eprint!(rt; "{text}");
        }
    }
    for scan in &found.scans {
        warn_of_data(rt, scan)?;
    }
    if !is_json {
        push_all(data, &found.scans, file)?;
    }
    Ok(is_whole && found.checks.iter().all(|check| check.is_standard()))
}

// Warns of data that may be wrong, or is in a character set that is not known here.
fn warn_of_data(rt: &HostRuntime, scan: &Scan) -> Done<()> {
    let read = &scan.any.reading;
    if read.version == Version::Micro(1) && !read.wrong.is_empty() {
        warning!(rt;
            "version M1 lets readers notice damage, not correct it; the data may be wrong"
        );
    }
    if let Some(set) = other_set(&scan.parts) {
        if shown_text(rt.alloc(), &read.data, &scan.parts)?.is_none() {
            warning!(rt; "the data has text in {set}, which is written as its bytes");
        }
    }
    Ok(())
}

// Appends the data of a code: its text if a header names a set of ISO/IEC 8859, else its bytes.
fn push_data(data: &mut Vec<u8>, scan: &Scan) -> Done<()> {
    let bytes = &scan.any.reading.data;
    if other_set(&scan.parts).is_some() {
        if let Some(text) = shown_text(*data.allocator(), bytes, &scan.parts)? {
            return Ok(data.extend_from_slice(text.as_bytes())?);
        }
    }
    Ok(data.extend_from_slice(bytes)?)
}

// Appends the data of a picture's only code; of several codes, or after the name of the file, each
// on a line.
fn push_all(data: &mut Vec<u8>, scans: &[Scan], file: &str) -> Done<()> {
    if let ([only], "") = (scans, file) {
        return push_data(data, only);
    }
    for scan in scans {
        if !file.is_empty() {
            let name = format!(in *data.allocator(); "{}: ", shown(file))?;
            data.extend_from_slice(name.as_bytes())?;
        }
        push_data(data, scan)?;
        data.push(b'\n')?;
    }
    Ok(())
}
