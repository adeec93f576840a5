//! Finds the codes in the pictures of files.

use crate::Done;
use goqlanis_files::failure::{Failure, WARNINGS, warn_of_more};
use goqlanis_files::streams::{MOST_PICTURE, read_file, read_standard_input, shown};
use goqlanis_files::{refused, warning};
use qrcode_check::Check;
use qrcode_scan::{Checks, Codes, Scan, ScanError, behind_picture, check_codes, read_codes};
use std::alloc::Global;

// The maximum size of a binary PBM picture, in bytes: 67,108,864 pixels, as for PNG.
const MOST_PACKED: usize = 8_389_632;

// Up to this many codes are found, whatever else is in the picture.
const MOST_SURE: usize = 64;

/// What is found in pictures, in order.
#[derive(Drop)]
pub(crate) struct FoundCodes {
    // Whether codes are checked, not only decoded.
    is_checked: bool,
    /// The decoded codes, unless they are checked.
    pub scans: Vec<Scan>,
    /// The checks of codes, if they are checked.
    pub checks: Vec<Check>,
}

impl FoundCodes {
    /// Returns nothing found yet; codes will be checked if `is_checked`.
    pub(crate) fn nothing(alloc: Global, is_checked: bool) -> FoundCodes {
        FoundCodes {
            is_checked,
            scans: Vec::new(alloc),
            checks: Vec::new(alloc),
        }
    }

    /// Appends what is found in the pictures in the file at `path`, or in standard input for `-`.
    /// Of several pictures, one that cannot be read is reported. Returns whether all are read and,
    /// if codes are checked, all codes decoded.
    pub(crate) fn push_file(&mut self, rt: &HostRuntime, path: &str) -> Done<bool> {
        let (name, bytes) = picture_of(rt, path)?;
        let pictures = pictures_in(rt, name, &bytes)?;
        let (count, mut is_whole) = (pictures.len(), true);
        for (place, picture) in pictures.iter().enumerate() {
            let read = if count < 2 {
                self.push_picture(rt, name, picture)
            } else {
                let number = place.saturating_add(1);
                let name = format!(in rt.alloc(); "picture {number} of {name}")?;
                self.push_picture(rt, name.as_str(), picture)
            };
            is_whole = reported(rt, count > 1, read)? && is_whole;
        }
        Ok(is_whole)
    }

    // Appends what is found in a picture that messages call `name`. Warns of codes that are found
    // but not decoded.
    fn push_picture(&mut self, rt: &HostRuntime, name: &str, picture: &[u8]) -> Done<bool> {
        let found = codes_in(rt.alloc(), name, picture, self.is_checked)?;
        let (checks, codes) = (found.checks, found.codes);
        if codes.has_faults {
            warn_of_more(rt, WARNINGS, name)?;
        }
        let is_whole = warn_of_missed(rt, &codes);
        if self.is_checked {
            for check in checks {
                self.checks.push(check)?;
            }
            return Ok(is_whole);
        }
        for scan in codes.scans {
            self.scans.push(scan)?;
        }
        Ok(true)
    }
}

// Decodes the codes in a picture that messages call `name`, and checks them if `is_checked`.
fn codes_in(alloc: Global, name: &str, picture: &[u8], is_checked: bool) -> Done<Checks> {
    let what = if is_checked { "check" } else { "read" };
    let found = if is_checked {
        check_codes(alloc, picture)
    } else {
        let checks = Vec::new(alloc);
        read_codes(alloc, picture).map(|codes| Checks { checks, codes })
    };
    match found {
        Ok(found) => Ok(found),
        Err(ScanError::OutOfMemory) => Err(Failure::OutOfMemory),
        Err(error) => refused!(alloc; "cannot {what} {name}: {error}"),
    }
}

// Reads the bytes of pictures from the file at `path`, or from standard input for `-`; returns them
// with the name that messages use.
fn picture_of<'a>(rt: &HostRuntime, path: &'a str) -> Done<(&'a str, Vec<u8>)> {
    let (name, bytes) = if path == "-" {
        let bytes = read_standard_input(rt, "a picture", MOST_PICTURE)?;
        ("standard input", bytes)
    } else {
        (path, read_file(rt, path, MOST_PICTURE)?)
    };
    if bytes.is_empty() {
        return refused!(rt.alloc(); "cannot read {name}: it is empty");
    }
    Ok((name, bytes))
}

// Returns the pictures in the file called `name`, in order. PBM and PGM files may have several, one
// after another, as netpbm defines them; others have one. Warns of what follows the last.
//
// Errors: `Refused` if a binary PBM picture has too many pixels; `OutOfMemory`.
fn pictures_in<'a>(rt: &HostRuntime, name: &str, file: &'a [u8]) -> Done<Vec<&'a [u8]>> {
    let mut pictures = Vec::new(rt.alloc());
    // (Some editors put a byte order mark before half blocks.)
    let mut rest = file.strip_prefix(b"\xef\xbb\xbf").unwrap_or(file);
    for _ in 0..file.len() {
        let behind = behind_picture(rest);
        let picture = &rest[..rest.len() - behind.len()];
        if picture.starts_with(b"P4") && picture.len() > MOST_PACKED {
            return refused!(rt.alloc();
                "cannot read {name}: it has more than 8,389,632 bytes, those of 67,108,864 pixels; \
                crop it, or make it smaller"
            );
        }
        pictures.push(picture)?;
        rest = behind;
        if !matches!(rest, [b'P', b'1' | b'4' | b'5', ..]) {
            break;
        }
    }
    if !rest.is_empty() {
        warn_of_more(rt, WARNINGS, name)?;
    }
    Ok(pictures)
}

// Warns of codes that are found but not decoded; returns whether there are none.
fn warn_of_missed(rt: &HostRuntime, codes: &Codes) -> bool {
    let mut is_none = true;
    if codes.scans.len() > MOST_SURE {
        warning!(rt; "of more than {MOST_SURE} codes some may be missed; crop the picture");
    }
    for missed in &codes.missed {
        if !codes.has_read(&missed.grid) {
            is_none = false;
            let (count, cause) = (missed.grid.count, missed.cause);
            let (x, y) = missed.corner();
            warning!(rt;
                "a code of {count} by {count} modules, at column {x} and row {y} of pixels, is not \
                read: {cause}"
            );
        }
    }
    is_none
}

/// Reports a refusal on standard error if it is of one of several pictures; returns whether there
/// is none, and everything went well.
pub(crate) fn reported(rt: &HostRuntime, is_many: bool, done: Done<bool>) -> Done<bool> {
    match done {
        Err(Failure::Refused(why)) if is_many => {
            let why = shown(why.as_str());
            let _ = eprintln!(rt; "goqlanis: {why}");
            Ok(false)
        }
        done => done,
    }
}
