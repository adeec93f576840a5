//! `goqlanis join`: joins the data of the codes that `split` made.

use crate::Done;
use crate::checking::numbers;
use crate::pictures::FoundCodes;
use goqlanis_files::failure::Failure;
use goqlanis_files::refused;
use goqlanis_files::streams::write_data;
use goqlanis_options::pictures::{Pictures, STANDARD_INPUT};
use qrcode_append::errors::JoinError;
use qrcode_append::{Part, join};
use qrcode_reader::spell::{self, Header};
use qrcode_scan::Scan;
use std::alloc::{AllocError, Global};
use std::process::ExitCode;

/// Decodes the codes of a split and writes their joined data. A single code may lack the structured
/// append header, as `split` makes it.
pub fn join_pictures(rt: &HostRuntime, pictures: &Pictures<'_, '_>) -> Done<ExitCode> {
    let names = pictures.names.unwrap_or(STANDARD_INPUT);
    let output = pictures.output;
    let mut sources = Vec::new(rt.alloc());
    let mut found = FoundCodes::nothing(rt.alloc(), false);
    for name in names {
        if !found.push_file(rt, name)? {
            return Ok(ExitCode::FAILURE);
        }
        for _ in sources.len()..found.scans.len() {
            sources.push(*name)?;
        }
    }
    match found.scans.as_slice() {
        [only] if part_of(only).is_none() => write_data(rt, output, &only.any.reading.data),
        scans => write_data(rt, output, &join_scans(rt.alloc(), &sources, scans)?),
    }
}

// Joins the data of codes, found in pictures of these names, in the order of their headers.
fn join_scans(alloc: Global, names: &[&str], scans: &[Scan]) -> Done<Vec<u8>> {
    let mut parts = Vec::with_capacity(alloc, scans.len())?;
    for (name, scan) in names.iter().zip(scans) {
        let Some(part) = part_of(scan) else {
            return refused!(alloc; "{name}: it is not part of a split; goqlanis read decodes it");
        };
        parts.push(part)?;
    }
    match join(alloc, &parts) {
        Ok(data) => Ok(data),
        Err(JoinError::OutOfMemory) => Err(Failure::OutOfMemory),
        Err(JoinError::Stranger(index)) => {
            let first = names.first().unwrap_or(&"");
            let name = names.get(index).unwrap_or(&"");
            refused!(alloc; "{name}: it belongs to other data than {first}")
        }
        Err(JoinError::Missing(_)) => {
            let missing = missing_places(alloc, &parts)?;
            refused!(alloc; "missing parts: {missing}; name the pictures of all parts")
        }
        Err(JoinError::Twice(place)) => {
            let number = place.saturating_add(1);
            let both = names_at(alloc, names, &parts, place)?;
            refused!(alloc; "part {number} is there twice:{both}; leave one out")
        }
        Err(JoinError::Parity) => refused!(alloc;
            "the pictures do not belong to the same data: their parity differs"
        ),
    }
}

// Returns the part of a split that a code holds, if it has that header.
fn part_of(scan: &Scan) -> Option<Part<'_>> {
    scan.parts.iter().find_map(|part| match *part {
        spell::Part::Front(
            Header::StructuredAppend {
                place,
                last,
                parity,
            },
        ) => Some(Part {
            place,
            last,
            parity,
            bytes: &scan.any.reading.data,
        }),
        _ => None,
    })
}

// Lists the pictures that show the part at `place`, each after a space.
fn names_at(
    alloc: Global,
    names: &[&str],
    parts: &[Part<'_>],
    place: usize,
) -> Result<String, AllocError> {
    let mut text = String::new(alloc);
    for (name, part) in names.iter().zip(parts) {
        if part.place as usize == place {
            write!(text, " {name}")?;
        }
    }
    Ok(text)
}

// Lists the numbers of missing parts.
fn missing_places(alloc: Global, parts: &[Part<'_>]) -> Result<String, AllocError> {
    let last = parts.first().map_or(0, |part| part.last) as usize;
    let mut missing = Vec::new(alloc);
    for place in 0..last + 1 {
        if !parts.iter().any(|part| part.place as usize == place) {
            missing.push(place.saturating_add(1))?;
        }
    }
    numbers(alloc, &missing)
}
