//! Makes the codes that the command line asks for.

use crate::drawing::{check_terminal, draw, write_drawing};
use crate::lines::draw_lines;
use crate::middle::read_logo;
use crate::payloads::payload_of;
use crate::splitting::{MOST_IN_SEVERAL, draw_several};
use crate::{Done, FileBytes};
use goqlanis_files::failure::Failure;
use goqlanis_files::streams::{MOST_DATA, read_file, read_standard_input, shown};
use goqlanis_files::{doubted, refused, usage};
use goqlanis_options::asked::{Job, Source, Target, Work};
use goqlanis_options::fields::Fields;
use goqlanis_options::logos::{AskedLogo, Middle};
use goqlanis_options::sizes::pixels_per_inch;
use goqlanis_options::warnings::warn_of_password;
use goqlanis_request::{Extent, Request};
use goqlanis_tables::columns::Columns;
use qrcode::QrCode;
use qrcode::types::QrError;
use qrcode_contents::bill;
use qrcode_payloads::given::FieldSource;
use qrcode_payloads::kinds::Kind;
use qrcode_sheets::sheet::Ink;
use std::alloc::Global;
use std::process::ExitCode;

/// Makes codes, after reading the logo file if there is one.
pub fn make(rt: &HostRuntime, asked: &Job<'_, '_>) -> Done<ExitCode> {
    let file = read_logo(rt, asked)?;
    let logo = asked.logo.map(|logo| AskedLogo {
        middle: file.as_ref().map_or(logo.middle, Middle::Logo),
        ..logo
    });
    let asked = &Job { logo, ..*asked };
    check_terminal(rt, asked)?;
    if let Work::Split(split) = asked.work {
        return draw_several(rt, asked, split, &data(rt, asked, MOST_IN_SEVERAL)?);
    }
    warn_of_places(rt, asked)?;
    if let Some(lines) = asked.input.lines {
        return draw_lines(rt, asked, lines);
    }
    let drawing = match (asked.work, asked.input.segments) {
        (Work::Payload(fields), _) => draw_fields(rt, asked, fields)?,
        (_, Some(_)) => draw(rt, asked, b"")?,
        (_, None) => draw(rt, asked, &data(rt, asked, MOST_DATA)?)?,
    };
    write_drawing(rt, asked, drawing)
}

// Warns of placeholders in the name of a single file.
fn warn_of_places(rt: &HostRuntime, asked: &Job<'_, '_>) -> Done<()> {
    let is_single = asked.input.lines.is_none();
    match asked.target {
        Target::File(path) if is_single && path.contains('{') && path.contains('}') => {
            let path = shown(path);
            doubted!(rt, asked.doubts;
                "--output {path}: without --lines this is the file name as it stands"
            )
        }
        _ => Ok(()),
    }
}

// Draws a payload whose fields the options give.
fn draw_fields(rt: &HostRuntime, asked: &Job<'_, '_>, fields: Fields<'_, '_>) -> Done<FileBytes> {
    if matches!(asked.input.source, Source::File(_)) {
        return usage!(rt.alloc();
            "--input goes with --lines, which takes the fields from columns; without it, options \
            give them"
        );
    }
    draw_payload(rt, fields.kind, asked, &fields, &Columns::none(rt.alloc()))
}

/// Draws a payload with these fields; messages name those of `columns` by column.
pub(crate) fn draw_payload<G: FieldSource>(
    rt: &HostRuntime,
    kind: Kind,
    asked: &Job<'_, '_>,
    given: &G,
    columns: &Columns,
) -> Done<FileBytes> {
    let text = payload_of(rt.alloc(), kind, given, columns)?;
    if matches!(kind, Kind::Bill) {
        return draw_bill(rt, asked, text.as_str());
    }
    if matches!(kind, Kind::Wifi) {
        warn_of_password(rt, asked.doubts, given)?;
    }
    if matches!(kind, Kind::Payment) && !text.as_str().is_ascii() {
        doubted!(rt, asked.doubts;
            "some readers show letters outside ASCII wrong in a credit transfer, and the format \
            allows no hint; write e.g. Maerz for März to be safe"
        )?;
    }
    draw(rt, asked, text.as_bytes())
}

// Draws a Swiss QR-bill. Warns of what its standard does not allow.
fn draw_bill(rt: &HostRuntime, asked: &Job<'_, '_>, text: &str) -> Done<FileBytes> {
    check_bill(rt.alloc(), text)?;
    if asked.logo.is_none() {
        doubted!(rt, asked.doubts;
            "this format lacks the Swiss cross of a bill; png, svg, eps and pdf have it"
        )?;
    }
    let request = &asked.request;
    let is_black = is_grey(request.dark, 0) && is_grey(request.light, 255);
    if request.is_inverted {
        doubted!(rt, asked.doubts; "a bill is dark on light: leave out --invert")?;
    } else if !is_black || !request.parts.is_empty() {
        doubted!(rt, asked.doubts; "the code of a bill is black on white: leave out colours")?;
    }
    if request.zone.is_some_and(|zone| zone > 0) {
        doubted!(rt, asked.doubts;
            "the code of a bill has no quiet zone, since the bill leaves 5 mm: leave out \
            --quiet-zone"
        )?;
    }
    if !is_bill_size(request) {
        doubted!(rt, asked.doubts;
            "the code of a bill is 46 mm wide: leave out --size, --module and --scale"
        )?;
    }
    draw(rt, asked, text.as_bytes())
}

// Whether red, green and blue of a colour all have this value.
fn is_grey(ink: Ink<'_>, value: u8) -> bool {
    (ink.red, ink.green, ink.blue) == (value, value, value)
}

// Whether the code is 46 mm wide, or of a size that is not known.
fn is_bill_size(request: &Request<'_>) -> bool {
    match request.extent {
        Extent::Exact(length) => {
            length.is_side && length.dots == 25_400 && length.count == 46_000
        }
        Extent::Side(_, Some(4_600)) => true,
        _ => pixels_per_inch(request.format, request.dpi).is_none(),
    }
}

// The bytes that fit in any case in a code of a bill's level and largest version.
const BILL_ROOM: usize = 997;

// Checks that a bill's text fits in the largest version that bills may have.
fn check_bill(alloc: Global, text: &str) -> Done<()> {
    if text.len() <= BILL_ROOM {
        return Ok(());
    }
    match QrCode::of_text_in(alloc, text, bill::LARGEST, bill::LEVEL) {
        Ok(_) => Ok(()),
        Err(QrError::OutOfMemory) => Err(Failure::OutOfMemory),
        Err(_) => {
            let more = text.len() - BILL_ROOM;
            refused!(alloc;
                "too long: a bill may use at most version 25 ({BILL_ROOM} bytes); shorten it by \
                {more} bytes (a letter with an accent takes two)"
            )
        }
    }
}

// Returns the data to encode; at most `most` bytes are read.
fn data(rt: &HostRuntime, asked: &Job<'_, '_>, most: usize) -> Done<Vec<u8>> {
    let mut bytes = match asked.input.source {
        Source::Text(text) => Vec::from_slice(rt.alloc(), text.as_bytes())?,
        Source::File(path) => read_file(rt, path, most)?,
        Source::StandardInput => read_standard_input(rt, "the text", most)?,
    };
    if asked.input.is_trimmed && bytes.last() == Some(&b'\n') {
        bytes.pop();
        if bytes.last() == Some(&b'\r') {
            bytes.pop();
        }
    }
    Ok(bytes)
}
