//! Draws codes and writes drawings.

ghost use Rattle.std.specs.Prelude.{◌≡◌, ℕ, List, None, Some, IfOk, IsErr};
ghost use Rattle.qrcode_gs1.specs.Elements.{Item};
ghost use Rattle.qrcode_gs1.specs.symbol.Indicators.{indicator_of};
ghost use Rattle.goqlanis_request.specs.Drawings.{IsShownIn};
ghost use Rattle.goqlanis_request.specs.Elements.{IsApplicationIn, IsElementsIn};
ghost use Rattle.goqlanis_make.specs.Labels.{label_text};

use crate::areas::{area_in, version_for, warn_of_logo};
use crate::charsets::text_code;
use crate::damaging::draw_damaged;
use crate::elements::{Elements, with_round_brackets};
use crate::middle::{draw_with_middle, has_pixels};
use crate::segments::{characters_of, segment_of};
use crate::{Done, FileBytes};
use goqlanis_files::failure::Failure;
use goqlanis_files::streams::{print, write_data, write_file};
use goqlanis_files::{refused, usage};
use goqlanis_options::asked::{Job, Target, Work};
use goqlanis_options::charsets::Coded;
use goqlanis_options::report::{Sizes, show_report, sizes_of};
use goqlanis_request::{
    Choice, Data, Extent, Request, Segment, drawing_of, manner_of, mask_refusal_text, refusal_text,
    symbol_for_application, symbol_in, symbol_of, symbol_of_elements, unwritable,
};
use goqlanis_tables::pages::Pages;
use qrcode::QrCode;
use qrcode::bits::Manner;
use qrcode_damage::areas::Rectangle;
use qrcode_gs1::errors::Gs1Error;
use qrcode_gs1::symbol::errors::SymbolError;
use qrcode_gs1::symbol::indicator_of;
use qrcode_sheets::GREATEST_PAINTED;
use qrcode_sheets::formats::{Format, LogoForm};
use std::alloc::{AllocError, Global};
use std::io::IsTerminal;
use std::process::ExitCode;

/// Encodes data, and draws and reports the code as `draw_reported` does. A larger version may give
/// a logo more room.
pub(crate) fn draw(rt: &HostRuntime, asked: &Job<'_, '_>, data: &[u8]) -> Done<FileBytes> {
    let (code, coded) = encode(rt.alloc(), asked, data)?;
    let Some(choice) = choice_for_logo(rt.alloc(), asked, &code)? else {
        return draw_reported(rt, asked, code, coded);
    };
    let mut request = asked.request;
    request.choice = choice;
    let larger = Job { request, ..*asked };
    let (code, coded) = encode(rt.alloc(), &larger, data)?;
    draw_reported(rt, &larger, code, coded)
}

// Encodes data, with `--charset` in a character set; with `--segment` the segments that are given.
fn encode(alloc: Global, asked: &Job<'_, '_>, data: &[u8]) -> Done<(QrCode, Option<Coded>)> {
    let code = match (asked.work, asked.input.segments, asked.input.charset) {
        (Work::Elements(indicator), _, _) => gs1_code(alloc, &asked.request, indicator, data)?,
        (_, Some(words), _) => segments_code(alloc, asked, words)?,
        (_, _, Some(name)) => {
            check_empty(alloc, asked, data)?;
            let (code, coded) = text_code(alloc, asked, name, data)?;
            return Ok((code, Some(coded)));
        }
        _ => bytes_code(alloc, asked, data)?,
    };
    Ok((code, None))
}

// Makes a code of text or bytes.
fn bytes_code(alloc: Global, asked: &Job<'_, '_>, bytes: &[u8]) -> Done<QrCode> {
    check_empty(alloc, asked, bytes)?;
    let (request, manner) = (&asked.request, manner(alloc, asked, bytes)?);
    match symbol_in(alloc, request.choice, manner, request.level, bytes) {
        Ok(code) => Ok(code),
        Err(error) => refuse(refusal_text(alloc, request, Data::Bytes(manner, bytes), error)),
    }
}

// Returns the choice of a larger version in which the logo gets what it should, if there is one and
// the version is not given.
fn choice_for_logo(alloc: Global, asked: &Job<'_, '_>, code: &QrCode) -> Done<Option<Choice>> {
    let (Some(logo), Choice::From(_) | Choice::Boosted(_)) = (&asked.logo, asked.request.choice)
    else {
        return Ok(None);
    };
    let larger = version_for(alloc, logo, code)?.filter(|version| *version != code.version());
    Ok(larger.map(|version| match asked.request.choice {
        Choice::Boosted(_) => Choice::Boosted(version),
        _ => Choice::From(version),
    }))
}

// Draws `code` as the command line asks, with the logo, cross or nothing in `area` of its middle.
//
// Errors: `Refused` if a logo has no room there; `OutOfMemory`.
fn draw_code(
    alloc: Global,
    asked: &Job<'_, '_>,
    code: &QrCode,
    area: Option<Rectangle>,
) -> Done<Vec<u8>>
    ensures shown { asked.now.logo ≡ None
        → IfOk result (λ bytes. IsShownIn asked.now.request code.now bytes.items) }
{
    if let (Some(logo), Some(area)) = (&asked.logo, area) {
        return draw_with_middle(alloc, &asked.request, logo, code, area);
    }
    match drawing_of(alloc, &asked.request, code) {
        Ok(bytes) => Ok(bytes),
        Err(error) => refuse(mask_refusal_text(alloc, error)),
    }
}

// Fails with a text that says why.
fn refuse<T>(why: Result<String, AllocError>) -> Done<T>
    ensures { IsErr result }
{
    Err(Failure::Refused(why?))
}

// The maximum side, in pixels, of uncompressed formats, which are drawn in memory: 0.8 GB for PPM.
const GREATEST_WHOLE: u32 = 16_384;

/// Checks that a side has no more pixels than the format allows, and at least one per module.
pub(crate) fn check_side(alloc: Global, asked: &Job<'_, '_>, code: &QrCode) -> Done<()> {
    let request = &asked.request;
    let Sizes { modules, side, .. } = sizes_of(request, code);
    let row = request.format.row();
    let most = if row.is_whole {
        GREATEST_WHOLE
    } else if row.middle == LogoForm::Pixels && (!request.parts.is_empty() || has_pixels(asked)) {
        GREATEST_PAINTED
    } else {
        row.most
    };
    let (option, limit) = match request.extent {
        Extent::Side(size, _) if u32::from(size) < modules => return refused!(alloc;
            "a side of {size} pixels is too small: the code and its quiet zone have {modules} \
            modules a side; use --size {modules} or more, or a smaller --quiet-zone"
        ),
        _ if side <= most => return Ok(()),
        Extent::Side(..) => ("size", most),
        _ => ("scale", (most / modules.max(1)).min(1_000)),
    };
    refused!(alloc;
        "a side of {side} pixels is too large: this format has at most {most}; use --{option} \
        {limit} or less"
    )
}

/// Checks that data is not empty, unless `--allow-empty` is given.
pub(crate) fn check_empty(alloc: Global, asked: &Job<'_, '_>, bytes: &[u8]) -> Done<()> {
    if !bytes.is_empty() || asked.input.allows_empty {
        Ok(())
    } else if asked.input.lines.is_some() {
        refused!(alloc; "it is empty; --allow-empty accepts it")
    } else {
        refused!(alloc;
            "the input is empty, e.g. from a variable that is not set; --allow-empty accepts it"
        )
    }
}

// Makes a code of chosen segments, given as words MODE:DATA or eci:NUMBER.
fn segments_code(alloc: Global, asked: &Job<'_, '_>, words: &[&str]) -> Done<QrCode> {
    let (mut segments, mut has_data) = (Vec::with_capacity(alloc, words.len())?, false);
    for word in words {
        let segment = segment_of(alloc, word)?;
        has_data = has_data || matches!(segment, Segment::Data(_, [_, ..]));
        segments.push(segment)?;
    }
    if !has_data && !asked.input.allows_empty {
        return refused!(alloc;
            "--segment gives no data, and standard input is not read; add --segment byte:TEXT, or \
            --allow-empty"
        );
    }
    let place = unwritable(&segments).unwrap_or(segments.len());
    if let Some(Segment::Data(mode, _)) = segments.get(place) {
        let (number, why) = (place.saturating_add(1), characters_of(*mode));
        return refused!(alloc; "segment {number}: {why}");
    }
    let request = &asked.request;
    match symbol_of(alloc, request.choice, request.level, &segments) {
        Ok(code) => Ok(code),
        Err(error) => refuse(refusal_text(alloc, request, Data::Segments(&segments), error)),
    }
}

// Makes a code of a GS1 element string, or of data in an industry's own format.
fn gs1_code(
    alloc: Global,
    request: &Request<'_>,
    indicator: Option<&str>,
    data: &[u8],
) -> Done<QrCode> {
    let Ok(text) = str::from_utf8(data) else {
        return refused!(alloc; "ELEMENTS: they are not UTF-8");
    };
    if let Some(indicator) = indicator {
        return application_code(alloc, request, indicator, text);
    }
    let text = text.trim_end_matches('\n');
    if text.starts_with("http") {
        return refused!(alloc;
            "ELEMENTS: a GS1 Digital Link is a plain text: goqlanis \"https://..\""
        );
    }
    let text = with_round_brackets(alloc, text)?;
    elements_code(alloc, request, text.as_str())
}

// Makes a code of the GS1 element string in `text`, with identifiers in round brackets.
fn elements_code(alloc: Global, request: &Request<'_>, text: &str) -> Done<QrCode>
    ensures symbol { IfOk result (λ code. (items : List Item) × ((label_text items ≡ text.now)
        × IsElementsIn request.now.choice request.now.level items code)) }
{
    let read = Elements::read(alloc, text)?;
    let elements = read.elements(alloc)?;
    match symbol_of_elements(alloc, request.choice, request.level, &elements) {
        Ok(code) => Ok(code),
        Err(SymbolError::Elements(Gs1Error::Refused(index, cause))) => {
            refuse(read.refusal(alloc, index, cause))
        }
        Err(SymbolError::Symbol(error)) => {
            refuse(refusal_text(alloc, request, Data::Elements(&elements), error))
        }
        Err(SymbolError::Elements(_)) => Err(Failure::OutOfMemory),
    }
}

// Makes a code of `text` in an industry's own format, which `indicator` names.
fn application_code(
    alloc: Global,
    request: &Request<'_>,
    indicator: &str,
    text: &str,
) -> Done<QrCode>
    ensures symbol { IfOk result (λ code. (application : ℕ)
        × ((indicator_of indicator.now ≡ Some application)
        × IsApplicationIn request.now.choice application request.now.level text.now code)) }
{
    let Some(application) = indicator_of(indicator.as_bytes()) else {
        return usage!(alloc;
            "--application {indicator}: an indicator is two digits or one letter, as 37 or a"
        );
    };
    if text.is_empty() {
        return refused!(alloc;
            "ELEMENTS: after --application, give its data, e.g. \"AA1234BBB112text\""
        );
    }
    let bytes = text.as_bytes();
    match symbol_for_application(alloc, request.choice, request.level, application, bytes) {
        Ok(code) => Ok(code),
        Err(error) => {
            let content = Data::Application(application, bytes);
            refuse(refusal_text(alloc, request, content, error))
        }
    }
}

/// Draws a code and reports it, with its character set if one was asked for; with `--dry-run` only
/// reports it, and returns `None`.
pub(crate) fn draw_reported(
    rt: &HostRuntime,
    asked: &Job<'_, '_>,
    code: QrCode,
    coded: Option<Coded>,
) -> Done<FileBytes> {
    check_side(rt.alloc(), asked, &code)?;
    let area = area_in(rt.alloc(), asked, &code)?;
    let bytes = match asked.work {
        // What is in the middle may have no room.
        _ if asked.is_dry && area.is_none() => None,
        Work::Damaged(damage) => Some(draw_damaged(rt, asked, damage, &code)?),
        _ => {
            let bytes = draw_code(rt.alloc(), asked, &code, area)?;
            warn_of_logo(rt, asked, &code, area)?;
            Some(bytes).filter(|_| !asked.is_dry)
        }
    };
    show_report(rt, asked, &code, area, coded)?;
    Ok(bytes)
}

/// Refuses a binary format that would go to a terminal.
pub(crate) fn check_terminal(rt: &HostRuntime, asked: &Job<'_, '_>) -> Done<()> {
    let is_drawn = !asked.is_dry && matches!(asked.target, Target::Terminal);
    if is_drawn && !asked.request.format.row().is_text && rt.stdout().is_terminal() {
        return refused!(rt.alloc();
            "this format is not for a terminal: add --output FILE, or --output - to write it there \
            anyway"
        );
    }
    Ok(())
}

/// Writes a drawing to its target, if there is one. Files of lines are not flushed to disk.
///
/// Errors: those of `print` and `write_file`.
pub(crate) fn write_drawing(
    rt: &HostRuntime,
    asked: &Job<'_, '_>,
    drawing: FileBytes,
) -> Done<ExitCode> {
    let Some(bytes) = drawing else {
        return Ok(ExitCode::SUCCESS);
    };
    match asked.target {
        Target::File(path) => write_file(rt, path, &bytes, asked.input.lines.is_none()),
        // Its title may have characters that hide or reorder others on a terminal.
        Target::Terminal if asked.request.format == Format::SvgPath => write_data(rt, None, &bytes),
        Target::Terminal | Target::StandardOutput => print(rt, &bytes),
    }
}

/// Writes a drawing, if there is one, behind others: PDF as the next page of a document.
///
/// Errors: those of `Pages::add` and `Series::write`.
pub(crate) fn write_page(
    rt: &HostRuntime,
    asked: &Job<'_, '_>,
    pages: &mut Pages<'_>,
    drawing: FileBytes,
) -> Done<()> {
    match (drawing, asked.request.format) {
        (Some(file), Format::Pdf) => pages.add(rt, &file),
        (Some(bytes), _) => pages.series.write(rt, &bytes),
        (None, _) => Ok(()),
    }
}

/// Chooses how data is encoded: as bytes, text, or text marked as UTF-8.
pub(crate) fn manner(alloc: Global, asked: &Job<'_, '_>, bytes: &[u8]) -> Done<Manner> {
    match manner_of(bytes) {
        _ if asked.input.is_bytes => Ok(Manner::Bytes),
        manner if !asked.input.is_eci => Ok(manner),
        Manner::Bytes => refused!(alloc;
            "the data is not UTF-8: leave out --eci, or for Latin-1 use iconv -f cp1252 -t utf-8 \
            first"
        ),
        _ => Ok(Manner::MarkedText),
    }
}
