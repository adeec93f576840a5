//! Turns the command line into a request.

use crate::colours::{check_colours, ink_of, part_inks};
use crate::damage::{AskedDamage, damage_of};
use crate::fields::Fields;
use crate::formats::{check_format, format_of, takers, takes};
use crate::frames::{frame_of, place_of};
use crate::logos::{AskedLogo, logo_of};
use crate::options::Purpose;
use crate::sizes::extent_of;
use crate::targets::{check_streams, check_target};
use crate::warnings::warn;
use clap::ArgMatches;
use clap::parser::ValueSource;
use goqlanis_files::failure::{Doubts, Failure};
use goqlanis_files::usage;
use goqlanis_request::{Choice, Request};
use qrcode::types::{EcLevel, Version};
use qrcode_append::Versions;
use qrcode_payloads::kinds::Kind;
use qrcode_sheets::formats::Format;
use qrcode_sheets::takes_parts;
use std::alloc::Global;

/// The source of the data.
#[derive(Clone, Copy)]
pub enum Source<'a> {
    Text(&'a str),
    File(&'a str),
    StandardInput,
}

/// The destination of the drawing.
#[derive(Clone, Copy)]
pub enum Target<'a> {
    /// Standard output; binary formats are refused if it is a terminal.
    Terminal,
    /// Standard output, even for binary formats on a terminal.
    StandardOutput,
    File(&'a str),
}

/// The lines of an input, each of which becomes a code (`--lines`).
#[derive(Clone, Copy)]
pub struct InputLines<'a> {
    /// The separator of the fields in a line.
    pub delimiter: &'a str,
    /// The number or the name of the only field that is encoded, if there is one.
    pub field: Option<&'a str>,
    /// The names of the columns, separated like fields, if the command line gives them.
    pub columns: Option<&'a str>,
    /// Whether the first line has the names of the columns, which `columns` may replace.
    pub has_header: bool,
}

/// The data, and how it is taken.
#[derive(Clone, Copy)]
pub struct Input<'a, 'w> {
    pub source: Source<'a>,
    /// The segments that the user chose, instead of a source.
    pub segments: Option<&'a [&'w str]>,
    pub lines: Option<InputLines<'a>>,
    /// Whether one newline at the end is dropped.
    pub is_trimmed: bool,
    pub allows_empty: bool,
    /// Whether it is bytes, not text.
    pub is_bytes: bool,
    /// Whether it is marked as UTF-8.
    pub is_eci: bool,
    /// The name of its character set, or `shortest`.
    pub charset: Option<&'a str>,
}

/// What is made of the data.
#[derive(Clone, Copy)]
pub enum Work<'a, 'w> {
    /// A code.
    Plain,
    /// A code with this damage.
    Damaged(AskedDamage),
    /// Several codes, with parts of the data.
    Split(Split),
    /// A code of a payload, whose fields are given instead of data.
    Payload(Fields<'a, 'w>),
    /// A code of a GS1 element string; or in an industry's own format, with this indicator.
    Elements(Option<&'a str>),
}

impl Work<'_, '_> {
    /// Returns the kind of payload, if it is one.
    pub fn kind(&self) -> Option<Kind> {
        match self {
            Work::Payload(fields) => Some(fields.kind),
            _ => None,
        }
    }
}

/// What is reported of a code.
#[derive(Clone, Copy, PartialEq, Eq)]
pub enum ReportForm {
    /// Only warnings.
    Nothing,
    /// Lines of text.
    Text,
    /// A line of JSON.
    Json,
}

/// How data is split over several codes.
#[derive(Clone, Copy)]
pub struct Split {
    /// The number of codes, if given.
    pub count: Option<u8>,
    /// The versions that they may have.
    pub versions: Versions,
}

/// What the command line asks for.
#[derive(Clone, Copy)]
pub struct Job<'a, 'w> {
    pub request: Request<'a>,
    pub input: Input<'a, 'w>,
    pub work: Work<'a, 'w>,
    pub target: Target<'a>,
    /// What is in the middle of a code, if anything.
    pub logo: Option<AskedLogo<'a>>,
    pub report: ReportForm,
    /// Whether the code is only reported, and not drawn.
    pub is_dry: bool,
    pub doubts: Doubts<'a>,
}

impl Job<'_, '_> {
    /// Whether it may make several codes.
    pub fn is_several(&self) -> bool {
        self.input.lines.is_some() || matches!(self.work, Work::Split(_))
    }
}

/// Turns the options in `given` into a request, and warns on standard error of doubtful ones.
///
/// Errors: an unknown format, version, size, colour or place, or an option that the format does not
/// support; a warning if warnings are errors; `OutOfMemory`.
pub fn asked_for<'a, 'w>(
    rt: &HostRuntime,
    purpose: Purpose,
    given: &'a ArgMatches<'w>,
) -> Result<Job<'a, 'w>, Failure> {
    let alloc = rt.alloc();
    let target = target_of(alloc, given)?;
    let is_dry = given.get_flag("dry-run");
    let format = format_of(rt, given.get_str("format"), target, is_dry)?;
    check_format(alloc, given, format)?;
    let request = request_of(alloc, purpose, given, format)?;
    let input = input_of(alloc, given)?;
    let work = work_of(alloc, purpose, given, request.choice)?;
    let logo = logo_of(alloc, purpose, given, format)?;
    let asked = Job {
        request,
        input,
        work,
        target,
        logo,
        report: report_of(given),
        is_dry,
        doubts: Doubts {
            is_error: given.get_flag("werror"),
            place: None,
        },
    };
    check_files(rt, &asked)?;
    warn(rt, &asked)?;
    Ok(asked)
}

// Checks that what is drawn can go where it is to go: it replaces nothing that is read, and several
// drawings go to files, can be printed one after another, or are pages of one PDF document.
fn check_files(rt: &HostRuntime, asked: &Job<'_, '_>) -> Result<(), Failure> {
    if !asked.is_several() {
        return check_target(rt, asked);
    }
    let is_to_files = asked.is_dry || matches!(asked.target, Target::File(_));
    if !is_to_files && !takes(asked.request.format, "series") {
        let names = takers(rt.alloc(), "series")?;
        return usage!(rt.alloc();
            "pictures of this format cannot follow one another on standard output: add --output, \
            e.g. -o a-{{}}.png, and files are numbered; {names} can"
        );
    }
    match asked.input.lines {
        Some(_) => check_streams(rt, asked),
        None => Ok(()),
    }
}

// Returns what is made of the data.
fn work_of<'a, 'w>(
    alloc: Global,
    purpose: Purpose,
    given: &'a ArgMatches<'w>,
    choice: Choice,
) -> Result<Work<'a, 'w>, Failure> {
    Ok(match purpose {
        Purpose::Content(kind) => Work::Payload(Fields::of(alloc, kind, given)?),
        Purpose::Elements => Work::Elements(given.get_str("application")),
        Purpose::Damage => Work::Damaged(damage_of(alloc, given)?),
        Purpose::Several => Work::Split(split_of(alloc, given, choice)?),
        _ => Work::Plain,
    })
}

/// Whether the command line gives an option or the positional argument. (An absent flag still has a
/// default value.)
pub fn is_given(given: &ArgMatches<'_>, name: &str) -> bool {
    given.value_source(name.trim_start_matches('-')) == Some(ValueSource::CommandLine)
}

/// Returns what is reported.
pub(crate) fn report_of(given: &ArgMatches<'_>) -> ReportForm {
    if given.get_flag("json") {
        ReportForm::Json
    } else if given.get_flag("verbose") {
        ReportForm::Text
    } else {
        ReportForm::Nothing
    }
}

// Returns where the data comes from, and how it is taken.
fn input_of<'a, 'w>(alloc: Global, given: &'a ArgMatches<'w>) -> Result<Input<'a, 'w>, Failure> {
    Ok(Input {
        source: source_of(given),
        segments: given.get_strs("segment"),
        lines: lines_of(alloc, given)?,
        is_trimmed: given.get_flag("trim"),
        allows_empty: given.get_flag("allow-empty"),
        is_bytes: given.get_flag("bytes"),
        is_eci: given.get_flag("eci"),
        charset: given.get_str("charset"),
    })
}

// Returns how lines are taken, with `--lines`.
fn lines_of<'a>(alloc: Global, given: &ArgMatches<'a>) -> Result<Option<InputLines<'a>>, Failure> {
    if !given.get_flag("lines") {
        for option in ["field", "columns", "header", "delimiter"] {
            if is_given(given, option) {
                return usage!(alloc; "--{option} needs --lines");
            }
        }
        return Ok(None);
    }
    let lines = InputLines {
        delimiter: match given.get_str("delimiter") {
            None => ",",
            Some("tab" | "\\t") => "\t",
            Some(text) => text,
        },
        field: given.get_str("field"),
        columns: given.get_str("columns"),
        has_header: given.get_flag("header"),
    };
    if lines.delimiter.is_empty() || lines.delimiter.contains(['"', '\n', '\r']) {
        return usage!(alloc;
            "--delimiter: it must not be empty, nor have quotation marks or line breaks, e.g. \";\""
        );
    }
    Ok(Some(lines))
}

// Returns the source of the data.
fn source_of<'a>(given: &ArgMatches<'a>) -> Source<'a> {
    let text = given.get_str("TEXT").or(given.get_str("ELEMENTS"));
    match (text, given.get_str("input")) {
        (Some(text), _) => Source::Text(text),
        (None, None | Some("-")) => Source::StandardInput,
        (None, Some(path)) => Source::File(path),
    }
}

fn target_of<'a>(alloc: Global, given: &ArgMatches<'a>) -> Result<Target<'a>, Failure> {
    match given.get_str("output") {
        None => Ok(Target::Terminal),
        Some("-") => Ok(Target::StandardOutput),
        Some("") => usage!(alloc; "--output: it is empty, e.g. from a variable that is not set"),
        Some(path) => Ok(Target::File(path)),
    }
}

// Returns how the version is chosen: exactly the given one, or the smallest from a minimum up that
// fits.
fn choice_of(alloc: Global, given: &ArgMatches<'_>) -> Result<Choice, Failure> {
    if let Some(version) = version_of(alloc, given, "symbol-version")? {
        return Ok(Choice::At(version));
    }
    let least = if given.get_flag("micro") {
        Version::Micro(1)
    } else {
        version_of(alloc, given, "min-version")?.unwrap_or(Version::Normal(1))
    };
    if given.get_flag("boost") {
        Ok(Choice::Boosted(least))
    } else {
        Ok(Choice::From(least))
    }
}

// Returns how data is split.
fn split_of(alloc: Global, given: &ArgMatches<'_>, choice: Choice) -> Result<Split, Failure> {
    let most = version_of(alloc, given, "max-version")?.unwrap_or(Version::Normal(40));
    let (least, greatest) = match choice {
        Choice::At(version) => (version, version),
        Choice::From(version) | Choice::Boosted(version) => (version, most),
    };
    match (least, greatest) {
        (Version::Normal(least), Version::Normal(greatest)) if least <= greatest => Ok(Split {
            count: given.get_one::<u8>("count"),
            versions: Versions {
                least: least.unsigned_abs() as usize,
                greatest: greatest.unsigned_abs() as usize,
            },
        }),
        _ => usage!(alloc;
            "split uses versions 1 to 40, and --max-version cannot be below --min-version"
        ),
    }
}

// Returns the version that an option names, 1 to 40 or M1 to M4, if it is given.
fn version_of(
    alloc: Global,
    given: &ArgMatches<'_>,
    option: &str,
) -> Result<Option<Version>, Failure> {
    let Some(name) = given.get_str(option) else {
        return Ok(None);
    };
    let version = match name.strip_prefix('M').or(name.strip_prefix('m')) {
        Some(number) => number.parse::<i16>().map(Version::Micro),
        None => name.parse::<i16>().map(Version::Normal),
    };
    match version {
        Ok(version) if version.is_valid() => Ok(Some(version)),
        _ => usage!(alloc; "--{option} {name}: versions are 1 to 40, and M1 to M4"),
    }
}

fn request_of<'a>(
    alloc: Global,
    purpose: Purpose,
    given: &ArgMatches<'a>,
    format: Format,
) -> Result<Request<'a>, Failure> {
    let extent = extent_of(alloc, purpose, given, format)?;
    let choice = choice_of(alloc, given)?;
    let place = place_of(alloc, given)?;
    let frame = frame_of(alloc, given)?;
    let dark = ink_of(alloc, "dark", given.get_str("dark").unwrap_or("#000"))?;
    let light = ink_of(alloc, "light", given.get_str("light").unwrap_or("#fff"))?;
    // (`check_format` has refused parts that the format lacks.)
    let parts = part_inks(alloc, given)?.leak();
    let request = Request {
        choice,
        level: level_of(purpose, given, choice),
        mask: given.get_one::<u8>("mask").map(usize::from),
        format,
        zone: given
            .get_one::<u8>("quiet-zone")
            .or(purpose.is_bill().then_some(0)),
        extent,
        dpi: given.get_one::<u16>("dpi"),
        place,
        frame,
        dark,
        light,
        parts: if takes_parts(format, parts) {
            parts
        } else {
            &[]
        },
        is_inverted: given.get_flag("invert"),
    };
    check_colours(alloc, &request)?;
    Ok(request)
}

// Returns the level: the given one, or by default M; L for version M1, which has no other; and H
// with a logo, to leave room for it, unless the payload's format fixes the level or the code is a
// Micro one, which has no H.
fn level_of(purpose: Purpose, given: &ArgMatches<'_>, choice: Choice) -> EcLevel {
    let has_middle = given.contains_id("logo") || given.get_flag("logo-area");
    match (given.get_str("level").unwrap_or(""), choice) {
        ("L" | "l", _) | ("", Choice::At(Version::Micro(1))) => EcLevel::L,
        ("M" | "m", _) | ("", Choice::At(Version::Micro(_))) => EcLevel::M,
        ("Q" | "q", _) => EcLevel::Q,
        ("H" | "h", _) => EcLevel::H,
        _ if has_middle && !purpose.has_its_level() => EcLevel::H,
        _ => EcLevel::M,
    }
}
