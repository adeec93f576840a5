//! Messages for refusals: what was asked for, why it fails, and what would help.

use crate::charsets::symbol_among;
use crate::drawing::symbol_in;
use crate::elements::{symbol_for_application, symbol_of_elements};
use crate::request::{Choice, Request};
use crate::segments::{Segment, first_of, last_of, symbol_of};
use qrcode::bits::Manner;
use qrcode::types::{EcLevel, Mode, QrError, Version};
use qrcode_charsets::sets::Charset;
use qrcode_gs1::elements::Element;
use qrcode_types::tables;
use std::alloc::{AllocError, Global};
use std::fmt;

/// What a symbol is to hold.
#[derive(Clone, Copy)]
pub enum Data<'a> {
    /// Bytes, written in this manner.
    Bytes(Manner, &'a [u8]),
    /// A text, in one of these character sets.
    Text(&'a [Charset], &'a str),
    /// Segments that the user chose.
    Segments(&'a [Segment<'a>]),
    /// GS1 elements.
    Elements(&'a [Element<'a>]),
    /// Data in an application's own format, after its indicator.
    Application(u8, &'a [u8]),
}

impl Data<'_> {
    // Returns the version of its symbol, if there is one.
    fn version_in(self, alloc: Global, choice: Choice, level: EcLevel) -> Option<Version> {
        let code = match self {
            Data::Bytes(manner, bytes) => symbol_in(alloc, choice, manner, level, bytes).ok(),
            Data::Text(sets, text) => {
                let (code, _) = symbol_among(alloc, choice, sets, level, text).ok()?;
                Some(code)
            }
            Data::Segments(segments) => symbol_of(alloc, choice, level, segments).ok(),
            Data::Elements(elements) => symbol_of_elements(alloc, choice, level, elements).ok(),
            Data::Application(indicator, bytes) => {
                symbol_for_application(alloc, choice, level, indicator, bytes).ok()
            }
        };
        Some(code?.version())
    }

    // Returns what it needs that Micro QR lacks, if anything.
    fn beyond_micro(self) -> Option<&'static str> {
        match self {
            Data::Bytes(Manner::MarkedText, _) => Some("ECI: leave out --eci, or"),
            Data::Text([_], _) => Some("ECI;"),
            Data::Segments(segments) => segments
                .iter()
                .any(|segment| matches!(segment, Segment::CharacterSet(_)))
                .then_some("ECI;"),
            Data::Elements(_) | Data::Application(..) => Some("FNC1, like all of Micro QR;"),
            Data::Bytes(..) | Data::Text(..) => None,
        }
    }
}

/// Says why the content has no symbol, and what would hold it.
///
/// Errors: only `AllocError`, if memory runs out or `error` is `OutOfMemory`.
pub fn refusal_text(
    alloc: Global,
    request: &Request<'_>,
    content: Data<'_>,
    error: QrError,
) -> Result<String, AllocError> {
    if error == QrError::OutOfMemory {
        return Err(AllocError);
    }
    if let Choice::At(version) = request.choice {
        let (name, level) = (VersionName(version), request.level);
        if let Some(what) = content.beyond_micro().filter(|_| version.is_micro()) {
            return format!(in alloc; "version {name} has no {what} use a version of 1 to 40");
        }
        if tables::capacity(version, level).is_none() {
            let levels = match version {
                Version::Micro(1) => "only L",
                Version::Micro(4) => "L, M and Q",
                _ => "L and M",
            };
            return format!(in alloc; "version {name} has no level {level:?}; it has {levels}");
        }
    }
    match (error, content, request.choice) {
        (QrError::DataTooLong, ..) | (_, Data::Text(..), _) => {
            too_long_text(alloc, request, content)
        }
        (QrError::UnsupportedCharacterSet, Data::Segments(_), Choice::At(version)) => {
            let name = VersionName(version);
            format!(in alloc;
                "version {name} lacks a mode of the segments; M3, M4 and 1 to 40 have all"
            )
        }
        (QrError::UnsupportedCharacterSet, _, Choice::At(version)) => {
            let name = VersionName(version);
            let modes = match version {
                Version::Micro(1) => "digits",
                _ => "digits, capitals, spaces and $%*+-./:",
            };
            format!(in alloc;
                "version {name} holds only {modes}; M3, M4 and 1 to 40 hold any bytes"
            )
        }
        _ => format!(in alloc; "{error}"),
    }
}

/// Says why a symbol has no picture under the requested mask.
///
/// Errors: only `AllocError`, if memory runs out or `error` is `OutOfMemory`.
pub fn mask_refusal_text(alloc: Global, error: QrError) -> Result<String, AllocError> {
    match error {
        QrError::OutOfMemory => Err(AllocError),
        _ => String::from_str(
            alloc,
            "Micro QR has masks 0 to 3; use one of these, or a version of 1 to 40",
        ),
    }
}

// Says that no allowed version has room, and what would hold the content: a larger version, a lower
// level, or several symbols.
fn too_long_text(
    alloc: Global,
    request: &Request<'_>,
    content: Data<'_>,
) -> Result<String, AllocError> {
    let (choice, level) = (request.choice, request.level);
    let mut text = String::new(alloc);
    let what = match content {
        Data::Text(..) => "characters",
        Data::Segments(_) => "segments",
        Data::Elements(_) => "elements",
        Data::Bytes(..) | Data::Application(..) => "bytes",
    };
    match (content, choice) {
        (Data::Bytes(manner, bytes), _) => {
            write!(text, "{} bytes at ", Grouped(bytes.len()))?;
            if let Choice::At(version) = choice {
                write!(text, "version {} and ", VersionName(version))?;
            }
            write!(text, "level {level:?}: ")?;
            match byte_room(manner, last_of(choice), level) {
                0 => text.push_str("too many")?,
                most => {
                    let most = Grouped(most);
                    write!(text, "at most {most} fit, more of digits or capitals")?;
                }
            }
        }
        (_, Choice::At(version)) => {
            let name = VersionName(version);
            write!(
                text,
                "version {name} at level {level:?} does not hold the {what}"
            )?;
        }
        _ => write!(text, "no version holds the {what} at level {level:?}")?,
    }
    if let Some(larger) = content.version_in(alloc, Choice::From(first_of(choice)), level) {
        write!(text, "; version {} holds them", VersionName(larger))?;
        return Ok(text);
    }
    let any = Choice::From(Version::Normal(1));
    let mut lower = [EcLevel::Q, EcLevel::M, EcLevel::L].iter();
    if let Some(lower) = lower.find(|level| content.version_in(alloc, any, **level).is_some()) {
        write!(text, "; level {lower:?} holds them")?;
    } else if let Data::Text(..) = content {
        text.push_str("; without --charset, goqlanis split splits them over several codes")?;
    } else if let Data::Bytes(..) = content {
        text.push_str("; goqlanis split splits them over several codes")?;
    }
    Ok(text)
}

// The most bytes that fit in a symbol as one Byte segment; 0 if the version has no such segments.
fn byte_room(manner: Manner, version: Version, level: EcLevel) -> usize {
    if !version.is_valid() || matches!(version, Version::Micro(1 | 2)) {
        return 0;
    }
    let head = version.mode_bits_count() + Mode::Byte.length_bits_count(version);
    let room = tables::capacity(version, level).unwrap_or(0);
    room.saturating_sub(manner.front_length() + head) / 8
}

/// Displays a version as people write it: `7` or `M2`.
#[derive(Clone, Copy)]
pub struct VersionName(pub Version);

impl fmt::Display for VersionName {
    fn fmt<W: fmt::Write>(&self, f: &mut fmt::Formatter<W>) -> fmt::Result {
        match self.0 {
            Version::Normal(number) => write!(f, "{number}"),
            Version::Micro(number) => write!(f, "M{number}"),
        }
    }
}

/// Displays a number with a comma between groups of three digits; one of more than nine without.
#[derive(Clone, Copy)]
pub struct Grouped(pub usize);

impl fmt::Display for Grouped {
    fn fmt<W: fmt::Write>(&self, f: &mut fmt::Formatter<W>) -> fmt::Result {
        let (millions, thousands, rest) = (self.0 / 1_000_000, self.0 / 1000, self.0 % 1000);
        let below = thousands % 1000;
        match (millions, thousands) {
            (0, 0) => write!(f, "{rest}"),
            (0, _) => write!(f, "{thousands},{rest:03}"),
            (1..=999, _) => write!(f, "{millions},{below:03},{rest:03}"),
            _ => write!(f, "{}", self.0),
        }
    }
}
