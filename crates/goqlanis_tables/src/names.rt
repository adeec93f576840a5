//! Names of numbered files, and of files named after lines, from the pattern in `--output`.

use crate::Done;
use crate::columns::Columns;
use crate::fields::Line;
use crate::inputs::is_one_of;
use goqlanis_files::streams::is_unseen;
use goqlanis_files::{refused, usage};
use goqlanis_options::asked::{Job, Target};
use goqlanis_options::formats::takes;
use goqlanis_options::targets::{check_target, is_same_file, reader_of};
use std::alloc::{AllocError, Global};
use std::fs;
use unicode_normalization::to_nfc;

// The maximum length of a file name on Linux, in bytes.
const MOST_IN_NAME: usize = 255;

// A part of a path: a text as it stands, or a placeholder.
#[derive(Clone, Copy)]
enum PathPart<'a> {
    Text(&'a str),
    // The number of the line, with zeros before it up to this width: `{}`, `{:04}`.
    Number(usize),
    // The line: `{text}`.
    Line,
    // A field of the line, counted from 1: `{1}`, `{url}`.
    Field(usize),
}

/// A path with placeholders for numbers and lines.
#[derive(Drop)]
pub struct Template<'a> {
    path: &'a str,
    // Whether it has placeholders. If not, the number stands before the file extension.
    has_places: bool,
    parts: Vec<PathPart<'a>>,
}

impl<'a> Template<'a> {
    /// Parses the path in `--output`, if there is one. With `--lines` one without placeholders is
    /// no pattern if the format has several codes in a file.
    ///
    /// Errors: `Usage` if it does not name a file for each code, or one that is not read;
    /// `OutOfMemory`.
    pub fn read(
        rt: &HostRuntime,
        asked: &Job<'a, '_>,
        columns: &Columns,
    ) -> Done<Option<Template<'a>>> {
        let Target::File(path) = asked.target else {
            return Ok(None);
        };
        let pattern = Template::of(rt.alloc(), path, columns)?;
        let has_lines = asked.input.lines.is_some();
        if has_lines && !pattern.has_places && takes(asked.request.format, "series") {
            check_target(rt, asked)?;
            return Ok(None);
        }
        let folder = path.rsplit_once('/').map_or("", |(folder, _)| folder);
        if is_stream(rt, path) || is_same_file(rt, path, "/dev/stdout") {
            usage!(rt.alloc();
                "--output {path}: each code gets its own file; name one, e.g. a.png, or leave out \
                --output for text"
            )
        } else if Template::of(rt.alloc(), folder, columns)?.has_places {
            usage!(rt.alloc();
                "--output: {{}}, {{text}} and {{1}} are for the file name, not for its folder"
            )
        } else if pattern.has_text() && !has_lines {
            usage!(rt.alloc();
                "--output: {{text}} and {{1}} are for --lines; {{}} is the number"
            )
        } else {
            Ok(Some(pattern))
        }
    }

    // Parses a path; refuses placeholders that are unknown.
    fn of(alloc: Global, path: &'a str, columns: &Columns) -> Done<Template<'a>> {
        let mut parts = parts_of(alloc, path, columns)?;
        let has_places = parts.iter().any(|part| !matches!(part, PathPart::Text(_)));
        if !has_places {
            parts = numbered(alloc, path)?;
        }
        Ok(Template {
            path,
            has_places,
            parts,
        })
    }

    /// Whether it has a placeholder for text of the line.
    pub fn has_text(&self) -> bool {
        self.parts
            .iter()
            .any(|part| matches!(part, PathPart::Line | PathPart::Field(_)))
    }

    /// Returns the file name for a line.
    ///
    /// Errors: `Refused` if the line lacks a field, or the name is none that a file may have;
    /// `OutOfMemory`.
    pub fn name(&self, alloc: Global, line: &Line<'_>) -> Done<String> {
        let mut name = String::new(alloc);
        for part in &self.parts {
            let number = line.number;
            match *part {
                PathPart::Text(text) => name.push_str(text)?,
                PathPart::Number(width) => write!(name, "{number:0width$}")?,
                PathPart::Line => push_clean(&mut name, line.text.as_str())?,
                PathPart::Field(number) => push_clean(&mut name, line.field(alloc, number)?)?,
            }
        }
        if self.has_places {
            check_name(alloc, self.path, name.as_str())?;
        }
        Ok(name)
    }
}

// Returns the parts of a path; refuses placeholders that are unknown.
fn parts_of<'a>(alloc: Global, path: &'a str, columns: &Columns) -> Done<Vec<PathPart<'a>>> {
    let mut parts = Vec::new(alloc);
    let mut pieces = path.split('{');
    parts.push(PathPart::Text(pieces.next().unwrap_or("")))?;
    for piece in pieces {
        let (part, rest) = match (place_of(piece, columns), piece.split_once('}')) {
            (Some(found), _) => found,
            (None, Some((word, _))) => return unknown(alloc, word, columns),
            (None, None) => (PathPart::Text("{"), piece),
        };
        parts.push(part)?;
        parts.push(PathPart::Text(rest))?;
    }
    Ok(parts)
}

// Returns the parts of a path in which the number stands before the file extension.
fn numbered(alloc: Global, path: &str) -> Result<Vec<PathPart<'_>>, AllocError> {
    let (stem, dot, ending) = match path.rsplit_once('.') {
        Some((stem, ending)) if !ending.contains('/') => (stem, ".", ending),
        _ => (path, "", ""),
    };
    let parts = [
        PathPart::Text(stem),
        PathPart::Text("-"),
        PathPart::Number(6),
        PathPart::Text(dot),
        PathPart::Text(ending),
    ];
    Vec::from_slice(alloc, &parts)
}

// Parses the placeholder whose `{` precedes `piece`; returns it and the rest after its `}`.
fn place_of<'a>(piece: &'a str, columns: &Columns) -> Option<(PathPart<'a>, &'a str)> {
    let (word, rest) = piece.split_once('}')?;
    let place = match (word, word.parse::<usize>(), columns.number_of(word)) {
        ("", _, _) => PathPart::Number(0),
        (_, _, Some(number)) => PathPart::Field(number),
        ("text", _, _) => PathPart::Line,
        (_, Ok(number), _) if number > 0 && !word.starts_with('+') => PathPart::Field(number),
        _ => PathPart::Number(word.strip_prefix(":0")?.parse::<u8>().ok()? as usize),
    };
    Some((place, rest))
}

// Fails: a placeholder is unknown.
fn unknown<T>(alloc: Global, word: &str, columns: &Columns) -> Done<T> {
    if columns.names.is_empty() {
        return usage!(alloc;
            "--output: {{{word}}} is unknown; {{}} is the number, {{:04}} the same with zeros, \
            {{text}} the line, {{1}} its first field; --header or --columns name others"
        );
    }
    let list = columns.list(alloc)?;
    usage!(alloc; "--output: {{{word}}} is unknown; the columns are {list}")
}

// Checks the file name of a generated path: not too long, not empty, not `.` or `..`, none that
// Windows changes or reserves, and unless the pattern says so, since a field was empty, neither
// hidden nor like an option.
fn check_name(alloc: Global, pattern: &str, path: &str) -> Done<()> {
    let (name, pattern) = (file_name(path), file_name(pattern));
    if is_reserved(name) {
        return refused!(alloc; "its file would be {name}, a name that Windows reserves");
    }
    let what = if name.len() > MOST_IN_NAME {
        "have more than 255 bytes"
    } else if matches!(name, "" | "." | "..") {
        "be empty, \".\" or \"..\""
    } else if name.ends_with('.') || name.ends_with(' ') {
        "end with a dot or a space, which Windows drops"
    } else if name.starts_with('.') && !pattern.starts_with('.') {
        "begin with \".\", since a field is empty; {} in --output numbers the codes"
    } else if name.starts_with('-') && !pattern.starts_with('-') {
        "begin with \"-\", since a field is empty; {} in --output numbers the codes"
    } else {
        return Ok(());
    };
    refused!(alloc; "its file name would {what}")
}

// Whether Windows reserves a name, with any file extension.
fn is_reserved(name: &str) -> bool {
    let stem = name.split('.').next().unwrap_or("").trim_end();
    let device = stem.trim_end_matches(|sign: char| {
        sign.is_ascii_digit() || matches!(sign, '\u{b9}' | '\u{b2}' | '\u{b3}')
    });
    if stem.chars().count() == device.chars().count().saturating_add(1) {
        is_one_of(device, &["com", "lpt"])
    } else {
        is_one_of(stem, &["con", "prn", "aux", "nul", "conin$", "conout$"])
    }
}

// Returns what follows the last slash.
fn file_name(path: &str) -> &str {
    path.rsplit('/').next().unwrap_or("")
}

/// Returns a name in the form that all names have which some systems take for it: those that differ
/// only in case, or in how accents are written.
///
/// Errors: only `AllocError`.
pub fn common_form(alloc: Global, name: &str) -> Result<String, AllocError> {
    to_nfc(alloc, name.to_lowercase(alloc)?.as_str())
}

// Whether a path names a folder, a pipe or a device.
fn is_stream(rt: &HostRuntime, path: &str) -> bool {
    fs::metadata(rt, path).is_ok_and(|found| !found.is_file())
}

/// Checks that a generated name is a plain file, and not the input: no line may write elsewhere.
pub fn check_made(rt: &HostRuntime, asked: &Job<'_, '_>, name: &str) -> Done<()> {
    let what = if fs::symlink_metadata(rt, name).is_ok_and(|found| found.is_symlink()) {
        "a link"
    } else if is_stream(rt, name) {
        "a pipe, device or folder"
    } else if let Some(reader) = reader_of(rt, asked, name) {
        return refused!(rt.alloc(); "{name}: {reader} reads this file; each code gets its own");
    } else {
        return Ok(());
    };
    refused!(rt.alloc(); "{name} is {what}; each code gets its own file")
}

// Appends text to a file name. `_` replaces characters that some systems forbid, invisible ones, a
// leading `.`, which would hide the file, and a leading `-`, which would look like an option.
fn push_clean(name: &mut String, text: &str) -> Result<(), AllocError> {
    for character in text.chars() {
        let is_first = name.is_empty() || name.ends_with('/');
        let is_clean = !is_unseen(character)
            && !(is_first && matches!(character, '.' | '-'))
            && !matches!(
                character,
                '/' | '\\' | ':' | '*' | '?' | '"' | '<' | '>' | '|'
            );
        name.push(if is_clean { character } else { '_' })?;
    }
    Ok(())
}
