//! Reads the lines of an input.

use crate::Done;
use goqlanis_files::refused;
use goqlanis_files::streams::unread;
use goqlanis_request::Grouped;
use std::alloc::Global;
use std::io::{BufRead, Read};

// The maximum length of a line in bytes, far more than a code holds.
const MOST_IN_LINE: usize = 100_000;

/// Replaces `line` with the next line, line ending included. Returns `false` at the end.
///
/// Errors: `Refused` if it cannot be read, is too long or UTF-16, or all lines end with CR alone;
/// `OutOfMemory`.
pub fn next_line<R: BufRead>(
    alloc: Global,
    name: &str,
    from: &mut R,
    line: &mut Vec<u8>,
    number: usize,
) -> Done<bool> {
    line.clear();
    let mut from = from.by_ref().take(MOST_IN_LINE as u64 + 2);
    match from.read_until(b'\n', line) {
        Ok(0) => Ok(false),
        Ok(_) if number == 1 && is_utf_16(line) => refused!(alloc;
            "cannot read {name}: it is UTF-16; use iconv -f utf-16 -t utf-8 first"
        ),
        Ok(_) if number == 1 && line.contains(&b'\r') && !line.ends_with(b"\n") => refused!(alloc;
            "cannot read {name}: its lines end with CR alone, as on old Macs; use tr '\\r' '\\n' \
            first"
        ),
        Ok(_) if without_ending(line).len() <= MOST_IN_LINE => Ok(true),
        Ok(_) => {
            let most = Grouped(MOST_IN_LINE);
            refused!(alloc;
                "cannot read {name}: line {number} has more than {most} bytes; neither it nor the \
                lines after it are encoded"
            )
        }
        Err(error) => unread(alloc, name, &error),
    }
}

// Whether a file is UTF-16: by its byte order mark, or since it begins with two characters of ASCII.
fn is_utf_16(line: &[u8]) -> bool {
    matches!(
        line,
        [0xff, 0xfe, ..]
            | [0xfe, 0xff, ..]
            | [1..=127, 0, 1..=127, 0, ..]
            | [0, 1..=127, 0, 1..=127, ..]
    )
}

/// Strips the line ending, and from the first line the byte order mark that spreadsheets write.
pub(crate) fn text_of(line: &[u8], number: usize) -> &[u8] {
    match without_ending(line) {
        [0xef, 0xbb, 0xbf, text @ ..] if number == 1 => text,
        text => text,
    }
}

// Strips a final LF or CR LF.
fn without_ending(line: &[u8]) -> &[u8] {
    match line {
        [text @ .., b'\r', b'\n'] | [text @ .., b'\n'] => text,
        _ => line,
    }
}

/// Returns a line as text.
///
/// Errors: `Refused` if it is not UTF-8; `OutOfMemory`.
pub(crate) fn utf8<'a>(alloc: Global, bytes: &'a [u8]) -> Done<&'a str> {
    match str::from_utf8(bytes) {
        Ok(text) => Ok(text),
        Err(_) =>
            refused!(alloc; "it is not UTF-8: for Latin-1, use iconv -f cp1252 -t utf-8 first"),
    }
}

/// Whether a line has no data: all of its fields are empty.
pub(crate) fn is_blank(line: &[u8], delimiter: &str) -> bool {
    str::from_utf8(line).is_ok_and(|text| {
        text.split(delimiter).all(|field| field.trim().is_empty())
    })
}

/// Whether a word is one of these, in any case.
pub(crate) fn is_one_of(word: &str, words: &[&str]) -> bool {
    words.iter().any(|known| word.eq_ignore_ascii_case(known))
}
