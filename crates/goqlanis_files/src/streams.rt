//! Reads and writes files, standard input and standard output.

use crate::failure::Failure;
use crate::files::{Draft, WriteError};
use crate::refused;
use goqlanis_request::Grouped;
use std::alloc::Global;
use std::io::{ErrorKind, IsTerminal, Read, Write};
use std::process::ExitCode;
use std::{env, fmt, fs, io};

/// The maximum bytes of data that are read: the longest data that a symbol holds, 7,089 digits, and
/// a newline.
pub const MOST_DATA: usize = 7_090;

/// The maximum bytes of a picture that are read: 64 MiB.
pub const MOST_PICTURE: usize = 67_108_864;

/// Whether standard output may have colours: it is a terminal, and `NO_COLOR` is not set.
pub fn has_colours(rt: &HostRuntime) -> bool {
    rt.stdout().is_terminal() && env::var(rt, "NO_COLOR").is_err()
}

/// Writes `bytes` to standard output.
///
/// Errors: `Unheard` if it is closed; `Unwritten` if writing fails otherwise; `OutOfMemory` if
/// memory runs out.
pub fn print(rt: &HostRuntime, bytes: &[u8]) -> Result<ExitCode, Failure> {
    match io::writer(rt).write_all(bytes) {
        Ok(()) => Ok(ExitCode::SUCCESS),
        Err(error) if error.kind() == ErrorKind::BrokenPipe => Err(Failure::Unheard),
        Err(error) => {
            let text = format!(in rt.alloc(); "cannot write to standard output: {error}")?;
            Err(Failure::Unwritten(text))
        }
    }
}

/// Writes `bytes` to the file at `path`, and waits until they are on disk if it `is_flushed`. If
/// anything fails, an old file stays as it was.
///
/// Errors: `Unwritten`, with the reason; `OutOfMemory` if memory runs out.
pub fn write_file(
    rt: &HostRuntime,
    path: &str,
    bytes: &[u8],
    is_flushed: bool,
) -> Result<ExitCode, Failure> {
    let mut file = Series::new(Some(path));
    let written = file.write(rt, bytes);
    let ended = file.end(rt, written.is_ok(), is_flushed);
    written?;
    ended?;
    Ok(ExitCode::SUCCESS)
}

/// Returns what was `done` with the file at `path`; a failure names it.
pub fn named<T>(alloc: Global, path: &str, done: Result<T, WriteError>) -> Result<T, Failure> {
    match done {
        Ok(done) => Ok(done),
        Err(WriteError::OutOfMemory(_)) => Err(Failure::OutOfMemory),
        Err(error) => Err(Failure::Unwritten(format!(in alloc; "cannot write {path}: {error}")?)),
    }
}

/// Where several drawings go one behind another: standard output, or one file.
#[derive(Drop)]
pub struct Series<'a> {
    // The file, if it is one; it is begun with the first drawing.
    path: Option<&'a str>,
    draft: Option<Draft>,
}

impl<'a> Series<'a> {
    /// Returns the series of drawings in the file at `path`, or else on standard output.
    pub fn new(path: Option<&'a str>) -> Series<'a> {
        Series { path, draft: None }
    }

    /// Writes `bytes` behind what was written.
    ///
    /// Errors: those of `print` and `write_file`.
    pub fn write(&mut self, rt: &HostRuntime, bytes: &[u8]) -> Result<(), Failure> {
        let Some(path) = self.path else {
            print(rt, bytes)?;
            return Ok(());
        };
        let mut draft = match self.draft.take() {
            Some(draft) => draft,
            None => named(rt.alloc(), path, Draft::begin(rt, path))?,
        };
        let written = draft.write(bytes);
        self.draft = Some(draft);
        named(rt.alloc(), path, written.map_err(WriteError::File))
    }

    /// Ends the file, if there is one, and waits until it is on disk if it `is_flushed`; unless it
    /// `is_whole`, an old file stays as it was.
    ///
    /// Errors: those of `write_file`.
    pub fn end(
        &mut self,
        rt: &HostRuntime,
        is_whole: bool,
        is_flushed: bool,
    ) -> Result<(), Failure> {
        let (Some(path), Some(draft)) = (self.path, self.draft.take()) else {
            return Ok(());
        };
        if is_whole {
            return named(rt.alloc(), path, draft.end(rt, is_flushed));
        }
        draft.remove(rt);
        Ok(())
    }
}

/// Writes `data` to the file `output`; without it or with `-`, to standard output. Without it, a
/// terminal gets control and invisible characters as escapes, except line breaks and tabs.
///
/// Errors: those of `print` and `write_file`.
pub fn write_data(
    rt: &HostRuntime,
    output: Option<&str>,
    data: &[u8],
) -> Result<ExitCode, Failure> {
    match output {
        None if rt.stdout().is_terminal() => show(rt, data),
        None | Some("-") => print(rt, data),
        Some(path) => write_file(rt, path, data, true),
    }
}

// Writes data to a terminal, with escapes, and ends the last line.
fn show(rt: &HostRuntime, data: &[u8]) -> Result<ExitCode, Failure> {
    let shown = EscapedBytes {
        bytes: data,
        has_lines: true,
    };
    let end = if data.ends_with(b"\n") { "" } else { "\n" };
    let text = format!(in rt.alloc(); "{shown}{end}")?;
    print(rt, text.as_bytes())
}

/// Reads a whole file.
///
/// Errors: `Refused` if it cannot be read, or has more than `most` bytes; `OutOfMemory` if memory
/// runs out.
pub fn read_file(rt: &HostRuntime, path: &str, most: usize) -> Result<Vec<u8>, Failure> {
    match fs::open(rt, path) {
        Ok(file) => read_all(rt.alloc(), path, file, most),
        Err(error) => unread(rt.alloc(), path, &error),
    }
}

/// Reads all of standard input. On a terminal it first asks for `what`.
///
/// Errors: `Refused` if it cannot be read, or has more than `most` bytes; `OutOfMemory` if memory
/// runs out.
pub fn read_standard_input(rt: &HostRuntime, what: &str, most: usize) -> Result<Vec<u8>, Failure> {
    ask(rt, what);
    read_all(rt.alloc(), "standard input", rt.stdin(), most)
}

/// Asks for `what` on standard error, if standard input is a terminal.
pub fn ask(rt: &HostRuntime, what: &str) {
    if rt.stdin().is_terminal() {
        let _ = eprintln!(rt; "goqlanis: {what}, and Ctrl-D at its end:");
    }
}

// Reads all of `from`, which messages call `name`: at most one byte more than `most`.
fn read_all<R: Read + Drop>(
    alloc: Global,
    name: &str,
    from: R,
    most: usize,
) -> Result<Vec<u8>, Failure> {
    let mut bytes = Vec::new(alloc);
    match from
        .take((most as u64).saturating_add(1))
        .read_to_end(&mut bytes)
    {
        Ok(_) if bytes.len() > most => {
            let help = if most == MOST_DATA {
                "; one code holds at most 7,089 characters; goqlanis split takes more"
            } else {
                ""
            };
            let most = Grouped(most);
            refused!(alloc;
                "cannot read {name}: it has more than {most} bytes{help}"
            )
        }
        Ok(_) => Ok(bytes),
        Err(error) => unread(alloc, name, &error),
    }
}

/// Fails with `Refused`: `name` cannot be read. If memory runs out, fails with `OutOfMemory`
/// instead.
pub fn unread<T>(alloc: Global, name: &str, error: &io::Error) -> Result<T, Failure> {
    refused!(alloc; "cannot read {name}: {error}")
}

/// Displays bytes so that they are safe in a terminal. Characters that control it, or hide or
/// reorder others, become escapes such as \u{1b}; bytes that are not UTF-8 become escapes such as
/// \xff.
#[derive(Clone, Copy)]
pub struct EscapedBytes<'a> {
    pub bytes: &'a [u8],
    /// Whether line breaks and tabs are left as they are.
    pub has_lines: bool,
}

/// Displays `text` within one line, with escapes for line breaks and tabs too.
pub fn shown(text: &str) -> EscapedBytes<'_> {
    EscapedBytes {
        bytes: text.as_bytes(),
        has_lines: false,
    }
}

impl fmt::Display for EscapedBytes<'_> {
    fn fmt<W: fmt::Write>(&self, f: &mut fmt::Formatter<W>) -> fmt::Result {
        for chunk in self.bytes.utf8_chunks() {
            for character in chunk.valid().chars() {
                if !is_unseen(character) || self.has_lines && matches!(character, '\n' | '\t') {
                    write!(f, "{character}")?;
                } else {
                    write!(f, "{}", character.escape_default())?;
                }
            }
            write!(f, "{}", chunk.invalid().escape_ascii())?;
        }
        Ok(())
    }
}

/// Whether a character is invisible or may hide or reorder others: in Unicode 18 it has the
/// category Cc or Cf, or the property Default_Ignorable_Code_Point, or it separates lines. Some
/// emoji contain such characters.
pub fn is_unseen(character: char) -> bool {
    let code = character as u32;
    let mut ranges = UNSEEN.iter();
    character.is_control() || ranges.any(|(first, last)| *first <= code && code <= *last)
}

// The ranges of these characters, except Cc; the separators are U+2028 and U+2029.
#[rattlefmt::skip]
static UNSEEN: &[(u32, u32)] = &[
    (0xad, 0xad), (0x34f, 0x34f), (0x600, 0x605), (0x61c, 0x61c), (0x6dd, 0x6dd), (0x70f, 0x70f),
    (0x890, 0x891), (0x8e2, 0x8e2), (0x115f, 0x1160), (0x17b4, 0x17b5), (0x180b, 0x180f),
    (0x200b, 0x200f), (0x2028, 0x202e), (0x2060, 0x206f), (0x3164, 0x3164), (0xfe00, 0xfe0f),
    (0xfeff, 0xfeff), (0xffa0, 0xffa0), (0xfff0, 0xfffb), (0x110bd, 0x110bd), (0x110cd, 0x110cd),
    (0x13430, 0x1343f), (0x1bca0, 0x1bca3), (0x1d173, 0x1d17a), (0xe0000, 0xe0fff),
];
