//! Outputs that would replace what is read.

use crate::asked::{Job, Source, Target};
use goqlanis_files::failure::Failure;
use goqlanis_files::usage;
use std::alloc::Global;
use std::fs;
use std::os::unix::fs::MetadataExt;

/// Whether two paths lead to one regular file, however they are written; `-` as the second is
/// standard input.
pub fn is_same_file(rt: &HostRuntime, path: &str, read: &str) -> bool {
    let read = if read == "-" { "/dev/stdin" } else { read };
    match (fs::metadata(rt, path), fs::metadata(rt, read)) {
        (Ok(one), Ok(other)) => {
            one.is_file() && one.dev() == other.dev() && one.ino() == other.ino()
        }
        _ => false,
    }
}

/// Returns what reads the file at `path`: `--input`, standard input or `--logo`.
pub fn reader_of(rt: &HostRuntime, asked: &Job<'_, '_>, path: &str) -> Option<&'static str> {
    let (what, input) = match asked.input.source {
        Source::File(input) => ("--input", input),
        Source::StandardInput => ("standard input", "-"),
        Source::Text(_) => ("TEXT", ""),
    };
    if is_same_file(rt, path, input) {
        return Some(what);
    }
    let logo = asked.logo.and_then(|logo| logo.file).unwrap_or("");
    is_same_file(rt, path, logo).then_some("--logo")
}

/// Checks that the drawing does not replace a file that is read.
///
/// Errors: `Usage` if it does; `OutOfMemory`.
pub fn check_target(rt: &HostRuntime, asked: &Job<'_, '_>) -> Result<(), Failure> {
    let Target::File(path) = asked.target else {
        return Ok(());
    };
    match reader_of(rt, asked, path) {
        Some(reader) => usage!(rt.alloc();
            "--output {path}: {reader} reads this file; name another"
        ),
        None => Ok(()),
    }
}

/// Checks that no line that is written becomes a line that is read, which would never end.
///
/// Errors: `Usage` if one does; `OutOfMemory`.
pub(crate) fn check_streams(rt: &HostRuntime, asked: &Job<'_, '_>) -> Result<(), Failure> {
    for (name, path) in [
        ("standard output", "/dev/stdout"),
        ("standard error", "/dev/stderr"),
    ] {
        if let Some(reader) = reader_of(rt, asked, path) {
            return usage!(rt.alloc(); "{name} goes to the file that {reader} reads; use another");
        }
    }
    Ok(())
}
