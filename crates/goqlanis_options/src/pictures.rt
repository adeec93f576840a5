//! The options of tasks that decode pictures.

use crate::asked::{ReportForm, report_of};
use crate::targets::is_same_file;
use clap::ArgMatches;
use goqlanis_files::failure::Failure;
use goqlanis_files::usage;

/// Pictures to decode, and what to write of them.
#[derive(Clone, Copy)]
pub struct Pictures<'a, 'w> {
    /// Their files, if any are named; - is standard input.
    pub names: Option<&'a [&'w str]>,
    /// The file for the data; standard output without it, and for -.
    pub output: Option<&'a str>,
    pub report: ReportForm,
    /// Whether there are several, so that what is written names them.
    pub is_many: bool,
}

/// The picture that is read if none is named: standard input.
pub static STANDARD_INPUT: &[&str] = &["-"];

/// Returns the pictures that the command line names.
///
/// Errors: `Usage` if the data would replace one of them; `OutOfMemory`.
pub fn pictures_of<'a, 'w>(
    rt: &HostRuntime,
    given: &'a ArgMatches<'w>,
) -> Result<Pictures<'a, 'w>, Failure> {
    let (names, output) = (given.get_strs("PICTURE"), given.get_str("output"));
    let read = names.unwrap_or(STANDARD_INPUT);
    let both = output.filter(|path| {
        *path != "-" && read.iter().any(|name| is_same_file(rt, path, name))
    });
    if let Some(path) = both {
        return usage!(rt.alloc(); "--output {path}: this picture is read; name another file");
    }
    Ok(Pictures {
        names,
        output,
        report: report_of(given),
        is_many: names.is_some_and(|names| names.len() > 1),
    })
}
