//! Options that do not go together.

use crate::tasks::task_named;
use clap::ArgMatches;
use goqlanis_files::failure::Failure;
use goqlanis_files::usage;
use goqlanis_options::asked::is_given;
use std::alloc::Global;

// Options that exclude each other, with the advice for each.
#[rattlefmt::skip]
static CONFLICTS: &[(&str, &[&str], &str)] = &[
    ("--segment", &["TEXT", "--input"], "--segment gives the data"),
    ("--segment", &["--trim", "--lines", "--bytes", "--eci", "--charset", "--boost"],
        "use one of them"),
    ("TEXT", &["--input"], "use one of them"),
    ("ELEMENTS", &["--input"], "use one of them"),
    ("--application", &["--lines"], "--lines is for GS1 element strings"),
    ("--bytes", &["--eci"], "use one of them"),
    ("--charset", &["--bytes"], "bytes have no character set"),
    ("--charset", &["--eci"], "--eci is --charset utf-8"),
    ("--symbol-version", &["--min-version", "--max-version"], "use one of them"),
    ("--symbol-version", &["--micro"], "M1 to M4 are Micro QR"),
    ("--symbol-version", &["--boost"], "use --min-version instead"),
    ("--min-version", &["--micro"], "--micro is --min-version M1"),
    ("--scale", &["--size", "--module", "--no-size"], "use one of them"),
    ("--size", &["--module", "--no-size"], "use one of them"),
    ("--module", &["--no-size"], "use one of them"),
];

/// Checks that no two options exclude each other.
///
/// Errors: `Usage` for the first two that do; `OutOfMemory`.
pub fn check_conflicts(alloc: Global, given: &ArgMatches<'_>) -> Result<(), Failure> {
    for (one, others, help) in CONFLICTS {
        let other = others.iter().find(|other| is_given(given, other));
        if let Some(other) = other.filter(|_| is_given(given, one)) {
            check_place(alloc, given.get_str("TEXT").unwrap_or(""))?;
            return usage!(alloc; "{one} and {other} do not go together: {help}");
        }
    }
    Ok(())
}

/// Checks that a word behind options is not a command.
///
/// Errors: `Usage` if it is; `OutOfMemory`.
pub(crate) fn check_place(alloc: Global, word: &str) -> Result<(), Failure> {
    match task_named(word) {
        Some(task) => {
            let name = task.word;
            usage!(alloc; "{word}: the command comes first, before options: goqlanis {name} ..")
        }
        None => Ok(()),
    }
}
