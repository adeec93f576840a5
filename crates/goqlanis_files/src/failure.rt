//! Why the program fails, and its exit status.

ghost use Rattle.std.specs.Prelude.{IsErr};

use crate::streams::shown;
use std::alloc::{AllocError, AllocFailed, Global};
use std::fmt::{self, Display};
use std::process::ExitCode;

/// Why the program fails.
#[derive(Drop)]
pub enum Failure {
    /// The command line is wrong: exit status 2.
    Usage(String),
    /// The data, a file or the terminal cannot be used: exit status 1.
    Refused(String),
    /// A drawing cannot be written, so nothing more is drawn: exit status 1.
    Unwritten(String),
    /// Standard output is closed, as by `| head`: exit status 1, without a message.
    Unheard,
    /// Memory ran out: exit status 1.
    OutOfMemory,
}

impl From<AllocError> for Failure {
    fn from(_error: AllocError) -> Failure {
        Failure::OutOfMemory
    }
}

impl<T: Drop> From<AllocFailed<T>> for Failure {
    fn from(_error: AllocFailed<T>) -> Failure {
        Failure::OutOfMemory
    }
}

/// A line of an input, which messages name.
#[derive(Clone, Copy)]
pub struct InputLine<'a> {
    /// The file, unless the lines are an argument or standard input.
    pub file: Option<&'a str>,
    /// The number of the line in its input, from 1.
    pub line: usize,
}

impl fmt::Display for InputLine<'_> {
    fn fmt<W: fmt::Write>(&self, f: &mut fmt::Formatter<W>) -> fmt::Result {
        if let Some(file) = self.file {
            write!(f, "{}: ", shown(file))?;
        }
        write!(f, "line {}: ", self.line)
    }
}

/// What becomes of warnings.
#[derive(Clone, Copy)]
pub struct Doubts<'a> {
    /// Whether they are errors.
    pub is_error: bool,
    /// The line that they are about, if there are several.
    pub place: Option<InputLine<'a>>,
}

/// Warnings that are not errors, on one input.
pub const WARNINGS: Doubts<'static> = Doubts {
    is_error: false,
    place: None,
};

/// Returns the exit status of a run, and reports a failure in one line on standard error, except
/// `Unheard`.
pub fn status(rt: &HostRuntime, run: Result<ExitCode, Failure>) -> ExitCode {
    let (code, why) = match &run {
        Ok(code) => return *code,
        Err(Failure::Usage(why)) => (ExitCode::from(2), why.as_str()),
        Err(Failure::Refused(why) | Failure::Unwritten(why)) => (ExitCode::FAILURE, why.as_str()),
        Err(Failure::Unheard) => return ExitCode::FAILURE,
        Err(Failure::OutOfMemory) => (ExitCode::FAILURE, "out of memory"),
    };
    let why = shown(why);
    let _ = eprintln!(rt; "goqlanis: {why}");
    code
}

/// Warns that the file `name` has more than its picture, or faults beside it; if warnings are
/// errors, fails like `doubted`.
pub fn warn_of_more(rt: &HostRuntime, doubts: Doubts<'_>, name: &str) -> Result<(), Failure> {
    let name = shown(name);
    let what = format_args!("{name} has extra or faulty data beside its picture, which is ignored");
    doubted(rt, doubts, what)
}

/// Prints a warning on standard error, with the line that it is about; if warnings are errors,
/// fails with `Refused` instead. If memory runs out then, fails with `OutOfMemory`.
pub fn doubted<D: Display + Drop>(
    rt: &HostRuntime,
    doubts: Doubts<'_>,
    what: D,
) -> Result<(), Failure> {
    if doubts.is_error {
        return refused(rt.alloc(), what);
    }
    let _ = match doubts.place {
        Some(place) => eprintln!(rt; "goqlanis: warning: {place}{what}"),
        None => eprintln!(rt; "goqlanis: warning: {what}"),
    };
    Ok(())
}

/// Fails with `Usage`: the command line is wrong because of `why`. If memory runs out, fails with
/// `OutOfMemory` instead.
pub fn usage<T, D: Display + Drop>(alloc: Global, why: D) -> Result<T, Failure>
    ensures { IsErr result }
{
    Err(Failure::Usage(String::format(alloc, why)?))
}

/// Fails with `Refused` because of `why`. If memory runs out, fails with `OutOfMemory` instead.
pub fn refused<T, D: Display + Drop>(alloc: Global, why: D) -> Result<T, Failure>
    ensures { IsErr result }
{
    Err(Failure::Refused(String::format(alloc, why)?))
}

/// Fails like the function `usage`, with a message as for `format!`.
#[macro_export]
macro_rules! usage {
    ($alloc:expr; $($why:tt)+) => {
        $crate::failure::usage($alloc, format_args!($($why)+))
    };
}

/// Fails like the function `refused`, with a message as for `format!`.
#[macro_export]
macro_rules! refused {
    ($alloc:expr; $($why:tt)+) => {
        $crate::failure::refused($alloc, format_args!($($why)+))
    };
}

/// Warns or fails like the function `doubted`, with a message as for `format!`.
#[macro_export]
macro_rules! doubted {
    ($rt:expr, $doubts:expr; $($what:tt)+) => {
        $crate::failure::doubted($rt, $doubts, format_args!($($what)+))
    };
}

/// Prints a warning on standard error, with a message as for `format!`.
#[macro_export]
macro_rules! warning {
    ($rt:expr; $($what:tt)+) => {{
        let _ = eprintln!($rt; "goqlanis: warning: {}", format_args!($($what)+));
    }};
}
