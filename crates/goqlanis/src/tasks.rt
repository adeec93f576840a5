//! Runs what the command line asks for.

use clap::ArgMatches;
use clap::error::{Error, ErrorKind};
use goqlanis_files::failure::{Failure, status};
use goqlanis_files::streams::{EscapedBytes, print};
use goqlanis_files::{refused, usage};
use goqlanis_help::advice::{advise, wrapped_help};
use goqlanis_help::command::{command_of, end_of_help, usage_of};
use goqlanis_help::conflicts::check_conflicts;
use goqlanis_help::tasks::{DRAWING, Task, task_named};
use goqlanis_make::make;
use goqlanis_options::asked::asked_for;
use goqlanis_options::options::Purpose;
use goqlanis_options::pictures::pictures_of;
use goqlanis_options::sizes::{UNIT_APART, has_unit_apart};
use goqlanis_read::{check, join_pictures, read};
use std::alloc::{AllocError, Global};
use std::process::ExitCode;
use std::{env, io};

// What was done, or why the program fails.
type Done<T> = Result<T, Failure>;

// The version of the program and everything installed with it, as it is printed.
const VERSION: &str = "goqlanis 1.0.0\n";

/// Runs the program and returns its exit status. A failure is reported on one line of standard
/// error.
pub fn run(rt: &HostRuntime) -> ExitCode {
    status(rt, run_words(rt))
}

// Runs the program; the error says why it failed.
fn run_words(rt: &HostRuntime) -> Done<ExitCode> {
    let mut words = all_words(rt)?;
    let task = take_command(rt.alloc(), &mut words)?;
    if task.purpose.draws() && has_unit_apart(&words) {
        return usage!(rt.alloc(); "{UNIT_APART}");
    }
    let (usage, help_end) = (usage_of(rt.alloc(), task)?, end_of_help(rt.alloc(), task)?);
    let command = command_of(rt.alloc(), task, usage.as_str(), help_end.as_str())?;
    let given = match command.try_get_matches_from(&words) {
        Ok(given) => given,
        Err(error) => return refuse(rt, task, &words, &error),
    };
    let done = perform(rt, task, &given);
    drop(given);
    done
}

// Returns the task of the command line. If its first word is a command, the word moves into the
// program's name, so that `clap` parses the rest.
fn take_command(alloc: Global, words: &mut Vec<String>) -> Result<&'static Task, AllocError> {
    let first = words.get(1).map_or("", String::as_str);
    let second = words.get(2).and_then(|word| task_named(word.as_str()));
    if first == "help" || second.is_some() && matches!(first, "--help" | "-h") {
        words.remove(1);
        words.push(String::from_str(alloc, "--help")?)?;
    }
    match words.get(1).and_then(|word| task_named(word.as_str())) {
        Some(task) if words.len() > 1 => {
            words.remove(1);
            words[0] = format!(in alloc; "goqlanis {}", task.word)?;
            Ok(task)
        }
        _ => Ok(&DRAWING),
    }
}

// Returns the words of the command line.
fn all_words(rt: &HostRuntime) -> Done<Vec<String>> {
    match env::args(rt) {
        Ok(words) => Ok(words.collect(rt.alloc())?),
        Err(error) if error.kind() == io::ErrorKind::InvalidData => refused!(rt.alloc();
            "an argument is not UTF-8: use --input FILE for other data, and UTF-8 in file names"
        ),
        Err(_) => Err(Failure::OutOfMemory),
    }
}

// Explains a command line that `clap` rejects, or prints the text that it asks for (`--help`).
fn refuse(rt: &HostRuntime, task: &Task, words: &[String], error: &Error) -> Done<ExitCode> {
    if error.kind() == ErrorKind::OutOfMemory {
        return Err(Failure::OutOfMemory);
    }
    advise(rt.alloc(), task, words, error)?;
    let text = format!(in rt.alloc(); "{error}")?;
    if !error.use_stderr() {
        return print(rt, wrapped_help(rt.alloc(), text.as_str())?.as_bytes());
    }
    let shown = EscapedBytes {
        bytes: text.as_bytes(),
        has_lines: true,
    };
    let _ = eprint!(rt; "{shown}");
    Ok(ExitCode::from(error.exit_code() as u8))
}

// Runs a task.
fn perform(rt: &HostRuntime, task: &Task, given: &ArgMatches<'_>) -> Done<ExitCode> {
    match task.purpose {
        Purpose::Read => read(rt, &pictures_of(rt, given)?),
        Purpose::Check => check(rt, &pictures_of(rt, given)?),
        Purpose::Join => join_pictures(rt, &pictures_of(rt, given)?),
        Purpose::Draw if given.get_flag("version") => print(rt, VERSION.as_bytes()),
        purpose => {
            check_conflicts(rt.alloc(), given)?;
            make(rt, &asked_for(rt, purpose, given)?)
        }
    }
}
