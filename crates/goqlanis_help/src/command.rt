//! The command line as a `clap` command.

use crate::tasks::{Headed, Task, tasks};
use clap::builder::ValueParser;
use clap::{Arg, ArgAction, Command};
use goqlanis_options::options::{Entry, OTHER_NAMES, Purpose, Takes, counts};
use std::alloc::{AllocError, Global};

// The examples at the end of the help.
const EXAMPLES: &str = "Examples:
  goqlanis \"https://example.org\"
      show a code in the terminal
  goqlanis -o ticket.png --scale 8 -i ticket.txt
      encode the bytes of a file, as PNG
  goqlanis --micro -o code.svg 1234567
      make a Micro QR code
  goqlanis --lines -o seat.svg < seats.txt
      write seat-000001.svg, seat-000002.svg and so on
  goqlanis split --count 4 -o part.pbm -i ticket.txt
      split data over 4 codes; goqlanis join part-*.pbm reads them back
  goqlanis read ticket.png
      decode a picture
  goqlanis wifi --ssid Guests --password \"pass;word\"
      make a code that joins a network
  goqlanis gs1 -o label.png \"(01)09521234543213(17)271231(10)ABC123\"
      make a GS1 label
";

/// Builds the `clap` command of `task`, with its `usage`, or that of `clap` if it is empty. Its help
/// ends with `end`.
///
/// Errors: only `AllocError`.
pub fn command_of<'a>(
    alloc: Global,
    task: &Task,
    usage: &'a str,
    end: &'a str,
) -> Result<Command<'a>, AllocError> {
    let command = Command::new(alloc, "goqlanis")
        .about(task.about)
        .disable_help_flag(true)
        .args(arguments(alloc, task)?)?
        .after_help(end);
    if usage.is_empty() {
        return Ok(command);
    }
    Ok(command.override_usage(usage))
}

/// Returns the usage of a task, if `clap` does not know it: of plain codes, and of payloads that
/// need options unless a table has their fields.
///
/// Errors: only `AllocError`.
pub fn usage_of(alloc: Global, task: &Task) -> Result<String, AllocError> {
    let name = task.word;
    if name.is_empty() {
        let usage = "goqlanis [OPTIONS] [TEXT]\n       goqlanis <COMMAND> [OPTIONS]";
        return String::from_str(alloc, usage);
    }
    let needed = task.needed(alloc)?;
    if needed.is_empty() {
        return Ok(needed);
    }
    format!(in alloc; "goqlanis {name} [OPTIONS]{needed}\n       goqlanis {name} --lines [OPTIONS]")
}

/// Returns the end of a task's help: for plain codes the list of commands, and examples; for other
/// codes where the options are that all have.
///
/// Errors: only `AllocError`.
pub fn end_of_help(alloc: Global, task: &Task) -> Result<String, AllocError> {
    let mut text = String::new(alloc);
    if task.word.is_empty() {
        text.push_str("Commands (goqlanis wifi --help lists the options of wifi):\n")?;
        for other in tasks() {
            let (word, about) = (other.word, other.about);
            write!(text, "  {word:9}  {about}\n")?;
        }
        write!(text, "\n{EXAMPLES}")?;
    } else if task.purpose.draws() {
        text.push_str(
            "Options for sizes, colours, logos and reports are those of goqlanis --help.\n",
        )?;
    }
    Ok(text)
}

// Builds the arguments of a task: the positional one, and its options.
fn arguments<'a>(alloc: Global, task: &Task) -> Result<Vec<Arg<'a>>, AllocError> {
    let mut arguments = Vec::new(alloc);
    if let Some((name, help)) = task.operand() {
        let arg = Arg::new(alloc, name).help(help);
        arguments.push(if task.purpose.draws() {
            arg
        } else {
            let is_required = matches!(task.purpose, Purpose::Join);
            arg.num_args(1..)
                .action(ArgAction::Append)
                .required(is_required)
        })?;
    }
    for headed in task.all_options(alloc)? {
        arguments.push(argument(alloc, task, headed)?)?;
    }
    let help = Arg::new(alloc, "help")
        .short('h')
        .long("help")
        .help("Print help");
    arguments.push(help.action(ArgAction::Help).help_heading("Other"))?;
    Ok(arguments)
}

// Builds an option. A negative number after it is its value.
fn argument<'a>(alloc: Global, task: &Task, headed: Headed) -> Result<Arg<'a>, AllocError> {
    let (heading, entry) = headed;
    // The help of a command need not repeat options that are the same for all codes.
    let is_own = matches!(heading, "Input" | "Code") || matches!(entry.long, "output" | "format");
    let is_hidden = !task.word.is_empty() && task.purpose.draws() && !is_own;
    let arg = Arg::new(alloc, entry.long)
        .long(entry.long)
        .help(entry.help)
        .help_heading(heading)
        .hide(is_hidden)
        .allow_negative_numbers(true);
    let arg = match entry.short {
        Some(letter) => arg.short(letter),
        None => arg,
    };
    with_values(
        with_other_names(arg, task.purpose, entry.long)?,
        entry.takes,
    )
}

// Adds what an option takes.
fn with_values(arg: Arg<'_>, takes: Takes) -> Result<Arg<'_>, AllocError> {
    if matches!(takes, Takes::Nothing) {
        return Ok(arg.action(ArgAction::SetTrue));
    }
    let arg = arg.value_name(takes.name());
    Ok(match takes {
        Takes::Wanted(_) => arg.required_unless_present("lines")?,
        Takes::Texts(_) => arg.action(ArgAction::Append),
        Takes::Word(_, words) => arg.value_parser(words).ignore_case(true),
        Takes::Number(_, least, most) => arg.value_parser(ValueParser::unsigned(least, most)),
        _ => arg,
    })
}

// Adds the hidden aliases of the option called `name`.
fn with_other_names<'a>(
    mut arg: Arg<'a>,
    purpose: Purpose,
    name: &str,
) -> Result<Arg<'a>, AllocError> {
    for (other, option) in OTHER_NAMES {
        if *option == name && counts(other, purpose) {
            arg = match other.as_bytes() {
                [letter] => arg.short_alias(char::from(*letter))?,
                _ => arg.alias(other)?,
            };
        }
    }
    Ok(arg)
}
