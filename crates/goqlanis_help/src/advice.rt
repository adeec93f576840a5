//! Advice on command lines that `clap` rejects, and help wrapped at 80 columns.

use crate::conflicts::check_place;
use crate::habits::{advice_for, makes_a_code};
use crate::tasks::{Headed, Task, tasks};
use clap::error::{Error, ErrorKind};
use goqlanis_files::failure::Failure;
use goqlanis_files::usage;
use goqlanis_options::nearest::nearest;
use goqlanis_options::options::{Entry, Purpose, Takes};
use goqlanis_request::Grouped;
use std::alloc::{AllocError, Global};

// A command line that `clap` rejects.
#[derive(Clone, Copy)]
struct Rejected<'a> {
    alloc: Global,
    task: &'a Task,
    options: &'a [Headed],
    words: &'a [&'a str],
    // What `clap` says of it.
    text: &'a str,
    // Whether it lacks required options.
    is_partial: bool,
}

/// Explains why `clap` rejected the command line and what to write instead; does nothing if its own
/// message is as good.
///
/// Errors: `Usage` with the explanation; `OutOfMemory`.
pub fn advise(alloc: Global, task: &Task, words: &[String], error: &Error) -> Result<(), Failure> {
    let text = format!(in alloc; "{error}")?;
    let text = text.as_str();
    let words = words.iter().map(String::as_str);
    let (words, options) = (words.collect::<Vec<&str>>(alloc)?, task.all_options(alloc)?);
    let rejected = Rejected {
        alloc,
        task,
        options: &options,
        words: &words,
        text,
        is_partial: error.kind() == ErrorKind::MissingRequiredArgument,
    };
    if task.word == "vcard" && text.contains("'--phone <NUMBER>' cannot be used multiple times") {
        return usage!(alloc;
            "--phone: only one; others are --mobile, --work-phone and --home-phone"
        );
    }
    if matches!(task.purpose, Purpose::Content(_)) {
        rejected.check_letters()?;
        rejected.check_file()?;
    }
    if let Some(value) = between(text, "invalid value '", "' for") {
        return rejected.refuse_value(value);
    }
    if let Some(option) = between(text, "' for '", "' found; no more were expected") {
        return refuse_any_value(alloc, option);
    }
    match between(text, "unexpected argument '", "' found") {
        Some(word) => rejected.refuse_word(word),
        None => Ok(()),
    }
}

impl Rejected<'_> {
    // Explains a word that the task does not take.
    fn refuse_word(&self, word: &str) -> Result<(), Failure> {
        let behind = self.words.iter().skip_while(|given| **given != "--");
        if word.starts_with('-') && behind.skip(1).any(|given| *given == word) {
            return usage!(self.alloc; "{word}: options stand before --; behind it is only data");
        }
        self.check_dash(word)?;
        self.check_known(word)?;
        if self.task.word.is_empty() {
            self.check_command()?;
            self.check_owner(word)?;
        }
        match self.meant_option(word)? {
            Some(name) => usage!(self.alloc; "{word}: no such option; did you mean --{name}?"),
            None => self.refuse_other(word),
        }
    }

    // Advises on a short option where a field was meant, e.g. -p for --password.
    fn check_letters(&self) -> Result<(), Failure> {
        let fields = self.task.own_options(self.alloc)?;
        for (word, value) in self.words.iter().zip(self.words.iter().skip(1)) {
            let mut fields = fields.iter();
            if let Some(field) = fields.find(|field| self.is_meant(field, (*word, *value))) {
                let name = field.long;
                return usage!(self.alloc; "{word}: fields have no short options; write --{name}");
            }
        }
        Ok(())
    }

    // Whether a short option and the word behind it were meant for an absent field: the option does
    // not exist, or does not take such a value, or takes any text and the field is required.
    fn is_meant(&self, field: &Entry, pair: (&str, &str)) -> bool {
        let (word, value) = pair;
        let is_initial = word.strip_prefix('-').is_some_and(|letter| letter.len() == 1
            && field.long.starts_with(letter));
        let is_wanted = matches!(field.takes, Takes::Wanted(_));
        is_initial
            && !self.has_option(field.long)
            && if between(self.text, "unexpected argument '", "' found") == Some(word) {
                true
            } else if between(self.text, "invalid value '", "' for") == Some(value) {
                is_wanted || self.text.contains("invalid digit")
            } else {
                is_wanted && self.is_partial && !is_number(value) && matches!(word, "-s" | "-i")
            }
    }

    // Whether the command line has the option `name`.
    fn has_option(&self, name: &str) -> bool {
        self.words.iter().any(|word| {
            let given = word.strip_prefix("--").unwrap_or("");
            given.split('=').next() == Some(name)
        })
    }

    // Advises on a payload without the fields that it needs, and with a file instead of them.
    fn check_file(&self) -> Result<(), Failure> {
        let mut words = self.words.iter();
        if !self.is_partial || !words.any(|word| matches!(*word, "-i" | "--input")) {
            return Ok(());
        }
        let name = self.task.word;
        usage!(self.alloc;
            "--input goes with --lines, for a table with a code in each line: goqlanis {name} \
            --lines --header -i FILE"
        )
    }

    // Returns the option of the task whose name is nearly `word`.
    fn meant_option(&self, word: &str) -> Result<Option<&'static str>, AllocError> {
        let Some(name) = word.strip_prefix("--") else {
            return Ok(None);
        };
        let names = self
            .options
            .iter()
            .map(|(_, entry)| entry.long)
            .collect::<Vec<&'static str>>(self.alloc)?;
        nearest(self.alloc, name, &names)
    }

    // Advises on a value that begins with a hyphen, which `clap` takes for an option unless it is a
    // number. The value may be a password, so it is not shown.
    fn check_dash(&self, word: &str) -> Result<(), Failure> {
        for (option, value) in self.words.iter().zip(self.words.iter().skip(1)) {
            let entry = self.options.iter().find(|(_, entry)| {
                option.strip_prefix("--") == Some(entry.long) && takes_any_text(entry.takes)
            });
            let is_value = word.starts_with('-') && value.starts_with(word);
            match entry.filter(|_| is_value) {
                Some((_, entry)) if entry.takes.name() == "DEGREES" => return usage!(self.alloc;
                    "{option}: write a number, with a digit before the point, e.g. -0.25"
                ),
                Some(_) => return usage!(self.alloc;
                    "{option}: if the value begins with -, write {option}=VALUE"
                ),
                None => {}
            }
        }
        Ok(())
    }

    // Explains an invalid value of an option.
    fn refuse_value(&self, value: &str) -> Result<(), Failure> {
        self.check_known(value)?;
        let is_number = self.text.contains("invalid digit");
        let name = between(self.text, "for '--", " <").filter(|_| is_number);
        for (_, entry) in self.options {
            if let (true, Takes::Number(_, least, most)) = (Some(entry.long) == name, entry.takes) {
                let (name, most) = (entry.long, Grouped(most as usize));
                return usage!(self.alloc;
                    "--{name} {value}: use a whole number, {least} to {most}"
                );
            }
        }
        Ok(())
    }

    // Advises on a word that other programs accept.
    fn check_known(&self, word: &str) -> Result<(), Failure> {
        let (alloc, name) = (self.alloc, self.task.word);
        if self.task.purpose.has_its_level()
            && CODE_OPTIONS.split(' ').any(|option| option == word)
        {
            return usage!(alloc;
                "{word}: the format of {name} demands level M, the smallest version and no ECI; \
                leave it out"
            );
        }
        let advice = match (self.task.purpose.draws(), name, word) {
            (true, _, _) => advice_for(word),
            (false, "read", "-v") => Some(
                "for the report, add --verbose; -v is the version of a code that is made",
            ),
            _ => None,
        };
        match advice {
            Some(help) => usage!(alloc; "{word}: {help}"),
            None => Ok(()),
        }
    }

    // Advises on a first word that looks like a misspelled command, and on a command after options.
    fn check_command(&self) -> Result<(), Failure> {
        let word = self.words.get(1).map_or("", |word| *word);
        if word.starts_with('-') {
            for word in self.words {
                check_place(self.alloc, word)?;
            }
            return Ok(());
        }
        if makes_a_code(word) {
            return usage!(self.alloc; "{word}: a text needs no command: goqlanis \"some text\"");
        }
        let names = tasks().iter().map(|task| task.word);
        let names = names.collect::<Vec<&str>>(self.alloc)?;
        match nearest(self.alloc, word, &names)? {
            Some(name) => usage!(self.alloc;
                "{word}: no such command; did you mean goqlanis {name}?"
            ),
            None => self.check_known(word),
        }
    }

    // Advises on an option that only a command has.
    fn check_owner(&self, word: &str) -> Result<(), Failure> {
        for task in tasks() {
            let options = task.own_options(self.alloc)?;
            let mut names = options.iter().map(|entry| entry.long);
            if names.any(|name| word.strip_prefix("--") == Some(name)) {
                let owner = task.word;
                return usage!(self.alloc; "{word}: an option of goqlanis {owner}");
            }
        }
        Ok(())
    }

    // Explains any other unexpected word.
    fn refuse_other(&self, word: &str) -> Result<(), Failure> {
        let (alloc, name) = (self.alloc, self.task.word);
        let space = if name.is_empty() { "" } else { " " };
        let is_negative = is_number(word.strip_prefix('-').unwrap_or(""));
        let mut words = self.words.iter();
        match self.task.operand() {
            Some(("TEXT", _)) if is_negative => usage!(alloc;
                "{word}: no value is negative here; a text that begins with - stands behind --"
            ),
            _ if is_negative => usage!(alloc; "{word}: no value is negative here"),
            _ if word.starts_with('-') => {
                usage!(alloc; "{word}: no such option; goqlanis{space}{name} --help lists them")
            }
            _ if words.any(|word| matches!(*word, "--version" | "-V")) => usage!(alloc;
                "{word}: --version is the program's; for the code's version, use -v"
            ),
            _ if is_number(self.behind("--eci")) => refuse_any_value(alloc, "--eci"),
            _ if self.behind("--hidden") == word => refuse_any_value(alloc, "--hidden"),
            Some(("TEXT", _)) => usage!(alloc;
                "{word}: only one TEXT; put quotes around one with spaces, e.g. \"hello world\""
            ),
            Some((name, _)) => usage!(alloc; "{word}: only one {name} at a time"),
            None => self.refuse_operand(word),
        }
    }

    // Returns the word behind `option`; empty if there is none.
    fn behind(&self, option: &str) -> &str {
        for (word, next) in self.words.iter().zip(self.words.iter().skip(1)) {
            if *word == option {
                return next;
            }
        }
        ""
    }

    // Explains a word without an option: names the options that the payload needs.
    fn refuse_operand(&self, word: &str) -> Result<(), Failure> {
        let (name, needed) = (self.task.word, self.task.needed(self.alloc)?);
        usage!(self.alloc;
            "{word}: write it after an option: goqlanis {name}{needed}; --help lists all"
        )
    }
}

// Whether an option takes a text, other than a length.
fn takes_any_text(takes: Takes) -> bool {
    match takes {
        Takes::Text(name) => !matches!(name, "FILE" | "SIZE" | "LENGTH" | "PIXELS"),
        takes => matches!(takes, Takes::Wanted(_) | Takes::Texts(_)),
    }
}

// Returns the part of `text` between `start` and `end`.
fn between<'a>(text: &'a str, start: &str, end: &str) -> Option<&'a str> {
    let (_, rest) = text.split_once(start)?;
    let (found, _) = rest.split_once(end)?;
    Some(found)
}

// Options that do not apply to payloads whose format fixes level, version and encoding.
const CODE_OPTIONS: &str =
    "-l --level -v --symbol-version --min-version --micro --boost --eci --charset --segment --bytes";

// Explains a value of an option that takes none.
fn refuse_any_value(alloc: Global, option: &str) -> Result<(), Failure> {
    if option == "--eci" {
        return usage!(alloc;
            "--eci takes no number: it marks UTF-8, ECI 26; for another, --charset iso-8859-1"
        );
    }
    usage!(alloc; "{option} takes no value; leave that out")
}

// Whether a word begins with a digit: a number, maybe with a unit.
fn is_number(word: &str) -> bool {
    word.starts_with(|first: char| first.is_ascii_digit())
}

// The width of help, in columns.
const WIDTH: usize = 80;

/// Wraps the lines of `help`; continuation lines are indented to the column of descriptions.
///
/// Errors: only `AllocError`.
pub fn wrapped_help(alloc: Global, help: &str) -> Result<String, AllocError> {
    let mut text = String::new(alloc);
    for line in help.trim_end().split('\n') {
        push_wrapped(&mut text, line)?;
    }
    Ok(text)
}

// Appends a line, wrapped; it continues in the column after its last two spaces.
fn push_wrapped(text: &mut String, line: &str) -> Result<(), AllocError> {
    let indent = line.rfind("  ").map_or(0, |place| place.saturating_add(2));
    let mut column = 0usize;
    for (at, word) in line.split(' ').enumerate() {
        if column.saturating_add(word.len()) >= WIDTH && column > indent {
            write!(text, "\n{:indent$}", "")?;
            column = indent;
        } else if at > 0 {
            text.push_str(" ")?;
            column = column.saturating_add(1);
        }
        text.push_str(word)?;
        column = column.saturating_add(word.len());
    }
    text.push_str("\n")
}
