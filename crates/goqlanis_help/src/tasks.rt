//! The commands, in the order of the help.

use crate::tables::{
    ABOUT, COLOURS, DATA, FILES, LEVELS, LINES, LOOKS, MARKS, MASKS, NORMAL_LEVELS, SEGMENTS,
    TABLES, TEXTS, entries_in,
};
use goqlanis_options::options::{Entry, Purpose, Takes, entry_of};
use qrcode_payloads::kinds::{Kind, fields_of};
use std::alloc::{AllocError, Global};

/// An option under its heading in the help.
pub type Headed = (&'static str, Entry);

/// A task of the program: a plain code, or a command.
#[derive(Clone, Copy)]
pub struct Task {
    /// The command's name; empty for a plain code, which needs no command.
    pub word: &'static str,
    /// What it does.
    pub about: &'static str,
    pub purpose: Purpose,
    // The positional argument and its help, divided by a colon; empty if there is none.
    operand: &'static str,
    // Its options by tables; where a heading stands alone, its own.
    groups: &'static [&'static str],
    // Its own options, one a line. Empty for payloads, whose options follow from their fields.
    own: &'static str,
}

const TEXT: &str = "TEXT: Text to encode; standard input if neither TEXT nor --input is given";

const PICTURE: &str =
    "PICTURE: PNG, PBM or PGM files, or text files of half blocks; standard input if none is given";

const ALL: &str =
    "PICTURE: Pictures of all codes, in any order, in the formats of goqlanis read; - is standard input";

#[rattlefmt::skip]
const ELEMENTS: &str = "ELEMENTS: Application identifiers (AI) in round brackets, each with its value, e.g. (01)09521234543213(10)AB; write ( in a value as \\(; standard input if neither ELEMENTS nor --input is given. With --application: plain data";

#[rattlefmt::skip]
const PLAIN: &[&str] = &[DATA, "Code", MARKS, SEGMENTS, LINES, LEVELS, TEXTS, MASKS, LOOKS, COLOURS, ABOUT];

#[rattlefmt::skip]
const DAMAGED: &[&str] = &[DATA, "Code", MARKS, SEGMENTS, LINES, LEVELS, TEXTS, MASKS, LOOKS, COLOURS];

const SPLIT: &[&str] = &[DATA, "Code", NORMAL_LEVELS, MASKS, LOOKS, COLOURS];

#[rattlefmt::skip]
const PAYLOAD: &[&str] = &[TABLES, "Input", MARKS, LINES, LEVELS, TEXTS, MASKS, LOOKS, COLOURS];

// Of payloads whose format fixes the level.
const FIXED: &[&str] = &[TABLES, "Input", LINES, MASKS, LOOKS, COLOURS];

const LABEL: &[&str] = &[FILES, "Input", LINES, NORMAL_LEVELS, MASKS, LOOKS, COLOURS];

const READING: &[&str] = &["Output"];

// What tasks have unless their row says otherwise.
const CODE: Task = Task {
    word: "",
    about: "Make QR and Micro QR codes, and read them back",
    purpose: Purpose::Draw,
    operand: "",
    groups: PLAIN,
    own: "",
};

/// The task without a command: a plain code.
pub static DRAWING: Task = Task {
    operand: TEXT,
    ..CODE
};

#[rattlefmt::skip]
static TASKS: &[Task] = &[
    Task { word: "read", purpose: Purpose::Read, operand: PICTURE, groups: READING, about: "Decode the QR codes in a picture", own: "\
-o --output FILE: Write the data to FILE, atomically; - is standard output
--verbose: Report version, level, mask, position, corrected errors, headers and segments on standard error
--json: Write the data and the --verbose report as a JSON list" },
    Task { word: "check", purpose: Purpose::Check, operand: PICTURE, groups: READING, about: "Report where the modules of QR codes in a picture depart from the standard", own: "--json: Write a JSON list instead of text" },
    Task { word: "split", purpose: Purpose::Several, operand: TEXT, groups: SPLIT, about: "Split data over up to 16 numbered files (structured append)", own: "\
--count N=1..16: Number of codes, 1 to 16, in the smallest version that fits [default: fewest]
--max-version VERSION: Largest version to use, 1 to 40 [default: 40]" },
    Task { word: "join", purpose: Purpose::Join, operand: ALL, groups: READING, about: "Decode the codes that split made, and join their data", own: "-o --output FILE: Write the data to FILE, atomically; - is standard output" },
    Task { word: "damage", purpose: Purpose::Damage, operand: TEXT, groups: DAMAGED, about: "Make a code with wrong codewords, to test readers", own: "\
--wrong-codewords N: Wrong codewords in each block: a number, most (as many as goqlanis corrects) or beyond (one more) [default: most]
--wrong-format N=0..15: Wrong bits in each copy of the format information; 3 are corrected [default: 0]
--wrong-version N=0..18: Wrong bits in each copy of the version information, which versions 7 to 40 have [default: 0]
--wrong-patterns N=0..65535: Wrong modules of finder, timing and alignment patterns and separators [default: 0]
--seed N=0..18446744073709551615: Which ones are wrong [default: 0]
--mirror: Swap left and right
--turn DEGREES|: Turn the code clockwise, after --mirror [default: 0]" },
    Task { word: "wifi", purpose: Purpose::Content(Kind::Wifi), groups: PAYLOAD, about: "Wi-Fi network", ..CODE },
    Task { word: "mecard", purpose: Purpose::Content(Kind::Mecard), groups: PAYLOAD, about: "Contact (MECARD)", ..CODE },
    Task { word: "vcard", purpose: Purpose::Content(Kind::Vcard), groups: PAYLOAD, about: "Contact (vCard 3.0)", ..CODE },
    Task { word: "epc", purpose: Purpose::Content(Kind::Payment), groups: FIXED, about: "SEPA credit transfer (EPC QR code)", ..CODE },
    Task { word: "bill", purpose: Purpose::Content(Kind::Bill), groups: FIXED, about: "Swiss QR-bill, with its cross in SVG, PNG, EPS and PDF; 46 mm wide in SVG, EPS and PDF, at most that with --dpi", ..CODE },
    Task { word: "upi", purpose: Purpose::Content(Kind::Upi), groups: PAYLOAD, about: "Payment by UPI (India)", ..CODE },
    Task { word: "pix", purpose: Purpose::Content(Kind::Pix), groups: PAYLOAD, about: "Static payment by Pix (Brazil)", ..CODE },
    Task { word: "promptpay", purpose: Purpose::Content(Kind::Promptpay), groups: PAYLOAD, about: "Payment by PromptPay (Thailand)", ..CODE },
    Task { word: "email", purpose: Purpose::Content(Kind::Mail), groups: PAYLOAD, about: "E-mail", ..CODE },
    Task { word: "geo", purpose: Purpose::Content(Kind::Geo), groups: PAYLOAD, about: "Location", ..CODE },
    Task { word: "tel", purpose: Purpose::Content(Kind::Tel), groups: PAYLOAD, about: "Phone call", ..CODE },
    Task { word: "sms", purpose: Purpose::Content(Kind::Sms), groups: PAYLOAD, about: "Text message", ..CODE },
    Task { word: "otp", purpose: Purpose::Content(Kind::Otp), groups: PAYLOAD, about: "One-time password for authenticator apps", ..CODE },
    Task { word: "event", purpose: Purpose::Content(Kind::Event), groups: PAYLOAD, about: "Calendar event", ..CODE },
    Task { word: "gs1", purpose: Purpose::Elements, operand: ELEMENTS, groups: LABEL, about: "GS1 element string", own: "\
--application INDICATOR: Encode data in an industry's own format (FNC1 in second position); AIM assigns the indicator: two digits or a letter" },
];

/// Returns the tasks of the commands.
pub(crate) fn tasks() -> &'static [Task] {
    TASKS
}

/// Returns the task of a command, by its name or an older one.
pub fn task_named(word: &str) -> Option<&'static Task> {
    let word = match word {
        "several" => "split",
        "payment" => "epc",
        "mail" => "email",
        "place" => "geo",
        word => word,
    };
    tasks().iter().find(|task| task.word == word)
}

impl Task {
    /// Returns the positional argument, if there is one: its name and its help.
    pub(crate) fn operand(&self) -> Option<(&'static str, &'static str)> {
        self.operand.split_once(": ")
    }

    /// Returns the task's own options, without those that other codes have too.
    ///
    /// Errors: only `AllocError`.
    pub(crate) fn own_options(&self, alloc: Global) -> Result<Vec<Entry>, AllocError> {
        match self.purpose {
            Purpose::Content(kind) => {
                let fields = fields_of(kind).iter();
                fields.map(|field| entry_of(kind, *field)).collect(alloc)
            }
            _ => entries_in(alloc, self.own),
        }
    }

    /// Returns the options that the payload needs, each behind a space and with its value.
    ///
    /// Errors: only `AllocError`.
    pub(crate) fn needed(&self, alloc: Global) -> Result<String, AllocError> {
        let mut text = String::new(alloc);
        for entry in &self.own_options(alloc)? {
            if let Takes::Wanted(value) = entry.takes {
                let long = entry.long;
                write!(text, " --{long} <{value}>")?;
            }
        }
        Ok(text)
    }

    /// Returns all options of the task.
    ///
    /// Errors: only `AllocError`.
    pub(crate) fn all_options(&self, alloc: Global) -> Result<Vec<Headed>, AllocError> {
        let mut all = Vec::new(alloc);
        for group in self.groups {
            let (heading, lines) = group.split_once('\n').unwrap_or((*group, ""));
            let options = if lines.is_empty() {
                self.own_options(alloc)?
            } else {
                entries_in(alloc, lines)?
            };
            for entry in &options {
                all.push((heading, *entry))?;
            }
        }
        Ok(all)
    }
}
