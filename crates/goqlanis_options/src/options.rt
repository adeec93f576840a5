//! What tasks are for, and the options of fields.

use qrcode_payloads::kinds::Kind;

pub mod fields;
mod habits;
mod kinds;

pub use habits::{OTHER_NAMES, counts};
pub use kinds::entry_of;

/// The value that an option takes.
#[derive(Clone, Copy)]
pub enum Takes {
    /// Nothing.
    Nothing,
    /// Any text; help shows this name for it.
    Text(&'static str),
    /// Any text, and the option is required.
    Wanted(&'static str),
    /// Any text, and the option may be repeated.
    Texts(&'static str),
    /// One of these words; help shows this name for it.
    Word(&'static str, &'static [&'static str]),
    /// An integer between two bounds, both included; help shows this name for it.
    Number(&'static str, u64, u64),
}

impl Takes {
    /// Returns the name that help shows for the value; empty without one.
    pub fn name(self) -> &'static str {
        match self {
            Takes::Nothing => "",
            Takes::Text(name) | Takes::Wanted(name) | Takes::Texts(name) => name,
            Takes::Word(name, _) | Takes::Number(name, _, _) => name,
        }
    }
}

/// An option.
#[derive(Clone, Copy)]
pub struct Entry {
    /// The long name, without hyphens.
    pub long: &'static str,
    /// The short name, without a hyphen.
    pub short: Option<char>,
    /// The value that follows.
    pub takes: Takes,
    /// The text shown in help.
    pub help: &'static str,
}

/// The kinds of task.
#[derive(Clone, Copy)]
pub enum Purpose {
    /// Makes a code from data.
    Draw,
    /// Makes a code from data, and damages it.
    Damage,
    /// Splits data over several codes.
    Several,
    /// Decodes a picture.
    Read,
    /// Reports where the codes in a picture depart from the standard.
    Check,
    /// Decodes the codes of a split and joins their data.
    Join,
    /// Makes a code from a payload whose fields are given by options.
    Content(Kind),
    /// Makes a code from a GS1 element string.
    Elements,
}

impl Purpose {
    /// Whether a code is drawn.
    pub fn draws(self) -> bool {
        !matches!(self, Purpose::Read | Purpose::Check | Purpose::Join)
    }

    /// Whether it is a Swiss QR-bill, whose format prescribes a size of 46 mm and, since the bill
    /// leaves room, no quiet zone.
    pub fn is_bill(self) -> bool {
        matches!(self, Purpose::Content(Kind::Bill))
    }

    /// Whether the payload's format fixes the error correction level.
    pub fn has_its_level(self) -> bool {
        matches!(self, Purpose::Content(Kind::Payment | Kind::Bill))
    }
}
