//! Parses GS1 element strings as people write them, and explains errors in them.

ghost use Rattle.std.specs.Prelude.{◌≡◌, ◌++◌, map, string_bytes, IfOk};
ghost use Rattle.qrcode_gs1.specs.Items.{item};
ghost use Rattle.goqlanis_make.specs.Labels.{items_of, label_text, left_text, value_text};

use goqlanis_files::failure::{Failure, refused};
use qrcode_gs1::checks::cause_of;
use qrcode_gs1::elements::Element;
use qrcode_gs1::errors::Cause;
use qrcode_gs1::table::rule_of;
use std::alloc::{AllocError, Global};

/// A GS1 element string: the identifier and value of each element.
#[derive(Drop)]
pub(crate) struct Elements {
    items: Vec<(String, String)>,
}

impl Elements {
    /// Parses `text`: each identifier in round brackets, then its value, in which `\(` means `(`.
    /// Does not check whether such identifiers and values exist.
    ///
    /// Errors: `Refused` if there is no element, or something else than elements; `OutOfMemory`.
    pub(crate) fn read(alloc: Global, text: &str) -> Result<Elements, Failure>
        ensures written { IfOk result (λ elements.
            label_text (items_of elements.items.items) ≡ text.now) }
    {
        let Some(first) = text.strip_prefix('(') else {
            return refused(alloc, NO_BRACKET);
        };
        let (mut items, mut left) = (Vec::new(alloc), Some(first));
        while let Some(inner) = left {
            let (identifier, behind) = match inner.split_once(')') {
                Some((identifier, behind)) if !identifier.contains('(') => (identifier, behind),
                _ => return refused(alloc, NOT_CLOSED),
            };
            let (value, next) = value_in(alloc, behind)?;
            items.push((String::from_str(alloc, identifier)?, value))?;
            left = next;
        }
        Ok(Elements { items })
    }

    /// Returns the elements as the encoder takes them.
    ///
    /// Errors: only `AllocError`.
    pub(crate) fn elements(&self, alloc: Global) -> Result<Vec<Element<'_>>, AllocError>
        ensures value { IfOk result (λ elements. map item elements.items
            ≡ items_of self.now.items.items) }
    {
        let mut elements = Vec::with_capacity(alloc, self.items.len())?;
        for (identifier, value) in &self.items {
            elements.push(Element {
                identifier: identifier.as_str(),
                value: value.as_str(),
            })?;
        }
        Ok(elements)
    }

    /// Explains why the element at `index` is refused: which one, what is wrong, and what would
    /// help. Empty if there is no such element.
    ///
    /// Errors: only `AllocError`.
    pub(crate) fn refusal(
        &self,
        alloc: Global,
        index: usize,
        cause: Cause,
    ) -> Result<String, AllocError> {
        let mut text = String::new(alloc);
        if let Some((identifier, value)) = self.items.get(index) {
            let number = index.saturating_add(1);
            write!(text, "element {number}, ({identifier}): ")?;
            push_cause(&mut text, identifier.as_str(), value.as_str(), cause)?;
        }
        Ok(text)
    }
}

// Appends what is wrong with an element, and what would help.
fn push_cause(
    text: &mut String,
    identifier: &str,
    value: &str,
    cause: Cause,
) -> Result<(), AllocError> {
    match (cause, rule_of(identifier.as_bytes())) {
        (Cause::Length, Some(rule)) => {
            let ((least, most), count) = (rule.1, value.len());
            write!(text, "its value has {count} characters; it needs {least}")?;
            if least < most {
                write!(text, " to {most}")?;
            }
            text.push_str(length_help(identifier, count))
        }
        (Cause::Character, Some(rule)) => push_character(text, rule.2, value),
        (Cause::CheckDigit, Some(rule)) => {
            let place = rule.3;
            let digit = right_digit(*text.allocator(), identifier, value, place)?;
            write!(
                text,
                "its check digit, at place {place}, would be {digit}; look for a mistyped or \
                swapped digit"
            )
        }
        (Cause::Range, _) => text.push_str("its value is no date, YYMMDD (DD may be 00)"),
        _ if identifier.bytes().any(|byte| !byte.is_ascii_digit()) => text.push_str(
            "no such identifier is known; if ( belongs to the value before it, write \\(",
        ),
        _ => text.push_str(
            "no such identifier is known; identifiers have two to four digits, as 01, 414 and 3103",
        ),
    }
}

// What would help with a value of this many characters, if its identifier allows no such length.
fn length_help(identifier: &str, count: usize) -> &'static str {
    match (identifier, count) {
        ("01" | "02", 13) => "; put a 0 before a GTIN of 13 digits",
        ("11" | "12" | "13" | "15" | "16" | "17", 8 | 10) => ": YYMMDD",
        _ => "",
    }
}

// Reads the value with which `text` begins, in which `\(` means `(`; returns it, and what follows
// the opening bracket behind it, if there is one.
fn value_in<'a>(alloc: Global, text: &'a str) -> Result<(String, Option<&'a str>), AllocError>
    ensures parts { IfOk result (λ x. value_text (string_bytes x.0) ++ left_text x.1 ≡ text.now) }
{
    let mut value = String::new(alloc);
    let mut left = text;
    while let Some((piece, behind)) = left.split_once('(') {
        let Some(start) = piece.strip_suffix('\\') else {
            value.push_str(piece)?;
            return Ok((value, Some(behind)));
        };
        value.push_str(start)?;
        value.push('(')?;
        left = behind;
    }
    value.push_str(left)?;
    Ok((value, None))
}

/// Returns `text` with identifiers in round brackets: where it starts with a square bracket, all
/// its identifiers stand in square ones, and `(` needs no backslash in a value.
///
/// Errors: only `AllocError`.
pub(crate) fn with_round_brackets(alloc: Global, text: &str) -> Result<String, AllocError> {
    if !text.starts_with('[') {
        return String::from_str(alloc, text);
    }
    let text = text
        .replace(alloc, '\\', "\\\\")?
        .replace(alloc, '(', "\\(")?;
    let mut round = String::new(alloc);
    for element in text.split('[').skip(1) {
        let element = element.replacen(alloc, ']', ")", 1)?;
        write!(round, "({element}")?;
    }
    Ok(round)
}

// Messages for a text that does not start with a bracket, and for a bracket that is never closed.
const NO_BRACKET: &str =
    "ELEMENTS: start with an identifier in round brackets, e.g. (01)09521234543213";

const NOT_CLOSED: &str = "ELEMENTS: an opening bracket is never closed; write ( in a value as \\(";

// Appends which character of a value is not allowed; the first `digits` have to be digits.
fn push_character(text: &mut String, digits: usize, value: &str) -> Result<(), AllocError> {
    for (index, character) in value.chars().enumerate() {
        let place = index.saturating_add(1);
        if index < digits && !character.is_ascii_digit() {
            return write!(text, "{character} at place {place} is no digit");
        }
        if character == '\\' {
            return write!(
                text,
                "\\ at place {place}: only ( is written with a backslash"
            );
        }
        // GS1's character set 82.
        if !matches!(character, '!' | '"' | '%'..='?' | 'A'..='Z' | '_' | 'a'..='z') {
            return write!(
                text,
                "{character} at place {place} is not one of the digits, letters and \
                !\"%&'()*+,-./:;<=>?_"
            );
        }
    }
    Ok(())
}

// Returns the digit that would be right at `place`, counted from 1.
fn right_digit(
    alloc: Global,
    identifier: &str,
    value: &str,
    place: usize,
) -> Result<char, AllocError> {
    let mut bytes = Vec::from_slice(alloc, value.as_bytes())?;
    for digit in b'0'..b'9' + 1 {
        if let Some(byte) = bytes.get_mut(place.saturating_sub(1)) {
            *byte = digit;
        }
        if cause_of(identifier.as_bytes(), &bytes).is_none() {
            return Ok(char::from(digit));
        }
    }
    Ok('0')
}
