//! The names of columns.

use crate::Done;
use crate::fields::{fields_of, not_closed};
use goqlanis_options::options::fields::option_of;
use goqlanis_options::options::{OTHER_NAMES, Purpose, counts};
use qrcode_contents::fields::errors::Field;
use qrcode_payloads::kinds::{Kind, fields_of as fields_in};
use std::alloc::{AllocError, Global};

/// The columns of a table; there may be none.
#[derive(Drop)]
pub struct Columns {
    /// The names in order.
    pub names: Vec<String>,
    /// The fields of a payload, in order, each with the number of the column that gives it, from 1.
    pub fields: Vec<(Field, Option<usize>)>,
}

impl Columns {
    /// Returns no names.
    pub fn none(alloc: Global) -> Columns {
        Columns {
            names: Vec::new(alloc),
            fields: Vec::new(alloc),
        }
    }

    /// Reads the names in a line, for codes of text or of this kind of payload.
    ///
    /// Errors: `Refused` if a quotation mark is not closed; `OutOfMemory`.
    pub fn read(alloc: Global, kind: Option<Kind>, line: &str, delimiter: &str) -> Done<Columns> {
        let Some(names) = fields_of(alloc, line, delimiter)? else {
            return not_closed(alloc);
        };
        let mut columns = Columns::none(alloc);
        columns.names = names;
        if let Some(kind) = kind {
            columns.find_fields(kind)?;
        }
        Ok(columns)
    }

    // Finds the column of each field of a payload: the one that is called as its option, or else
    // the first that is called by another name of it.
    fn find_fields(&mut self, kind: Kind) -> Result<(), AllocError> {
        for field in fields_in(kind) {
            let number = self.number_of(option_of(*field).long);
            let mut names = self.names.iter();
            let other = names.position(|name| field_called(kind, name.as_str()) == Some(*field));
            let number = number.or(other.map(|place| place.saturating_add(1)));
            self.fields.push((*field, number))?;
        }
        Ok(())
    }

    /// Returns the number of the column called `name`, from 1.
    pub fn number_of(&self, name: &str) -> Option<usize> {
        let mut names = self.names.iter();
        let place = names.position(|known| known.as_str().trim().eq_ignore_ascii_case(name))?;
        Some(place.saturating_add(1))
    }

    /// Returns the number of the column that gives a field of a payload, from 1.
    pub fn field(&self, field: Field) -> Option<usize> {
        let mut fields = self.fields.iter();
        let (_, number) = fields.find(|(known, _)| *known == field)?;
        *number
    }

    /// Returns the names with commas between.
    ///
    /// Errors: only `AllocError`.
    pub fn list(&self, alloc: Global) -> Result<String, AllocError> {
        let names = self.names.iter();
        let names = names.map(|name| name.as_str()).collect::<Vec<&str>>(alloc)?;
        names.join(alloc, ", ")
    }

    /// Returns what messages call a field: its column, if it has one, or else its option.
    ///
    /// Errors: only `AllocError`.
    pub fn label(&self, alloc: Global, field: Field) -> Result<String, AllocError> {
        let name = option_of(field).long;
        match self.field(field) {
            Some(number) => format!(in alloc; "column {number}, {name}"),
            None => format!(in alloc; "--{name}"),
        }
    }
}

/// Returns the field of payloads of `kind` whose option has this name, or else has it as another
/// name.
pub(crate) fn field_called(kind: Kind, name: &str) -> Option<Field> {
    let (name, mut found) = (name.trim(), None);
    for field in fields_in(kind) {
        let long = option_of(*field).long;
        if long.eq_ignore_ascii_case(name) {
            return Some(*field);
        }
        let is_other = OTHER_NAMES.iter().any(|(other, option)| *option == long
            && other.eq_ignore_ascii_case(name)
            && counts(other, Purpose::Content(kind)));
        if is_other {
            found = Some(*field);
        }
    }
    found
}

/// Returns the application identifier that a column is named by, without its brackets.
pub fn identifier_in(name: &str) -> &str {
    name.trim()
        .trim_start_matches(|sign: char| matches!(sign, '(' | '['))
        .trim_end_matches(|sign: char| matches!(sign, ')' | ']'))
}

/// Whether a name is an application identifier: digits alone.
pub fn is_identifier(name: &str) -> bool {
    !name.is_empty() && name.bytes().all(|byte| byte.is_ascii_digit())
}
