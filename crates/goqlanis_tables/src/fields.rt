//! Lines, and their fields.

ghost use Rattle.std.specs.Prelude.{IsErr};

use crate::Done;
use goqlanis_files::refused;
use std::alloc::{AllocError, Global};

/// A line.
#[derive(Drop)]
pub struct Line<'a> {
    /// Its number among the lines that are encoded, from 1.
    pub number: usize,
    /// Its bytes, without its ending.
    pub bytes: &'a [u8],
    /// Its text; � stands for bytes that are not UTF-8.
    pub text: String,
    // Its fields; `None` if a quotation mark is not closed.
    pub(crate) fields: Option<Vec<String>>,
}

impl<'a> Line<'a> {
    /// Returns a line with this number, whose fields `delimiter` separates.
    ///
    /// Errors: only `AllocError`.
    pub fn of(
        alloc: Global,
        number: usize,
        bytes: &'a [u8],
        delimiter: &str,
    ) -> Result<Line<'a>, AllocError> {
        let text = String::from_utf8_lossy(alloc, bytes)?;
        let fields = fields_of(alloc, text.as_str(), delimiter)?;
        Ok(Line {
            number,
            bytes,
            text,
            fields,
        })
    }

    /// Returns its fields.
    ///
    /// Errors: `Refused` if a quotation mark is not closed; `OutOfMemory`.
    pub fn fields(&self, alloc: Global) -> Done<&[String]> {
        match &self.fields {
            Some(fields) => Ok(fields.as_slice()),
            None => not_closed(alloc),
        }
    }

    /// Returns a field, counted from 1.
    ///
    /// Errors: `Refused` if there is none; `OutOfMemory`.
    pub fn field(&self, alloc: Global, number: usize) -> Done<&str> {
        match self.fields(alloc)?.get(number.saturating_sub(1)) {
            Some(field) => Ok(field.as_str()),
            None => refused!(alloc;
                "it has no field {number}; --delimiter says what separates fields"
            ),
        }
    }
}

/// Fails: a quotation mark is not closed.
pub(crate) fn not_closed<T>(alloc: Global) -> Done<T>
    ensures { IsErr result }
{
    refused!(alloc; "a field has no quotation mark at its end; a field has no line breaks")
}

/// Returns the fields of a line, or `None` if a quotation mark is not closed. As in CSV, a quoted
/// field may contain the delimiter, and a quotation mark that is doubled.
///
/// Errors: only `AllocError`.
pub(crate) fn fields_of(
    alloc: Global,
    line: &str,
    delimiter: &str,
) -> Result<Option<Vec<String>>, AllocError> {
    let mut fields = Vec::new(alloc);
    let mut field = String::new(alloc);
    let (mut is_open, mut is_odd) = (false, false);
    for piece in line.split(delimiter) {
        if is_open {
            field.push_str(delimiter)?;
        } else {
            field.clear();
            is_odd = false;
        }
        field.push_str(piece)?;
        let count = piece.bytes().filter(|byte| *byte == b'"').count();
        is_odd = is_odd != (count % 2 == 1);
        is_open = is_odd && field.starts_with('"');
        if !is_open {
            fields.push(unquoted(alloc, field.as_str())?)?;
        }
    }
    Ok((!is_open).then_some(fields))
}

// Removes the quotation marks around a field, and undoubles those inside.
fn unquoted(alloc: Global, field: &str) -> Result<String, AllocError> {
    let inner = field
        .strip_prefix('"')
        .and_then(|rest| rest.strip_suffix('"'));
    match inner {
        Some(inner) => inner.replace(alloc, "\"\"", "\""),
        None => String::from_str(alloc, field),
    }
}
