//! The fields of a payload in a line.

ghost use Rattle.std.specs.Prelude.{◌≡◌, map};
ghost use Rattle.goqlanis_options.specs.Fields.{name_of};
ghost use Rattle.goqlanis_tables.specs.Rows.{pair_of, text_named, texts_of};

use crate::Done;
use crate::columns::Columns;
use crate::fields::Line;
use crate::inputs::{is_one_of, utf8};
use goqlanis_files::refused;
use goqlanis_options::fields::{DECISIVE, OPEN};
use goqlanis_options::options::fields::option_of;
use qrcode_contents::fields::errors::Field;
use qrcode_payloads::given::FieldSource;
use std::alloc::Global;

/// The fields of a payload in a line: names of options with their texts.
#[derive(Drop)]
pub struct LineFields {
    pairs: Vec<(String, String)>,
}

impl FieldSource for LineFields {
    ghost fields = { λ row. texts_of row };

    fn text(&self, field: Field) -> &str {
        text_named(&self.pairs, option_of(field).long)
    }
}

// The text of the first pair with this name; empty if there is none.
fn text_named<'a>(pairs: &'a [(String, String)], name: &str) -> &'a str
    ensures { result.now ≡ text_named (map pair_of pairs.now) name.now }
{
    for (known, text) in pairs {
        if known.as_str() == name {
            return text.as_str();
        }
    }
    ""
}

impl LineFields {
    /// Returns the fields of a line: those of its columns, and the others as `options` give them.
    ///
    /// Errors: `Refused` if the line is not UTF-8, has fewer fields than columns, or an empty one that
    /// changes what the payload means; `OutOfMemory`.
    pub fn of<G: FieldSource>(
        alloc: Global,
        columns: &Columns,
        line: &Line<'_>,
        options: &G,
    ) -> Done<LineFields> {
        utf8(alloc, line.bytes)?;
        let mut pairs = Vec::new(alloc);
        // (An open network has no password.)
        let is_open = match columns.field(Field::Security) {
            Some(number) => is_one_of(line.field(alloc, number)?.trim(), OPEN),
            None => false,
        };
        for (field, number) in &columns.fields {
            let name = option_of(*field).long;
            let text = match number {
                Some(number) => line.field(alloc, *number)?,
                None => options.text(*field),
            };
            let may_be_empty = !DECISIVE.contains(&name) || is_open && name == "password";
            if let (Some(number), "", false) = (*number, text, may_be_empty) {
                return lacking(alloc, number, name);
            }
            let text = match field {
                Field::Hidden => truth(text),
                _ => text,
            };
            let name = String::from_str(alloc, name)?;
            pairs.push((name, String::from_str(alloc, text)?))?;
        }
        Ok(LineFields { pairs })
    }
}

/// Returns the first field whose text in a line has a space or a quotation mark at its start or end.
///
/// Errors: `Refused` if the line has fewer fields than columns; `OutOfMemory`.
pub fn loose(alloc: Global, columns: &Columns, line: &Line<'_>) -> Done<Option<Field>> {
    for (field, number) in &columns.fields {
        if let Some(number) = number {
            if is_loose(line.field(alloc, *number)?) {
                return Ok(Some(*field));
            }
        }
    }
    Ok(None)
}

/// Whether a field has a space or a quotation mark at its start or end.
pub fn is_loose(text: &str) -> bool {
    let is_mark = |sign: char| sign == '"' || sign.is_whitespace();
    text.starts_with(is_mark) || text.ends_with(is_mark)
}

// Fails: a column is empty, which changes what the payload means.
fn lacking<T>(alloc: Global, number: usize, name: &str) -> Done<T> {
    let help = if name == "password" {
        "for an open network, write open in a column security"
    } else {
        "leave the column out for none"
    };
    refused!(alloc; "column {number}, {name}: it is empty; {help}")
}

// Returns true or false for yes or no, as tables say it too, and any other word as it is.
fn truth(word: &str) -> &str {
    if is_one_of(word, &["yes", "1"]) {
        "true"
    } else if is_one_of(word, &["no", "0"]) {
        "false"
    } else {
        word
    }
}
