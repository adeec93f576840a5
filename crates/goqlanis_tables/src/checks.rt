//! Checks the columns of a table (`--lines`) before its lines are encoded.

use crate::Done;
use crate::columns::{Columns, field_called, identifier_in, is_identifier};
use crate::tables::Table;
use goqlanis_files::streams::shown;
use goqlanis_files::{doubted, usage};
use goqlanis_options::asked::{Job, Target, Work};
use goqlanis_options::fields::Fields;
use goqlanis_options::nearest::nearest;
use goqlanis_options::options::fields::option_of;
use qrcode_contents::fields::errors::Field;
use qrcode_payloads::given::FieldSource;
use qrcode_payloads::kinds::{Kind, fields_of};
use std::alloc::{AllocError, Global};

/// Warns of columns that are neither encoded nor part of a file name, of options that they make
/// void, and of a `--field` that is the name of one column and the number of another; refuses
/// payloads without names of columns, and tables in which something is surely missing.
///
/// Errors: `Usage`; a warning if warnings are errors; `OutOfMemory`.
pub fn check_columns(rt: &HostRuntime, asked: &Job<'_, '_>, table: &Table<'_>) -> Done<()> {
    let columns = &table.columns;
    match asked.work {
        Work::Payload(fields) => check_payload(rt, fields, asked, table)?,
        Work::Elements(_) if table.field.is_none() => check_identifiers(rt.alloc(), columns)?,
        _ => {}
    }
    if table.is_whole && columns.names.len() > 1 && table.lines.has_header {
        doubted!(rt, asked.doubts;
            "lines are encoded whole, with all columns; for one of them, add --field"
        )?;
    }
    if let (Some(name), Some(number)) = (table.lines.field, table.field) {
        let count = name.parse::<usize>().unwrap_or(0);
        if count > 0 && count != number && count <= columns.names.len() {
            doubted!(rt, asked.doubts;
                "--field {name}: this is column {number}, which has that name, not column {count}"
            )?;
        }
    }
    for (place, name) in columns.names.iter().enumerate() {
        let number = place.saturating_add(1);
        let is_named = is_in_path(rt.alloc(), asked.target, name.as_str())?;
        match left_out(&asked.work, table, number, is_named) {
            Some(_) if name.as_str().trim().is_empty() => doubted!(rt, asked.doubts;
                "column {number} has no name, so it is not encoded"
            )?,
            Some(why) => {
                let name = shown(name.as_str());
                doubted!(rt, asked.doubts; "column {name} {why} is not encoded")?;
            }
            None => {}
        }
    }
    Ok(())
}

// Checks the columns of a table of payloads. Warns of options that a column makes void, or that
// have placeholders.
fn check_payload(
    rt: &HostRuntime,
    fields: Fields<'_, '_>,
    asked: &Job<'_, '_>,
    table: &Table<'_>,
) -> Done<()> {
    let columns = &table.columns;
    if columns.names.is_empty() && !table.lines.has_header {
        return usage!(rt.alloc();
            "--lines: add --header if the first line names the columns, or name them with \
            --columns, e.g. --columns ssid,password"
        );
    }
    check_spelling(rt.alloc(), fields.kind, asked.target, columns)?;
    let says_protection = [Field::Password, Field::Security].iter().any(|field| {
        columns.field(*field).is_some() || !fields.text(*field).is_empty()
    });
    if fields.kind == Kind::Wifi && !says_protection && !columns.names.is_empty() {
        return usage!(rt.alloc();
            "no column is called password; for open networks, add --security open"
        );
    }
    if table.lines.field.is_some() {
        return usage!(rt.alloc(); "--field: a payload takes all its columns; leave it out");
    }
    for field in fields_of(fields.kind) {
        let (name, text) = (option_of(*field).long, fields.text(*field));
        // (A flag has a text in any case.)
        if text.is_empty() || *field == Field::Hidden {
            continue;
        }
        if columns.field(*field).is_some() {
            doubted!(rt, asked.doubts; "--{name} has no effect: a column gives it")?;
        } else if text.contains('{') && text.contains('}') {
            doubted!(rt, asked.doubts; "--{name}: {{}} stands for itself there")?;
        }
    }
    Ok(())
}

// Refuses a table of GS1 data in which no column is named by an application identifier.
fn check_identifiers(alloc: Global, columns: &Columns) -> Done<()> {
    let mut names = columns.names.iter();
    if !columns.names.is_empty() && !names.any(|name| is_identifier(identifier_in(name.as_str()))) {
        return usage!(alloc;
            "name the columns by application identifiers, e.g. --columns 01,10,17"
        );
    }
    Ok(())
}

// Refuses a column that seems to be a misspelt field, which would be lost.
fn check_spelling(alloc: Global, kind: Kind, target: Target<'_>, columns: &Columns) -> Done<()> {
    let fields = fields_of(kind).iter();
    let known = fields
        .map(|field| option_of(*field).long)
        .collect::<Vec<&'static str>>(alloc)?;
    for name in &columns.names {
        let name = name.as_str().trim();
        if name.is_empty()
            || field_called(kind, name).is_some()
            || is_in_path(alloc, target, name)?
        {
            continue;
        }
        if let Some(meant) = nearest(alloc, name, &known)? {
            return usage!(alloc; "column {name}: did you mean {meant}?");
        }
    }
    Ok(())
}

// Says why column `number` is not encoded, if it is not and is no part of a file name either.
fn left_out(
    work: &Work<'_, '_>,
    table: &Table<'_>,
    number: usize,
    is_named: bool,
) -> Option<&'static str> {
    let columns = &table.columns;
    let name = columns.names.get(number.saturating_sub(1))?.as_str();
    match (work, table.lines.field) {
        (Work::Payload(fields), _) => match field_called(fields.kind, name) {
            None if !is_named => Some("is no option of this command, so it"),
            Some(field) if columns.field(field) != Some(number) => Some("stands twice; this one"),
            _ => None,
        },
        (Work::Elements(_), None) => {
            let is_left_out = !is_named && !is_identifier(identifier_in(name));
            is_left_out.then_some("is no application identifier, so it")
        }
        (Work::Elements(_), Some(_)) | (_, None) => None,
        (_, Some(field)) => {
            let is_selected = name.trim().eq_ignore_ascii_case(field);
            (is_selected && table.field != Some(number)).then_some("stands twice; this one")
        }
    }
}

// Whether the path of the output has the column as a placeholder. (`{}` is the number of a code.)
fn is_in_path(alloc: Global, target: Target<'_>, name: &str) -> Result<bool, AllocError> {
    let place = format!(in alloc; "{{{name}}}")?;
    let is_there = matches!(target, Target::File(path) if path.contains(place.as_str()));
    Ok(is_there && !name.is_empty())
}
