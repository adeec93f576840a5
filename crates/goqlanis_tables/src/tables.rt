//! Tables: inputs with a code in each line.

use crate::Done;
use crate::columns::{Columns, identifier_in, is_identifier};
use crate::fields::Line;
use crate::inputs::{is_blank, next_line, text_of, utf8};
use goqlanis_files::failure::{Doubts, Failure, InputLine};
use goqlanis_files::streams::shown;
use goqlanis_files::{doubted, refused, usage};
use goqlanis_options::asked::{InputLines, Job, Source, Target, Work};
use qrcode_payloads::kinds::Kind;
use std::alloc::{AllocError, Global};
use std::io::BufRead;

/// An input with a code in each line.
#[derive(Drop)]
pub struct Table<'a> {
    /// How the lines are divided.
    pub lines: InputLines<'a>,
    /// Whether they are encoded whole.
    pub is_whole: bool,
    // Whether they have element strings, or their values.
    has_elements: bool,
    /// What messages call the input.
    pub name: &'a str,
    // Its file, if it is one.
    file: Option<&'a str>,
    /// The names of its columns.
    pub columns: Columns,
    /// The number of the only field that is encoded, from 1, if there is one.
    pub field: Option<usize>,
}

impl<'a> Table<'a> {
    /// Reads the names of the columns: those of the command line, which commas may separate too, or
    /// else of the first line. With `--header` the first line is read in both cases.
    ///
    /// Errors: `Refused` if there are no such names; `Usage` if they have another delimiter, or none
    /// is that of `--field`; `OutOfMemory`.
    pub fn read<R: BufRead>(
        alloc: Global,
        asked: &Job<'a, '_>,
        lines: InputLines<'a>,
        from: &mut R,
    ) -> Done<Table<'a>> {
        let (name, file) = match asked.input.source {
            Source::Text(_) => ("TEXT", None),
            Source::File(path) => (path, Some(path)),
            Source::StandardInput => ("standard input", None),
        };
        let mut line = Vec::new(alloc);
        let has_line = lines.has_header && next_line(alloc, name, from, &mut line, 1)?;
        let first = has_line.then_some(text_of(&line, 1));
        let (kind, place) = (asked.work.kind(), InputLine { file, line: 1 });
        let columns = columns_of(alloc, kind, lines, place, first)?;
        let has_elements = matches!(asked.work, Work::Elements(_));
        let is_whole = !has_elements && kind.is_none() && lines.field.is_none();
        let has_places = matches!(asked.target, Target::File(path) if path.contains('{'));
        if has_places || !is_whole {
            check_delimiter(alloc, &columns)?;
        }
        let field = match lines.field {
            Some(name) => Some(field_number(alloc, &columns, name)?),
            None => None,
        };
        Ok(Table {
            lines,
            is_whole,
            has_elements,
            name,
            file,
            columns,
            field,
        })
    }

    // Whether fields of the lines count.
    fn has_fields(&self) -> bool {
        !self.columns.names.is_empty() || self.lines.field.is_some()
    }

    /// Returns the place of a line, by its number among those that are encoded, from 1.
    pub fn place(&self, number: usize) -> InputLine<'a> {
        InputLine {
            file: self.file,
            line: number.saturating_add(usize::from(self.lines.has_header)),
        }
    }

    /// Returns a line that was read, or `None` if its fields count and all are empty.
    ///
    /// Errors: `Refused` if its fields count and it ends within quotation marks; `OutOfMemory`.
    pub fn line<'b>(&self, alloc: Global, read: &'b [u8], number: usize) -> Done<Option<Line<'b>>> {
        let place = self.place(number).line;
        let bytes = text_of(read, place);
        if self.has_fields() && is_blank(bytes, self.lines.delimiter) {
            return Ok(None);
        }
        let line = Line::of(alloc, number, bytes, self.lines.delimiter)?;
        if self.has_fields() && line.fields.is_none() {
            let name = shown(self.name);
            return refused!(alloc;
                "cannot read {name}: line {place} ends within quotation marks, and fields have no \
                line breaks; neither it nor the lines after it are encoded"
            );
        }
        Ok(Some(line))
    }

    /// Checks the number of fields in a line: there are no more than names of columns, and of
    /// elements no fewer. A line that is encoded whole may have any number. Warns of a first line
    /// that has the names which `--columns` gives.
    ///
    /// Errors: `Refused`, also if warnings are errors; `OutOfMemory`.
    pub fn check_line(&self, rt: &HostRuntime, doubts: Doubts<'_>, line: &Line<'_>) -> Done<()> {
        if self.columns.names.is_empty() {
            return Ok(());
        }
        let fields = line.fields(rt.alloc())?;
        let (count, known) = (fields.len(), self.columns.names.len());
        if count > known && !self.is_whole || count < known && self.has_elements {
            return refused!(rt.alloc();
                "fields: {count}, columns: {known}; put quotation marks around a field that contains \
                the delimiter"
            );
        }
        let mut names = fields
            .iter()
            .map(|field| self.columns.number_of(field.as_str().trim()));
        if line.number == 1 && !self.lines.has_header && names.all(|name| name.is_some()) {
            doubted!(rt, doubts;
                "these are the names of the columns; add --header to leave them out"
            )?;
        }
        Ok(())
    }

    /// Returns what is encoded of a line, unless it is a payload: the field that `--field` selects,
    /// the elements in its fields, or all of it.
    ///
    /// Errors: `Refused` if it is not UTF-8, or lacks the field; `OutOfMemory`.
    pub fn data(&self, alloc: Global, line: &Line<'_>) -> Done<String> {
        let text = utf8(alloc, line.bytes)?;
        match self.field {
            Some(number) => Ok(String::from_str(alloc, line.field(alloc, number)?)?),
            None if self.has_elements && !self.columns.names.is_empty() => {
                Ok(elements_in(alloc, &self.columns, line.fields(alloc)?)?)
            }
            None => Ok(String::from_str(alloc, text)?),
        }
    }
}

// Returns the names of the columns, given the first line and its place if it has names.
fn columns_of(
    alloc: Global,
    kind: Option<Kind>,
    lines: InputLines<'_>,
    place: InputLine<'_>,
    first: Option<&[u8]>,
) -> Done<Columns> {
    if let Some(names) = lines.columns {
        let is_own = names.contains(lines.delimiter);
        let delimiter = if is_own { lines.delimiter } else { "," };
        return Columns::read(alloc, kind, names, delimiter);
    }
    let Some(line) = first else {
        return Ok(Columns::none(alloc));
    };
    let text = String::from_utf8_lossy(alloc, line)?;
    if text.starts_with("sep=") {
        return refused!(alloc;
            "{place}sep= is for spreadsheets: remove this line, and add --delimiter"
        );
    }
    match Columns::read(alloc, kind, text.as_str(), lines.delimiter) {
        Err(Failure::Refused(why)) => refused!(alloc; "{place}{why}"),
        read => read,
    }
}

// Refuses the only name of a column if it has another delimiter inside.
fn check_delimiter(alloc: Global, columns: &Columns) -> Done<()> {
    let [name] = columns.names.as_slice() else {
        return Ok(());
    };
    let mut signs = [(';', ";"), ('\t', "tab"), ('|', "|"), (',', ",")].iter();
    match signs.find(|(sign, _)| name.as_str().contains(*sign)) {
        Some((_, sign)) => {
            usage!(alloc; "the columns have another delimiter: add --delimiter \"{sign}\"")
        }
        None => Ok(()),
    }
}

// Returns the number of the field that `--field` selects.
fn field_number(alloc: Global, columns: &Columns, name: &str) -> Done<usize> {
    match (columns.number_of(name), name.parse::<u16>()) {
        (Some(number), _) => Ok(number),
        (None, Ok(number)) if number > 0 => Ok(number as usize),
        _ if columns.names.is_empty() => usage!(alloc;
            "--field {name}: use a whole number, 1 to 65,535, or name the columns with --header"
        ),
        _ => {
            let list = columns.list(alloc)?;
            usage!(alloc; "--field {name}: use a number, or one of the columns {list}")
        }
    }
}

// Returns the element string of fields whose columns are named by application identifiers. Empty
// fields are left out.
fn elements_in(alloc: Global, columns: &Columns, fields: &[String]) -> Result<String, AllocError> {
    let mut text = String::new(alloc);
    for (name, field) in columns.names.iter().zip(fields) {
        let name = identifier_in(name.as_str());
        if is_identifier(name) && !field.is_empty() {
            let value = field.as_str().replace(alloc, '(', "\\(")?;
            write!(text, "({name}){value}")?;
        }
    }
    Ok(text)
}
