//! `--lines`: one code for each line.

use crate::drawing::{draw, write_drawing, write_page};
use crate::making::draw_payload;
use crate::{Done, FileBytes};
use goqlanis_files::failure::{Doubts, Failure};
use goqlanis_files::files::flush_folder;
use goqlanis_files::streams::{Series, ask, named, shown, unread};
use goqlanis_files::{doubted, refused};
use goqlanis_options::asked::{InputLines, Job, Source, Target, Work};
use goqlanis_tables::checks::check_columns;
use goqlanis_tables::fields::Line;
use goqlanis_tables::inputs::next_line;
use goqlanis_tables::names::{Template, check_made, common_form};
use goqlanis_tables::pages::Pages;
use goqlanis_tables::rows::{LineFields, is_loose, loose};
use goqlanis_tables::tables::Table;
use std::alloc::Global;
use std::collections::BTreeSet;
use std::fs;
use std::io::{BufRead, BufReader, Read};
use std::process::ExitCode;

// A table, and where the codes of its lines go.
#[derive(Drop)]
struct Output<'a> {
    table: Table<'a>,
    // Names of files, if they go there.
    pattern: Option<Template<'a>>,
    // The names of files that later lines could use again, in their common form.
    names: BTreeSet<String>,
    // Whether one was written.
    has_files: bool,
    // The document or series of drawings, if they go one behind another.
    pages: Pages<'a>,
}

/// Draws a code of each line as it arrives, without its LF or CR LF. A line that is refused is
/// reported, by file and number, and skipped; if a drawing cannot be written, the remaining lines
/// are not drawn.
pub(crate) fn draw_lines<'a>(
    rt: &HostRuntime,
    asked: &Job<'a, '_>,
    lines: InputLines<'a>,
) -> Done<ExitCode> {
    match asked.input.source {
        Source::Text(text) => draw_from(rt, asked, lines, text.as_bytes()),
        Source::File(path) => match fs::open(rt, path) {
            Ok(file) => draw_from(rt, asked, lines, file),
            Err(error) => unread(rt.alloc(), path, &error),
        },
        Source::StandardInput => {
            ask(rt, "the lines");
            draw_from(rt, asked, lines, rt.stdin())
        }
    }
}

// Draws each line of an input. A document is left out unless it is whole; the folder of files is on
// disk at the end.
fn draw_from<'a, R: Read + Drop>(
    rt: &HostRuntime,
    asked: &Job<'a, '_>,
    lines: InputLines<'a>,
    from: R,
) -> Done<ExitCode> {
    let mut from = BufReader::new(rt.alloc(), from).map_err(|_| Failure::OutOfMemory)?;
    let table = Table::read(rt.alloc(), asked, lines, &mut from)?;
    let pattern = Template::read(rt, asked, &table.columns)?;
    let path = match asked.target {
        Target::File(path) if pattern.is_none() => Some(path),
        _ => None,
    };
    let mut output = Output {
        table,
        pattern,
        names: BTreeSet::new(rt.alloc()),
        has_files: false,
        pages: Pages::new(rt.alloc(), Series::new(path)),
    };
    check_columns(rt, asked, &output.table)?;
    let drawn = output.draw_each(rt, asked, &mut from);
    let ended = match asked.target {
        Target::File(path) if output.has_files => named(rt.alloc(), path, flush_folder(rt, path)),
        _ => output.pages.series.end(rt, drawn.is_ok(), true),
    };
    let code = of_document(rt.alloc(), path, drawn)?;
    ended?;
    Ok(code)
}

// Returns what was drawn; if it is refused, says that the document at `path` is left out.
fn of_document(alloc: Global, path: Option<&str>, drawn: Done<ExitCode>) -> Done<ExitCode> {
    match (drawn, path) {
        (Err(Failure::Refused(why)), Some(path)) => refused!(alloc;
            "{why}; {path} is not written"
        ),
        (drawn, _) => drawn,
    }
}

impl<'a> Output<'a> {
    // Draws each line, and reports the refused ones. In a table, lines without any data are left
    // out.
    fn draw_each<R: BufRead>(
        &mut self,
        rt: &HostRuntime,
        asked: &Job<'a, '_>,
        from: &mut R,
    ) -> Done<ExitCode> {
        let mut is_whole = true;
        let mut read = Vec::new(rt.alloc());
        for number in 1..usize::MAX {
            let place = self.table.place(number);
            if !next_line(rt.alloc(), self.table.name, from, &mut read, place.line)? {
                if number == 1 {
                    let name = shown(self.table.name);
                    doubted!(rt, asked.doubts; "{name} has no lines: no code is made")?;
                }
                break;
            }
            if let Some(line) = self.table.line(rt.alloc(), &read, number)? {
                match self.draw_line(rt, asked, &line) {
                    Err(Failure::Refused(why)) => {
                        let why = shown(why.as_str());
                        let _ = eprintln!(rt; "goqlanis: {place}{why}");
                        is_whole = false;
                    }
                    drawn => drawn?,
                }
            }
        }
        self.pages.end(rt)?;
        Ok(ExitCode::from(u8::from(!is_whole)))
    }

    // Draws a line, to a file named after it if `--output` is given. Refuses a name that an earlier
    // line has, in the form that is common to all names that may be the same.
    fn draw_line(&mut self, rt: &HostRuntime, asked: &Job<'a, '_>, line: &Line<'_>) -> Done<()> {
        let doubts = Doubts {
            place: Some(self.table.place(line.number)),
            ..asked.doubts
        };
        let asked = Job { doubts, ..*asked };
        self.table.check_line(rt, doubts, line)?;
        let Some(pattern) = &self.pattern else {
            let drawing = draw_data(rt, &asked, &self.table, line)?;
            return write_page(rt, &asked, &mut self.pages, drawing);
        };
        let name = pattern.name(rt.alloc(), line)?;
        let common = common_form(rt.alloc(), name.as_str())?;
        if self.names.contains(common.as_str()) {
            return refused!(rt.alloc();
                "{name} is the file of an earlier line; {{}} in --output numbers the codes"
            );
        }
        check_made(rt, &asked, name.as_str())?;
        let target = Target::File(name.as_str());
        let asked = Job { target, ..asked };
        let drawing = draw_data(rt, &asked, &self.table, line)?;
        self.has_files = self.has_files || drawing.is_some();
        write_drawing(rt, &asked, drawing)?;
        if pattern.has_text() {
            self.names.insert(common)?;
        }
        Ok(())
    }
}

// Draws what a line of a table holds.
fn draw_data(
    rt: &HostRuntime,
    asked: &Job<'_, '_>,
    table: &Table<'_>,
    line: &Line<'_>,
) -> Done<FileBytes> {
    let columns = &table.columns;
    if let Work::Payload(fields) = asked.work {
        let row = LineFields::of(rt.alloc(), columns, line, &fields)?;
        if let Some(field) = loose(rt.alloc(), columns, line)? {
            let label = columns.label(rt.alloc(), field)?;
            doubted!(rt, asked.doubts;
                "{label}: the space or quotation mark at its start or end is encoded"
            )?;
        }
        return draw_payload(rt, fields.kind, asked, &row, columns);
    }
    if table.is_whole {
        return draw(rt, asked, line.bytes);
    }
    let data = table.data(rt.alloc(), line)?;
    if table.field.is_some() && is_loose(data.as_str()) {
        doubted!(rt, asked.doubts;
            "the space or quotation mark at the start or end of the field is encoded"
        )?;
    }
    draw(rt, asked, data.as_str().as_bytes())
}
