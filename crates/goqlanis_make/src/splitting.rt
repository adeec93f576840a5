//! `goqlanis split`: structured append.

use crate::Done;
use crate::drawing::{check_empty, draw_reported, manner, write_drawing, write_page};
use goqlanis_files::failure::Failure;
use goqlanis_files::refused;
use goqlanis_files::streams::{MOST_DATA, Series, shown};
use goqlanis_options::asked::{Job, Split, Target};
use goqlanis_request::VersionName;
use goqlanis_tables::columns::Columns;
use goqlanis_tables::fields::Line;
use goqlanis_tables::names::{Template, check_made};
use goqlanis_tables::pages::Pages;
use qrcode::QrCode;
use qrcode::bits::Manner;
use qrcode::types::{EcLevel, QrError};
use qrcode_append::{Versions, encode_among, encode_counted};
use std::alloc::Global;
use std::fs;
use std::process::ExitCode;

// The maximum number of codes in a split.
const MOST_SYMBOLS: usize = 16;

/// The maximum number of input bytes of `split`: 16 codes' worth.
pub(crate) const MOST_IN_SEVERAL: usize = MOST_SYMBOLS * MOST_DATA;

/// Splits `bytes` over several codes, each written to a numbered file.
pub(crate) fn draw_several(
    rt: &HostRuntime,
    asked: &Job<'_, '_>,
    split: Split,
    bytes: &[u8],
) -> Done<ExitCode> {
    let alloc = rt.alloc();
    let pattern = Template::read(rt, asked, &Columns::none(alloc))?;
    check_empty(alloc, asked, bytes)?;
    let (versions, level) = (split.versions, asked.request.level);
    let manner = manner(alloc, asked, bytes)?;
    let made = match split.count {
        None => encode_among(alloc, bytes, manner, versions, level),
        Some(count) => encode_counted(alloc, bytes, manner, versions, level, count as usize),
    };
    match made {
        Ok(codes) => draw_each(rt, asked, pattern.as_ref(), codes),
        Err(QrError::DataTooLong) => too_long(alloc, split, manner, level, bytes),
        Err(_) => Err(Failure::OutOfMemory),
    }
}

// Says what would hold data that does not fit.
fn too_long(
    alloc: Global,
    split: Split,
    manner: Manner,
    level: EcLevel,
    bytes: &[u8],
) -> Done<ExitCode> {
    let count = split.count.map_or(MOST_SYMBOLS, usize::from);
    let versions = Versions {
        greatest: 40,
        ..split.versions
    };
    let codes = encode_counted(alloc, bytes, manner, versions, level, count).ok();
    match codes.as_ref().and_then(|codes| codes.first()) {
        Some(code) => {
            let name = VersionName(code.version());
            refused!(alloc; "the data does not fit; {count} codes of version {name} hold it")
        }
        None => refused!(alloc;
            "the data does not fit: allow more codes (--count, up to 16) or a lower --level; 16 \
            codes hold at most 47,216 bytes, at --level L"
        ),
    }
}

// Draws codes one after another, each to a numbered file if there is a pattern of names.
fn draw_each(
    rt: &HostRuntime,
    asked: &Job<'_, '_>,
    pattern: Option<&Template<'_>>,
    codes: Vec<QrCode>,
) -> Done<ExitCode> {
    let count = codes.len();
    let mut pages = Pages::new(rt.alloc(), Series::new(None));
    for (index, code) in codes.into_iter().enumerate() {
        if let Some(pattern) = pattern {
            let name = part_name(rt.alloc(), pattern, index.saturating_add(1))?;
            check_made(rt, asked, name.as_str())?;
            let target = Target::File(name.as_str());
            let asked = Job { target, ..*asked };
            write_drawing(rt, &asked, draw_reported(rt, &asked, code, None)?)?;
        } else {
            write_page(rt, asked, &mut pages, draw_reported(rt, asked, code, None)?)?;
        }
    }
    pages.end(rt)?;
    if let Some(pattern) = pattern {
        warn_of_others(rt, pattern, count)?;
    }
    Ok(ExitCode::SUCCESS)
}

// Returns the file name of a part.
fn part_name(alloc: Global, pattern: &Template<'_>, number: usize) -> Done<String> {
    pattern.name(alloc, &Line::of(alloc, number, b"", ",")?)
}

// Warns of files with higher numbers, left by an earlier run.
fn warn_of_others(rt: &HostRuntime, pattern: &Template<'_>, count: usize) -> Done<()> {
    let mut others = String::new(rt.alloc());
    for number in count.saturating_add(1)..MOST_SYMBOLS + 1 {
        let name = part_name(rt.alloc(), pattern, number)?;
        if fs::exists(rt, name.as_str()).unwrap_or(false) {
            write!(others, " {name}")?;
        }
    }
    if !others.is_empty() {
        let others = shown(others.as_str());
        let _ = eprintln!(rt; "goqlanis: from an earlier run, not part of this data:{others}");
    }
    Ok(())
}
