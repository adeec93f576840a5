//! `--charset`: texts in a character set.

use crate::Done;
use goqlanis_files::failure::Failure;
use goqlanis_files::{refused, usage};
use goqlanis_options::asked::{Job, ReportForm};
use goqlanis_options::charsets::{CharsetName, Coded, charset_named};
use goqlanis_request::{Choice, Data, Request, VersionName, refusal_text, symbol_among, symbol_in};
use qrcode::QrCode;
use qrcode::bits::Manner;
use qrcode_charsets::sets::{CHARSETS, Charset};
use std::alloc::Global;

/// Makes a code of a text in the character set called `name`, or for `shortest` in the one that
/// takes the fewest bits.
pub(crate) fn text_code(
    alloc: Global,
    asked: &Job<'_, '_>,
    name: &str,
    bytes: &[u8],
) -> Done<(QrCode, Coded)> {
    let Ok(text) = str::from_utf8(bytes) else {
        return refused!(alloc;
            "the data is not UTF-8, from which --charset converts it: for Latin-1, use iconv \
            -f cp1252 -t utf-8 first"
        );
    };
    let request = &asked.request;
    let sets = match charset_named(name) {
        Some(set) => {
            check_characters(alloc, set, text)?;
            Vec::from_slice(alloc, &[set])?
        }
        None if name.eq_ignore_ascii_case("shortest") => Vec::from_slice(alloc, &CHARSETS)?,
        None => return usage!(alloc;
            "--charset {name}: use shortest, utf-8, shift-jis, iso-8859-1 to iso-8859-16, \
            without 12, or windows-1250, -1251, -1252 or -1256"
        ),
    };
    let (code, set) = match symbol_among(alloc, request.choice, &sets, request.level, text) {
        Ok(made) => made,
        Err(error) => {
            let content = Data::Text(&sets, text);
            return Err(Failure::Refused(refusal_text(alloc, request, content, error)?));
        }
    };
    let utf8 = if asked.is_dry || asked.report != ReportForm::Nothing {
        utf8_version(alloc, request, bytes)
    } else {
        None
    };
    Ok((code, Coded { set, utf8 }))
}

// Checks that the set has all characters of the text.
fn check_characters(alloc: Global, set: Charset, text: &str) -> Done<()> {
    let Some(place) = set.lacks(text) else {
        return Ok(());
    };
    let name = CharsetName(set);
    let number = place.saturating_add(1);
    let character = text.chars().nth(place).unwrap_or(' ');
    let code = u32::from(character);
    refused!(alloc;
        "character {number}, {character} (U+{code:04X}), is not in {name}; --charset shortest \
        finds a set that has all"
    )
}

// Returns the version that the text takes in UTF-8 without ECI, if there is one.
fn utf8_version(alloc: Global, request: &Request<'_>, bytes: &[u8]) -> Option<VersionName> {
    let (Choice::From(least) | Choice::Boosted(least) | Choice::At(least)) = request.choice;
    let choice = Choice::From(least);
    let code = symbol_in(alloc, choice, Manner::Text, request.level, bytes).ok()?;
    Some(VersionName(code.version()))
}
