//! Character sets and their names.

use goqlanis_request::VersionName;
use qrcode_charsets::sets::Charset;
use std::fmt;

/// The character set of a code.
#[derive(Clone, Copy)]
pub struct Coded {
    pub set: Charset,
    /// The version that the same text takes in UTF-8 without ECI, if there is one.
    pub utf8: Option<VersionName>,
}

// ECI numbers of character sets, as AIM assigns them, with the names that IANA registers.
#[rattlefmt::skip]
static NAMES: &[(u32, &str)] = &[
    (0, "IBM437"), (1, "ISO-8859-1"), (2, "IBM437"), (3, "ISO-8859-1"), (4, "ISO-8859-2"),
    (5, "ISO-8859-3"), (6, "ISO-8859-4"), (7, "ISO-8859-5"), (8, "ISO-8859-6"), (9, "ISO-8859-7"),
    (10, "ISO-8859-8"), (11, "ISO-8859-9"), (12, "ISO-8859-10"), (13, "ISO-8859-11"),
    (15, "ISO-8859-13"), (16, "ISO-8859-14"), (17, "ISO-8859-15"), (18, "ISO-8859-16"),
    (20, "Shift_JIS"), (21, "windows-1250"), (22, "windows-1251"), (23, "windows-1252"),
    (24, "windows-1256"), (25, "UTF-16BE"), (26, "UTF-8"), (27, "US-ASCII"), (28, "Big5"),
    (29, "GB2312"), (30, "EUC-KR"), (31, "GBK"), (32, "GB18030"), (33, "UTF-16LE"),
    (34, "UTF-32BE"), (35, "UTF-32LE"), (170, "ISO 646 invariant"), (899, "bytes"),
];

/// Returns the name of the character set with this ECI number, if it is known.
pub fn eci_name(number: u32) -> Option<&'static str> {
    let (_, name) = NAMES.iter().find(|(known, _)| *known == number)?;
    Some(*name)
}

// Other names of character sets, as Python and iconv have them.
#[rattlefmt::skip]
static OTHERS: &[(u32, &str)] = &[
    (3, "latin1"), (3, "latin-1"), (20, "shift-jis"), (20, "sjis"), (21, "cp1250"), (22, "cp1251"),
    (23, "cp1252"), (24, "cp1256"),
];

/// Returns the character set called `name`, such as `utf-8` or `iso-8859-5`, ignoring case.
pub fn charset_named(name: &str) -> Option<Charset> {
    for (number, known) in NAMES.iter().chain(OTHERS) {
        if is_called(name, known) || name.eq_ignore_ascii_case(known) {
            if let Some(set) = Charset::numbered(*number) {
                return Some(set);
            }
        }
    }
    None
}

// Whether `name` is `known`, with or without its first hyphen.
fn is_called(name: &str, known: &str) -> bool {
    let Some((family, rest)) = known.split_once('-') else {
        return false;
    };
    let Some((start, end)) = name.split_at_checked(family.len()) else {
        return false;
    };
    let end = end.strip_prefix('-').unwrap_or(end);
    start.eq_ignore_ascii_case(family) && end.eq_ignore_ascii_case(rest)
}

/// Displays the name of a character set.
#[derive(Clone, Copy)]
pub struct CharsetName(pub Charset);

impl fmt::Display for CharsetName {
    fn fmt<W: fmt::Write>(&self, f: &mut fmt::Formatter<W>) -> fmt::Result {
        let name = self.0.designator().and_then(eci_name).unwrap_or("UTF-8");
        write!(f, "{name}")
    }
}
