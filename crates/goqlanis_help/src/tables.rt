//! The tables of options: a heading and then one a line, as `-i --input FILE: help`. What an option
//! takes is a text or, with a sign behind its name, one of some words (`|`), several texts (`..`), or
//! a whole number (`=0..20`).

use goqlanis_options::options::{Entry, Takes};
use std::alloc::{AllocError, Global};

// Input of a code of data.
pub(crate) const DATA: &str = "Input
-i --input FILE: Encode the contents of a file
--trim: Drop one trailing newline (LF or CR LF)
--allow-empty: Accept empty input
--bytes: Encode raw bytes in the fewest bits; readers may show UTF-8 text wrongly";

// Input of GS1 element strings.
pub(crate) const FILES: &str = "Input
-i --input FILE: Read the data of one code, or with --lines of many, from a file";

// Input of payloads, whose fields options give.
pub(crate) const TABLES: &str = "Input
-i --input FILE: With --lines: read the lines from a file";

// Segments of one's choice.
pub(crate) const SEGMENTS: &str = "Input
--segment MODE:DATA..: Choose the segments: numeric:DIGITS, alphanumeric:TEXT, byte:TEXT (UTF-8), kanji:HEX (Shift JIS) or eci:NUMBER; repeat as needed";

// A code for each line.
pub(crate) const LINES: &str = "Input
--lines: Make one code per input line. In --output, {} stands for the line number, {:04} for it in four digits, {text} for the line, {1} for its first field; without them a number is added, or one file has all codes: pdf as pages, text, zpl, tspl and escpos one after another
--header: With --lines: the first line names the columns, e.g. ssid,password for wifi or 01,10 for gs1, and has no number; {ssid} in --output is that field
--columns NAMES: With --lines: names of the columns, if the first line has none; with --header, instead of its names
--field FIELD: With --lines: encode only this field of each line, by number or name
--delimiter TEXT: Separator of the fields in a line, e.g. ; or tab [default: ,]";

// Level and version.
pub(crate) const LEVELS: &str = "Code
-l --level LEVEL|: Error correction level [default: M; H with a logo; L with -v M1]
-v --symbol-version VERSION: Version, 1 to 40 or M1 to M4 [default: the smallest of 1 to 40 that fits]
--min-version VERSION: Smallest version to try, in the order M1 to M4, 1 to 40";

// Level and version where there is no Micro QR.
pub(crate) const NORMAL_LEVELS: &str = "Code
-l --level LEVEL|: Error correction level [default: M; H with a logo]
-v --symbol-version VERSION: Version, 1 to 40 [default: the smallest that fits]
--min-version VERSION: Smallest version to try, 1 to 40";

// The choice of level and version.
pub(crate) const TEXTS: &str = "Code
--micro: Use Micro QR if the data fits (same as --min-version M1), else QR; M1 needs --level L, and no Micro version has H
--boost: Use the highest level, from --level up, that fits the same version; not with -v";

// The character set.
pub(crate) const MARKS: &str = "Input
--eci: Mark the data as UTF-8 (ECI 26); helps if readers show it wrongly
--charset NAME: Character set of the text, with its ECI: utf-8, shift-jis, iso-8859-1 to -16, windows-1250 to -1252 or -1256; shortest: whichever takes the fewest bits, but for windows [default: UTF-8 without ECI]";

// The mask.
pub(crate) const MASKS: &str = "Code
--mask 0-7=0..7: Mask pattern; Micro QR has only 0 to 3 [default: lowest penalty]";

// The output.
pub(crate) const LOOKS: &str = "Output
-o --output FILE: Write to FILE, atomically; --lines and split add numbers, e.g. a-000001.png; - is standard output
-f --format FORMAT|: Output format; terminal: half-blocks in black on white; text: a block per module; ascii: ## per module; zpl, tspl, escpos: printers [default: FILE's extension (.txt: half-blocks); to a terminal: terminal; else half-blocks]
-q --quiet-zone MODULES=0..255: Quiet zone on each side, 0 to 255; readers need 4, of Micro QR 2 [default: 4, Micro QR 2]
-s --scale PIXELS: Pixels per module, 1 to 1,000; in SVG, EPS and PDF also e.g. 2.5 [default: 8; 1 in PIC, half-blocks, terminal, text, ascii]
--size SIZE: Maximum side in pixels, e.g. 300, or a length (30mm; cm, in, pt). SVG, EPS and PDF without --dpi have exactly that length; other formats need --dpi
--module LENGTH: Side of a module, e.g. 0.5mm; exact in SVG, EPS and PDF without --dpi, else whole pixels
--dpi N=1..65535: Pixels per inch, 1 to 65,535
--at X,Y: Position on a printed label (ZPL, TSPL), in dots from the left and top [default: 0,0]
--no-size: Omit width and height in SVG, so that it fills its container
--svg-title TEXT: Title in SVG, for screen readers
--svg-desc TEXT: Description in SVG, for screen readers
--svg-id NAME: ID of the SVG element
--svg-class NAMES: Classes of the SVG element, for style sheets
--pdf-title TEXT: Title of a PDF file
--dark COLOUR: Colour of dark modules in PNG, SVG, EPS, PDF and PPM, e.g. \"#008\" or navy [default: black]
--light COLOUR: Colour of light modules, or transparent (PNG, SVG) [default: white]
--invert: Swap dark and light; not all readers accept that
--logo FILE: Put a logo in the middle: an SVG or PNG file for SVG output, a PNG file for PNG output; the code still decodes
--logo-area: Leave an empty area for a logo, in any format
--logo-size SIZE: Side of the area, in modules or percent of the code's side, e.g. 9 or 20% [default: a fourth for a logo; else the largest that uses about half of the error correction]
--logo-margin MODULES=0..20: Light modules around the logo [default: 1]
--keep-alignment: Keep the logo off alignment patterns, which some readers need
--verbose: Report version, level, mask and sizes on standard error
--json: Print that report as one line of JSON: on standard output if the code goes to a file, else on standard error
--werror: Treat warnings as errors
--dry-run: Print the report only, with the smallest size that readers need at --dpi; write no code [default format: png]";

// The program itself.
pub(crate) const ABOUT: &str = "Other
-V --version: Print the version";

// The colours of parts, which `part_colours` names too.
pub(crate) const COLOURS: &str = "Colours of patterns, in PNG, SVG, EPS and PDF
--finder-dark COLOUR: Dark modules of finder patterns [default: as --dark]
--finder-light COLOUR: Light modules in and around finder patterns [default: as --light]
--alignment-dark COLOUR: Dark modules of alignment patterns
--alignment-light COLOUR: Light modules of alignment patterns
--timing-dark COLOUR: Dark timing modules
--timing-light COLOUR: Light timing modules
--format-dark COLOUR: Dark modules of the format information
--format-light COLOUR: Light modules of the format information
--version-dark COLOUR: Dark modules of the version information
--version-light COLOUR: Light modules of the version information
--data-dark COLOUR: Dark modules of data and error correction
--data-light COLOUR: Light modules of data and error correction";

// The words of which an option takes one. Those of formats are the names in the table of formats,
// which `bindings/same` compares.
#[rattlefmt::skip]
fn words_of(name: &str) -> &'static [&'static str] {
    match name {
        "LEVEL" => &["L", "M", "Q", "H"],
        "DEGREES" => &["0", "90", "180", "270"],
        _ => &[
            "half-blocks", "terminal", "text", "png", "svg", "eps", "pic", "pbm", "pgm", "pdf",
            "zpl", "tspl", "escpos", "xbm", "ppm", "ascii",
        ],
    }
}

/// Returns the options in the lines of a table.
///
/// Errors: only `AllocError`.
pub(crate) fn entries_in(alloc: Global, lines: &'static str) -> Result<Vec<Entry>, AllocError> {
    lines.lines().map(entry_in).collect(alloc)
}

// Returns the option of a line of a table.
fn entry_in(line: &'static str) -> Entry {
    let (names, help) = line.split_once(": ").unwrap_or((line, ""));
    let (letter, rest) = names.split_once(" --").unwrap_or(("", names));
    let rest = rest.strip_prefix("--").unwrap_or(rest);
    let (long, value) = rest.split_once(' ').unwrap_or((rest, ""));
    Entry {
        long,
        short: letter.chars().nth(1),
        takes: takes_of(value),
        help,
    }
}

// Returns what an option takes.
fn takes_of(value: &'static str) -> Takes {
    if let Some((name, range)) = value.split_once('=') {
        let (least, most) = range.split_once("..").unwrap_or(("", ""));
        Takes::Number(
            name,
            least.parse().unwrap_or(0),
            most.parse().unwrap_or(u64::MAX),
        )
    } else if let Some(name) = value.strip_suffix("..") {
        Takes::Texts(name)
    } else if let Some(name) = value.strip_suffix('|') {
        Takes::Word(name, words_of(name))
    } else if value.is_empty() {
        Takes::Nothing
    } else {
        Takes::Text(value)
    }
}
