//! The output formats, and what is known of each: a table of plain data, without drawing.

ghost use Rattle.std.specs.Prelude.{◌≡◌, map};
ghost use Rattle.std.specs.Option.{option_map};
ghost use Rattle.qrcode_sheets.specs.Formats.{ending_among, format_named, format_numbered, format_of_ending, is_known, is_known_number, named_among, numbered_among, row, format_row};

pub mod laws;

use Format::{
    Ascii, Chars, Eps, EscPos, Grey, HalfBlocks, LightHalfBlocks, Pbm, Pdf, Pgm, Pic, Png, Ppm,
    Svg, SvgPath, Terminal, Tspl, Xbm, Zpl,
};

/// An output format.
#[derive(Clone, Copy, PartialEq, Eq)]
pub enum Format {
    /// Half blocks: one character for two pixels, upper and lower; dark ones are drawn.
    HalfBlocks,
    /// Half blocks in which light pixels are drawn, for dark backgrounds.
    LightHalfBlocks,
    /// Half blocks in black on white, for a terminal with 256 colours.
    Terminal,
    /// Lines with one character for each pixel: full blocks for dark ones, spaces for light ones.
    Chars,
    /// A PNG file of 1 to 65,535 pixels a side, in two colours unless parts have their own.
    Png,
    /// An SVG file.
    Svg,
    /// An SVG file with one path, made of the runs of dark modules.
    SvgPath,
    /// An EPS file, in which a pixel is a point unless a resolution is set.
    Eps,
    /// A PIC file for troff, which draws no light modules.
    Pic,
    /// A PBM file: black and white pixels, eight in a byte.
    Pbm,
    /// A PGM file: grey pixels, a byte for each.
    Pgm,
    /// Raw pixels, one byte each: 0 for dark, 255 for light.
    Grey,
    /// A PDF file of one page, in which a pixel is a point unless a resolution is set.
    Pdf,
    /// ZPL II for label printers; text.
    Zpl,
    /// TSPL for label printers.
    Tspl,
    /// ESC/POS for receipt printers, at most 65,535 pixels a side.
    EscPos,
    /// An XBM file: C source with black and white pixels, eight in a byte.
    Xbm,
    /// A PPM file: red, green and blue of each pixel.
    Ppm,
    /// Lines with two characters for each pixel: `##` for dark ones, spaces for light ones.
    Ascii,
}

/// Which colours dark and light modules may have.
#[derive(Clone, Copy, PartialEq, Eq)]
pub enum Colours {
    /// Only black and white, or those of the terminal.
    Fixed,
    /// Opaque ones.
    Opaque,
    /// Any, transparent ones too.
    Any,
}

/// How a picture in the middle of a code is drawn.
#[derive(Clone, Copy, PartialEq, Eq)]
pub enum LogoForm {
    /// Not at all: the middle can only be left light.
    Light,
    /// As an element of SVG.
    Element,
    /// As pixels.
    Pixels,
    /// As operators of PostScript or PDF.
    Operators,
}

/// What pixels per inch mean.
#[derive(Clone, Copy, PartialEq, Eq)]
pub enum Density {
    /// Nothing: the format has no resolution.
    Nothing,
    /// They turn lengths into pixels, and are not stored.
    Sizes,
    /// They turn lengths into pixels, and are stored.
    Stored,
    /// They are the unit of the picture, by default 72: a point.
    Unit,
}

/// What is known of a format.
#[derive(Clone, Copy)]
pub struct FormatRow {
    pub format: Format,
    /// The name for `--format`, if the program draws the format.
    pub name: Option<&'static str>,
    /// The file extension, if it has one.
    pub ending: Option<&'static str>,
    /// The number in C, if the C library draws it.
    pub number: Option<u32>,
    /// Whether it is text; the others are binary files.
    pub is_text: bool,
    /// Whether several pictures may follow one another in a pipe or on a printer.
    pub is_series: bool,
    /// The default number of pixels per module.
    pub pixels: u16,
    /// The minimum pixels along a side: a PNG file has at least one.
    pub least: u32,
    /// The maximum pixels along a side: what the numbers in PNG and ESC/POS hold; for text, more
    /// than a terminal or a page shows.
    pub most: u32,
    /// Whether each pixel, or each eight, is stored uncompressed.
    pub is_whole: bool,
    pub density: Density,
    /// Whether sizes in millimetres are exact, without pixels per inch.
    pub is_exact: bool,
    pub colours: Colours,
    /// Which colours of their own parts of a code, such as finder patterns, may have.
    pub parts: Colours,
    pub middle: LogoForm,
    /// Whether the code has a position, on a label.
    pub has_place: bool,
}

// Lines of text: a character, or half of one, for each pixel.
const LINES: FormatRow = FormatRow {
    format: HalfBlocks,
    name: None,
    ending: None,
    number: None,
    is_text: true,
    is_series: true,
    pixels: 1,
    least: 0,
    most: 4_096,
    is_whole: false,
    density: Density::Nothing,
    is_exact: false,
    colours: Colours::Fixed,
    parts: Colours::Fixed,
    middle: LogoForm::Light,
    has_place: false,
};

// Black and white pixels, in a binary file.
const PIXELS: FormatRow = FormatRow {
    is_text: false,
    is_series: false,
    pixels: 8,
    most: u32::MAX,
    is_whole: true,
    density: Density::Sizes,
    ..LINES
};

// Shapes in a text file.
const SHAPES: FormatRow = FormatRow {
    is_text: true,
    is_whole: false,
    density: Density::Unit,
    is_exact: true,
    colours: Colours::Opaque,
    parts: Colours::Opaque,
    middle: LogoForm::Operators,
    ..PIXELS
};

/// The formats, in the order of `Format` and of the program's help.
#[rattlefmt::skip]
pub static FORMATS: &[FormatRow] = &[
    FormatRow { format: HalfBlocks, name: Some("half-blocks"), ending: Some("txt"), number: Some(0), ..LINES },
    FormatRow { format: LightHalfBlocks, number: Some(1), ..LINES },
    FormatRow { format: Terminal, name: Some("terminal"), ..LINES },
    FormatRow { format: Chars, name: Some("text"), ..LINES },
    FormatRow { format: Png, name: Some("png"), ending: Some("png"), number: Some(5), least: 1, most: 65_535, is_whole: false,
        density: Density::Stored, colours: Colours::Any, parts: Colours::Any, middle: LogoForm::Pixels, ..PIXELS },
    FormatRow { format: Svg, number: Some(2), is_text: true, is_whole: false, density: Density::Nothing, colours: Colours::Any, ..PIXELS },
    FormatRow { format: SvgPath, name: Some("svg"), ending: Some("svg"), number: Some(8), density: Density::Nothing,
        colours: Colours::Any, middle: LogoForm::Element, ..SHAPES },
    FormatRow { format: Eps, name: Some("eps"), ending: Some("eps"), number: Some(6), ..SHAPES },
    FormatRow { format: Pic, name: Some("pic"), ending: Some("pic"), number: Some(3), is_series: false, most: u32::MAX, ..LINES },
    FormatRow { format: Pbm, name: Some("pbm"), ending: Some("pbm"), number: Some(7), ..PIXELS },
    FormatRow { format: Pgm, name: Some("pgm"), ending: Some("pgm"), number: Some(9), ..PIXELS },
    FormatRow { format: Grey, number: Some(4), ..PIXELS },
    FormatRow { format: Pdf, name: Some("pdf"), ending: Some("pdf"), number: Some(10), is_text: false, ..SHAPES },
    FormatRow { format: Zpl, name: Some("zpl"), ending: Some("zpl"), number: Some(11), is_text: true, is_series: true,
        is_whole: false, has_place: true, ..PIXELS },
    FormatRow { format: Tspl, name: Some("tspl"), ending: Some("tspl"), number: Some(12), is_series: true, has_place: true, ..PIXELS },
    FormatRow { format: EscPos, name: Some("escpos"), ending: Some("escpos"), number: Some(13), is_series: true, most: 65_535, ..PIXELS },
    FormatRow { format: Xbm, name: Some("xbm"), ending: Some("xbm"), number: Some(14), is_text: true, ..PIXELS },
    FormatRow { format: Ppm, name: Some("ppm"), ending: Some("ppm"), number: Some(15), colours: Colours::Opaque, ..PIXELS },
    FormatRow { format: Ascii, name: Some("ascii"), number: Some(16), ..LINES },
];

impl Format {
    /// Returns what is known of the format.
    pub fn row(self) -> &'static FormatRow
        ensures value { format_row result.now ≡ row self }
    {
        &FORMATS[self as usize]
    }
}

/// Returns the format with this number in the C library.
pub fn format_numbered(number: u32) -> Option<Format>
    ensures { result ≡ format_numbered number }
{
    numbered_among(FORMATS, number)
}

// The first of `rows` with this number in C.
fn numbered_among(rows: &[FormatRow], number: u32) -> Option<Format>
    ensures { result ≡ numbered_among (map format_row rows.now) number }
{
    for row in rows {
        if is_number(row.number, number) {
            return Some(row.format);
        }
    }
    None
}

// Whether a number is the known one.
fn is_number(known: Option<u32>, number: u32) -> bool
    ensures { result ≡ is_known_number known number }
{
    known.is_some_and(|known| known == number)
}

/// Returns the format with this name, ignoring case.
pub fn format_named(name: &str) -> Option<Format>
    ensures { result ≡ format_named name.now }
{
    named_among(FORMATS, name)
}

// The first of `rows` with this name, ignoring case.
fn named_among(rows: &[FormatRow], name: &str) -> Option<Format>
    ensures { result ≡ named_among (map format_row rows.now) name.now }
{
    for row in rows {
        if is_known(row.name, name) {
            return Some(row.format);
        }
    }
    None
}

/// Returns the format with this file extension, ignoring case.
pub fn format_of_ending(ending: &str) -> Option<Format>
    ensures { result ≡ format_of_ending ending.now }
{
    ending_among(FORMATS, ending)
}

// The first of `rows` with this file extension, ignoring case.
fn ending_among(rows: &[FormatRow], ending: &str) -> Option<Format>
    ensures { result ≡ ending_among (map format_row rows.now) ending.now }
{
    for row in rows {
        if is_known(row.ending, ending) {
            return Some(row.format);
        }
    }
    None
}

// Whether a name or file extension is the known one, ignoring case.
fn is_known(known: Option<&str>, name: &str) -> bool
    ensures { result ≡ is_known (option_map (λ text. text.now) known.entry) name.now }
{
    known.is_some_and(|known| known.eq_ignore_ascii_case(name))
}
