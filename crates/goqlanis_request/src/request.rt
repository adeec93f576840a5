//! What is asked for: the symbol, and how to draw it.

ghost use Rattle.std.specs.Prelude.{◌≡◌, IsTrue, IsUtf8};
ghost use Rattle.qrcode_bits.specs.declared.bits.manner.Manner.TheVariants.{Bytes, Text};
ghost use Rattle.qrcode_sheets.specs.Drawn.{takes_parts};

use qrcode::bits::Manner;
use qrcode::types::{EcLevel, Version};
use qrcode_sheets::PartInk;
use qrcode_sheets::formats::Format;
use qrcode_sheets::sheet::Ink;
use qrcode_sheets::svg_path::Frame;

/// Which versions are allowed. They are in the order M1 to M4, then 1 to 40.
#[derive(Clone, Copy)]
pub enum Choice {
    /// The smallest that holds the data, from this one on.
    From(Version),
    /// The smallest that holds the data, from this one on; then the highest level at which that
    /// version still holds it.
    Boosted(Version),
    /// Only this one.
    At(Version),
}

/// A length: `count` parts of an inch, which has `dots` of them.
#[derive(Clone, Copy)]
pub struct Length {
    pub count: u16,
    pub dots: u16,
    /// Whether it is that of the side with its quiet zone; if not, of a module.
    pub is_side: bool,
}

/// How large a drawing is.
#[derive(Clone, Copy)]
pub enum Extent {
    /// The pixels of a module, across and down; 0 means 1.
    Module(u16),
    /// The maximum pixels along a side, in which modules are as large as fits; and the length that
    /// they stand for, in hundredths of a millimetre, if one was asked for.
    Side(u16, Option<u64>),
    /// The size in print, in `SvgPath`, EPS and PDF.
    Exact(Length),
}

/// A request for a symbol and its picture.
#[derive(Clone, Copy)]
pub struct Request<'a> {
    pub choice: Choice,
    pub level: EcLevel,
    /// The mask: 0 to 7, in Micro QR 0 to 3. Without it, the first with the lowest penalty.
    pub mask: Option<usize>,
    pub format: Format,
    /// The width of the quiet zone in modules. Without it, what the standard requires.
    pub zone: Option<u8>,
    pub extent: Extent,
    /// The dots per inch: recorded in a PNG file; in EPS and PDF, pixels per inch.
    pub dpi: Option<u16>,
    /// The position on a label in ZPL and TSPL, in dots from the left and from the top.
    pub place: (u32, u32),
    /// The title, ID and the like of an `SvgPath`, and its size unless it is exact; the title also
    /// of a PDF file.
    pub frame: Frame<'a>,
    /// The colours, in formats that have them.
    pub dark: Ink<'a>,
    pub light: Ink<'a>,
    /// The colours of parts, in SVG, EPS, PDF and PNG. If several colour the same modules, the last
    /// wins.
    pub parts: &'a [PartInk<'a>],
    /// Whether dark and light are exchanged; not in PIC, which draws no light modules.
    pub is_inverted: bool,
    pub ghost takes_parts: { IsTrue (takes_parts format parts.now) },
}

/// Returns how data is written by default: UTF-8 as text, other data as bytes.
pub fn manner_of(bytes: &[u8]) -> Manner
    ensures text { IsUtf8 bytes.now → result ≡ Text }
    ensures other { ¬ IsUtf8 bytes.now → result ≡ Bytes }
{
    match str::from_utf8(bytes) {
        Ok(_) => Manner::Text,
        Err(_) => Manner::Bytes,
    }
}
