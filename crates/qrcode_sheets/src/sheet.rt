//! What is drawn: modules, their colours and sizes, and what lies over them.

ghost use Rattle.std.specs.Prelude.{◌≡◌, ◌+◌, ◌*◌, ◌^◌, ◌<◌, ◌≤◌, length, IsTrue};
ghost use Rattle.qrcode_types.specs.Versions.{is_valid};

use crate::layers::PartInk;
use crate::pasting::{Inset, Window};
use crate::svg_path::Frame;
use qrcode_types::types::{Color, Version};

/// A colour: `name` is written to SVG as it is; red, green, blue and opacity, from 0 to 255, are
/// for other formats. Only PNG has opacity.
#[derive(Clone, Copy)]
pub struct Ink<'a> {
    pub name: &'a str,
    pub red: u8,
    pub green: u8,
    pub blue: u8,
    pub opacity: u8,
}

/// What lies over all modules.
#[derive(Clone, Copy)]
pub enum Overlay<'a> {
    Nothing,
    /// Elements in `SvgPath`, PostScript in EPS, operators in PDF.
    Shapes(&'a [u8]),
    /// A picture in PNG, over the modules that the window shows.
    Pixels(Window, Inset<'a>),
}

/// A square of modules, and how it is drawn. A format leaves out what it does not have, but colours
/// of parts and overlays. The list of colours of parts (`'b`) and their names (`'c`) may live for
/// less long than the rest.
#[derive(Clone, Copy)]
pub struct Sheet<'a, 'b, 'c> {
    /// The modules, row by row.
    pub modules: &'a [Color],
    /// The modules along a side.
    pub width: u32,
    /// The width of the quiet zone in modules.
    pub zone: u32,
    /// The pixels of a module, across and down.
    pub scale: u32,
    /// The colours, in formats that have them.
    pub dark: Ink<'a>,
    pub light: Ink<'a>,
    /// Whether dark and light are exchanged; not in PIC, which draws no light modules.
    pub is_inverted: bool,
    /// The dots per inch that a PNG file records.
    pub dpi: Option<u16>,
    /// Whether text ends with a newline.
    pub ends_lines: bool,
    /// The pixels per inch in EPS and PDF; without it, a pixel is a point.
    pub dots: Option<u32>,
    /// The position on a label in ZPL and TSPL, in dots from the left and from the top.
    pub place: (u32, u32),
    /// The size, title, ID and the like of an `SvgPath`; the title also of a PDF file.
    pub frame: Frame<'a>,
    /// The version, by which modules belong to parts.
    pub version: Version,
    /// The colours of parts, in `SvgPath`, EPS, PDF and PNG: a layer over the modules for each. If
    /// several colour the same modules, the last wins.
    pub parts: &'b [PartInk<'c>],
    pub over: Overlay<'a>,
    pub ghost square: { length modules.now ≡ width * width },
    pub ghost side_at_most: { width + 2 * zone < 2 ^ 16 },
    pub ghost scale_at_least: { 1 ≤ scale },
    pub ghost scale_at_most: { scale < 2 ^ 16 },
    pub ghost valid: { IsTrue (is_valid version) },
}
