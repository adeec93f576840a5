//! Rows of picture tests: the settings of a renderer, and the picture that it has to draw.

ghost use Rattle.std.specs.Prelude.{◌≡◌, ◌*◌, ◌≤◌, length};
ghost use Rattle.qrcode_render.specs.Setting.{side_of};

use crate::common::check_row;
use crate::render::drawings::{Drawing, modules};
use qrcode_png::sums::crc;
use qrcode_render::image::{Channels, ImageBuffer};
use qrcode_render::{Pixel, Renderer};
use qrcode_types::types::Color;
use std::alloc::Global;
use std::process::Abort;

/// How the quiet zone is set.
#[derive(Clone, Copy)]
pub enum Zone {
    /// This many modules.
    On(u8),
    /// This many modules, switched off.
    Off(u8),
    /// This many modules, switched off after the size of a module is set.
    OffAfter(u8),
}

/// How the pixels of a module are set.
#[derive(Clone, Copy)]
pub enum Size {
    /// The default of the pixel type.
    Default,
    /// This many across, and this many down.
    Of(u16, u16),
    /// The fewest with which the picture has at least these sides.
    AtLeast(u16, u16),
    /// The most with which the picture has at most these sides.
    AtMost(u16, u16),
}

/// The pixels for dark and light modules.
pub enum Colors<P> {
    /// The defaults.
    Usual,
    /// These for dark and for light modules.
    Both(P, P),
}

/// The square to draw, its quiet zone, its pixels, the size of a module, and the expected picture.
pub struct Row<P, E>(pub Drawing, pub Zone, pub Colors<P>, pub Size, pub E);

/// The expected text.
#[derive(Clone, Copy)]
pub enum Text {
    /// Exactly this.
    Is(&'static str),
    /// A text with this CRC-32.
    Sum(u32),
}

/// The expected image: its sides, its length in bytes, and its first bytes.
#[derive(Clone, Copy)]
pub struct Pixels(pub (u32, u32), pub usize, pub &'static [u8]);

// Makes a renderer, and sets its quiet zone.
fn renderer<'a, P: Pixel>(symbol: &'a [Color], side: usize, zone: Zone) -> Renderer<'a, P>
    requires square { length symbol.now ≡ side * side }
    requires at_most { side ≤ 177 }
    ensures count { result.count ≡ side }
    ensures at_most { side_of result ≤ 687 }
{
    let modules = match zone {
        Zone::On(modules) | Zone::Off(modules) | Zone::OffAfter(modules) => modules,
    };
    let mut renderer = Renderer::<P>::new(symbol, side, u32::from(modules));
    if let Zone::Off(_) = zone {
        renderer.quiet_zone(false);
    }
    renderer
}

// Sets the size of a module.
fn resize<P: Pixel>(renderer: &mut Renderer<P>, size: Size)
    requires at_least { 1 ≤ side_of renderer.old }
    requires at_most { side_of renderer.old ≤ 687 }
{
    match size {
        Size::Default => {}
        Size::Of(width, height) => {
            renderer.module_dimensions(u32::from(width), u32::from(height));
        }
        Size::AtLeast(width, height) => {
            renderer.min_dimensions(u32::from(width), u32::from(height));
        }
        Size::AtMost(width, height) => {
            renderer.max_dimensions(u32::from(width), u32::from(height));
        }
    }
}

// Draws the picture of a row.
fn picture<P: Pixel, E>(rt: &impl Abort, alloc: Global, row: &Row<P, E>) -> P::Image {
    let Drawing(side, letters) = row.0;
    let symbol = modules(alloc, letters).expect(rt, "modules");
    assert!(rt; side <= 177 && symbol.len() == side * side);
    let mut renderer = renderer::<P>(&symbol, side, row.1);
    if side > 0 {
        resize(&mut renderer, row.3);
    }
    if let Zone::OffAfter(_) = row.1 {
        renderer.quiet_zone(false);
    }
    if let Colors::Both(dark, light) = row.2 {
        renderer.dark_color(dark).light_color(light);
    }
    assert!(rt; renderer.fits());
    renderer.build(alloc).expect(rt, "a picture")
}

// Whether `text` is as expected.
fn is_text(text: &str, expected: Text) -> bool {
    match expected {
        Text::Is(whole) => text == whole,
        Text::Sum(sum) => crc(text.as_bytes()) == sum,
    }
}

// Whether `image` is as expected.
fn are_pixels<P: Channels>(image: ImageBuffer<P>, expected: Pixels) -> bool {
    let Pixels(sides, count, start) = expected;
    let are_sides = image.dimensions() == sides;
    let bytes = image.into_raw();
    are_sides && bytes.len() == count && bytes.starts_with(start)
}

/// Asserts that the rows draw their text.
pub fn writes<P: Pixel<Image = String>>(rt: &impl Abort, alloc: Global, rows: &[Row<P, Text>]) {
    for (i, row) in rows.iter().enumerate() {
        check_row(rt, i, is_text(picture(rt, alloc, row).as_str(), row.4));
    }
}

/// Asserts that the rows draw their image.
pub fn paints<P: Channels>(rt: &impl Abort, alloc: Global, rows: &[Row<P, Pixels>]) {
    for (i, row) in rows.iter().enumerate() {
        check_row(rt, i, are_pixels(picture(rt, alloc, row), row.4));
    }
}
