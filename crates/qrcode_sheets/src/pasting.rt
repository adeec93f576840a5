//! A picture over some modules, in a PNG file in full colour.

ghost use Rattle.std.specs.Prelude.{◌≡◌, ◌+◌, ◌<◌, ◌≤◌, ◌^◌};
ghost use Rattle.qrcode_png.specs.Image.{rgba};
ghost use Rattle.qrcode_sheets.specs.Pasted.{is_shown, logo_at, mean, over, scaled, shade_with, shows};
ghost use Rattle.qrcode_sheets.specs.Sheets.{overlay_of, sheet_of};

use crate::places::Region;
use crate::sheet::{Overlay, Sheet};

/// A picture, as red, green, blue and opacity of each pixel, row by row; and the place in the
/// drawing where it is shown.
#[derive(Clone, Copy)]
pub struct Inset<'a> {
    pub pixels: &'a [[u8; 4]],
    pub across: u16,
    pub down: u16,
    pub place: Region,
}

/// A rectangle of modules, in which a picture is shown.
#[derive(Clone, Copy)]
pub struct Window {
    /// The leftmost column.
    pub left: usize,
    /// The uppermost row.
    pub top: usize,
    /// The number of columns.
    pub width: usize,
    /// The number of rows.
    pub height: usize,
}

impl Window {
    // Whether it shows the module in column `x` and row `y`.
    fn shows(self, x: usize, y: usize) -> bool
        ensures { result ≡ shows self x y }
    {
        self.left <= x && x - self.left < self.width && self.top <= y && y - self.top < self.height
    }
}

/// Returns the pixel in column `x` and row `y` of a drawing: `own`, with the sheet's picture over
/// it if there is one and its window shows the pixel's module.
pub(crate) fn with_inset(sheet: &Sheet<'_, '_, '_>, x: usize, y: usize, own: [u8; 4]) -> [u8; 4]
    ensures { rgba result ≡ shade_with (sheet_of sheet.now).at (overlay_of sheet.now.over) x y
        (rgba own) }
{
    let Overlay::Pixels(window, inset) = sheet.over else {
        return own;
    };
    if !is_shown(sheet, window, x, y) {
        return own;
    }
    match inset.at(x, y) {
        Some(shade) => over(own, shade),
        None => own,
    }
}

// Whether a window shows a pixel's module.
fn is_shown(sheet: &Sheet<'_, '_, '_>, window: Window, x: usize, y: usize) -> bool
    ensures { result ≡ is_shown (sheet_of sheet.now).at window x y }
{
    let (zone, scale) = (sheet.zone as usize, sheet.scale as usize);
    let (column, row) = (x / scale, y / scale);
    zone <= column && zone <= row && window.shows(column - zone, row - zone)
}

impl<'a> Inset<'a> {
    // The pixel of the picture that is shown at this pixel of the drawing, if any.
    fn at(&self, x: usize, y: usize) -> Option<[u8; 4]>
        ensures { result ≡ logo_at self.now x y }
    {
        if !self.place.has(x, y) {
            return None;
        }
        let (left, top) = (self.place.left as usize, self.place.top as usize);
        let column = scaled((x - left) as u32, self.place.width, self.across);
        let row = scaled((y - top) as u32, self.place.height, self.down);
        let place = row as usize * self.across as usize + column as usize;
        self.pixels.get(place).copied()
    }
}

// Scales an index below `count` to one below `size`: the pixel at the middle of this one.
fn scaled(place: u32, count: u32, size: u16) -> u16
    requires { place < count }
    ensures { result ≡ scaled place count size }
{
    ((2 * place as u64 + 1) * size as u64 / (2 * count as u64)) as u16
}

// Draws one colour over another, by its opacity.
fn over(ground: [u8; 4], shade: [u8; 4]) -> [u8; 4]
    ensures { rgba result ≡ over (rgba ground) (rgba shade) }
{
    let own = 255 * shade[3] as u32;
    let other = ground[3] as u32 * (255 - shade[3] as u32);
    if own + other == 0 {
        return ground;
    }
    [
        mean(own, shade[0], other, ground[0]),
        mean(own, shade[1], other, ground[1]),
        mean(own, shade[2], other, ground[2]),
        ((own + other + 127) / 255) as u8,
    ]
}

// The weighted mean of two levels, rounded to the nearest.
fn mean(own: u32, level: u8, other: u32, below: u8) -> u8
    requires some { 1 ≤ own + other }
    requires few { own + other < 2 ^ 17 }
    ensures { result ≡ mean own level other below }
{
    ((own * level as u32 + other * below as u32 + (own + other) / 2) / (own + other)) as u8
}
