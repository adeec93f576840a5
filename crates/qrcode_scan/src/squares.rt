//! Finds a square of modules inside a plain margin.

ghost use Rattle.std.specs.Prelude.{◌≡◌, ◌+◌, ◌*◌, ◌<◌, ◌≤◌, ℕ, List, false, true, length, slice_index_or, IsTrue, IsFalse, IfOk, IfSome, IfNone};
ghost use Rattle.qrcode_render.specs.Layout.{layout};
ghost use Rattle.qrcode_render.specs.Picture.{picture, is_dark_pixel};
ghost use Rattle.qrcode_types.specs.declared.types.Color.{Color};
ghost use Rattle.qrcode_scan.specs.Squares.{IsFramedIn, IsRowOf, IsSquareIn, mark_at};

use crate::pixels::Pixels;
use crate::samples::colours_at;
use crate::wholes::grid_at;
use qrcode_types::types::Color;
use std::alloc::{AllocError, Global};

/// The most modules along a side.
pub const GREATEST_COUNT: usize = 177;

/// A square of modules in a picture.
#[derive(Drop)]
pub struct Square {
    /// Modules along a side.
    pub count: usize,
    /// Light modules on each side.
    pub zone: usize,
    /// Pixels per module, across and down.
    pub scale: usize,
    /// The modules, row by row from the top left corner.
    pub modules: Vec<Color>,
}

/// Returns the square of modules that a picture shows inside a light margin, equally wide on each
/// side. If it shows several, this is the one with the fewest modules along a side. `None` if it
/// shows no square of at most `GREATEST_COUNT` modules a side whose first row has a dark one.
///
/// Errors: only `AllocError`, if memory runs out.
pub fn square_of(alloc: Global, pixels: &Pixels) -> Result<Option<Square>, AllocError>
    ensures value { IfOk result (λ found. IfSome found (λ square.
        IsSquareIn pixels.now square.count square.zone square.scale square.modules.items)) }
    ensures at_most { IfOk result (λ found. IfSome found (λ square.
        (1 ≤ square.count) × (square.count ≤ 177) × (square.scale ≤ 65535))) }
    ensures least { IfOk result (λ found. IfSome found (λ square.
        (count zone scale column : ℕ) (modules : List Color)
        → IsFramedIn pixels.now count zone scale column modules → square.count ≤ count)) }
    ensures none { IfOk result (λ found. IfNone found (
        (count zone scale column : ℕ) (modules : List Color)
        → IsFramedIn pixels.now count zone scale column modules → 177 < count)) }
{
    let Some(margin) = margin_of(pixels) else {
        return Ok(None);
    };
    for count in 1..GREATEST_COUNT + 1 {
        match square_with_count(alloc, pixels, margin, count)? {
            Some(square) => return Ok(Some(square)),
            None => {}
        }
    }
    Ok(None)
}

// Returns the pixels of the margin on each side: the number of rows above the first dark pixel.
// `None` if there is no dark pixel, or no room for a square.
fn margin_of(pixels: &Pixels) -> Option<usize>
    ensures room { IfSome result (λ margin. 2 * margin < pixels.now.across) }
    ensures value { IfSome result (λ margin. (count zone scale column : ℕ) (modules : List Color)
        → IsFramedIn pixels.now count zone scale column modules → zone * scale ≡ margin) }
    ensures none { IfNone result ((count zone scale column : ℕ) (modules : List Color)
        → ¬ IsFramedIn pixels.now count zone scale column modules) }
{
    let across = pixels.sides().0;
    let first = match first_dark(pixels.marks()) {
        Some(first) => first,
        None => return None,
    };
    let margin = first / across;
    if 2 * margin < across {
        Some(margin)
    } else {
        None
    }
}

// Returns the index of the first dark pixel.
fn first_dark(marks: &[bool]) -> Option<usize>
    ensures inside { IfSome result (λ first. first < length marks.now) }
    ensures dark { IfSome result (λ first. slice_index_or marks.now first false ≡ true) }
    ensures first { IfSome result (λ first.
        (k : ℕ) → k < first → slice_index_or marks.now k false ≡ false) }
    ensures none { IfNone result (
        (k : ℕ) → k < length marks.now → slice_index_or marks.now k false ≡ false) }
{
    marks.iter().position(|mark| *mark)
}

// Returns the square of `count` modules a side inside a margin of `margin` pixels, if the picture
// shows it.
fn square_with_count(
    alloc: Global,
    pixels: &Pixels,
    margin: usize,
    count: usize,
) -> Result<Option<Square>, AllocError>
    requires count { (1 ≤ count) × (count ≤ 177) }
    requires margin { 2 * margin < pixels.now.across }
    ensures value { IfOk result (λ found. IfSome found (λ square.
        IsSquareIn pixels.now square.count square.zone square.scale square.modules.items)) }
    ensures count { IfOk result (λ found. IfSome found (λ square. square.count ≡ count)) }
    ensures scale { IfOk result (λ found. IfSome found (λ square. square.scale ≤ 65535)) }
    ensures none { IfOk result (λ found. IfNone found ((zone scale : ℕ) (modules : List Color)
        → IsSquareIn pixels.now count zone scale modules → ¬ (zone * scale ≡ margin))) }
{
    let extent = pixels.sides().0 - 2 * margin;
    let scale = extent / count;
    if scale * count != extent || margin % scale != 0 {
        return Ok(None);
    }
    let square = Square {
        count,
        zone: margin / scale,
        scale,
        modules: colours_at(alloc, pixels, &grid_at(margin, margin, scale, count))?,
    };
    if is_shown(pixels, &square) {
        Ok(Some(square))
    } else {
        Ok(None)
    }
}

// Whether the pixel in column `x` and row `y` is dark; there is none outside.
pub(crate) fn mark_at(pixels: &Pixels, x: usize, y: usize) -> bool
    requires column { x < 1000000000 }
    requires row { y < 1000000000 }
    ensures { result ≡ mark_at pixels.now x y }
{
    matches!(pixels.marks().get(y * pixels.sides().0 + x), Some(true))
}

// Whether the pixels are exactly the picture of a square.
fn is_shown(pixels: &Pixels, square: &Square) -> bool
    requires scale { (1 ≤ square.now.scale) × (square.now.scale ≤ 65535) }
    requires at_most { (square.now.count ≤ 177) × (square.now.zone ≤ 65535) }
    requires at_least { 1 ≤ square.now.count }
    ensures value { IsTrue result → pixels.now ≡ picture (layout square.now.count square.now.zone
        square.now.scale square.now.scale) square.now.modules.items }
    ensures other { IsFalse result → ¬ (pixels.now ≡ picture (layout square.now.count
        square.now.zone square.now.scale square.now.scale) square.now.modules.items) }
{
    let (across, down) = pixels.sides();
    let side = (square.count + 2 * square.zone) * square.scale;
    if across != side || down != side {
        return false;
    }
    let marks = pixels.marks();
    for y in 0..side {
        if !is_row_shown(marks, square, side, y) {
            return false;
        }
    }
    true
}

// Whether a row of pixels is that of the picture of a square, if those above are: it equals the row
// above, unless it begins a row of modules.
fn is_row_shown(marks: &[bool], square: &Square, side: usize, y: usize) -> bool
    requires scale { 1 ≤ square.now.scale }
    requires at_most { (square.now.count ≤ 177) × (square.now.zone ≤ 65535) }
    requires side { side ≡ (square.now.count + 2 * square.now.zone) * square.now.scale }
    requires fits { side ≤ 65535 }
    requires inside { y < side }
    requires square { length marks.now ≡ side * side }
    requires above { (k : ℕ) → k < y → IsRowOf marks.now (layout square.now.count square.now.zone
        square.now.scale square.now.scale) square.now.modules.items k }
    ensures value { IsTrue result → IsRowOf marks.now (layout square.now.count square.now.zone
        square.now.scale square.now.scale) square.now.modules.items y }
    ensures other { IsFalse result → ¬ IsRowOf marks.now (layout square.now.count square.now.zone
        square.now.scale square.now.scale) square.now.modules.items y }
{
    let start = y * side;
    let row = &marks[start..start + side];
    if y % square.scale == 0 {
        is_line_shown(row, square, y)
    } else {
        row == &marks[start - side..start]
    }
}

// Whether `row` is row `y` of the picture of a square, pixel by pixel.
fn is_line_shown(row: &[bool], square: &Square, y: usize) -> bool
    requires scale { 1 ≤ square.now.scale }
    requires at_most { (square.now.count ≤ 177) × (square.now.zone ≤ 65535) }
    ensures value { IsTrue result → (k : ℕ) → k < length row.now → slice_index_or row.now k false
        ≡ is_dark_pixel (layout square.now.count square.now.zone square.now.scale
        square.now.scale) square.now.modules.items k y }
    ensures other { IsFalse result → ¬ ((k : ℕ) → k < length row.now
        → slice_index_or row.now k false ≡ is_dark_pixel (layout square.now.count square.now.zone
        square.now.scale square.now.scale) square.now.modules.items k y) }
{
    for x in 0..row.len() {
        if row[x] != is_dark_pixel(square, x, y) {
            return false;
        }
    }
    true
}

// Whether a pixel of the picture of a square is dark.
fn is_dark_pixel(square: &Square, x: usize, y: usize) -> bool
    requires scale { 1 ≤ square.now.scale }
    requires at_most { (square.now.count ≤ 177) × (square.now.zone ≤ 65535) }
    ensures { result ≡ is_dark_pixel (layout square.now.count square.now.zone square.now.scale
        square.now.scale) square.now.modules.items x y }
{
    let (zone, count) = (square.zone, square.count);
    let (column, row) = (x / square.scale, y / square.scale);
    if column < zone || column >= zone + count || row < zone || row >= zone + count {
        return false;
    }
    let color = square.modules.get((row - zone) * count + (column - zone));
    matches!(color, Some(Color::Dark))
}
