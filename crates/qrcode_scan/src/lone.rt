//! Finds the square of modules that has all dark pixels of a picture: a code alone in a margin that
//! need not have whole modules, nor be equally wide on each side.

ghost use Rattle.std.specs.Prelude.{◌≡◌, ◌*◌, ◌≤◌, length, IfOk, IfSome};
ghost use Rattle.qrcode_scan.specs.Grids.{IsInside};

use crate::codes::PixelBounds;
use crate::finders::{row_of, run_end, run_start};
use crate::grids::Grid;
use crate::pixels::{GREATEST_SIDE, Pixels};
use crate::squares::{mark_at, square_of};
use crate::wholes::grid_at;
use std::alloc::{AllocError, Global};

/// Returns the grid of the square of modules that has all dark pixels, if the picture shows one. If
/// it shows several, this is the one with the fewest modules along a side. It lies in the picture.
///
/// Errors: only `AllocError`, if memory runs out.
#[tactic(auto, using(crate::proofs::Framed::lone_inside))]
pub(crate) fn lone_grid(alloc: Global, pixels: &Pixels) -> Result<Option<Grid>, AllocError>
    ensures { IfOk result (λ found. IfSome found (IsInside pixels.now)) }
{
    let all = extent_of(pixels);
    let side = all.right.saturating_sub(all.left);
    if all.bottom.saturating_sub(all.top) != side {
        return Ok(None);
    }
    let marks = marks_of(alloc, pixels, all, side)?;
    match square_of(alloc, &Pixels::new(side, side, marks))? {
        Some(square) => Ok(Some(grid_at(all.left, all.top, square.scale, square.count))),
        None => Ok(None),
    }
}

// Returns the smallest rectangle with all dark pixels.
fn extent_of(pixels: &Pixels) -> PixelBounds
    ensures first { (result.left ≤ 65535) × (result.top ≤ 65535) }
    ensures last { (result.right ≤ pixels.now.across) × (result.bottom ≤ pixels.now.down) }
    ensures at_most { result.right ≤ 65535 }
{
    let mut all = PixelBounds {
        left: GREATEST_SIDE,
        top: GREATEST_SIDE,
        right: 0,
        bottom: 0,
    };
    for y in 0..pixels.sides().1 {
        let row = row_of(pixels, y);
        let first = run_end(pixels, row, 0, false);
        if first < row.length {
            let end = run_start(pixels, row, row.length, false);
            all = PixelBounds {
                left: all.left.min(first),
                top: all.top.min(y),
                right: all.right.max(end),
                bottom: y + 1,
            };
        }
    }
    all
}

// Returns the pixels of a square of `side` by `side`, row by row, from the corner of a rectangle on.
fn marks_of(
    alloc: Global,
    pixels: &Pixels,
    all: PixelBounds,
    side: usize,
) -> Result<Vec<bool>, AllocError>
    requires corner { (all.left ≤ 65535) × (all.top ≤ 65535) }
    requires side { side ≤ 65535 }
    ensures { IfOk result (λ marks. length marks.items ≡ side * side) }
{
    let mut marks = Vec::with_capacity(alloc, side * side)?;
    for i in 0..side * side {
        marks.push(mark_at(pixels, all.left + i % side, all.top + i / side))?;
    }
    Ok(marks)
}

/// Whether all dark pixels are in a place.
pub(crate) fn has_all_dark(pixels: &Pixels, place: PixelBounds) -> bool {
    for y in 0..pixels.sides().1 {
        let row = row_of(pixels, y);
        let first = run_end(pixels, row, 0, false);
        let is_inside = place.top <= y && y < place.bottom && place.left <= first;
        if first < row.length
            && !(is_inside && run_start(pixels, row, row.length, false) <= place.right)
        {
            return false;
        }
    }
    true
}
