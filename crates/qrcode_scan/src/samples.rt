//! Samples the modules of a grid.

ghost use Rattle.std.specs.Prelude.{◌≡◌, ◌*◌, ◌-◌, ◌<◌, ◌≤◌, length, IsTrue, IsFalse, IfOk, IfSome, IfNone};
ghost use Rattle.qrcode_scan.specs.Grids.{IsInside, IsSampled, column_at, row_at, colours_at};
ghost use Rattle.qrcode_scan.specs.Squares.{mark_at};

use crate::grids::Grid;
use crate::pixels::Pixels;
use crate::squares::mark_at;
use qrcode_layout::figures::color_of;
use qrcode_types::types::Color;
use std::alloc::{AllocError, Global};

/// Returns the modules of a grid, row by row: each has the colour of the pixel at its centre.
/// `None` if the grid is empty or a centre is not in the picture.
///
/// Errors: only `AllocError`, if memory runs out.
pub fn sampled_at(
    alloc: Global,
    pixels: &Pixels,
    grid: &Grid,
) -> Result<Option<Vec<Color>>, AllocError>
    ensures some { IfOk result (λ found. IfSome found (λ modules.
        IsSampled pixels.now grid.now modules.items)) }
    ensures none { IfOk result (λ found. IfNone found ((1 ≤ grid.now.count)
        → (1 ≤ grid.now.parts) → ¬ IsInside pixels.now grid.now)) }
{
    if grid.count == 0 || grid.parts == 0 || !is_inside(pixels, grid) {
        return Ok(None);
    }
    Ok(Some(colours_at(alloc, pixels, grid)?))
}

// Whether the centres of all modules are in the picture.
pub(crate) fn is_inside(pixels: &Pixels, grid: &Grid) -> bool
    requires { (1 ≤ grid.now.count) × (1 ≤ grid.now.parts) }
    ensures inside { IsTrue result → IsInside pixels.now grid.now }
    ensures outside { IsFalse result → ¬ IsInside pixels.now grid.now }
{
    let ((across, down), last) = (pixels.sides(), grid.count - 1);
    last * grid.lean <= grid.left
        && column_at(grid, last, 0) < across
        && row_at(grid, last, last) < down
}

// Returns the colours of the pixels at the centres of modules.
pub(crate) fn colours_at(
    alloc: Global,
    pixels: &Pixels,
    grid: &Grid,
) -> Result<Vec<Color>, AllocError>
    requires { (1 ≤ grid.now.count) × (1 ≤ grid.now.parts) }
    ensures value { IfOk result (λ modules. modules.items ≡ colours_at pixels.now grid.now) }
    ensures length { IfOk result (λ modules.
        length modules.items ≡ grid.now.count * grid.now.count) }
{
    let count = grid.count;
    let mut modules = Vec::with_capacity(alloc, count * count)?;
    for i in 0..count * count {
        modules.push(color_of(mark_in(pixels, grid, i % count, i / count)))?;
    }
    Ok(modules)
}

// Whether the pixel at the centre of a module is dark.
pub(crate) fn mark_in(pixels: &Pixels, grid: &Grid, column: usize, row: usize) -> bool
    requires { (column ≤ 177) × (row ≤ 177) × (1 ≤ grid.now.parts) }
    ensures { result ≡ mark_at pixels.now (column_at grid.now column row)
        (row_at grid.now column row) }
{
    let (x, y) = (column_at(grid, column, row), row_at(grid, column, row));
    mark_at(pixels, x, y)
}

// Returns the column of the pixel at the centre of a module.
fn column_at(grid: &Grid, column: usize, row: usize) -> usize
    requires { (column ≤ 177) × (row ≤ 177) × (1 ≤ grid.now.parts) }
    ensures value { result ≡ column_at grid.now column row }
    ensures at_most { result < 1000000000 }
{
    (grid.left + column * grid.across).saturating_sub(row * grid.lean) / grid.parts
}

// Returns the row of the pixel at the centre of a module.
fn row_at(grid: &Grid, column: usize, row: usize) -> usize
    requires { (column ≤ 177) × (row ≤ 177) × (1 ≤ grid.now.parts) }
    ensures value { result ≡ row_at grid.now column row }
    ensures at_most { result < 1000000000 }
{
    (grid.top + row * grid.down + column * grid.fall) / grid.parts
}
