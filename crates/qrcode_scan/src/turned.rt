//! Finds squares of modules at any angle, by three finder patterns.

ghost use Rattle.std.specs.Prelude.{◌≡◌, ◌+◌, ◌*◌, ◌^◌, ◌<◌, ◌≤◌, IfSome};

use crate::finders::{Finder, square_of_far};
use crate::grids::{Grid, Trio, is_same_size, push_below};
use crate::pixels::Pixels;
use crate::wholes::has_patterns;
use std::alloc::AllocError;

// The most wrong modules of a finder pattern: a quarter.
const MOST_WRONG: usize = 12;

/// Appends the grids between three of these finder patterns.
pub(crate) fn push_turned(
    grids: &mut Vec<Grid>,
    pixels: &Pixels,
    found: &[Finder],
) -> Result<(), AllocError> {
    for corner in found {
        for beside in found {
            if is_same_size(*corner, *beside) {
                push_below(grids, pixels, found, *corner, *beside, true)?;
            }
        }
    }
    Ok(())
}

// Whether two finder patterns are about as far from the one in the corner, at a right angle, within
// an eighth of the squares of the distances; and which of them is `beside`.
pub(crate) fn is_square(trio: &Trio) -> bool {
    let one = apart(trio.corner, trio.beside);
    let other = apart(trio.corner, trio.below);
    let third = apart(trio.beside, trio.below);
    is_same_size(trio.corner, trio.below)
        && 8 * one.abs_diff(other) <= one + other
        && 8 * third.abs_diff(one + other) <= one + other
        && is_beside(trio)
}

// Returns the square of the distance of two finder patterns, four times.
fn apart(one: Finder, other: Finder) -> usize
    ensures { result < 2 ^ 37 }
{
    square_of_far(one.x.abs_diff(other.x), one.y.abs_diff(other.y))
}

// Whether `beside` is right of the corner and below it, or left and above: more so than `below`.
fn is_beside(trio: &Trio) -> bool {
    let (one, beside, below) = (trio.corner, trio.beside, trio.below);
    below.x * below.y + beside.x * one.y + one.x * beside.y
        < beside.x * beside.y + below.x * one.y + one.x * below.y
}

/// Returns the grid of `count` modules a side between three finder patterns, if their distance fits
/// their sizes, within a fifth, and if it shows them.
pub(crate) fn turned_grid(pixels: &Pixels, trio: &Trio, count: usize) -> Option<Grid>
    requires { (21 ≤ count) × (count ≤ 177) }
    ensures { IfSome result (λ grid. (grid.count ≡ count) × (1 ≤ grid.parts)) }
{
    if !is_far(trio, count) {
        return None;
    }
    let grid = grid_between(trio, count);
    has_patterns(pixels, &grid, trio.place(), MOST_WRONG).then_some(grid)
}

// Whether the finder patterns are as far apart as in a square of `count` modules a side, within a
// fifth. A row through a turned finder pattern is as much longer than its side as the side is than
// its greater extent, across or down.
fn is_far(trio: &Trio, count: usize) -> bool
    requires { (21 ≤ count) × (count ≤ 177) }
{
    let (one, other) = (trio.corner, trio.beside);
    let extent = one.x.abs_diff(other.x).max(one.y.abs_diff(other.y));
    let wanted = (one.width + one.height) * extent * (count - 7);
    5 * (7 * apart(one, other)).abs_diff(wanted) <= wanted
}

// Returns the grid of `count` modules a side between three finder patterns.
fn grid_between(trio: &Trio, count: usize) -> Grid
    requires { (21 ≤ count) × (count ≤ 177) }
    ensures { (result.count ≡ count) × (1 ≤ result.parts) }
{
    let (one, beside, below) = (trio.corner, trio.beside, trio.below);
    let (across, fall) = (one.x.abs_diff(beside.x), one.y.abs_diff(beside.y));
    let (lean, down) = (one.x.abs_diff(below.x), one.y.abs_diff(below.y));
    let x = least_of(one.x, beside.x, below.x) + lean;
    let y = least_of(one.y, beside.y, below.y);
    Grid {
        count,
        left: (x * (count - 7) + 3 * lean).saturating_sub(3 * across),
        top: (y * (count - 7)).saturating_sub(3 * (fall + down)),
        across,
        down,
        lean,
        fall,
        parts: 2 * (count - 7),
    }
}

// Returns the least column, or row, of four corners of a square: of these three, the first between
// the others, and the fourth.
fn least_of(one: usize, beside: usize, below: usize) -> usize
    requires { (one ≤ 131070) × (beside ≤ 131070) × (below ≤ 131070) }
    ensures { result ≤ 131070 }
{
    let fourth = (beside + below).saturating_sub(one);
    one.min(beside).min(below).min(fourth)
}
