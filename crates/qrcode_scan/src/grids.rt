//! Finds squares of modules by their finder patterns, also in pictures that show other things.

ghost use Rattle.std.specs.Prelude.{◌≡◌, ◌^◌, ◌<◌, ◌≤◌, IfSome};

use crate::finders::{Finder, all_finders};
use crate::micro::push_micro;
use crate::pixels::Pixels;
use crate::samples::mark_in;
use crate::turned::{is_square, push_turned, turned_grid};
use crate::wholes::Corner;
use std::alloc::{AllocError, Global};

// The most grids of a picture. Bounds memory and time.
pub(crate) const MOST_GRIDS: usize = 1024;

// How many finder patterns on each side of another are paired with it, nearest first: between those
// of one symbol there is nothing but the symbol. Bounds time.
const MOST_NEAR: usize = 4;

/// Where the modules of a square are in pixels: the centre of the first module, and the distances
/// of columns and of rows, in fractions of a pixel. The first module is that in the corner from
/// which one side of the square goes to the right, or down to the right, and the other down, or down
/// to the left.
#[derive(Clone, Copy)]
pub struct Grid {
    /// Modules along a side.
    pub count: usize,
    /// The column of the first module's centre, in fractions of a pixel.
    pub left: usize,
    /// The row of the first module's centre, likewise.
    pub top: usize,
    /// From one column of modules to the next, likewise.
    pub across: usize,
    /// From one row of modules to the next, likewise.
    pub down: usize,
    /// How far left of a row of modules the next begins, likewise; 0 if the square is not turned.
    pub lean: usize,
    /// How far below a column of modules the next begins, likewise; 0 if the square is not turned.
    pub fall: usize,
    /// How many such fractions make a pixel.
    pub parts: usize,
    pub ghost fits: { (count ≤ 177) × (left < 2 ^ 28) × (top < 2 ^ 28) × (across < 2 ^ 18)
        × (down < 2 ^ 18) × (lean < 2 ^ 18) × (fall < 2 ^ 18) × (parts < 2 ^ 18) },
}

// Three finder patterns: one in the corner, one left or right of it, one above or below it. Of a
// turned square `beside` is below it if it is right of it, and above it if it is left of it.
#[derive(Clone, Copy)]
pub(crate) struct Trio {
    pub(crate) corner: Finder,
    pub(crate) beside: Finder,
    pub(crate) below: Finder,
}

impl Trio {
    // Returns in which corner of the square the first of them is.
    pub(crate) fn place(&self) -> Corner {
        Corner {
            is_right: self.beside.x + self.beside.y < self.corner.x + self.corner.y,
            is_lower: self.below.y + self.corner.x < self.corner.y + self.below.x,
        }
    }
}

/// Guesses where squares of modules are in a picture, by the finder patterns in three of their
/// corners, or by the single one of Micro: first dark modules on light, then light on dark; last
/// squares at any angle, likewise; at most 1,024.
///
/// Errors: only `AllocError`, if memory runs out.
pub(crate) fn guesses(alloc: Global, pixels: &Pixels) -> Result<Vec<Grid>, AllocError> {
    let mut grids = Vec::new(alloc);
    let inverted = pixels.inverted(alloc)?;
    let dark = push_grids(alloc, &mut grids, pixels)?;
    let light = push_grids(alloc, &mut grids, &inverted)?;
    push_turned(&mut grids, pixels, &dark)?;
    push_turned(&mut grids, &inverted, &light)?;
    Ok(grids)
}

// Appends the grids of dark modules: first those of three finder patterns, then those of Micro.
// Returns the finder patterns at any angle.
fn push_grids(
    alloc: Global,
    grids: &mut Vec<Grid>,
    pixels: &Pixels,
) -> Result<Vec<Finder>, AllocError> {
    let found = all_finders(alloc, pixels)?;
    for corner in &found.upright {
        let belows = nearest(alloc, &found.upright, *corner, true)?;
        for beside in &nearest(alloc, &found.upright, *corner, false)? {
            push_below(grids, pixels, &belows, *corner, *beside, false)?;
        }
    }
    for finder in &found.upright {
        push_micro(grids, pixels, *finder)?;
    }
    Ok(found.turned)
}

// Returns the finder patterns that are nearest to `corner`: of those above and below it, or of those
// left and right of it, on both sides.
fn nearest(
    alloc: Global,
    found: &[Finder],
    corner: Finder,
    is_down: bool,
) -> Result<Vec<Finder>, AllocError> {
    let (mut before, mut behind) = (Vec::new(alloc), Vec::new(alloc));
    for other in found {
        if !(is_down && is_below(corner, *other) || !is_down && is_beside(corner, *other)) {
            continue;
        }
        if place(*other) < place(corner) {
            push_near(&mut before, corner, *other)?;
        } else {
            push_near(&mut behind, corner, *other)?;
        }
    }
    before.extend_from_slice(&behind)?;
    Ok(before)
}

// Inserts a finder pattern before the first that is further away, unless four are nearer.
fn push_near(near: &mut Vec<Finder>, corner: Finder, other: Finder) -> Result<(), AllocError> {
    let apart = place(corner).abs_diff(place(other));
    let number = near
        .iter()
        .position(|it| apart < place(corner).abs_diff(place(*it)))
        .unwrap_or(near.len());
    if number < MOST_NEAR {
        near.insert(number, other)?;
        near.truncate(MOST_NEAR);
    }
    Ok(())
}

// Returns a number that orders finder patterns of one line, across or down.
fn place(finder: Finder) -> usize {
    finder.x + finder.y
}

// Appends the grids of two finder patterns and each third one.
pub(crate) fn push_below(
    grids: &mut Vec<Grid>,
    pixels: &Pixels,
    belows: &[Finder],
    corner: Finder,
    beside: Finder,
    is_turned: bool,
) -> Result<(), AllocError> {
    for below in belows {
        let trio = Trio {
            corner,
            beside,
            below: *below,
        };
        if !is_turned || is_square(&trio) {
            push_grid(grids, grid_of(pixels, &trio, is_turned))?;
        }
    }
    Ok(())
}

// Appends a grid, unless there are too many.
pub(crate) fn push_grid(grids: &mut Vec<Grid>, grid: Option<Grid>) -> Result<(), AllocError> {
    match grid {
        Some(grid) if grids.len() < MOST_GRIDS => grids.push(grid)?,
        _ => {}
    }
    Ok(())
}

// Whether `other` is left or right of `corner`, of about the same size: within a module and a pixel
// of the same row, and more than one and a half widths away.
fn is_beside(corner: Finder, other: Finder) -> bool {
    7 * corner.y.abs_diff(other.y) <= 2 * corner.height + 14
        && corner.x.abs_diff(other.x) > 3 * corner.width
        && is_same_size(corner, other)
}

// Whether `other` is above or below `corner`, of about the same size: within a module and a pixel
// of the same column, and more than one and a half heights away.
fn is_below(corner: Finder, other: Finder) -> bool {
    7 * corner.x.abs_diff(other.x) <= 2 * corner.width + 14
        && corner.y.abs_diff(other.y) > 3 * corner.height
        && is_same_size(corner, other)
}

// Whether the sides of two finder patterns differ by at most a third.
pub(crate) fn is_same_size(finder: Finder, other: Finder) -> bool {
    3 * finder.width.abs_diff(other.width) <= finder.width
        && 3 * finder.height.abs_diff(other.height) <= finder.height
}

// Returns the grid between three finder patterns whose timing patterns fit best; at most a quarter
// of their modules may be wrong.
fn grid_of(pixels: &Pixels, trio: &Trio, is_turned: bool) -> Option<Grid> {
    let (mut best, mut least) = (None, 251);
    for version in 1..41 {
        let count = 17 + 4 * version;
        let likely = if is_turned {
            turned_grid(pixels, trio, count)
        } else {
            likely_grid(trio, count)
        };
        let Some(grid) = likely else {
            continue;
        };
        let wrong = 500 * wrong_timing(pixels, trio, &grid) / (count - 16);
        if wrong < least {
            least = wrong;
            best = Some(grid);
        }
    }
    best
}

// Returns the grid of `count` modules a side between three finder patterns, if their distances fit
// their sizes, within a fifth.
fn likely_grid(trio: &Trio, count: usize) -> Option<Grid>
    requires { (21 ≤ count) × (count ≤ 177) }
    ensures { IfSome result (λ grid. (grid.count ≡ count) × (1 ≤ grid.parts)) }
{
    let Trio {
        corner,
        beside,
        below,
    } = *trio;
    let (across, down) = (corner.x.abs_diff(beside.x), corner.y.abs_diff(below.y));
    if !is_size(across, corner.width, count) || !is_size(down, corner.height, count) {
        return None;
    }
    Some(Grid {
        count,
        left: (corner.x.min(beside.x) * (count - 7)).saturating_sub(3 * across),
        top: (corner.y.min(below.y) * (count - 7)).saturating_sub(3 * down),
        across,
        down,
        lean: 0,
        fall: 0,
        parts: 2 * (count - 7),
    })
}

// Whether two finder patterns in a square of `count` modules a side, seven modules having `seven`
// pixels, are `apart` half pixels apart, within a fifth.
fn is_size(apart: usize, seven: usize, count: usize) -> bool
    requires modules { (21 ≤ count) × (count ≤ 177) }
    requires pixels { (apart ≤ 131070) × (seven ≤ 65535) }
{
    let wanted = 2 * seven * (count - 7);
    5 * (7 * apart).abs_diff(wanted) <= wanted
}

// Counts the wrong modules of the two timing patterns.
fn wrong_timing(pixels: &Pixels, trio: &Trio, grid: &Grid) -> usize
    requires { (21 ≤ grid.now.count) × (1 ≤ grid.now.parts) }
    ensures { result ≤ 354 }
{
    let place = trio.place();
    let row = timing_line(!place.is_lower, grid.count);
    let column = timing_line(!place.is_right, grid.count);
    let mut wrong = 0;
    for i in 8..grid.count - 8 {
        wrong += usize::from(mark_in(pixels, grid, i, row) != (i % 2 == 0));
        wrong += usize::from(mark_in(pixels, grid, column, i) != (i % 2 == 0));
    }
    wrong
}

// Returns the row or column of a timing pattern.
fn timing_line(is_first: bool, count: usize) -> usize
    requires { (21 ≤ count) × (count ≤ 177) }
    ensures { result ≤ 177 }
{
    if is_first { 6 } else { count - 7 }
}
