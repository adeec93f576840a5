//! Finds the squares of modules in whole pixels that have finder patterns in three corners.

ghost use Rattle.std.specs.Prelude.{◌≡◌, ◌⊎◌, ◌*◌, ◌+◌, ◌-◌, ◌/◌, ◌%◌, ◌==◌, ◌<◌, ◌≤◌, ℕ, All, Any, true, false, IsTrue, IsFalse, IfOk, IfSome, IfNone, OnOk};
ghost use Rattle.qrcode_scan.specs.Squares.{mark_at};
ghost use Rattle.qrcode_scan.specs.Wholes.{finder_dark, corner_start, marked, AreSame, ArePatterned, BeginsAt, HasFinder, HasMany, HasPatterns, IsGridAt, IsGridOf, IsPatterned, IsPushed, IsRing, IsSought, IsTriedIn, IsWholeIn, Whole};

use crate::grids::{Grid, MOST_GRIDS, guesses};
use crate::pixels::Pixels;
use crate::samples::{is_inside, mark_in};
use crate::squares::mark_at;
use std::alloc::{AllocError, Global};

// A finder pattern: its first pixel, and the pixels of a module.
#[derive(Clone, Copy)]
struct Pattern {
    x: usize,
    y: usize,
    scale: usize,
    ghost fits: { (x ≤ 65535) × (y ≤ 65535) × (scale ≤ 65535) },
}

// The corner of a square whose finder pattern has others left or right of it, and above or below.
#[derive(Clone, Copy)]
pub(crate) struct Corner {
    pub(crate) is_right: bool,
    pub(crate) is_lower: bool,
}

/// Finds squares of modules in a picture. First come all squares of Normal versions in whole
/// pixels, dark on light, that have finder patterns in three corners; at most 1,024. Then it
/// guesses, by less exact finder patterns.
///
/// Errors: only `AllocError`, if memory runs out.
pub fn grids_of(alloc: Global, pixels: &Pixels) -> Result<Vec<Grid>, AllocError>
    ensures { IfOk result (λ grids. (w : Whole) → IsWholeIn pixels.now w
        → HasMany pixels.now ⊎ Any (IsGridOf w) grids.items) }
{
    let mut grids = whole_grids(alloc, pixels)?;
    grids.extend_from_slice(&guesses(alloc, pixels)?)?;
    Ok(grids)
}

// Returns the grids of the squares in whole pixels that have finder patterns in three corners, at
// most 1,024.
#[tactic(auto, using(crate::proofs::Tried::none_patterned, crate::proofs::Tried::many_found))]
fn whole_grids(alloc: Global, pixels: &Pixels) -> Result<Vec<Grid>, AllocError>
    ensures { IfOk result (λ grids. (w : Whole) → IsWholeIn pixels.now w
        → HasMany pixels.now ⊎ Any (IsGridOf w) grids.items) }
{
    let mut grids = Vec::new(alloc);
    for y in 0..pixels.sides().1 {
        if MOST_GRIDS <= grids.len() {
            return Ok(grids);
        }
        push_row(&mut grids, pixels, y)?;
    }
    Ok(grids)
}

// Appends the grids of the squares whose finder pattern has its first light pixel in row `y`.
fn push_row(grids: &mut Vec<Grid>, pixels: &Pixels, y: usize) -> Result<(), AllocError>
    requires row { (y < pixels.now.down) × (y ≤ 65535) }
    requires patterned { ArePatterned pixels.now grids.old.items }
    ensures patterned { OnOk result (ArePatterned pixels.now grids.new.items) }
    ensures kept { OnOk result ((w : Whole) → IsTriedIn grids.old.items w
        → IsTriedIn grids.new.items w) }
    ensures found { OnOk result ((w : Whole) (x : ℕ) → BeginsAt pixels.now w x y
        → IsTriedIn grids.new.items w) }
{
    for x in 0..pixels.sides().0 {
        match finder_at(pixels, x, y) {
            Some(finder) => push_sizes(grids, pixels, finder)?,
            None => {}
        }
    }
    Ok(())
}

// Returns the finder pattern whose first light pixel this is: the first of five light modules.
fn finder_at(pixels: &Pixels, x: usize, y: usize) -> Option<Pattern>
    requires inside { (x < pixels.now.across) × (y < pixels.now.down) }
    requires at_most { (x ≤ 65535) × (y ≤ 65535) }
    ensures place { IfSome result (λ finder. (finder.x + finder.scale ≡ x)
        × (finder.y + finder.scale ≡ y)) }
    ensures ring { IfSome result (λ finder. IsRing pixels.now (finder.x + finder.scale)
        (finder.y + finder.scale) finder.scale) }
    ensures scale { IfSome result (λ finder. (w : Whole) → BeginsAt pixels.now w x y
        → w.scale ≡ finder.scale) }
    ensures none { IfNone result ((w : Whole) → ¬ BeginsAt pixels.now w x y) }
{
    if !is_first_light(pixels, x, y) {
        return None;
    }
    let five = light_run(pixels, x, y);
    let scale = five / 5;
    if scale * 5 != five || x < scale || y < scale {
        return None;
    }
    let finder = Pattern {
        x: x - scale,
        y: y - scale,
        scale,
    };
    let grid = grid_at(finder.x, finder.y, scale, 21);
    if has_finder(pixels, &grid, 0, 0, 0) {
        Some(finder)
    } else {
        None
    }
}

// Returns the grid of `count` modules a side, of `scale` pixels each, from this pixel on.
pub(crate) fn grid_at(x: usize, y: usize, scale: usize, count: usize) -> Grid
    requires { (x ≤ 65535) × (y ≤ 65535) × (scale ≤ 65535) × (count ≤ 177) }
    ensures { IsGridAt x y scale count result }
{
    Grid {
        count,
        left: x + scale / 2,
        top: y + scale / 2,
        across: scale,
        down: scale,
        lean: 0,
        fall: 0,
        parts: 1,
    }
}

// Whether a pixel is light, and those before and above it are dark.
#[tactic(auto, using(crate::proofs::ExactSquares::first_light))]
fn is_first_light(pixels: &Pixels, x: usize, y: usize) -> bool
    requires { (x ≤ 65535) × (y ≤ 65535) }
    ensures all { IsTrue result → (mark_at pixels.now (x - 1) y ≡ true)
        × (mark_at pixels.now x (y - 1) ≡ true) }
    ensures none { IsFalse result → (w : Whole) → ¬ BeginsAt pixels.now w x y }
{
    if x == 0 || y == 0 || mark_at(pixels, x, y) {
        return false;
    }
    if !mark_at(pixels, x - 1, y) {
        return false;
    }
    mark_at(pixels, x, y - 1)
}

// Counts the light pixels from a place to the right.
fn light_run(pixels: &Pixels, x: usize, y: usize) -> usize
    requires inside { (x < pixels.now.across) × (y ≤ 65535) }
    ensures at_most { x + result ≤ pixels.now.across }
    ensures light { (k : ℕ) → k < result → mark_at pixels.now (x + k) y ≡ false }
    ensures end { x + result < pixels.now.across → mark_at pixels.now (x + result) y ≡ true }
{
    let rest = pixels.sides().0 - x;
    for count in 0..rest {
        if mark_at(pixels, x + count, y) {
            return count;
        }
    }
    rest
}

// Appends the grids of squares of each size that have this finder pattern in each of their corners.
fn push_sizes(grids: &mut Vec<Grid>, pixels: &Pixels, finder: Pattern) -> Result<(), AllocError>
    requires ring { IsRing pixels.now (finder.x + finder.scale) (finder.y + finder.scale)
        finder.scale }
    requires patterned { ArePatterned pixels.now grids.old.items }
    ensures patterned { OnOk result (ArePatterned pixels.now grids.new.items) }
    ensures kept { OnOk result ((w : Whole) → IsTriedIn grids.old.items w
        → IsTriedIn grids.new.items w) }
    ensures found { OnOk result ((w : Whole)
        → BeginsAt pixels.now w (finder.x + finder.scale) (finder.y + finder.scale)
        → w.scale ≡ finder.scale → IsTriedIn grids.new.items w) }
{
    for i in 0..160 {
        let corner = Corner {
            is_right: i % 2 == 1,
            is_lower: i / 2 % 2 == 1,
        };
        push_new(grids, whole_grid(pixels, finder, 1 + i / 4, corner))?;
    }
    Ok(())
}

// Appends a grid, unless it is known or there are too many.
fn push_new(grids: &mut Vec<Grid>, grid: Option<Grid>) -> Result<(), AllocError>
    ensures { OnOk result (IsPushed grids.old.items grid grids.new.items) }
{
    let Some(grid) = grid else {
        return Ok(());
    };
    if grids.len() < MOST_GRIDS && !is_known(grids, &grid) {
        grids.push(grid)?;
    }
    Ok(())
}

// Whether a grid is one of these.
fn is_known(grids: &[Grid], grid: &Grid) -> bool
    ensures known { IsTrue result → Any (λ other. AreSame other grid.now) grids.now }
    ensures new { IsFalse result → All (λ other. ¬ AreSame other grid.now) grids.now }
{
    for other in grids {
        if is_same(other, grid) {
            return true;
        }
    }
    false
}

// Whether two grids have the same modules.
fn is_same(one: &Grid, other: &Grid) -> bool
    ensures same { IsTrue result → AreSame one.now other.now }
    ensures other { IsFalse result → ¬ AreSame one.now other.now }
{
    one.count == other.count
        && one.left == other.left
        && one.top == other.top
        && one.across == other.across
        && one.down == other.down
        && one.lean == other.lean
        && one.fall == other.fall
        && one.parts == other.parts
}

// Returns the grid of a square of this version with the finder pattern in a corner, if it has the
// two others.
fn whole_grid(pixels: &Pixels, finder: Pattern, version: usize, corner: Corner) -> Option<Grid>
    requires version { (1 ≤ version) × (version ≤ 40) }
    requires ring { IsRing pixels.now (finder.x + finder.scale) (finder.y + finder.scale)
        finder.scale }
    ensures patterned { IfSome result (IsPatterned pixels.now) }
    ensures value { IfSome result (λ grid. (w : Whole)
        → IsSought pixels.now (finder.x + finder.scale) (finder.y + finder.scale) finder.scale
        version corner.is_right corner.is_lower w → IsGridOf w grid) }
    ensures none { IfNone result ((w : Whole)
        → ¬ IsSought pixels.now (finder.x + finder.scale) (finder.y + finder.scale) finder.scale
        version corner.is_right corner.is_lower w) }
{
    let count = 17 + 4 * version;
    let column = corner_start(corner.is_right, count) * finder.scale;
    let row = corner_start(corner.is_lower, count) * finder.scale;
    if finder.x < column || finder.y < row {
        return None;
    }
    let grid = grid_at(finder.x - column, finder.y - row, finder.scale, count);
    if has_patterns(pixels, &grid, corner, 0) {
        Some(grid)
    } else {
        None
    }
}

// Returns the first column or row of a finder pattern in a corner of `count` modules a side.
fn corner_start(is_last: bool, count: usize) -> usize
    requires { (7 ≤ count) × (count ≤ 177) }
    ensures value { result ≡ corner_start is_last count }
    ensures at_most { result ≤ 170 }
{
    if is_last { count - 7 } else { 0 }
}

// Whether a grid lies in the pixels and has finder patterns in this corner and those next to it, of
// each of which at most this many modules are wrong.
pub(crate) fn has_patterns(pixels: &Pixels, grid: &Grid, corner: Corner, most: usize) -> bool
    requires { (21 ≤ grid.now.count) × (1 ≤ grid.now.parts) }
    ensures all { IsTrue result → most ≡ 0
        → HasPatterns pixels.now grid.now corner.is_right corner.is_lower }
    ensures none { IsFalse result
        → ¬ HasPatterns pixels.now grid.now corner.is_right corner.is_lower }
{
    let x = corner_start(corner.is_right, grid.count);
    let y = corner_start(corner.is_lower, grid.count);
    let beside = corner_start(!corner.is_right, grid.count);
    let below = corner_start(!corner.is_lower, grid.count);
    is_inside(pixels, grid)
        && has_finder(pixels, grid, beside, y, most)
        && has_finder(pixels, grid, x, below, most)
        && has_finder(pixels, grid, x, y, most)
}

// Whether a grid has a finder pattern that begins in this column and row, of which at most this many
// modules are wrong.
fn has_finder(pixels: &Pixels, grid: &Grid, column: usize, row: usize, most: usize) -> bool
    requires { (column ≤ 170) × (row ≤ 170) × (1 ≤ grid.now.parts) }
    ensures all { IsTrue result → most ≡ 0 → HasFinder (marked pixels.now grid.now) column row }
    ensures none { IsFalse result → ¬ HasFinder (marked pixels.now grid.now) column row }
{
    let mut left = most;
    for i in 0..49 {
        if mark_in(pixels, grid, column + i % 7, row + i / 7) != finder_dark(i % 7, i / 7) {
            if left == 0 {
                return false;
            }
            left -= 1;
        }
    }
    true
}

// Whether a module of a finder pattern is dark.
pub(crate) fn finder_dark(column: usize, row: usize) -> bool
    requires { (column < 7) × (row < 7) }
    ensures { result ≡ finder_dark column row }
{
    column.min(6 - column).min(row.min(6 - row)) != 1
}
