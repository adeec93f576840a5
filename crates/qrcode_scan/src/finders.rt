//! Finds finder patterns in pixels: dark, light, dark, light and dark runs of 1, 1, 3, 1 and 1
//! modules, across and down, in squares of seven modules a side.

ghost use Rattle.std.specs.Prelude.{◌≡◌, ◌^◌, ◌<◌, ◌≤◌, length, IfOk, IfSome, OnOk};

use crate::pixels::{GREATEST_SIDE, Pixels};
use crate::squares::mark_at;
use crate::wholes::finder_dark;
use std::alloc::{AllocError, Global};

// The most finder patterns to keep of a picture. Bounds memory and time.
const MOST_FINDERS: usize = 1024;

// The most of those at any angle: with each two others they are tried as a corner. Bounds time.
const MOST_TURNED: usize = 48;

// A finder pattern: twice its centre, and its width and height in pixels, seven modules each.
#[derive(Clone, Copy)]
pub(crate) struct Finder {
    pub(crate) x: usize,
    pub(crate) y: usize,
    pub(crate) width: usize,
    pub(crate) height: usize,
    ghost centre: { (x ≤ 131070) × (y ≤ 131070) },
    ghost sides: { (width ≤ 65535) × (height ≤ 65535) },
}

// The finder patterns of a picture: those whose sides are parallel to the picture's, and those at
// any angle, with more exact centres.
#[derive(Drop)]
pub(crate) struct Finders {
    pub(crate) upright: Vec<Finder>,
    pub(crate) turned: Vec<Finder>,
}

// A row or column of pixels: the index of its first pixel, the step from one pixel to the next, and
// how many there are.
#[derive(Clone, Copy)]
pub(crate) struct Lane {
    first: usize,
    step: usize,
    pub(crate) length: usize,
    ghost fits: { (first < 2 ^ 33) × (step ≤ 65536) × (length ≤ 65535) },
}

// Returns row `y` of the pixels.
pub(crate) fn row_of(pixels: &Pixels, y: usize) -> Lane
    requires { y ≤ 65535 }
    ensures { (result.length ≡ pixels.now.across) × (result.first < 2 ^ 32) }
{
    let length = pixels.sides().0;
    Lane {
        first: y * length,
        step: 1,
        length,
    }
}

// Returns column `x` of the pixels.
pub(crate) fn column_of(pixels: &Pixels, x: usize) -> Lane
    requires { x ≤ 65535 }
    ensures { (result.length ≡ pixels.now.down) × (result.first < 2 ^ 32) }
{
    let (step, length) = pixels.sides();
    Lane {
        first: x,
        step,
        length,
    }
}

/// Finds finder patterns, in the order of their rows, at most 1,024, and 48 at any angle.
///
/// Errors: only `AllocError`, if memory runs out.
pub(crate) fn all_finders(alloc: Global, pixels: &Pixels) -> Result<Finders, AllocError>
    ensures { IfOk result (λ found. (length found.upright.items ≤ 1024)
        × (length found.turned.items ≤ 48)) }
{
    let mut found = Finders {
        upright: Vec::new(alloc),
        turned: Vec::new(alloc),
    };
    for y in 0..pixels.sides().1 {
        push_finders(&mut found, pixels, y)?;
    }
    found.turned = all_centred(alloc, pixels, &found.turned)?;
    Ok(found)
}

// Appends the finder patterns that cross row `y`, except known ones.
fn push_finders(found: &mut Finders, pixels: &Pixels, y: usize) -> Result<(), AllocError>
    requires row { (y < pixels.now.down) × (y ≤ 65535) }
    requires upright { length found.old.upright.items ≤ 1024 }
    requires turned { length found.old.turned.items ≤ 48 }
    ensures upright { OnOk result (length found.new.upright.items ≤ 1024) }
    ensures turned { OnOk result (length found.new.turned.items ≤ 48) }
{
    let row = row_of(pixels, y);
    for x in 0..row.length {
        if is_dark(pixels, row, x) && !is_dark(pixels, row, x + 1) {
            if let Some(start) = finder_before(pixels, row, x + 1) {
                let finder = finder_at(pixels, (start + x + 1) / 2, y, x + 1 - start);
                push_both(found, pixels, finder)?;
            }
        }
    }
    Ok(())
}

// Appends a finder pattern to those whose modules are right, at most a quarter of them wrong; and
// to those at any angle, whose diagonals have its runs. Neither if it is known or there are too
// many: then nothing more is looked at, so that time is linear.
fn push_both(found: &mut Finders, pixels: &Pixels, finder: Option<Finder>) -> Result<(), AllocError>
    requires upright { length found.old.upright.items ≤ 1024 }
    requires turned { length found.old.turned.items ≤ 48 }
    ensures upright { OnOk result (length found.new.upright.items ≤ 1024) }
    ensures turned { OnOk result (length found.new.turned.items ≤ 48) }
{
    let Some(finder) = finder else {
        return Ok(());
    };
    if found.upright.len() < MOST_FINDERS
        && 4 * wrong_modules(pixels, finder) <= 49
        && !is_known(&found.upright, finder)
    {
        found.upright.push(finder)?;
    }
    if found.turned.len() < MOST_TURNED
        && !is_known(&found.turned, finder)
        && diagonal_of(pixels, finder, false).is_some()
        && diagonal_of(pixels, finder, true).is_some()
    {
        found.turned.push(finder)?;
    }
    Ok(())
}

// Returns finder patterns at any angle with exact centres, each once.
fn all_centred(alloc: Global, pixels: &Pixels, found: &[Finder]) -> Result<Vec<Finder>, AllocError>
    ensures { IfOk result (λ all. length all.items ≤ length found.now) }
{
    let mut all = Vec::new(alloc);
    for finder in found {
        match centred(pixels, *finder) {
            Some(finder) if !is_known(&all, finder) => all.push(finder)?,
            _ => {}
        }
    }
    Ok(all)
}

// Whether a finder pattern has been found before.
fn is_known(found: &[Finder], finder: Finder) -> bool {
    found.iter().any(|other| is_same(finder, *other))
}

// Whether the centres of two finder patterns are at most a module (of the smaller one) and half a
// pixel apart, across and down.
fn is_same(finder: Finder, other: Finder) -> bool {
    7 * finder.x.abs_diff(other.x) <= 2 * finder.width.min(other.width) + 7
        && 7 * finder.y.abs_diff(other.y) <= 2 * finder.height.min(other.height) + 7
}

// Returns the finder pattern around a pixel, about `width` pixels wide: its sides are those of the
// row through its middle or, if that has a wrong pixel, of the pixel's row. Neither side may be more
// than twice as long as the other.
fn finder_at(pixels: &Pixels, x: usize, y: usize, width: usize) -> Option<Finder>
    requires inside { (x ≤ pixels.now.across) × (y ≤ pixels.now.down) × (x ≤ 65535) }
    requires width { width ≤ 65535 }
{
    let (top, bottom) = finder_through(pixels, column_of(pixels, x), y, 2 * width)?;
    let middle = row_of(pixels, (top + bottom) / 2);
    let (left, right) = match finder_through(pixels, middle, x, 2 * width) {
        Some(ends) => ends,
        None => finder_through(pixels, row_of(pixels, y), x, 2 * width)?,
    };
    let (width, height) = (right - left, bottom - top);
    if width > 2 * height || height > 2 * width {
        return None;
    }
    Some(Finder {
        x: left + right,
        y: top + bottom,
        width,
        height,
    })
}

// Returns a finder pattern at any angle, if both diagonals have its runs, too. Its centre is the
// middle of the dark pixels near it: the square in the light ring, which has three modules a side.
fn centred(pixels: &Pixels, finder: Finder) -> Option<Finder> {
    let diagonals = diagonal_of(pixels, finder, false)? + diagonal_of(pixels, finder, true)?;
    let short = (finder.width + finder.height).min(7 * diagonals / 5) / 2;
    let (x, y) = middle_of(pixels, finder.x, finder.y, short)?;
    let (x, y) = middle_of(pixels, x, y, short)?;
    Some(Finder {
        x,
        y,
        width: finder.width,
        height: finder.height,
    })
}

// Returns how many pixels of a diagonal through its centre a finder pattern takes, if it has its
// runs: of the one down to the right, or down to the left.
fn diagonal_of(pixels: &Pixels, finder: Finder, is_left: bool) -> Option<usize>
    ensures { IfSome result (λ length. length ≤ 65535) }
{
    let ((across, down), reach) = (pixels.sides(), finder.width);
    let (x, y) = (finder.x / 2, finder.y / 2);
    if across <= x || down <= y {
        return None;
    }
    let (before, behind) = if is_left {
        (across - 1 - x, x + 1)
    } else {
        (x, across - x)
    };
    let back = reach.min(before).min(y);
    let line = Lane {
        first: (y - back) * across + if is_left { x + back } else { x - back },
        step: if is_left { across - 1 } else { across + 1 },
        length: back + reach.min(behind).min(down - y),
    };
    let (start, end) = finder_through(pixels, line, back, reach)?;
    Some(end - start)
}

// Returns twice the middle of the dark pixels around a place, which is doubled too: of those in a
// circle of 5/16 of `seven` pixels. Seven modules take between `seven` and eleven twelfths of it,
// so the circle has the dark square in a finder pattern, and ends in the light ring.
fn middle_of(pixels: &Pixels, x: usize, y: usize, seven: usize) -> Option<(usize, usize)>
    requires { (x ≤ 131070) × (y ≤ 131070) × (seven ≤ 65535) }
    ensures { IfSome result (λ middle. (middle.0 ≤ 131070) × (middle.1 ≤ 131070)) }
{
    let near = 5 * seven / 16 + 1;
    let side = 2 * near + 1;
    let (mut count, mut across, mut down) = (0, 0, 0);
    for i in 0..side * side {
        let (column, row) = (x / 2 + i % side, y / 2 + i / side);
        if near <= column && near <= row {
            let (column, row) = (column - near, row - near);
            if is_dark_near(pixels, column, row, (x, y), seven) {
                count += 1;
                across += 2 * column + 1;
                down += 2 * row + 1;
            }
        }
    }
    if count == 0 {
        return None;
    }
    Some((
        ((across + count / 2) / count).min(2 * GREATEST_SIDE),
        ((down + count / 2) / count).min(2 * GREATEST_SIDE),
    ))
}

// Returns the square of a distance, by what it is across and down.
pub(crate) fn square_of_far(across: usize, down: usize) -> usize
    requires { (across < 2 ^ 18) × (down < 2 ^ 18) }
    ensures { result < 2 ^ 37 }
{
    across * across + down * down
}

// Whether a pixel is dark and in a circle around a place, which is doubled.
fn is_dark_near(
    pixels: &Pixels,
    column: usize,
    row: usize,
    place: (usize, usize),
    seven: usize,
) -> bool
    requires pixel { (column ≤ 131070) × (row ≤ 131070) }
    requires place { (place.0 ≤ 131070) × (place.1 ≤ 131070) × (seven ≤ 65535) }
{
    let across = place.0.abs_diff(2 * column + 1);
    let down = place.1.abs_diff(2 * row + 1);
    let most = 5 * seven / 8;
    square_of_far(across, down) <= most * most
        && column < pixels.sides().0
        && mark_at(pixels, column, row)
}

// Counts the wrong modules of a finder pattern. In the data of a large symbol, many places have its
// runs through their middle, but hardly any has its modules.
fn wrong_modules(pixels: &Pixels, finder: Finder) -> usize
    ensures { result ≤ 49 }
{
    let mut wrong = 0;
    for i in 0..49 {
        let (column, row) = (i % 7, i / 7);
        let x = centre_of(finder.x, finder.width, column);
        let y = centre_of(finder.y, finder.height, row);
        wrong += usize::from(is_dark(pixels, row_of(pixels, y), x) != finder_dark(column, row));
    }
    wrong
}

// Returns the pixel in the middle of one of seven modules; `centre` is twice their centre, `seven`
// their pixels.
pub(crate) fn centre_of(centre: usize, seven: usize, number: usize) -> usize
    requires { (centre ≤ 131070) × (seven ≤ 65535) × (number ≤ 6) }
    ensures { result ≤ 65535 }
{
    ((7 * centre + 2 * number * seven).saturating_sub(6 * seven) / 14).min(GREATEST_SIDE)
}

// Returns the start and end of the finder pattern whose middle contains `place`. Looks at no more
// than `reach` pixels before and after it, so that time is linear.
fn finder_through(pixels: &Pixels, line: Lane, place: usize, reach: usize) -> Option<(usize, usize)>
    requires inside { (place ≤ line.length) × (line.first < 2 ^ 32) }
    requires reach { reach ≤ 131070 }
    ensures { IfSome result (λ ends. (ends.0 ≤ ends.1) × (ends.1 ≤ line.length)) }
{
    let from = place - reach.min(place);
    let length = (place + reach).min(line.length) - from;
    let near = Lane {
        first: line.first + from * line.step,
        step: line.step,
        length,
    };
    let middle = run_end(pixels, near, place - from, true);
    let ring = run_end(pixels, near, middle, false);
    let end = run_end(pixels, near, ring, true);
    let start = finder_before(pixels, near, end)?;
    Some((from + start, from + end))
}

// Returns the start of the finder pattern that ends before `end`, if one does.
fn finder_before(pixels: &Pixels, line: Lane, end: usize) -> Option<usize>
    requires { end ≤ line.length }
    ensures { IfSome result (λ start. start ≤ end) }
{
    let last = run_start(pixels, line, end, true);
    let ring = run_start(pixels, line, last, false);
    let middle = run_start(pixels, line, ring, true);
    let hole = run_start(pixels, line, middle, false);
    let start = run_start(pixels, line, hole, true);
    let total = end - start;
    let is_finder = is_near(end - last, 1, total)
        && is_near(last - ring, 1, total)
        && is_middle(ring - middle, total)
        && is_near(middle - hole, 1, total)
        && is_near(hole - start, 1, total);
    is_finder.then_some(start)
}

// Whether a run is `sevenths` sevenths of `total`, with an error of less than half of that plus
// half a pixel.
pub(crate) fn is_near(run: usize, sevenths: usize, total: usize) -> bool
    requires { (run ≤ 65535) × (total ≤ 65535) × (sevenths ≤ 3) }
{
    2 * (7 * run).abs_diff(sevenths * total) < sevenths * total + 7
}

// Whether a run is three sevenths of `total`, with an error of less than half of that. So runs of
// equal lengths, as on a chess board, are no finder pattern.
fn is_middle(run: usize, total: usize) -> bool
    requires { (run ≤ 65535) × (total ≤ 65535) }
{
    2 * (7 * run).abs_diff(3 * total) < 3 * total
}

// Returns the end of the run of dark (or light) pixels that begins at `start`.
pub(crate) fn run_end(pixels: &Pixels, line: Lane, start: usize, dark: bool) -> usize
    ensures { result ≤ line.length }
{
    for place in start..line.length {
        if is_dark(pixels, line, place) != dark {
            return place;
        }
    }
    line.length
}

// Returns the start of the run of dark (or light) pixels that ends before `end`.
pub(crate) fn run_start(pixels: &Pixels, line: Lane, end: usize, dark: bool) -> usize
    requires { end ≤ line.length }
    ensures { result ≤ end }
{
    for back in 0..end {
        if is_dark(pixels, line, end - back - 1) != dark {
            return end - back;
        }
    }
    0
}

// Whether the pixel at a place of a line is dark; there is none outside.
fn is_dark(pixels: &Pixels, line: Lane, place: usize) -> bool {
    place < line.length
        && matches!(
            pixels.marks().get(line.first + place * line.step),
            Some(true)
        )
}
