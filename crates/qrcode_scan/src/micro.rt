//! Finds Micro symbols by the single finder pattern in a corner and the timing patterns next to it.

ghost use Rattle.std.specs.Prelude.{◌≡◌, ◌*◌, ◌+◌, ◌≤◌, IfSome};

use crate::finders::{Finder, Lane, centre_of, column_of, is_near, row_of, run_end, run_start};
use crate::grids::{Grid, push_grid};
use crate::pixels::Pixels;
use std::alloc::AllocError;

// The modules along one side: where they start in pixels, how many pixels they take, and how many
// there are.
#[derive(Clone, Copy)]
struct ModuleSpan {
    start: usize,
    extent: usize,
    count: usize,
    ghost fits: { (start ≤ 131070) × (extent ≤ 131070) × (count ≤ 17) },
}

/// Appends the grids of Micro symbols that have this finder pattern in one of their corners.
pub(crate) fn push_micro(
    grids: &mut Vec<Grid>,
    pixels: &Pixels,
    finder: Finder,
) -> Result<(), AllocError> {
    for corner in 0..4 {
        let grid = micro_grid(pixels, finder, corner % 2 == 1, 2 <= corner);
        push_grid(grids, grid)?;
    }
    Ok(())
}

// Returns the grid of a Micro symbol that has this finder pattern in its left or right, upper or
// lower corner.
fn micro_grid(pixels: &Pixels, finder: Finder, is_right: bool, is_lower: bool) -> Option<Grid> {
    let (last, lowest) = (6 * usize::from(is_right), 6 * usize::from(is_lower));
    let row = row_of(pixels, centre_of(finder.y, finder.height, lowest));
    let column = column_of(pixels, centre_of(finder.x, finder.width, last));
    let across = span_of(pixels, row, finder.x, finder.width, is_right);
    let down = span_of(pixels, column, finder.y, finder.height, is_lower);
    if across.count != down.count || across.count < 11 {
        return None;
    }
    let count = across.count;
    Some(Grid {
        count,
        left: 2 * count * across.start + across.extent,
        top: 2 * count * down.start + down.extent,
        across: 2 * across.extent,
        down: 2 * down.extent,
        lean: 0,
        fall: 0,
        parts: 2 * count,
    })
}

// Measures the modules along an outer line of a finder pattern: its seven, and the timing pattern
// before or after them. `centre` is twice its centre, `seven` its pixels.
fn span_of(pixels: &Pixels, line: Lane, centre: usize, seven: usize, is_before: bool) -> ModuleSpan
    requires { (centre ≤ 131070) × (seven ≤ 65535) × (line.length ≤ 65535) }
{
    let near = if is_before {
        (centre + seven) / 2
    } else {
        centre.saturating_sub(seven) / 2
    };
    let place = (centre / 2).min(line.length);
    let (far, count) = timing_end(pixels, line, place, seven, is_before);
    ModuleSpan {
        start: near.min(far),
        extent: near.abs_diff(far),
        count,
    }
}

// Follows the timing pattern from the dark pixels at `place`, forwards or backwards; returns where
// it ends, and the number of its modules and the seven of the finder pattern.
fn timing_end(
    pixels: &Pixels,
    line: Lane,
    place: usize,
    seven: usize,
    is_before: bool,
) -> (usize, usize)
    requires { (place ≤ line.length) × (seven ≤ 65535) × (line.length ≤ 65535) }
    ensures { (result.0 ≤ 65535) × (result.1 ≤ 17) }
{
    let mut far = edge_of(pixels, line, place, true, is_before);
    for i in 0..5 {
        let hole = edge_of(pixels, line, far, false, is_before);
        let end = edge_of(pixels, line, hole, true, is_before);
        if !is_near(hole.abs_diff(far), 1, seven) || !is_near(end.abs_diff(hole), 1, seven) {
            return (far, 7 + 2 * i);
        }
        far = end;
    }
    (far, 17)
}

// Returns the end, or going backwards the start, of the run of dark (or light) pixels at `place`.
fn edge_of(pixels: &Pixels, line: Lane, place: usize, dark: bool, is_before: bool) -> usize
    requires { place ≤ line.length }
    ensures { result ≤ line.length }
{
    if is_before {
        run_start(pixels, line, place, dark)
    } else {
        run_end(pixels, line, place, dark)
    }
}
