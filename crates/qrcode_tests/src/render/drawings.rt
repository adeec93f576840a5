//! Squares of modules, written as text.

use qrcode_types::types::{Color, QrResult};
use std::alloc::Global;

/// The modules along a side, and the modules as text: `#` for dark, `.` for light.
#[derive(Clone, Copy)]
pub struct Drawing(pub usize, pub &'static str);

/// An empty square.
pub const NONE: Drawing = Drawing(0, "");

/// One dark module.
pub const DARK: Drawing = Drawing(1, "#");

/// Two modules along a side; the first and the last are dark.
pub const DIAGONAL: Drawing = Drawing(2, "#.\n.#");

/// The symbol of `01234567` in Normal 1 at M that the standard (ISO/IEC 18004) prints.
pub const NORMAL_1: Drawing = Drawing(21, DIGITS_NORMAL);

/// That in Micro 2 at L.
pub const MICRO_2: Drawing = Drawing(13, DIGITS_MICRO);

/// Returns the modules of a drawing.
pub fn modules(alloc: Global, letters: &str) -> QrResult<Vec<Color>> {
    let mut modules = Vec::new(alloc);
    for letter in letters.bytes() {
        match letter {
            b'#' => modules.push(Color::Dark)?,
            b'.' => modules.push(Color::Light)?,
            _ => {}
        }
    }
    Ok(modules)
}

/// Normal 1 at M, under mask 2.
pub const DIGITS_NORMAL: &str = "\
#######..#.##.#######
#.....#..####.#.....#
#.###.#.#.....#.###.#
#.###.#.##....#.###.#
#.###.#.#.###.#.###.#
#.....#.#...#.#.....#
#######.#.#.#.#######
........#..##........
#.#####..#..#.#####..
...#.#.##.#.#..#.##..
..#...##.#.#.#..#####
....#....#.....####..
...######..#.#..#....
........#.#####..##..
#######..##.#.##.....
#.....#.#.#####...#.#
#.###.#.#...#..#.##..
#.###.#.##..#..#.....
#.###.#.#.##.#..#.#..
#.....#........##.##.
#######.####.#..#.#..";

// Micro 2 at L, under mask 1 of Micro.
const DIGITS_MICRO: &str = "\
#######.#.#.#
#.....#.###.#
#.###.#..##.#
#.###.#..####
#.###.#.###..
#.....#.#...#
#######..####
.........##..
##.#....#...#
.##.#.#.#.#.#
###..#######.
...#.#....##.
###.#..##.###";
