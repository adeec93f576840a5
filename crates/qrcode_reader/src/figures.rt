//! Counts wrong modules of the functional patterns; tells whether a square has finder patterns. A
//! figure is a rectangle of modules: a pattern or a part of one.

ghost use Rattle.std.specs.Prelude.{◌≡◌, ◌*◌, ◌<◌, ◌≤◌, length, IsTrue};
ghost use Rattle.std.specs.List.{list_all};
ghost use Rattle.qrcode_types.specs.Versions.{is_valid, side};
ghost use Rattle.qrcode_layout.specs.Figures.{fits};
ghost use Rattle.qrcode_reader.specs.Figures.{wrong_at, wrong_in_row, wrong_in, wrong_of, finder_figures, timing_figures, dark_figures, has_finders};

use qrcode_layout::figures::{Figure, micro_figures, normal_figures};
use qrcode_types::types::{Color, Version};
use qrcode_types::versions::side;

// Returns 1 if the module of the figure in this row and column has the wrong colour, else 0.
fn wrong_at(
    version: Version,
    modules: &[Color],
    figure: &Figure,
    row: usize,
    column: usize,
) -> usize
    requires valid { IsTrue (is_valid version) }
    requires fits { IsTrue (fits version figure.now) }
    requires square { length modules.now ≡ side version * side version }
    requires row { row < figure.now.down }
    requires column { column < figure.now.across }
    ensures value { result ≡ wrong_at version modules.now figure.now row column }
    ensures at_most { result ≤ 1 }
{
    let (x, y) = (figure.left + column, figure.top + row);
    let color = figure.color(version, column, row);
    usize::from(modules[y * side(version) + x] != color)
}

// Counts the wrong modules in a row of a figure.
#[tactic(auto, using(qrcode_penalty::proofs::Sums::sum_step), unfolding(qrcode_penalty::specs::Penalty::sum_below))]
fn wrong_in_row(version: Version, modules: &[Color], figure: &Figure, row: usize) -> usize
    requires valid { IsTrue (is_valid version) }
    requires fits { IsTrue (fits version figure.now) }
    requires square { length modules.now ≡ side version * side version }
    requires row { row < figure.now.down }
    ensures value { result ≡ wrong_in_row version modules.now figure.now row }
    ensures at_most { result ≤ 177 }
{
    let mut count = 0;
    for column in 0..figure.across {
        count += wrong_at(version, modules, figure, row, column);
    }
    count
}

/// Counts the wrong modules of a figure.
#[tactic(auto, using(qrcode_penalty::proofs::Sums::sum_step), unfolding(qrcode_penalty::specs::Penalty::sum_below))]
pub fn wrong_in(version: Version, modules: &[Color], figure: &Figure) -> usize
    requires valid { IsTrue (is_valid version) }
    requires fits { IsTrue (fits version figure.now) }
    requires square { length modules.now ≡ side version * side version }
    ensures value { result ≡ wrong_in version modules.now figure.now }
    ensures at_most { result ≤ 31329 }
{
    let mut count = 0;
    for row in 0..figure.down {
        count += wrong_in_row(version, modules, figure, row);
    }
    count
}

/// Counts the wrong modules of all `figures`.
pub fn wrong_of(version: Version, modules: &[Color], figures: &[Figure]) -> usize
    requires valid { IsTrue (is_valid version) }
    requires fits { IsTrue (list_all (fits version) figures.now) }
    requires square { length modules.now ≡ side version * side version }
    requires few { length figures.now ≤ 100 }
    ensures value { result ≡ wrong_of version modules.now figures.now }
    ensures at_most { result ≤ 3132900 }
{
    let mut count = 0;
    for figure in figures {
        count += wrong_in(version, modules, figure);
    }
    count
}

/// Counts the wrong modules of the finder patterns with their separators, of the timing patterns,
/// and of the module that is always dark (Micro has none).
pub fn wrong_figures(version: Version, modules: &[Color]) -> (usize, usize, usize)
    requires valid { IsTrue (is_valid version) }
    requires square { length modules.now ≡ side version * side version }
    ensures finder { result.0 ≡ wrong_of version modules.now (finder_figures version) }
    ensures timing { result.1 ≡ wrong_of version modules.now (timing_figures version) }
    ensures dark { result.2 ≡ wrong_of version modules.now (dark_figures version) }
    ensures at_most { result.2 ≤ 3132900 }
{
    if version.is_micro() {
        let figures = micro_figures(side(version));
        return (
            wrong_of(version, modules, &figures[2..5]),
            wrong_of(version, modules, &figures[5..]),
            0,
        );
    }
    let figures = normal_figures(side(version));
    (
        wrong_of(version, modules, &figures[6..15]),
        wrong_of(version, modules, &figures[15..17]),
        wrong_of(version, modules, &figures[17..]),
    )
}

// The most wrong modules in finder patterns, with separators, that count as in place: a quarter of
// one pattern. Where there is none, about half of its 64 modules are wrong.
const MOST_WRONG: usize = 16;

/// Returns whether the finder patterns are in place: at most 16 modules of them and their
/// separators are wrong.
pub(crate) fn has_finders(version: Version, modules: &[Color]) -> bool
    requires valid { IsTrue (is_valid version) }
    requires square { length modules.now ≡ side version * side version }
    ensures { result ≡ has_finders version modules.now }
{
    let (finder, _, _) = wrong_figures(version, modules);
    finder <= MOST_WRONG
}
