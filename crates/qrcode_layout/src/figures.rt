//! The functional patterns as figures: rectangles of modules, each with a rule for its colours.

ghost use Rattle.std.specs.Prelude.{◌≡◌, ◌+◌, ◌≤◌, ◌<◌, ◌++◌, IsTrue};
ghost use Rattle.std.specs.List.{list_any};
ghost use Rattle.qrcode_types.specs.Bits.{has_bit};
ghost use Rattle.qrcode_types.specs.Colors.{color_of};
ghost use Rattle.qrcode_types.specs.Versions.{is_valid, side};
ghost use Rattle.qrcode_layout.specs.Words.{version_word};
ghost use Rattle.qrcode_layout.specs.Figures.{has, is_dark_in, is_dark_by_rule, number, bar, square, normal_figures, normal_format_figures, micro_figures, micro_format_figures, word_figures, alignment, is_corner_centre, fits};

use crate::words::version_word;
use qrcode_types::types::{Color, Version};

/// How the modules of a figure are coloured.
#[derive(Copy, Clone)]
pub enum Coloring {
    /// A dark frame, inside it a light frame, and a dark centre.
    Squares,
    /// Dark and light alternating.
    Turns,
    /// All light.
    Light,
    /// All dark.
    Dark,
    /// The version word, three bits in each row.
    WordAcross,
    /// The version word, three bits in each column.
    WordDown,
}

/// A rectangle of functional modules: its first column and row, and its width and height in
/// modules.
#[derive(Copy, Clone)]
pub struct Figure {
    pub left: usize,
    pub top: usize,
    pub across: usize,
    pub down: usize,
    pub coloring: Coloring,
}

impl Figure {
    /// Returns whether the figure contains the module in column `x` and row `y`.
    pub fn has(&self, x: usize, y: usize) -> bool
        ensures { result ≡ has self.now x y }
    {
        self.left <= x && x - self.left < self.across && self.top <= y && y - self.top < self.down
    }

    /// Returns the colour of the module `x` columns and `y` rows from the figure's top left corner,
    /// in a symbol of `version`.
    #[inline(always)]
    pub fn color(&self, version: Version, x: usize, y: usize) -> Color
        requires fits { IsTrue (fits version self.now) }
        requires column { x < self.now.across }
        requires row { y < self.now.down }
        requires valid { IsTrue (is_valid version) }
        ensures { result ≡ color_of (is_dark_by_rule (number version) self.now x y) }
    {
        color_of(match self.coloring {
            Coloring::Squares => {
                let to_right = self.across - 1 - x;
                let to_bottom = self.down - 1 - y;
                x.min(to_right).min(y.min(to_bottom)) != 1
            }
            Coloring::Turns => (x + y) % 2 == 0,
            Coloring::Light => false,
            Coloring::Dark => true,
            Coloring::WordAcross => has_word_bit(version, 3 * y + x),
            Coloring::WordDown => has_word_bit(version, 3 * x + y),
        })
    }
}

/// Returns `Dark` for `true`, and `Light` for `false`.
pub fn color_of(dark: bool) -> Color
    ensures { result ≡ color_of dark }
{
    if dark { Color::Dark } else { Color::Light }
}

// Returns whether this bit of the version word is 1.
fn has_word_bit(version: Version, bit: usize) -> bool
    requires at_least { 7 ≤ number version }
    requires at_most { number version ≤ 40 }
    requires valid { IsTrue (is_valid version) }
    requires bit { bit < 32 }
    ensures { result ≡ has_bit (version_word (number version)) bit }
{
    match version {
        Version::Normal(v) => (version_word(v as usize) >> bit) % 2 == 1,
        Version::Micro(_) => false,
    }
}

// A figure, by its rule and its place.
#[inline(always)]
fn bar(coloring: Coloring, left: usize, top: usize, across: usize, down: usize) -> Figure
    ensures { result ≡ bar coloring left top across down }
{
    Figure {
        left,
        top,
        across,
        down,
        coloring,
    }
}

// Concentric squares, by their place and the modules along a side.
#[inline(always)]
fn square(left: usize, top: usize, side: usize) -> Figure
    ensures { result ≡ square left top side }
{
    bar(Coloring::Squares, left, top, side, side)
}

/// Returns what every Normal symbol has: the places of the format word (all light), three finder
/// patterns with their separators, the timing patterns and the dark module. `width` is the symbol's
/// side.
#[rattlefmt::skip]
pub fn normal_figures(width: usize) -> [Figure; 18]
    requires { 21 ≤ width }
    ensures { result ≡ normal_format_figures width ++ normal_figures width }
{
    use Coloring::{Dark, Light, Turns};
    [
        bar(Light, 0, 8, 6, 1), bar(Light, 7, 8, 2, 1), bar(Light, 8, 7, 1, 1), bar(Light, 8, 0, 1, 6),
        bar(Light, width - 8, 8, 8, 1), bar(Light, 8, width - 7, 1, 7),
        square(0, 0, 7), bar(Light, 7, 0, 1, 8), bar(Light, 0, 7, 7, 1),
        square(width - 7, 0, 7), bar(Light, width - 8, 0, 1, 8), bar(Light, width - 7, 7, 7, 1),
        square(0, width - 7, 7), bar(Light, 7, width - 8, 1, 8), bar(Light, 0, width - 8, 7, 1),
        bar(Turns, 8, 6, width - 16, 1), bar(Turns, 6, 8, 1, width - 16), bar(Dark, 8, width - 8, 1, 1),
    ]
}

/// Returns the two copies of the version word, which Normal 7 and larger versions have.
pub fn word_figures(width: usize) -> [Figure; 2]
    requires { 11 ≤ width }
    ensures { result ≡ word_figures width }
{
    [
        bar(Coloring::WordAcross, width - 11, 0, 3, 6),
        bar(Coloring::WordDown, 0, width - 11, 6, 3),
    ]
}

/// Returns what every Micro symbol has: the places of the format word (all light), a finder pattern
/// with its separator, and the timing patterns. `width` is the symbol's side.
#[rattlefmt::skip]
pub fn micro_figures(width: usize) -> [Figure; 7]
    requires { 8 ≤ width }
    ensures { result ≡ micro_format_figures ++ micro_figures width }
{
    use Coloring::{Light, Turns};
    [
        bar(Light, 1, 8, 8, 1), bar(Light, 8, 1, 1, 7),
        square(0, 0, 7), bar(Light, 7, 0, 1, 8), bar(Light, 0, 7, 7, 1),
        bar(Turns, 8, 0, width - 8, 1), bar(Turns, 0, 8, 1, width - 8),
    ]
}

/// Returns whether an alignment centre with these coordinates would be in the corner of a finder
/// pattern. `width` is the symbol's side.
pub fn is_corner_centre(width: usize, a: usize, b: usize) -> bool
    requires { 7 ≤ width }
    ensures { result ≡ is_corner_centre width a b }
{
    let last = width - 7;
    (a == 6 && (b == 6 || b == last)) || (a == last && b == 6)
}

/// Returns the alignment pattern centred at column `a` and row `b`.
#[inline(always)]
pub fn alignment(a: usize, b: usize) -> Figure
    ensures { result ≡ alignment a b }
{
    square(a.saturating_sub(2), b.saturating_sub(2), 5)
}
