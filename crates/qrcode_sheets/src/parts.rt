//! The part of a symbol that a module belongs to.

ghost use Rattle.std.specs.Prelude.{◌≡◌, ◌↔◌, ◌<◌, ◌≤◌, false, fold, IsTrue};
ghost use Rattle.qrcode_types.specs.Versions.{is_micro, is_valid, side};
ghost use Rattle.qrcode_layout.specs.Figures.{alignment_row, alignments, figures, version_figures};
ghost use Rattle.qrcode_layout.specs.Patterns.{is_functional_place};
ghost use Rattle.qrcode_sheets.specs.Parts.{figure_part, part_of, part_over};
ghost use Rattle.qrcode_sheets.specs.declared.parts.CodePart.TheVariants.{Data as FreePlace};

use qrcode_layout::centres::centres;
use qrcode_layout::figures::{
    Coloring, Figure, alignment, is_corner_centre, micro_figures, normal_figures, word_figures,
};
use qrcode_layout::patterns::format_index;
use qrcode_types::types::Version;
use qrcode_types::versions::side;

/// A part of a symbol.
#[derive(Clone, Copy, PartialEq, Eq)]
pub enum CodePart {
    /// Finder patterns, and their separators.
    Finder,
    /// Alignment patterns, also where they cross a timing pattern.
    Alignment,
    /// Timing patterns.
    Timing,
    /// Format information, and the dark module next to it.
    FormatWord,
    /// Version information.
    VersionWord,
    /// Everything else: data, error correction and remainder bits.
    Data,
}

/// Returns the part that the module in column `x` and row `y` belongs to.
pub fn part_of(version: Version, x: usize, y: usize) -> CodePart
    requires valid { IsTrue (is_valid version) }
    requires inside { x < side version }
    ensures value { result ≡ part_of version x y }
    ensures free { (result ≡ FreePlace) ↔ (is_functional_place version x y ≡ false) }
{
    let width = side(version);
    if format_index(version, width, x, y).is_some() {
        return CodePart::FormatWord;
    }
    let part = CodePart::Data;
    if version.is_micro() {
        return drawn_over(&micro_figures(width)[2..], x, y, part);
    }
    let part = drawn_over(&normal_figures(width)[6..], x, y, part);
    let part = words_over(width, x, y, part);
    alignments_over(version, x, y, part)
}

// The part of a place once `figure` is drawn over `below`.
fn part_over(figure: &Figure, x: usize, y: usize, below: CodePart) -> CodePart
    ensures { result ≡ part_over x y below figure.now }
{
    if figure.has(x, y) {
        figure_part(figure)
    } else {
        below
    }
}

// The part that a figure belongs to.
fn figure_part(figure: &Figure) -> CodePart
    ensures { result ≡ figure_part figure.now }
{
    match figure.coloring {
        Coloring::Squares if figure.across == 7 => CodePart::Finder,
        Coloring::Squares => CodePart::Alignment,
        Coloring::Turns => CodePart::Timing,
        Coloring::Light => CodePart::Finder,
        Coloring::Dark => CodePart::FormatWord,
        Coloring::WordAcross | Coloring::WordDown => CodePart::VersionWord,
    }
}

// The part of a place once all these figures are drawn over `below`, in order.
#[tactic(auto, using(std::proofs::lemmas::List::Sums::fold_more))]
fn drawn_over(figures: &[Figure], x: usize, y: usize, below: CodePart) -> CodePart
    ensures { result ≡ fold (part_over x y) below figures.now }
{
    let mut part = below;
    for figure in figures {
        part = part_over(figure, x, y, part);
    }
    part
}

// Draws the copies of the version information over `below`; `width` is the side of a Normal symbol.
fn words_over(width: usize, x: usize, y: usize, below: CodePart) -> CodePart
    requires { 21 ≤ width }
    ensures { result ≡ fold (part_over x y) below (version_figures width) }
{
    if width >= 45 {
        drawn_over(&word_figures(width), x, y, below)
    } else {
        below
    }
}

// Draws the alignment patterns whose centres are in row `b` over `below`.
fn alignment_row_over(version: Version, b: usize, x: usize, y: usize, below: CodePart) -> CodePart
    requires { IsTrue (is_valid version) }
    ensures { result ≡ fold (part_over x y) below (alignment_row version b) }
{
    let width = side(version);
    let mut part = below;
    for a in centres(version) {
        let a = *a as usize;
        if !is_corner_centre(width, a, b) {
            part = part_over(&alignment(a, b), x, y, part);
        }
    }
    part
}

// Draws the alignment patterns over `below`.
fn alignments_over(version: Version, x: usize, y: usize, below: CodePart) -> CodePart
    requires { IsTrue (is_valid version) }
    ensures { result ≡ fold (part_over x y) below (alignments version) }
{
    let mut part = below;
    for b in centres(version) {
        part = alignment_row_over(version, *b as usize, x, y, part);
    }
    part
}
