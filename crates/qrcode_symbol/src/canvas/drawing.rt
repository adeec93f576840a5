//! Draws the functional patterns, figure by figure.

ghost use Rattle.std.specs.Prelude.{◌≡◌, ◌+◌, ◌*◌, ◌<◌, fold, length, IsTrue, true, false};
ghost use Rattle.std.specs.List.{list_all};
ghost use Rattle.qrcode_types.specs.Versions.{is_valid, is_micro, side};
ghost use Rattle.qrcode_layout.specs.Figures.{alignment_row, alignments, fits, is_centre_inside, version_figures};
ghost use Rattle.qrcode_symbol.specs.Canvas.{with_patterns};
ghost use Rattle.qrcode_symbol.specs.Patterned.{IsPartDrawn, with_figure};

use super::Module;
use qrcode_layout::centres::centres;
use qrcode_layout::figures::{
    Figure, alignment, is_corner_centre, micro_figures, normal_figures, word_figures,
};
use qrcode_types::types::Version;
use qrcode_types::versions::side;

// Draws one row of a figure.
#[inline(always)]
#[tactic(auto, using(qrcode_layout::proofs::FigurePlaces::fits_across, qrcode_layout::proofs::FigurePlaces::fits_down))]
fn draw_row(version: Version, figure: &Figure, row: usize, modules: &mut [Module])
    requires valid { IsTrue (is_valid version) }
    requires fits { IsTrue (fits version figure.now) }
    requires row { row < figure.now.down }
    requires square { length modules.old ≡ side version * side version }
    ensures { IsPartDrawn version figure.now row (row + 1) figure.now.across
        modules.old modules.new }
{
    let width = side(version);
    let y = figure.top + row;
    for column in 0..figure.across {
        let x = figure.left + column;
        modules[y * width + x] = Module::Masked(figure.color(version, column, row));
    }
}

fn draw_figure(version: Version, figure: &Figure, modules: &mut [Module])
    requires valid { IsTrue (is_valid version) }
    requires fits { IsTrue (fits version figure.now) }
    requires square { length modules.old ≡ side version * side version }
    ensures { modules.new
        ≡ with_figure version modules.old figure.now }
{
    for row in 0..figure.down {
        draw_row(version, figure, row, modules);
    }
}

// Draws figures, each over those before it.
#[tactic(auto, using(std::proofs::lemmas::List::Sums::fold_more))]
fn draw_figures(version: Version, figures: &[Figure], modules: &mut [Module])
    requires valid { IsTrue (is_valid version) }
    requires fits { IsTrue (list_all (fits version) figures.now) }
    requires square { length modules.old ≡ side version * side version }
    ensures { modules.new
        ≡ fold (with_figure version) modules.old figures.now }
{
    for figure in figures {
        draw_figure(version, figure, modules);
    }
}

// Draws the alignment patterns centred in row `b`.
fn draw_alignment_row(version: Version, b: usize, modules: &mut [Module])
    requires valid { IsTrue (is_valid version) }
    requires inside { IsTrue (is_centre_inside (side version) b) }
    requires square { length modules.old ≡ side version * side version }
    ensures { modules.new
        ≡ fold (with_figure version) modules.old (alignment_row version b) }
{
    let width = side(version);
    for a in centres(version) {
        let a = *a as usize;
        if !is_corner_centre(width, a, b) {
            draw_figure(version, &alignment(a, b), modules);
        }
    }
}

fn draw_alignments(version: Version, modules: &mut [Module])
    requires valid { IsTrue (is_valid version) }
    requires square { length modules.old ≡ side version * side version }
    ensures { modules.new
        ≡ fold (with_figure version) modules.old (alignments version) }
{
    for b in centres(version) {
        draw_alignment_row(version, *b as usize, modules);
    }
}

// Draws the copies of the version word, which Normal 7 and larger versions have.
#[tactic(auto, using(qrcode_layout::proofs::Agreements::words_fit))]
fn draw_version_words(version: Version, width: usize, modules: &mut [Module])
    requires valid { IsTrue (is_valid version) }
    requires normal { is_micro version ≡ false }
    requires width { width ≡ side version }
    requires square { length modules.old ≡ side version * side version }
    ensures { modules.new
        ≡ fold (with_figure version) modules.old (version_figures width) }
{
    if width >= 45 {
        draw_figures(version, &word_figures(width), modules);
    }
}

/// Draws the functional patterns over what is there, and makes the places of the format word light.
#[tactic(auto, using(qrcode_layout::proofs::Agreements::micro_fit, qrcode_layout::proofs::Agreements::normal_fit))]
pub(super) fn draw_patterns(version: Version, modules: &mut [Module])
    requires valid { IsTrue (is_valid version) }
    requires square { length modules.old ≡ side version * side version }
    ensures { modules.new ≡ with_patterns version modules.old }
{
    let width = side(version);
    if version.is_micro() {
        draw_figures(version, &micro_figures(width), modules);
        return;
    }
    draw_figures(version, &normal_figures(width), modules);
    draw_version_words(version, width, modules);
    draw_alignments(version, modules);
}
