//! The functional patterns, looked up module by module.

ghost use Rattle.std.specs.Prelude.{◌≡◌, ◌+◌, ◌*◌, ◌<◌, ◌≤◌, IfSome, IsTrue, None, true, false};
ghost use Rattle.std.specs.List.{list_any};
ghost use Rattle.qrcode_types.specs.Versions.{is_valid, is_micro, side};
ghost use Rattle.qrcode_layout.specs.Figures.{has, alignment_row, alignments};
ghost use Rattle.qrcode_layout.specs.Patterns.{dark_module, pattern, format_index, is_functional_place, decided_bit};

use crate::centres::centres;
use crate::figures::{
    Figure, alignment, is_corner_centre, micro_figures, normal_figures, word_figures,
};
use qrcode_types::types::{Color, Version};

/// Returns the colour of the dark module of Normal versions if it is at column `x` and row `y`.
/// `width` is the side of the version, which must exist.
#[tactic(auto, unfolding(crate::specs::Patterns::dark_module))]
pub fn dark_module(version: Version, width: usize, x: usize, y: usize) -> Option<Color>
    requires valid { IsTrue (is_valid version) }
    requires width { width ≡ side version }
    ensures { result ≡ dark_module version x y }
{
    match version {
        Version::Normal(_) if x == 8 && y == width - 8 => Some(Color::Dark),
        _ => None,
    }
}

// Returns which bit of Normal's format word is at this place, if any; bit 0 is the highest.
#[tactic(auto, using(crate::proofs::FormatPlaces::normal_index))]
fn normal_format_index(version: Version, width: usize, x: usize, y: usize) -> Option<usize>
    requires normal { is_micro version ≡ false }
    requires valid { IsTrue (is_valid version) }
    requires width { width ≡ side version }
    requires fits { x < 1000 }
    ensures value { result ≡ format_index version x y }
    ensures at_most { IfSome result (λ i. i < 15) }
{
    if y == 8 {
        match x {
            0..=5 => Some(x),
            7 | 8 => Some(x - 1),
            _ if width - 8 <= x && x < width => Some(x + 15 - width),
            _ => None,
        }
    } else if x == 8 {
        match y {
            0..=5 => Some(14 - y),
            7 => Some(8),
            _ if width - 7 <= y && y < width => Some(width - 1 - y),
            _ => None,
        }
    } else {
        None
    }
}

// Returns which bit of Micro's format word is at this place, if any; bit 0 is the highest.
#[tactic(auto, using(crate::proofs::FormatPlaces::micro_index))]
fn micro_format_index(version: Version, x: usize, y: usize) -> Option<usize>
    requires { is_micro version ≡ true }
    ensures value { result ≡ format_index version x y }
    ensures at_most { IfSome result (λ i. i < 15) }
{
    if y == 8 {
        if 1 <= x && x <= 8 { Some(x - 1) } else { None }
    } else if x == 8 {
        if 1 <= y && y <= 7 { Some(15 - y) } else { None }
    } else {
        None
    }
}

/// Returns which bit of the format word is at this place, if any; bit 0 is the highest. `width` is
/// the side of the version, which must exist.
pub fn format_index(version: Version, width: usize, x: usize, y: usize) -> Option<usize>
    requires valid { IsTrue (is_valid version) }
    requires width { width ≡ side version }
    requires fits { x < 1000 }
    ensures value { result ≡ format_index version x y }
    ensures at_most { IfSome result (λ i. i < 15) }
    ensures apart { IfSome result (λ _. pattern version x y ≡ None) }
{
    match version {
        Version::Normal(_) => normal_format_index(version, width, x, y),
        Version::Micro(_) => micro_format_index(version, x, y),
    }
}

/// Returns the bit at this place if it belongs to the format word or is the dark module; no mask
/// changes these. `width` is the side of the version, which must exist.
#[tactic(auto, unfolding(crate::specs::Patterns::decided_bit))]
pub fn decided_bit(version: Version, width: usize, word: u16, x: usize, y: usize) -> Option<bool>
    requires valid { IsTrue (is_valid version) }
    requires width { width ≡ side version }
    requires fits { x < 1000 }
    ensures { result ≡ decided_bit version word x y }
{
    if let Some(i) = format_index(version, width, x, y) {
        return Some((word >> (14 - i)) % 2 == 1);
    }
    dark_module(version, width, x, y).map(|color| color == Color::Dark)
}

// Returns whether one of the figures covers this place.
fn has_any(figures: &[Figure], x: usize, y: usize) -> bool
    ensures { result ≡ list_any (λ f. has f x y) figures.now }
{
    figures.iter().any(|figure| figure.has(x, y))
}

// Returns whether an alignment pattern centred in row `b` covers this place.
fn is_in_alignment_row(version: Version, width: usize, b: usize, x: usize, y: usize) -> bool
    requires valid { IsTrue (is_valid version) }
    requires width { width ≡ side version }
    ensures { result ≡ list_any (λ f. has f x y) (alignment_row version b) }
{
    for a in centres(version) {
        let a = *a as usize;
        if !is_corner_centre(width, a, b) && alignment(a, b).has(x, y) {
            return true;
        }
    }
    false
}

// Returns whether an alignment pattern covers this place.
fn is_in_alignment(version: Version, width: usize, x: usize, y: usize) -> bool
    requires valid { IsTrue (is_valid version) }
    requires width { width ≡ side version }
    ensures { result ≡ list_any (λ f. has f x y) (alignments version) }
{
    for b in centres(version) {
        if is_in_alignment_row(version, width, *b as usize, x, y) {
            return true;
        }
    }
    false
}

/// Returns whether a pattern or the format word covers this place. `width` is the side of the
/// version, which must exist.
#[tactic(auto, using(crate::proofs::FigurePlaces::micro_functional, crate::proofs::FigurePlaces::normal_functional))]
pub fn is_functional_place(version: Version, width: usize, x: usize, y: usize) -> bool
    requires valid { IsTrue (is_valid version) }
    requires width { width ≡ side version }
    ensures { result ≡ is_functional_place version x y }
{
    if version.is_micro() {
        return has_any(&micro_figures(width), x, y);
    }
    if has_any(&normal_figures(width), x, y) {
        return true;
    }
    if width >= 45 && has_any(&word_figures(width), x, y) {
        return true;
    }
    is_in_alignment(version, width, x, y)
}
