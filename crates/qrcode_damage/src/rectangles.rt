//! Finds the largest central rectangle that may be covered, and the smallest version for one.

ghost use Rattle.std.specs.Prelude.{◌≡◌, ◌↔◌, ◌*◌, ◌/◌, ◌%◌, ◌<◌, ◌≤◌, ◌^◌, ℕ, false, IsTrue, IfOk, IfSome, IfNone};
ghost use Rattle.std.specs.List.{list_any};
ghost use Rattle.qrcode_types.specs.Versions.{is_valid, has_level, side};
ghost use Rattle.qrcode_layout.specs.Figures.{has};
ghost use Rattle.qrcode_damage.specs.Areas.{covers};
ghost use Rattle.qrcode_damage.specs.Rectangles.{is_firm, is_kept, shows, LeavesPatterns, in_proportion, centred, only, Fits, NoneLarger, IsLargest, FitsPart, NoneSmaller};

use crate::areas::{Area, Rectangle};
use crate::marks::is_functional;
use crate::reserve::reserve_in;
use qrcode_layout::figures::{Figure, micro_figures, normal_figures, word_figures};
use qrcode_types::types::{EcLevel, Version};
use qrcode_types::versions::side;
use std::alloc::{AllocError, Global};

/// Which function patterns a rectangle leaves alone, besides format and version information.
#[derive(Copy, Clone)]
pub enum Kept {
    /// All of them.
    AllPatterns,
    /// All but the alignment patterns.
    ButAlignment,
}

/// What a central rectangle has to satisfy. Its sides are as `across` to `down`, 1 to 1 for a
/// square.
#[derive(Copy, Clone)]
pub struct Wish {
    /// The width in the ratio.
    pub across: u32,
    /// The height in the ratio.
    pub down: u32,
    /// How many wrong codewords outside the rectangle each block must still be able to correct.
    pub reserve: usize,
    /// Which patterns the rectangle leaves alone.
    pub kept: Kept,
}

// Returns whether one of the figures contains column `x` and row `y`.
fn has_any(figures: &[Figure], x: usize, y: usize) -> bool
    ensures { result ≡ list_any (λ f. has f x y) figures.now }
{
    figures.iter().any(|figure| figure.has(x, y))
}

// Returns whether a module belongs to format or version information, or to a function pattern other
// than an alignment pattern.
fn is_firm(version: Version, x: usize, y: usize) -> bool
    requires { IsTrue (is_valid version) }
    ensures { result ≡ is_firm version x y }
{
    let width = side(version);
    match version {
        Version::Normal(_) => {
            has_any(&normal_figures(width), x, y)
                || width >= 45 && has_any(&word_figures(width), x, y)
        }
        Version::Micro(_) => has_any(&micro_figures(width), x, y),
    }
}

// Returns whether a module must not be covered.
fn is_kept(kept: Kept, version: Version, x: usize, y: usize) -> bool
    requires valid { IsTrue (is_valid version) }
    requires column { x < side version }
    requires row { y < side version }
    ensures { result ≡ is_kept kept version x y }
{
    match kept {
        Kept::AllPatterns => is_functional(version, x, y),
        Kept::ButAlignment => is_firm(version, x, y),
    }
}

// Returns whether the area covers a module that it must not.
fn shows(kept: Kept, version: Version, area: &Area<'_>, x: usize, y: usize) -> bool
    requires valid { IsTrue (is_valid version) }
    requires column { x < side version }
    requires row { y < side version }
    ensures { result ≡ shows kept version (covers area.now) x y }
{
    area.has(x, y) && is_kept(kept, version, x, y)
}

// Returns whether the area covers no such module in row `y`.
fn row_leaves(kept: Kept, version: Version, area: &Area<'_>, y: usize) -> bool
    requires valid { IsTrue (is_valid version) }
    requires row { y < side version }
    ensures { IsTrue result
        ↔ ((x : ℕ) → x < side version → shows kept version (covers area.now) x y ≡ false) }
{
    for x in 0..side(version) {
        if shows(kept, version, area, x, y) {
            return false;
        }
    }
    true
}

/// Returns whether `area` covers no format or version information and none of the `kept` patterns.
pub fn leaves_patterns(kept: Kept, version: Version, area: &Area<'_>) -> bool
    requires { IsTrue (is_valid version) }
    ensures { IsTrue result ↔ LeavesPatterns kept version (covers area.now) }
{
    for y in 0..side(version) {
        if !row_leaves(kept, version, area, y) {
            return false;
        }
    }
    true
}

/// Returns the largest odd number of modules that is at most `size * part / whole`, or 1 if there
/// is none.
pub fn in_proportion(size: usize, part: u32, whole: u32) -> usize
    requires size { size < 2 ^ 31 }
    requires part { part ≤ whole }
    requires whole { 0 < whole }
    ensures value { result ≡ in_proportion size part whole }
    ensures at_least { 1 ≤ result }
    ensures at_most { 1 ≤ size → result ≤ size }
{
    let modules = size * part as usize / whole as usize;
    if modules == 0 {
        1
    } else {
        modules - 1 + modules % 2
    }
}

/// Returns the central rectangle of the ratio in `wish` whose longer side has `size` modules, or
/// one less if `size` is even. Both sides are odd.
pub fn centred(version: Version, wish: Wish, size: usize) -> Rectangle
    requires valid { IsTrue (is_valid version) }
    requires at_least { 1 ≤ size }
    requires inside { size ≤ side version }
    ensures { result ≡ centred version wish size }
{
    let longer = wish.across.max(wish.down).max(1);
    let width = in_proportion(size, wish.across, longer);
    let height = in_proportion(size, wish.down, longer);
    Rectangle {
        left: (side(version) - width) / 2,
        top: (side(version) - height) / 2,
        width,
        height,
    }
}

/// Returns whether `rectangle` covers no format or version information, none of the patterns in
/// `wish`, and so few codewords that its reserve is left.
///
/// Errors: only `AllocError`.
pub fn fits(
    alloc: Global,
    version: Version,
    ec_level: EcLevel,
    wish: Wish,
    rectangle: Rectangle,
) -> Result<bool, AllocError>
    requires { IsTrue (has_level version ec_level) }
    ensures { IfOk result (λ fits. IsTrue fits ↔ Fits version ec_level wish (only rectangle)) }
{
    let rectangles = [rectangle];
    let area = Area::of(&rectangles);
    if !leaves_patterns(wish.kept, version, &area) {
        return Ok(false);
    }
    match reserve_in(alloc, version, ec_level, &area)?.least() {
        Some(left) => Ok(wish.reserve <= left),
        None => Ok(false),
    }
}

/// Returns the largest central rectangle that satisfies `wish`, or `None` if there is none. Both of
/// its sides are odd.
///
/// Errors: only `AllocError`.
pub fn largest_rectangle(
    alloc: Global,
    version: Version,
    ec_level: EcLevel,
    wish: Wish,
) -> Result<Option<Rectangle>, AllocError>
    requires { IsTrue (has_level version ec_level) }
    ensures some { IfOk result (λ found. IfSome found (IsLargest version ec_level wish)) }
    ensures none { IfOk result (λ found. IfNone found (NoneLarger version ec_level wish 0)) }
{
    let width = side(version);
    for less in 0..(width + 1) / 2 {
        let rectangle = centred(version, wish, width - 2 * less);
        if fits(alloc, version, ec_level, wish, rectangle)? {
            return Ok(Some(rectangle));
        }
    }
    Ok(None)
}

/// Returns the number of the smallest Normal version in which the central rectangle satisfies
/// `wish` whose longer side is `part / whole` of the symbol's side, rounded down to an odd number
/// of modules; or `None` if there is none.
///
/// Errors: only `AllocError`.
pub fn smallest_version(
    alloc: Global,
    ec_level: EcLevel,
    wish: Wish,
    part: u32,
    whole: u32,
) -> Result<Option<usize>, AllocError>
    requires part { part ≤ whole }
    requires whole { 0 < whole }
    ensures some { IfOk result (λ found. IfSome found (λ number. (number ≤ 40)
        × FitsPart ec_level wish part whole number
        × NoneSmaller ec_level wish part whole number)) }
    ensures none { IfOk result (λ found. IfNone found (NoneSmaller ec_level wish part whole 41)) }
{
    for number in 1..41 {
        let version = Version::Normal(number as i16);
        let size = in_proportion(side(version), part, whole);
        if fits(alloc, version, ec_level, wish, centred(version, wish, size))? {
            return Ok(Some(number));
        }
    }
    Ok(None)
}
