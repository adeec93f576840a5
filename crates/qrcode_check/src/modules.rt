//! Counts wrong modules of the function patterns, by kind.

ghost use Rattle.std.specs.Prelude.{◌≡◌, ◌+◌, ◌*◌, ◌<◌, ◌≤◌, count_by, length, IsTrue, IfOk};
ghost use Rattle.std.specs.List.{list_all};
ghost use Rattle.qrcode_types.specs.Versions.{is_valid, is_micro, has_level, side};
ghost use Rattle.qrcode_layout.specs.Masks.{exists_in};
ghost use Rattle.qrcode_layout.specs.Figures.{fits, alignments, alignment_row, is_centre_inside};
ghost use Rattle.qrcode_reader.specs.Figures.{wrong_of, finder_figures, timing_figures, dark_figures};
ghost use Rattle.qrcode_check.specs.Modules.{word_figures_of, wrong_format, wrong_remainder, are_right, AreWrongModules};

use qrcode_layout::centres::centres;
use qrcode_layout::figures::{alignment, is_corner_centre, word_figures};
use qrcode_layout::masks::MaskPattern;
use qrcode_layout::words::format_word;
use qrcode_reader::figures::{wrong_figures, wrong_in, wrong_of};
use qrcode_reader::formats::{FormatCopy, copy_bits, distance};
use qrcode_reader::walk::stream;
use qrcode_reader::words::behind;
use qrcode_types::tables::{Blocks, capacity};
use qrcode_types::types::{Color, EcLevel, Version};
use qrcode_types::versions::side;
use std::alloc::{AllocError, Global};

/// How many modules of each kind of pattern are wrong. A module where two kinds meet counts for
/// both.
#[repr(C)]
#[derive(Debug, PartialEq, Eq, Copy, Clone)]
pub struct WrongModules {
    /// Finder patterns and their separators.
    pub finder: usize,
    /// Alignment patterns.
    pub alignment: usize,
    /// Timing patterns.
    pub timing: usize,
    /// Copies of the format word, and the module that is always dark.
    pub format: usize,
    /// Copies of the version word.
    pub version: usize,
    /// Remainder bits, after the last codeword, where all should be light before masking.
    pub remainder: usize,
}

impl WrongModules {
    /// Returns whether no module is wrong.
    pub fn are_right(self) -> bool
        ensures { result ≡ are_right self }
    {
        self.finder == 0
            && self.alignment == 0
            && self.timing == 0
            && self.format == 0
            && self.version == 0
            && self.remainder == 0
    }
}

// Counts wrong modules of the alignment patterns whose centres are in row `b`.
fn wrong_in_alignment_row(version: Version, modules: &[Color], b: usize) -> usize
    requires valid { IsTrue (is_valid version) }
    requires square { length modules.now ≡ side version * side version }
    requires inside { IsTrue (is_centre_inside (side version) b) }
    ensures value { result ≡ wrong_of version modules.now (alignment_row version b) }
    ensures at_most { result ≤ 3132900 }
{
    let width = side(version);
    let mut count = 0;
    for a in centres(version) {
        let a = *a as usize;
        if !is_corner_centre(width, a, b) {
            count += wrong_in(version, modules, &alignment(a, b));
        }
    }
    count
}

// Counts wrong modules of the alignment patterns.
fn wrong_in_alignments(version: Version, modules: &[Color]) -> usize
    requires valid { IsTrue (is_valid version) }
    requires square { length modules.now ≡ side version * side version }
    ensures { result ≡ wrong_of version modules.now (alignments version) }
{
    let mut count = 0;
    for b in centres(version) {
        count += wrong_in_alignment_row(version, modules, *b as usize);
    }
    count
}

// Counts wrong modules of the copies of the version word.
fn wrong_in_version(version: Version, modules: &[Color]) -> usize
    requires valid { IsTrue (is_valid version) }
    requires square { length modules.now ≡ side version * side version }
    ensures { result ≡ wrong_of version modules.now (word_figures_of version) }
{
    let width = side(version);
    if version.is_micro() || width < 45 {
        return 0;
    }
    wrong_of(version, modules, &word_figures(width))
}

// Counts wrong bits of the copies of the format word.
fn wrong_format(version: Version, ec_level: EcLevel, mask: MaskPattern, modules: &[Color]) -> usize
    requires exists { IsTrue (has_level version ec_level) }
    requires mask_exists { IsTrue (exists_in version mask) }
    ensures value { result ≡ wrong_format version ec_level mask modules.now }
    ensures at_most { result ≤ 30 }
{
    let word = format_word(version, ec_level, mask);
    let first = distance(&copy_bits(FormatCopy::First, version, modules), word);
    if version.is_micro() {
        return first;
    }
    first + distance(&copy_bits(FormatCopy::Last, version, modules), word)
}

/// Counts the bits that are ones.
pub(crate) fn ones(bits: &[bool]) -> usize
    ensures { result ≡ count_by (λ b. b) bits.now }
{
    bits.iter().filter(|bit| **bit).count()
}

// Counts the remainder bits that are ones.
fn wrong_remainder(
    alloc: Global,
    version: Version,
    ec_level: EcLevel,
    mask: MaskPattern,
    modules: &[Color],
) -> Result<usize, AllocError>
    requires exists { IsTrue (has_level version ec_level) }
    requires square { length modules.now ≡ side version * side version }
    ensures { IfOk result (λ count. count ≡ wrong_remainder version ec_level mask modules.now) }
{
    let blocks = Blocks::of(version, ec_level).unwrap();
    let capacity = capacity(version, ec_level).unwrap();
    let bits = stream(alloc, version, mask, modules)?;
    Ok(ones(behind(&bits, capacity + 8 * blocks.total_ec_length())))
}

/// Counts wrong modules of each kind in a square, whose symbol has this version, level and mask.
///
/// Errors: only `AllocError`, if memory runs out.
pub fn wrong_modules(
    alloc: Global,
    version: Version,
    ec_level: EcLevel,
    mask: MaskPattern,
    modules: &[Color],
) -> Result<WrongModules, AllocError>
    requires exists { IsTrue (has_level version ec_level) }
    requires mask_exists { IsTrue (exists_in version mask) }
    requires square { length modules.now ≡ side version * side version }
    ensures { IfOk result (AreWrongModules version ec_level mask modules.now) }
{
    let (finder, timing, dark) = wrong_figures(version, modules);
    Ok(WrongModules {
        finder,
        alignment: wrong_in_alignments(version, modules),
        timing,
        format: wrong_format(version, ec_level, mask, modules) + dark,
        version: wrong_in_version(version, modules),
        remainder: wrong_remainder(alloc, version, ec_level, mask, modules)?,
    })
}
