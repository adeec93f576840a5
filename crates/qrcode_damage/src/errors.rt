//! Which modules of a symbol are wrong.

ghost use Rattle.std.specs.Prelude.{◌≡◌, ◌*◌, ◌<◌, length, None, IsTrue, IfOk};
ghost use Rattle.qrcode_types.specs.Versions.{is_valid, side};
ghost use Rattle.qrcode_damage.specs.Errors.{is_set, is_version_wrong, is_format_wrong, is_free_wrong, is_wrong_by_bit, is_wrong, opposite_if, flipped};

use qrcode_layout::masks::nth_mask;
use qrcode_layout::patterns::{format_index, is_functional_place};
use qrcode_reader::walk::bit_of;
use qrcode_types::types::{Color, Version};
use qrcode_types::versions::side;
use std::alloc::{AllocError, Global};

/// What is wrong in a symbol. In the lists, a byte that is not zero stands for a wrong bit.
#[derive(Drop)]
pub(crate) struct Errors {
    /// A symbol of the same version, under its first mask, with a bit 1 wherever a bit is wrong.
    pub(crate) codewords: Vec<Color>,
    /// The bits of the first copy of the format word, highest first.
    pub(crate) first_format: Vec<u8>,
    /// The same for the last copy, which Micro lacks.
    pub(crate) last_format: Vec<u8>,
    /// The bits of the version word at the upper right, lowest first.
    pub(crate) first_version: Vec<u8>,
    /// The same for the version word at the lower left.
    pub(crate) last_version: Vec<u8>,
    /// The modules of patterns that no word has, among all modules row by row.
    pub(crate) patterns: Vec<u8>,
}

// Returns whether byte `i` is not zero.
fn is_set(bytes: &[u8], i: usize) -> bool
    ensures { result ≡ is_set bytes.now i }
{
    i < bytes.len() && bytes[i] != 0
}

impl Errors {
    // Returns whether a place of the version word is wrong.
    fn is_version_wrong(&self, width: usize, x: usize, y: usize) -> bool
        requires column { x < 1000 }
        requires row { y < 1000 }
        ensures { result ≡ is_version_wrong self.now width x y }
    {
        if width < 45 {
            return false;
        }
        let start = width - 11;
        if y < 6 && start <= x && x < start + 3 {
            return is_set(&self.first_version, 3 * y + (x - start));
        }
        if x < 6 && start <= y && y < start + 3 {
            return is_set(&self.last_version, 3 * x + (y - start));
        }
        false
    }

    // Returns whether bit `i` of the format word is wrong at this place.
    fn is_format_wrong(&self, i: usize, x: usize, y: usize) -> bool
        ensures { result ≡ is_format_wrong self.now i x y }
    {
        if x <= 8 && y <= 8 {
            is_set(&self.first_format, i)
        } else {
            is_set(&self.last_format, i)
        }
    }

    // Returns whether a free place is wrong.
    fn is_free_wrong(&self, version: Version, x: usize, y: usize) -> bool
        requires valid { IsTrue (is_valid version) }
        requires square { length self.now.codewords.items ≡ side version * side version }
        requires column { x < side version }
        requires row { y < side version }
        ensures { result ≡ is_free_wrong version self.now x y }
    {
        let is_turned = nth_mask(version, 0).turns(x as i16, y as i16);
        bit_of(self.codewords[y * side(version) + x], is_turned)
    }

    // Returns whether a place is wrong that is not of the format word.
    fn is_other_wrong(&self, version: Version, x: usize, y: usize) -> bool
        requires valid { IsTrue (is_valid version) }
        requires square { length self.now.codewords.items ≡ side version * side version }
        requires column { x < side version }
        requires row { y < side version }
        ensures { result ≡ is_wrong_by_bit version self.now x y None }
    {
        let width = side(version);
        if is_functional_place(version, width, x, y) {
            is_set(&self.patterns, y * width + x) || self.is_version_wrong(width, x, y)
        } else {
            self.is_free_wrong(version, x, y)
        }
    }

    // Returns whether the module in column `x` and row `y` is wrong.
    fn is_wrong(&self, version: Version, x: usize, y: usize) -> bool
        requires valid { IsTrue (is_valid version) }
        requires square { length self.now.codewords.items ≡ side version * side version }
        requires column { x < side version }
        requires row { y < side version }
        ensures { result ≡ is_wrong version self.now x y }
    {
        match format_index(version, side(version), x, y) {
            Some(i) => self.is_format_wrong(i, x, y),
            None => self.is_other_wrong(version, x, y),
        }
    }
}

// Returns the opposite colour if `is_wrong`.
fn opposite_if(is_wrong: bool, color: Color) -> Color
    ensures { result ≡ opposite_if is_wrong color }
{
    if is_wrong { !color } else { color }
}

/// Copies the modules of a symbol, row by row, and reverses those that are wrong.
///
/// Errors: only `AllocError`.
pub(crate) fn flipped(
    alloc: Global,
    version: Version,
    modules: &[Color],
    errors: &Errors,
) -> Result<Vec<Color>, AllocError>
    requires valid { IsTrue (is_valid version) }
    requires square { length modules.now ≡ side version * side version }
    requires drawn { length errors.now.codewords.items ≡ side version * side version }
    ensures { IfOk result (λ colors. colors.items ≡ flipped (side version)
        (is_wrong version errors.now) modules.now (length modules.now)) }
{
    let width = side(version);
    let mut colors = Vec::new(alloc);
    for i in 0..modules.len() {
        let wrong = errors.is_wrong(version, i % width, i / width);
        colors.push(opposite_if(wrong, modules[i]))?;
    }
    Ok(colors)
}
