//! Chooses which modules of the functional patterns are wrong.

ghost use Rattle.std.specs.Prelude.{◌≡◌, ◌≤◌, ◌<◌, length, IsTrue, IfOk};
ghost use Rattle.qrcode_types.specs.Versions.{is_valid, side};
ghost use Rattle.qrcode_damage.specs.Damage.{is_version_place, is_pattern_place, pattern_places};
ghost use Rattle.qrcode_damage.specs.Errors.{IsInPatterns};

use crate::flips::{flip, flips};
use crate::random::Random;
use qrcode_layout::patterns::{format_index, is_functional_place};
use qrcode_types::types::Version;
use qrcode_types::versions::side;
use std::alloc::{AllocError, Global};

// Returns whether the version information covers this place.
fn is_version_place(version: Version, x: usize, y: usize) -> bool
    requires { IsTrue (is_valid version) }
    ensures { result ≡ is_version_place version x y }
{
    let width = side(version);
    if width < 45 {
        return false;
    }
    let start = width - 11;
    (y < 6 && start <= x && x < start + 3) || (x < 6 && start <= y && y < start + 3)
}

// Returns whether a finder, timing or alignment pattern, a separator or the dark module covers this
// place.
fn is_pattern_place(version: Version, x: usize, y: usize) -> bool
    requires valid { IsTrue (is_valid version) }
    requires column { x < side version }
    ensures { result ≡ is_pattern_place version x y }
{
    let width = side(version);
    if format_index(version, width, x, y).is_some() || is_version_place(version, x, y) {
        return false;
    }
    is_functional_place(version, width, x, y)
}

/// Returns the number of modules of these patterns.
pub(crate) fn pattern_count(version: Version) -> usize
    requires { IsTrue (is_valid version) }
    ensures { result ≡ length (pattern_places version) }
{
    let width = side(version);
    let mut count = 0;
    for i in 0..width * width {
        count += usize::from(is_pattern_place(version, i % width, i / width));
    }
    count
}

/// Returns a byte for each module, row by row, of which exactly `count` are not zero, all of them
/// of these patterns, chosen by `random`.
///
/// Errors: only `AllocError`.
pub(crate) fn wrong_patterns(
    alloc: Global,
    version: Version,
    count: usize,
    random: &mut Random,
) -> Result<Vec<u8>, AllocError>
    requires valid { IsTrue (is_valid version) }
    requires at_most { count ≤ length (pattern_places version) }
    ensures { IfOk result (λ bytes. IsInPatterns version count bytes.items) }
{
    let width = side(version);
    if count == 0 {
        return flips(alloc, random, 0, width * width, false);
    }
    let mut left = count;
    let mut ahead = pattern_count(version);
    let mut bytes = Vec::new(alloc);
    for i in 0..width * width {
        let is_pattern = is_pattern_place(version, i % width, i / width);
        let is_wrong = is_pattern && random.below(ahead) < left;
        bytes.push(flip(random, is_wrong, false))?;
        left -= usize::from(is_wrong);
        ahead -= usize::from(is_pattern);
    }
    Ok(bytes)
}
