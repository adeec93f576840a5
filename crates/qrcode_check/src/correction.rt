//! Counts wrong codewords, and rates the error correction that is left.

ghost use Rattle.std.specs.Prelude.{◌≡◌, ◌≤◌, length, IsTrue, IfOk};
ghost use Rattle.qrcode_types.specs.Versions.{has_level};
ghost use Rattle.qrcode_check.specs.Correction.{wrong_in_block, wrong_codewords, allowed_in_block, unused_in_block, unused_correction, grade};

use qrcode_ec::max_allowed_errors;
use qrcode_reader::WrongCodeword;
use qrcode_types::tables::Blocks;
use qrcode_types::types::{EcLevel, Version};
use std::alloc::{AllocError, Global};

/// A grade of ISO/IEC 15415.
#[derive(Debug, PartialEq, Eq, Copy, Clone)]
pub enum Grade {
    A,
    B,
    C,
    D,
    F,
}

// Counts the wrong codewords of a block.
fn wrong_in_block(wrong: &[WrongCodeword], block: usize) -> usize
    ensures { result ≡ wrong_in_block wrong.now block }
{
    wrong.iter().filter(|each| each.block == block).count()
}

/// Returns how many of the `wrong` codewords are in each block of `version` at `ec_level`.
///
/// Errors: only `AllocError`, if memory runs out.
pub fn wrong_codewords(
    alloc: Global,
    version: Version,
    ec_level: EcLevel,
    wrong: &[WrongCodeword],
) -> Result<Vec<usize>, AllocError>
    requires { IsTrue (has_level version ec_level) }
    ensures { IfOk result (λ counts. counts.items ≡ wrong_codewords version ec_level wrong.now) }
{
    let blocks = Blocks::of(version, ec_level).unwrap();
    let mut counts = Vec::new(alloc);
    for block in 0..blocks.count() {
        counts.push(wrong_in_block(wrong, block))?;
    }
    Ok(counts)
}

/// Returns how many wrong codewords of a block the standard lets readers correct: half of those for
/// error correction, without the misdecode protection of small symbols (ISO/IEC 18004:2006, 6.5.1).
/// `qrcode_reader` corrects half of all.
pub fn allowed_in_block(version: Version, ec_level: EcLevel) -> usize
    requires { IsTrue (has_level version ec_level) }
    ensures { result ≡ allowed_in_block version ec_level }
{
    let blocks = Blocks::of(version, ec_level).unwrap();
    max_allowed_errors(version, ec_level).unwrap() / blocks.count()
}

// Returns the unused error correction of a block in hundredths, rounded down.
fn unused_in_block(allowed: usize, wrong: usize) -> usize
    requires { allowed ≤ 1000 }
    ensures value { result ≡ unused_in_block allowed wrong }
    ensures at_most { result ≤ 100 }
{
    if allowed == 0 {
        return if wrong == 0 { 100 } else { 0 };
    }
    100 * allowed.saturating_sub(wrong) / allowed
}

/// Returns the unused error correction of a symbol (ISO/IEC 15415, 7.8.8) in hundredths, rounded
/// down: the lowest of its blocks, whose numbers of wrong codewords are `counts`. With e of them it
/// is 1 - 2e / capacity, at least 0, where the capacity is 2 * `allowed`. If none are allowed, it
/// is 1 or, with wrong ones, 0.
pub fn unused_correction(allowed: usize, counts: &[usize]) -> usize
    requires { allowed ≤ 1000 }
    ensures value { result ≡ unused_correction allowed counts.now }
    ensures at_most { result ≤ 100 }
{
    let mut least = 100;
    for wrong in counts {
        least = least.min(unused_in_block(allowed, *wrong));
    }
    least
}

/// Returns the grade for `unused` hundredths of error correction (ISO/IEC 15415, 7.8.8): A from 62,
/// B from 50, C from 37, D from 25, else F.
pub fn grade_of(unused: usize) -> Grade
    ensures { result ≡ grade unused }
{
    match unused {
        62.. => Grade::A,
        50..=61 => Grade::B,
        37..=49 => Grade::C,
        25..=36 => Grade::D,
        _ => Grade::F,
    }
}
