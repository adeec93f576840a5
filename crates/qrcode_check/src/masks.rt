//! Ranks the mask of a square among all masks of its version.

ghost use Rattle.std.specs.Prelude.{◌≡◌, ◌+◌, ◌*◌, ◌<◌, ◌≤◌, ◌^◌, length, slice_index, IsTrue, IfOk};
ghost use Rattle.qrcode_types.specs.Versions.{is_valid, has_level, side};
ghost use Rattle.qrcode_layout.specs.Masks.{mask_count, exists_in};
ghost use Rattle.qrcode_penalty.specs.Penalty.{dark_count, dark_count_in};
ghost use Rattle.qrcode_symbol.specs.Penalties.{penalty, is_dark_at, remasked};
ghost use Rattle.qrcode_check.specs.Forms.{counted};
ghost use Rattle.qrcode_check.specs.Masks.{stepped_balance, stepped_penalty, penalties, mask_place, IsRank};

use crate::forms::{FormReading, read_penalty};
use qrcode_layout::masks::{MaskPattern, mask_count, nth_mask};
use qrcode_symbol::canvas::{penalty, remask};
use qrcode_types::types::{Color, EcLevel, Version};
use qrcode_types::versions::side;
use std::alloc::{AllocError, Global};

/// The rank of a mask among all masks of its version, by the penalty.
#[repr(C)]
#[derive(Debug, PartialEq, Eq, Copy, Clone)]
pub struct Rank {
    /// How many masks have a lower penalty.
    pub lower: usize,
    /// How many masks with a lower number have the same penalty.
    pub equal: usize,
}

/// How the penalty of a mask is counted.
#[derive(Debug, PartialEq, Eq, Copy, Clone)]
pub enum Penalty {
    /// As `QrCode` does.
    Own,
    /// As the standard does, whose balance goes in steps of 5 %.
    Stepped,
    /// Likewise, by this reading of what looks like a finder pattern.
    By(FormReading),
}

// Counts the dark modules of row `y`.
#[tactic(auto, using(qrcode_penalty::proofs::Sums::sum_step), unfolding(qrcode_penalty::specs::Penalty::sum_below, qrcode_penalty::specs::Penalty::dark_count_in))]
fn dark_in_row(version: Version, modules: &[Color], y: usize) -> usize
    requires valid { IsTrue (is_valid version) }
    requires square { length modules.now ≡ side version * side version }
    requires inside { y < side version }
    ensures value { result
        ≡ dark_count_in (side version) (λ x. is_dark_at version modules.now x y) }
    ensures at_most { result ≤ 177 }
{
    let width = side(version);
    let mut count = 0;
    for x in 0..width {
        if let Color::Dark = modules[y * width + x] {
            count += 1;
        }
    }
    count
}

// Counts the dark modules of a square.
#[tactic(auto, using(qrcode_penalty::proofs::Sums::sum_step), unfolding(qrcode_penalty::specs::Penalty::sum_below, qrcode_penalty::specs::Penalty::dark_count))]
fn dark_count(version: Version, modules: &[Color]) -> usize
    requires valid { IsTrue (is_valid version) }
    requires square { length modules.now ≡ side version * side version }
    ensures value { result ≡ dark_count (side version) (is_dark_at version modules.now) }
    ensures at_most { result ≤ 31329 }
{
    let mut count = 0;
    for y in 0..side(version) {
        count += dark_in_row(version, modules, y);
    }
    count
}

// Returns the penalty with the standard's balance, in steps of 5 %. `own` is the penalty of
// `QrCode`.
fn stepped_penalty(version: Version, modules: &[Color], own: u32) -> usize
    requires valid { IsTrue (is_valid version) }
    requires square { length modules.now ≡ side version * side version }
    requires own { own ≡ penalty version modules.now }
    requires at_most { own < 2 ^ 24 }
    ensures value { result ≡ stepped_penalty version modules.now }
    ensures at_most { result ≤ 1000000000 }
{
    if version.is_micro() {
        return own as usize;
    }
    let width = side(version);
    let all = width * width;
    let dark = dark_count(version, modules);
    let balance = (200 * dark / all).abs_diff(100);
    (own as usize).saturating_sub(balance) + 10 * ((20 * dark).abs_diff(10 * all) / all)
}

// Counts how many numbers are lower than the one at `place`, and how many before it are equal.
fn rank_at(numbers: &[usize], place: usize) -> Rank
    requires { place < length numbers.now }
    ensures { IsRank numbers.now place result }
{
    let own = numbers[place];
    let lower = numbers.iter().filter(|number| **number < own).count();
    let equal = numbers[..place]
        .iter()
        .filter(|number| **number == own)
        .count();
    Rank { lower, equal }
}

/// Returns the place of a mask among those of its version, which is its number.
pub fn place_of(version: Version, mask: MaskPattern) -> usize
    ensures { result ≡ mask_place version mask }
{
    match version {
        Version::Normal(_) => mask.number(),
        Version::Micro(_) => mask.micro_number(),
    }
}

// Returns the penalty of a square under the mask `other`.
fn penalty_under(
    alloc: Global,
    by: Penalty,
    version: Version,
    ec_level: EcLevel,
    mask: MaskPattern,
    modules: &[Color],
    other: MaskPattern,
) -> Result<usize, AllocError>
    requires exists { IsTrue (has_level version ec_level) }
    requires mask_exists { IsTrue (exists_in version other) }
    requires square { length modules.now ≡ side version * side version }
    ensures { IfOk result (λ found.
        found ≡ counted by version (remasked version ec_level mask other modules.now)) }
{
    let mut turned = Vec::from_slice(alloc, modules)?;
    remask(version, ec_level, mask, other, &mut turned);
    let own = penalty(alloc, version, &turned)?;
    let stepped = stepped_penalty(version, &turned, own);
    match by {
        Penalty::Own => Ok(own as usize),
        Penalty::Stepped => Ok(stepped),
        Penalty::By(reading) => read_penalty(alloc, reading, version, &turned, stepped),
    }
}

/// Ranks the mask of a square among all masks of its version, by the penalty that is counted so.
///
/// Errors: only `AllocError`, if memory runs out.
pub fn rank_by(
    alloc: Global,
    by: Penalty,
    version: Version,
    ec_level: EcLevel,
    mask: MaskPattern,
    modules: &[Color],
) -> Result<Rank, AllocError>
    requires exists { IsTrue (has_level version ec_level) }
    requires mask_exists { IsTrue (exists_in version mask) }
    requires square { length modules.now ≡ side version * side version }
    ensures { IfOk result (IsRank (penalties (counted by) version ec_level mask modules.now)
        (mask_place version mask)) }
{
    let mut numbers = Vec::new(alloc);
    for number in 0..mask_count(version) {
        let other = nth_mask(version, number);
        let one = penalty_under(alloc, by, version, ec_level, mask, modules, other)?;
        numbers.push(one)?;
    }
    Ok(rank_at(&numbers, place_of(version, mask)))
}
