//! Checks a whole square of modules.

ghost use Rattle.std.specs.Prelude.{◌≡◌, ◌≢◌, ◌==◌, ◌≤◌, ◌*◌, ℕ, Err, length, IfOk, IfErr, IsTrue};
ghost use Rattle.std.specs.List.{list_all};
ghost use Rattle.qrcode_types.specs.Versions.{is_valid};
ghost use Rattle.qrcode_reader.specs.Positions.{seen};
ghost use Rattle.qrcode_reader.specs.Readings.{IsBitCause};
ghost use Rattle.qrcode_reader.specs.declared.refusals.Unread.TheVariants.{NoSuchSide};
ghost use Rattle.qrcode_check.specs.Checks.{IsCheck, IsContentOf, has_lowest, is_content_standard, is_standard};
ghost use Rattle.qrcode_check.specs.Masks.{mask_place};

use crate::correction::{allowed_in_block, unused_correction, wrong_codewords};
use crate::ending::{Ending, ending_behind};
use crate::forms::reading;
use crate::guesses::{Guesses, guesses_in};
use crate::masks::{Penalty, Rank, place_of, rank_by};
use crate::modules::{WrongModules, wrong_modules};
use crate::segments::{BitUse, bits_taken};
use qrcode_layout::masks::MaskPattern;
use qrcode_reader::spell::{Unspelled, pieces};
use qrcode_reader::{Position, Unread, read_bits, seen, version_of};
use qrcode_types::types::{Color, EcLevel, Version};
use qrcode_types::versions::side;
use std::alloc::{AllocError, Global};

/// What a check reports of headers and segments.
#[derive(Debug, PartialEq, Eq, Copy, Clone)]
pub struct Content {
    /// The bits of the segments, and those of a shortest division of their bytes; `None` if a
    /// header follows a segment, or one is FNC1.
    pub taken: Option<BitUse>,
    /// Wrong bits after the segments.
    pub ending: Ending,
    /// Segments whose character set a reader has to guess.
    pub guesses: Guesses,
}

/// What a check reports of a square of modules.
#[derive(Drop)]
pub struct Check {
    /// The version, by the number of modules.
    pub version: Version,
    /// The level that the format word names.
    pub ec_level: EcLevel,
    /// The mask that the format word names.
    pub mask: MaskPattern,
    /// How many codewords of each block are wrong.
    pub wrong: Vec<usize>,
    /// How many wrong codewords of a block the standard lets readers correct.
    pub allowed: usize,
    /// The unused error correction of the worst block, in hundredths.
    pub unused: usize,
    /// How many modules of each kind of pattern are wrong.
    pub modules: WrongModules,
    /// The rank of the mask by the penalty of `QrCode`. Wrong modules count as they are, but format
    /// words as if they were right.
    pub own: Rank,
    /// The rank of the mask by the standard's penalty, whose balance goes in steps of 5 %.
    pub stepped: Rank,
    /// The same, if only forms whose first and last dark run have one module look like finder
    /// patterns.
    pub narrow: Rank,
    /// The same as `stepped`, if the light places next to forms lie inside the symbol.
    pub inside: Rank,
    /// The same, if both hold.
    pub narrow_inside: Rank,
    /// What is reported of the data; `None` if the data bits are not just headers, segments and an
    /// end.
    pub content: Option<Content>,
}

impl Check {
    /// Returns the number of the mask, among those of the version.
    pub fn mask_number(&self) -> usize
        ensures { result ≡ mask_place self.now.version self.now.mask }
    {
        place_of(self.version, self.mask)
    }

    /// Returns whether the mask has the lowest penalty by some reading of the standard.
    pub fn has_lowest(&self) -> bool
        ensures { result ≡ has_lowest self.now }
    {
        self.own.lower == 0
            || self.stepped.lower == 0
            || self.narrow.lower == 0
            || self.inside.lower == 0
            || self.narrow_inside.lower == 0
    }

    /// Returns whether nothing departs from the standard. The mask may have the lowest penalty by
    /// any reading of it. Segments that take more bits than needed do not count, nor do guesses,
    /// nor which headers come where: the standard leaves these to the encoder.
    pub fn is_standard(&self) -> bool
        ensures { result ≡ is_standard self.now }
    {
        let is_whole = are_zero(&self.wrong) && self.modules.are_right();
        is_whole && self.has_lowest() && is_content_standard(&self.content)
    }
}

fn are_zero(numbers: &[usize]) -> bool
    ensures { result ≡ list_all (λ n. n == 0) numbers.now }
{
    numbers.iter().all(|number| *number == 0)
}

// Returns whether nothing in the data departs from the standard.
fn is_content_standard(content: &Option<Content>) -> bool
    ensures { result ≡ is_content_standard content.now }
{
    match content {
        Some(content) => content.ending.terminator == 0 && content.ending.padding == 0,
        None => false,
    }
}

// Checks the data bits; `None` if they are not just headers, segments and an end.
fn content_of(alloc: Global, version: Version, bits: &[bool]) -> Result<Option<Content>, AllocError>
    requires valid { IsTrue (is_valid version) }
    requires room { length bits.now ≤ 30000 }
    ensures { IfOk result (IsContentOf version bits.now) }
{
    let parts = match pieces(alloc, bits, version) {
        Ok(parts) => parts,
        Err(Unspelled::NotSpelled) => return Ok(None),
        Err(Unspelled::OutOfMemory) => return Err(AllocError),
    };
    Ok(Some(Content {
        taken: bits_taken(alloc, version, &parts.parts, &parts.bytes)?,
        ending: ending_behind(version, parts.end, bits),
        guesses: guesses_in(&parts.parts, &parts.bytes),
    }))
}

/// Checks a square of `modules`, row by row from the top left corner: reads it as data bits, and
/// compares it with the standard.
///
/// Errors: `NoSuchSide`, `NoFormat` or `Damaged` if it cannot be read as bits, as in `read_bits`;
/// `OutOfMemory` if memory runs out.
pub fn check_square(alloc: Global, modules: &[Color]) -> Result<Check, Unread>
    ensures value { IfOk result (IsCheck modules.now) }
    ensures causes { IfErr result (IsBitCause modules.now) }
{
    let read = read_bits(alloc, modules)?;
    let (version, ec_level, mask) = (read.version, read.ec_level, read.mask);
    let wrong = wrong_codewords(alloc, version, ec_level, &read.wrong)?;
    let allowed = allowed_in_block(version, ec_level);
    let unused = unused_correction(allowed, &wrong);
    let narrow = reading(true, false);
    let inside = reading(false, true);
    let both = reading(false, false);
    Ok(Check {
        version,
        ec_level,
        mask,
        wrong,
        allowed,
        unused,
        modules: wrong_modules(alloc, version, ec_level, mask, modules)?,
        own: rank_by(alloc, Penalty::Own, version, ec_level, mask, modules)?,
        stepped: rank_by(alloc, Penalty::Stepped, version, ec_level, mask, modules)?,
        narrow: rank_by(alloc, Penalty::By(narrow), version, ec_level, mask, modules)?,
        inside: rank_by(alloc, Penalty::By(inside), version, ec_level, mask, modules)?,
        narrow_inside: rank_by(alloc, Penalty::By(both), version, ec_level, mask, modules)?,
        content: content_of(alloc, version, &read.bits)?,
    })
}

/// Checks the symbol that a square shows in this `position`, and with dark and light swapped if
/// `is_inverted` (see `check_square`).
///
/// Errors: `NoSuchSide` for any number of modules that is no square, else those of `check_square`.
pub fn check_seen(
    alloc: Global,
    position: Position,
    is_inverted: bool,
    modules: &[Color],
) -> Result<Check, Unread>
    ensures value { IfOk result (λ check. (side : ℕ) → side * side ≡ length modules.now
        → IsCheck (seen side position is_inverted modules.now) check) }
    ensures causes { IfErr result (λ error. (side : ℕ) → side * side ≡ length modules.now
        → IsBitCause (seen side position is_inverted modules.now) error) }
    ensures no_side { ((side : ℕ) → side * side ≢ length modules.now) → result ≡ Err NoSuchSide }
{
    let Some(version) = version_of(modules.len()) else {
        return Err(Unread::NoSuchSide);
    };
    let colors = seen(alloc, side(version), position, is_inverted, modules)?;
    check_square(alloc, &colors)
}
