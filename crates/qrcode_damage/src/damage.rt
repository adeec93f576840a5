//! Symbols with exactly so much damage.

ghost use Rattle.std.specs.Prelude.{◌≡◌, ◌≢◌, ◌↔◌, ◌*◌, ◌/◌, ℕ, Bool, List, length, IsTrue, IfOk, IfErr, IfSome, IfNone, IsOkUnless};
ghost use Rattle.qrcode_types.specs.Versions.{is_valid, has_level, side, ec_length};
ghost use Rattle.qrcode_layout.specs.declared.masks.MaskPattern.{MaskPattern};
ghost use Rattle.qrcode_symbol.specs.Reading.{ReadsBitsOnly};
ghost use Rattle.qrcode.specs.Reading.{EncodesBits, EncodesBytes, ReadsOnly};
ghost use Rattle.qrcode_damage.specs.Damage.{IsWrongBy, IsPromised, HasRoomFor, IsTooMuch, version_word_length};
ghost use Rattle.qrcode_damage.specs.Errors.{AreErrors};
ghost use Rattle.qrcode_damage.specs.declared.damage.TooMuch.TheVariants.{OutOfMemory};

use crate::drawn::drawn;
use crate::errors::{Errors, flipped};
use crate::flips::flips;
use crate::patterns::{pattern_count, wrong_patterns};
use crate::random::Random;
use crate::words::{blocks_of, wrong_words};
use qrcode_types::types::{Color, EcLevel, QrResult, Version};
use qrcode_types::versions::side;
use std::alloc::Global;
use std::error::Error;
use std::fmt;

/// How much of a symbol is wrong, and where.
#[derive(Debug, PartialEq, Eq, Copy, Clone)]
pub struct Damage {
    /// The number of wrong codewords in each block.
    pub codewords: usize,
    /// The number of wrong bits in each copy of the format information.
    pub format_bits: usize,
    /// The number of wrong bits in each copy of the version information, which Normal 7 to 40 have.
    pub version_bits: usize,
    /// The number of wrong modules of finder, timing and alignment patterns and separators and of the
    /// dark module.
    pub pattern_modules: usize,
    /// Decides which ones.
    pub seed: u64,
}

/// Which count is too large for a symbol, or `OutOfMemory`.
#[derive(Debug, PartialEq, Eq, Copy, Clone)]
pub enum TooMuch {
    /// The shortest block has only this many codewords.
    Codewords(usize),
    /// The format information has only 15 bits.
    FormatBits,
    /// The version information has only this many bits: 18, or none in a version without it.
    VersionBits(usize),
    /// The patterns have only this many modules.
    PatternModules(usize),
    /// Memory ran out.
    OutOfMemory,
}

impl fmt::Display for TooMuch {
    fn fmt<W: fmt::Write>(&self, f: &mut fmt::Formatter<W>) -> fmt::Result {
        match self {
            TooMuch::Codewords(most) => write!(
                f,
                "the shortest block has {most} codewords; no more can be wrong"
            ),
            TooMuch::FormatBits => {
                f.write_str("the format information has 15 bits; no more can be wrong")
            }
            TooMuch::VersionBits(0) => {
                f.write_str("only versions 7 to 40 have version information that can be wrong")
            }
            TooMuch::VersionBits(most) => write!(
                f,
                "the version information has {most} bits; no more can be wrong"
            ),
            TooMuch::PatternModules(most) => write!(
                f,
                "the patterns have {most} modules; no more can be wrong"
            ),
            TooMuch::OutOfMemory => f.write_str("out of memory"),
        }
    }
}

impl Error for TooMuch {}

/// Returns how many wrong codewords of each block are within the promise: half as many as it has for
/// error correction. `version` must have `ec_level`.
pub fn most_codewords(version: Version, ec_level: EcLevel) -> usize
    requires { IsTrue (has_level version ec_level) }
    ensures { result ≡ ec_length version ec_level / 2 }
{
    blocks_of(version, ec_level).ec_length / 2
}

// Returns the number of bits of each copy of the version information.
fn version_word_length(version: Version) -> usize
    requires { IsTrue (is_valid version) }
    ensures { result ≡ version_word_length version }
{
    if side(version) >= 45 { 18 } else { 0 }
}

impl Damage {
    /// Returns whether so much damage is within the promise: at most `most_codewords` codewords of
    /// each block, and at most three bits of each copy of the format information, whatever the
    /// patterns show. `version` must have `ec_level`.
    pub fn is_promised(self, version: Version, ec_level: EcLevel) -> bool
        requires { IsTrue (has_level version ec_level) }
        ensures { IsTrue result ↔ IsPromised version ec_level self }
    {
        self.codewords <= most_codewords(version, ec_level) && self.format_bits <= 3
    }

    /// Returns the first count that is too large for a symbol, or `None` if there is room for all.
    /// `version` must have `ec_level`.
    pub fn excess(self, version: Version, ec_level: EcLevel) -> Option<TooMuch>
        requires { IsTrue (has_level version ec_level) }
        ensures some { IfSome result (IsTooMuch version ec_level self) }
        ensures none { IfNone result (HasRoomFor version ec_level self) }
    {
        let blocks = blocks_of(version, ec_level);
        let codewords = blocks.short_length + blocks.ec_length;
        if self.codewords > codewords {
            return Some(TooMuch::Codewords(codewords));
        }
        if self.format_bits > 15 {
            return Some(TooMuch::FormatBits);
        }
        let version_bits = version_word_length(version);
        if self.version_bits > version_bits {
            return Some(TooMuch::VersionBits(version_bits));
        }
        if self.pattern_modules == 0 {
            return None;
        }
        let pattern_modules = pattern_count(version);
        if self.pattern_modules > pattern_modules {
            return Some(TooMuch::PatternModules(pattern_modules));
        }
        None
    }
}

// Chooses what is wrong.
fn chosen_errors(
    alloc: Global,
    version: Version,
    ec_level: EcLevel,
    damage: Damage,
) -> QrResult<Errors>
    requires exists { IsTrue (has_level version ec_level) }
    requires room { HasRoomFor version ec_level damage }
    ensures { IfOk result (AreErrors version ec_level damage) }
{
    let mut random = Random::new(damage.seed);
    let words = wrong_words(alloc, version, ec_level, damage.codewords, &mut random)?;
    let codewords = drawn(alloc, version, ec_level, &words)?;
    let first_format = flips(alloc, &mut random, damage.format_bits, 15, false)?;
    let last_format = flips(alloc, &mut random, damage.format_bits, 15, false)?;
    let first_version = flips(alloc, &mut random, damage.version_bits, 18, false)?;
    let last_version = flips(alloc, &mut random, damage.version_bits, 18, false)?;
    let patterns = wrong_patterns(alloc, version, damage.pattern_modules, &mut random)?;
    Ok(Errors {
        codewords,
        first_format,
        last_format,
        first_version,
        last_version,
        patterns,
    })
}

// Returns these modules of a symbol with so much damage, for which there is room.
fn with_errors(
    alloc: Global,
    version: Version,
    ec_level: EcLevel,
    modules: &[Color],
    damage: Damage,
) -> QrResult<Vec<Color>>
    requires exists { IsTrue (has_level version ec_level) }
    requires square { length modules.now ≡ side version * side version }
    requires room { HasRoomFor version ec_level damage }
    ensures square { IfOk result (λ colors. length colors.items ≡ length modules.now) }
    ensures wrong { IfOk result (λ colors. (mask : MaskPattern)
        → IsWrongBy version ec_level mask damage modules.now colors.items) }
    ensures read { IsPromised version ec_level damage
        → IfOk result (λ colors. (bits : List Bool) (bytes : List ℕ)
        → EncodesBytes version ec_level bits bytes modules.now → ReadsOnly colors.items bytes) }
    ensures read_bits { IsPromised version ec_level damage
        → IfOk result (λ colors. (bits : List Bool)
        → EncodesBits version ec_level bits modules.now
        → ReadsBitsOnly colors.items version ec_level bits) }
{
    let errors = chosen_errors(alloc, version, ec_level, damage)?;
    Ok(flipped(alloc, version, modules, &errors)?)
}

/// Returns these modules of a symbol, row by row, with exactly so much damage: wrong are so many
/// codewords of each block, so many bits of each copy of the format and of the version information,
/// so many modules of patterns, and no other module. `damage.seed` decides which; equal seeds give
/// equal squares. The version must have the level, and `modules` its side.
///
/// Errors: `Codewords`, `FormatBits`, `VersionBits` or `PatternModules` if the symbol has too few
/// of them; `OutOfMemory` if memory runs out.
pub fn damaged(
    alloc: Global,
    version: Version,
    ec_level: EcLevel,
    modules: &[Color],
    damage: Damage,
) -> Result<Vec<Color>, TooMuch>
    requires exists { IsTrue (has_level version ec_level) }
    requires square { length modules.now ≡ side version * side version }

    ensures square { IfOk result (λ colors. length colors.items ≡ length modules.now) }

    // So it is whichever mask is taken off, so also under the symbol's own.
    ensures wrong { IfOk result (λ colors. (mask : MaskPattern)
        → IsWrongBy version ec_level mask damage modules.now colors.items) }
    ensures room { IfOk result (λ _. HasRoomFor version ec_level damage) }
    ensures accepts { HasRoomFor version ec_level damage → IsOkUnless result OutOfMemory }
    ensures causes { IfErr result (λ error. error ≢ OutOfMemory
        → IsTooMuch version ec_level damage error) }
    ensures memory { IfErr result (λ error. error ≡ OutOfMemory
        → HasRoomFor version ec_level damage) }

    // Within the promise, the square decodes to the bytes and no others.
    ensures read { IsPromised version ec_level damage
        → IfOk result (λ colors. (bits : List Bool) (bytes : List ℕ)
        → EncodesBytes version ec_level bits bytes modules.now → ReadsOnly colors.items bytes) }

    // So it does to the bits, which may hold headers too.
    ensures read_bits { IsPromised version ec_level damage
        → IfOk result (λ colors. (bits : List Bool)
        → EncodesBits version ec_level bits modules.now
        → ReadsBitsOnly colors.items version ec_level bits) }
{
    match damage.excess(version, ec_level) {
        Some(error) => Err(error),
        None => match with_errors(alloc, version, ec_level, modules, damage) {
            Ok(colors) => Ok(colors),
            Err(_) => Err(TooMuch::OutOfMemory),
        },
    }
}
