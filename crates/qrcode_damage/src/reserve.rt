//! Counts how much error correction an area uses up, and how much is left.

ghost use Rattle.std.specs.Prelude.{◌≡◌, ◌↔◌, ◌*◌, ◌<◌, ◌≤◌, ◌==◌, not, Bool, List, ℕ, length, map, count_by, slice_index, IsTrue, IfOk};
ghost use Rattle.std.specs.List.{range_with_len};
ghost use Rattle.qrcode_types.specs.Versions.{is_valid, side, has_level, block_lengths};
ghost use Rattle.qrcode_types.specs.declared.types.Color.{Color};
ghost use Rattle.qrcode_types.specs.declared.types.Version.{Version};
ghost use Rattle.qrcode_types.specs.declared.types.EcLevel.{EcLevel};
ghost use Rattle.qrcode_ec.specs.Blocks.{block};
ghost use Rattle.qrcode_layout.specs.declared.masks.MaskPattern.{MaskPattern};
ghost use Rattle.qrcode_symbol.specs.Symbol.{IsDamaged};
ghost use Rattle.qrcode.specs.Reading.{EncodesBytes, ReadsOnly};
ghost use Rattle.qrcode_damage.specs.Areas.{covers, touched, MayShowAnything, AgreesOutside};
ghost use Rattle.qrcode_damage.specs.Counting.{touched_places};
ghost use Rattle.qrcode_damage.specs.Reserves.{IsReserve, IsLeast, IsItsExcess, StaysWithin};

use crate::areas::Area;
use crate::excess::Excess;
use crate::marks::marks;
use qrcode::QrCode;
use qrcode_reader::blocks::block;
use qrcode_reader::formats::{FormatCopy, copy_place};
use qrcode_reader::words::codewords;
use qrcode_types::tables::Blocks;
use qrcode_types::types::{EcLevel, Version};
use std::alloc::{AllocError, Global};

// How many wrong modules each copy of the format information may have.
const FORMAT_ERRORS: usize = 3;

/// How much of a symbol an area covers, and how much may be lost.
#[derive(Drop)]
pub struct Reserve {
    /// The number of codewords in each block that have a module in the area.
    pub touched: Vec<usize>,
    /// The first block with the most of them.
    pub worst: usize,
    /// Their number in that block.
    pub most: usize,
    /// The number of codewords that each block may lose: half as many as it has for error
    /// correction, rounded down.
    pub allowed: usize,
    /// The number of modules in the area of the first copy of the format information. Three may be
    /// lost.
    pub first: usize,
    /// The same number for the last copy of the format information, which in Micro is the first.
    pub last: usize,
}

impl Reserve {
    /// Returns how many wrong codewords outside the area every block can still correct, or `None`
    /// if the area may not be covered.
    pub fn least(&self) -> Option<usize>
        ensures { (version : Version) (level : EcLevel) (area : ℕ → ℕ → Bool)
            → IsReserve version level area self.now → IsLeast version level area result }
    {
        match self.excess() {
            Some(_) => None,
            None => self.allowed.checked_sub(self.most),
        }
    }

    /// Returns the first bound that the area exceeds, or `None` if it may show anything: the one
    /// for the block with the most codewords touched, for the first copy of the format information,
    /// or for the last.
    pub fn excess(&self) -> Option<Excess>
        ensures { (version : Version) (level : EcLevel) (area : ℕ → ℕ → Bool)
            → IsReserve version level area self.now → IsItsExcess version level area result }
    {
        if self.most > self.allowed {
            return Some(Excess::Block {
                block: self.worst,
                touched: self.most,
                allowed: self.allowed,
            });
        }
        if self.first > FORMAT_ERRORS {
            return Some(Excess::FirstFormat(self.first));
        }
        if self.last > FORMAT_ERRORS {
            return Some(Excess::LastFormat(self.last));
        }
        None
    }
}

// Counts the codewords of block b that are not zero.
fn nonzero(
    alloc: Global,
    words: &[u8],
    version: Version,
    ec_level: EcLevel,
    b: usize,
) -> Result<usize, AllocError>
    requires exists { IsTrue (has_level version ec_level) }
    requires inside { b < length (block_lengths version ec_level) }
    ensures { IfOk result (λ count.
        count ≡ count_by (λ word. not (word == 0)) (block version ec_level words.now b)) }
{
    let block = block(alloc, words, version, ec_level, b)?;
    Ok(block.iter().filter(|word| **word != 0).count())
}

// Counts in each block the codewords that have a module in the area.
fn touched(
    alloc: Global,
    version: Version,
    ec_level: EcLevel,
    area: &Area<'_>,
) -> Result<Vec<usize>, AllocError>
    requires { IsTrue (has_level version ec_level) }
    ensures { IfOk result (λ counts. counts.items ≡ map (touched version ec_level (covers area.now))
        (range_with_len 0 (length (block_lengths version ec_level)))) }
{
    let marks = marks(alloc, version, area)?;
    let words = codewords(alloc, &marks, version, ec_level)?;
    let blocks = Blocks::of(version, ec_level).unwrap();
    let mut counts = Vec::new(alloc);
    for b in 0..blocks.count() {
        counts.push(nonzero(alloc, &words, version, ec_level, b)?)?;
    }
    Ok(counts)
}

// Counts the modules of a copy of the format information that lie in the area.
fn touched_places(version: Version, area: &Area<'_>, copy: FormatCopy) -> usize
    requires { IsTrue (is_valid version) }
    ensures { result ≡ touched_places version (covers area.now) copy }
{
    let mut count = 0;
    for i in 0..15 {
        let (x, y) = copy_place(copy, version, i);
        if area.has(x, y) {
            count += 1;
        }
    }
    count
}

// Returns the index of the largest number, the first of several, and that number.
fn greatest(counts: &[usize]) -> (usize, usize)
    requires { 0 < length counts.now }
    ensures inside { result.0 < length counts.now }
    ensures value { result.1 ≡ slice_index counts.now result.0 }
    ensures at_least { (i : ℕ) → i < length counts.now → slice_index counts.now i ≤ result.1 }
    ensures earlier { (i : ℕ) → i < result.0 → slice_index counts.now i < result.1 }
{
    let mut most = (0, counts[0]);
    for (i, count) in counts.iter().enumerate() {
        if most.1 < *count {
            most = (i, *count);
        }
    }
    most
}

/// Returns how much `area` covers of a symbol of this version and level.
///
/// Errors: only `AllocError`.
pub fn reserve_in(
    alloc: Global,
    version: Version,
    ec_level: EcLevel,
    area: &Area<'_>,
) -> Result<Reserve, AllocError>
    requires { IsTrue (has_level version ec_level) }
    ensures { IfOk result (IsReserve version ec_level (covers area.now)) }
{
    let blocks = Blocks::of(version, ec_level).unwrap();
    let touched = touched(alloc, version, ec_level, area)?;
    let (worst, most) = greatest(&touched);
    Ok(Reserve {
        touched,
        worst,
        most,
        allowed: blocks.ec_length / 2,
        first: touched_places(version, area, FormatCopy::First),
        last: touched_places(version, area, FormatCopy::Last),
    })
}

/// Returns how much `area` covers of `code`. Whatever the area shows, a square decodes to the bytes
/// of `code` and nothing else, if outside the area no block has more wrong codewords than it may
/// still lose, and of each copy of the format information at most three modules are covered or
/// wrong.
///
/// Errors: only `AllocError`.
pub fn reserve_of(alloc: Global, code: &QrCode, area: &Area<'_>) -> Result<Reserve, AllocError>
    ensures value { IfOk result (IsReserve code.now.version code.now.level (covers area.now)) }
    ensures read { IfOk result (λ reserve. (bits : List Bool) (bytes : List ℕ) (other : List Color)
        → (encodes : EncodesBytes code.now.version code.now.level bits bytes code.now.modules)
        → StaysWithin code.now.version code.now.level encodes.encodes.mask (covers area.now) reserve
        code.now.modules other → ReadsOnly other bytes) }
{
    reserve_in(alloc, code.version(), code.error_correction_level(), area)
}

/// Returns whether a symbol of this version and level decodes whatever `area` shows: it touches in
/// each block at most half as many codewords as the block has for error correction, and covers at
/// most three modules of each copy of the format information.
///
/// Errors: only `AllocError`.
pub fn may_show_anything(
    alloc: Global,
    version: Version,
    ec_level: EcLevel,
    area: &Area<'_>,
) -> Result<bool, AllocError>
    requires { IsTrue (has_level version ec_level) }
    ensures value { IfOk result (λ may. IsTrue may
        ↔ MayShowAnything version ec_level (covers area.now)) }

    // The bound is exact: any other area can show something that is beyond the promised damage.
    ensures exact { (mask : MaskPattern) (symbol : List Color)
        → length symbol ≡ side version * side version → IfOk result (λ may. IsTrue may
        ↔ ((other : List Color) → AgreesOutside version (covers area.now) symbol other
        → IsDamaged version ec_level mask symbol other)) }
{
    let reserve = reserve_in(alloc, version, ec_level, area)?;
    Ok(reserve.excess().is_none())
}
