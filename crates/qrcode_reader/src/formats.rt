//! Finds level and mask of a square from the copies of its format word.

ghost use Rattle.std.specs.Prelude.{◌≡◌, ◌<◌, ◌≤◌, ◌∷◌, [], length, IsTrue, IfSome, IfNone, map};
ghost use Rattle.std.specs.List.{range_with_len};
ghost use Rattle.qrcode_types.specs.Bits.{has_bit, number_bits, bit_distance};
ghost use Rattle.qrcode_types.specs.Versions.{is_valid};
ghost use Rattle.qrcode_types.specs.Colors.{is_dark};
ghost use Rattle.qrcode_layout.specs.Stream.{color_at};
ghost use Rattle.qrcode_types.specs.declared.types.EcLevel.{EcLevel};
ghost use Rattle.qrcode_layout.specs.declared.masks.MaskPattern.{MaskPattern};
ghost use Rattle.qrcode_symbol.specs.Symbol.{bits_at};
ghost use Rattle.qrcode_reader.specs.Formats.{NamesFormat, HasFormat, first_copy, copy_place};

use qrcode_layout::masks::{MaskPattern, mask_count, nth_mask};
use qrcode_layout::words::format_word;
use qrcode_types::types::{Color, EcLevel, Version};
use qrcode_types::versions::side;

/// A copy of the format word. In Micro there is one copy, and both variants name it.
#[derive(Copy, Clone)]
pub enum FormatCopy {
    /// Around the top left finder pattern.
    First,
    /// Next to the other two finder patterns.
    Last,
}

// Returns 1 if `bit` differs from bit `place` of `word`, else 0; bit 0 is the lowest.
fn difference(bit: bool, word: u16, place: usize) -> usize
    requires { place < 15 }
    ensures value { result ≡ bit_distance (bit ∷ []) (has_bit word place ∷ []) }
    ensures at_most { result ≤ 1 }
{
    usize::from(bit != ((word >> place) % 2 == 1))
}

/// Counts the places in which `bits` differ from the lowest bits of `word`, as many as there are
/// `bits`.
pub fn distance(bits: &[bool], word: u16) -> usize
    requires { length bits.now ≤ 15 }
    ensures value { result ≡ bit_distance bits.now (number_bits (length bits.now) word) }
    ensures at_most { result ≤ length bits.now }
{
    let mut rest = bits;
    let mut count = 0;
    while let [bit, more @ ..] = rest {
        count += difference(*bit, word, more.len());
        rest = more;
    }
    count
}

// Returns the place of bit `i` of the first copy: column and row. Bit 0 is the highest.
fn first_place(version: Version, i: usize) -> (usize, usize)
    requires { i < 15 }
    ensures { result ≡ first_copy version i }
{
    match version {
        Version::Micro(_) if i <= 7 => (i + 1, 8),
        Version::Micro(_) => (8, 15 - i),
        Version::Normal(_) if i <= 5 => (i, 8),
        Version::Normal(_) => match i {
            6 => (7, 8),
            7 => (8, 8),
            8 => (8, 7),
            _ => (8, 14 - i),
        },
    }
}

/// Returns the place of bit `i` of a copy: column and row. Bit 0 is the highest.
pub fn copy_place(copy: FormatCopy, version: Version, i: usize) -> (usize, usize)
    requires valid { IsTrue (is_valid version) }
    requires at_most { i < 15 }
    ensures { result ≡ copy_place copy version i }
{
    match (copy, version) {
        (FormatCopy::First, _) | (_, Version::Micro(_)) => first_place(version, i),
        (FormatCopy::Last, Version::Normal(_)) if i <= 6 => (8, side(version) - 1 - i),
        (FormatCopy::Last, Version::Normal(_)) => (side(version) - 15 + i, 8),
    }
}

// Whether the module at a place is dark; there is none outside.
fn is_dark_at(version: Version, modules: &[Color], place: (usize, usize)) -> bool
    requires valid { IsTrue (is_valid version) }
    requires column { place.0 < 1000 }
    requires row { place.1 < 1000 }
    ensures { result ≡ is_dark (color_at version modules.now place.0 place.1) }
{
    let color = modules.get(place.1 * side(version) + place.0);
    matches!(color, Some(Color::Dark))
}

/// Returns the bits of a copy of the format word, highest first. Modules that are missing count as
/// light.
pub fn copy_bits(copy: FormatCopy, version: Version, modules: &[Color]) -> [bool; 15]
    requires { IsTrue (is_valid version) }
    ensures { result
        ≡ bits_at version modules.now (map (copy_place copy version) (range_with_len 0 15)) }
{
    let mut bits = [false; 15];
    for i in 0..15 {
        bits[i] = is_dark_at(version, modules, copy_place(copy, version, i));
    }
    bits
}

// Returns the mask whose format word at this level is within three bits of both copies, if there is
// one.
fn mask_near(
    version: Version,
    ec_level: EcLevel,
    first: &[bool; 15],
    last: &[bool; 15],
) -> Option<MaskPattern>
    requires { IsTrue (is_valid version) }
    ensures some { IfSome result (NamesFormat version first.now last.now ec_level) }
    ensures none { IfNone result ((mask : MaskPattern)
        → ¬ NamesFormat version first.now last.now ec_level mask) }
{
    if !version.has_level(ec_level) {
        return None;
    }
    for number in 0..mask_count(version) {
        let mask = nth_mask(version, number);
        let word = format_word(version, ec_level, mask);
        if distance(first, word) <= 3 && distance(last, word) <= 3 {
            return Some(mask);
        }
    }
    None
}

/// Returns the level and mask whose format word is within three bits of each copy (ISO/IEC
/// 18004:2006, 6.9), or `None` if there are none. `version` must exist; modules that are missing
/// count as light.
pub fn read_format(version: Version, modules: &[Color]) -> Option<(EcLevel, MaskPattern)>
    requires { IsTrue (is_valid version) }
    ensures some { IfSome result (λ format. HasFormat version modules.now format.0 format.1) }
    ensures none { IfNone result ((ec_level : EcLevel) (mask : MaskPattern)
        → ¬ HasFormat version modules.now ec_level mask) }
{
    let first = copy_bits(FormatCopy::First, version, modules);
    let last = copy_bits(FormatCopy::Last, version, modules);
    for ec_level in [EcLevel::L, EcLevel::M, EcLevel::Q, EcLevel::H] {
        if let Some(mask) = mask_near(version, ec_level, &first, &last) {
            return Some((ec_level, mask));
        }
    }
    None
}
