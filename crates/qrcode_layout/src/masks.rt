//! The eight masks, and which of them a version has.

ghost use Rattle.std.specs.Prelude.{◌≡◌, ◌<◌, ◌≤◌, pos, ◌≤ℤ◌, nat_abs, IsTrue};
ghost use Rattle.qrcode_types.specs.Versions.{is_valid};
ghost use Rattle.qrcode_layout.specs.Masks.{turns, mask_number, micro_mask_number, masks_of, mask_count, nth_mask, exists_in, turns_at};

use crate::mask_functions;
use qrcode_types::types::Version;

/// A data mask pattern: a regular pattern of modules that the mask reverses (ISO/IEC 18004:2006,
/// 6.8).
#[derive(Copy, Clone, Debug)]
pub enum MaskPattern {
    /// Number 0: `(x + y) % 2 == 0`.
    Checkerboard = 0,
    /// Number 1: `y % 2 == 0`.
    HorizontalLines = 1,
    /// Number 2: `x % 3 == 0`.
    VerticalLines = 2,
    /// Number 3: `(x + y) % 3 == 0`.
    DiagonalLines = 3,
    /// Number 4: `(y / 2 + x / 3) % 2 == 0`.
    LargeCheckerboard = 4,
    /// Number 5: `(x * y) % 2 + (x * y) % 3 == 0`.
    Fields = 5,
    /// Number 6: `((x * y) % 2 + (x * y) % 3) % 2 == 0`.
    Diamonds = 6,
    /// Number 7: `((x + y) % 2 + (x * y) % 3) % 2 == 0`.
    Meadow = 7,
}

impl MaskPattern {
    /// Returns the number of the mask, 0 to 7.
    pub fn number(self) -> usize
        ensures { result ≡ mask_number self }
    {
        self as usize
    }

    /// Returns the number of the mask in Micro, 0 to 3, or 4 if Micro lacks it.
    pub fn micro_number(self) -> usize
        ensures { result ≡ micro_mask_number self }
    {
        let number = self.number();
        MICRO_MASKS
            .iter()
            .position(|mask| mask.number() == number)
            .unwrap_or(4)
    }

    /// Returns whether `version` exists and has this mask: Normal versions have all, Micro versions
    /// `HorizontalLines`, `LargeCheckerboard`, `Diamonds` and `Meadow`.
    pub fn exists_in(self, version: Version) -> bool
        ensures { result ≡ exists_in version self }
    {
        version.is_valid() && (!version.is_micro() || self.micro_number() < 4)
    }

    /// Returns whether the mask reverses the module in column `x` and row `y`.
    pub fn turns(self, x: i16, y: i16) -> bool
        ensures value { result ≡ turns_at self x y }
        ensures inside { pos 0 ≤ℤ x → pos 0 ≤ℤ y → result ≡ turns self (nat_abs x) (nat_abs y) }
    {
        match self {
            MaskPattern::Checkerboard => mask_functions::checkerboard(x, y),
            MaskPattern::HorizontalLines => mask_functions::horizontal_lines(x, y),
            MaskPattern::VerticalLines => mask_functions::vertical_lines(x, y),
            MaskPattern::DiagonalLines => mask_functions::diagonal_lines(x, y),
            MaskPattern::LargeCheckerboard => mask_functions::large_checkerboard(x, y),
            MaskPattern::Fields => mask_functions::fields(x, y),
            MaskPattern::Diamonds => mask_functions::diamonds(x, y),
            MaskPattern::Meadow => mask_functions::meadow(x, y),
        }
    }
}

// The masks of Normal, by number.
static NORMAL_MASKS: [MaskPattern; 8] = [
    MaskPattern::Checkerboard,
    MaskPattern::HorizontalLines,
    MaskPattern::VerticalLines,
    MaskPattern::DiagonalLines,
    MaskPattern::LargeCheckerboard,
    MaskPattern::Fields,
    MaskPattern::Diamonds,
    MaskPattern::Meadow,
];

// The masks of Micro, by their number there.
static MICRO_MASKS: [MaskPattern; 4] = [
    MaskPattern::HorizontalLines,
    MaskPattern::LargeCheckerboard,
    MaskPattern::Diamonds,
    MaskPattern::Meadow,
];

/// Returns the masks of `version`, in the order of their numbers.
pub fn masks_of(version: Version) -> &'static [MaskPattern]
    ensures { result.now ≡ masks_of version }
{
    match version {
        Version::Normal(_) => &NORMAL_MASKS,
        Version::Micro(_) => &MICRO_MASKS,
    }
}

/// Returns how many masks `version` has: eight in Normal, four in Micro.
pub fn mask_count(version: Version) -> usize
    ensures value { result ≡ mask_count version }
    ensures at_least { 1 ≤ result }
{
    masks_of(version).len()
}

/// Returns the mask of `version` with this number, which must be below `mask_count`. The version
/// must exist.
pub fn nth_mask(version: Version, number: usize) -> MaskPattern
    requires valid { IsTrue (is_valid version) }
    requires exists { number < mask_count version }
    ensures value { result ≡ nth_mask version number }
    ensures exists { IsTrue (exists_in version result) }
{
    masks_of(version)[number]
}
