//! The formulas of the masks, by column `x` and row `y` (ISO/IEC 18004:2006, 6.8.2).
//!
//! Coordinates may be negative: the diagonal lines continue there by the same formula, and the
//! other masks are mirrored.

ghost use Rattle.std.specs.Prelude.{◌≡◌, nat_abs};
ghost use Rattle.qrcode_layout.specs.Masks.{turns_at};
ghost use Rattle.qrcode_layout.specs.declared.masks.MaskPattern.TheVariants.{Checkerboard, HorizontalLines, VerticalLines, DiagonalLines, LargeCheckerboard, Fields, Diamonds, Meadow};

// Returns the absolute value of a coordinate.
fn size(x: i16) -> u32
    ensures { result ≡ nat_abs x }
{
    u32::from(x.unsigned_abs())
}

/// Returns whether `MaskPattern::Checkerboard` reverses the module.
pub fn checkerboard(x: i16, y: i16) -> bool
    ensures { result ≡ turns_at Checkerboard x y }
{
    let (x, y) = (size(x), size(y));
    (x + y) % 2 == 0
}

/// Returns whether `MaskPattern::HorizontalLines` reverses the module.
pub fn horizontal_lines(_x: i16, y: i16) -> bool
    ensures { result ≡ turns_at HorizontalLines _x y }
{
    size(y) % 2 == 0
}

/// Returns whether `MaskPattern::VerticalLines` reverses the module.
pub fn vertical_lines(x: i16, _y: i16) -> bool
    ensures { result ≡ turns_at VerticalLines x _y }
{
    size(x) % 3 == 0
}

/// Returns whether `MaskPattern::DiagonalLines` reverses the module.
pub fn diagonal_lines(x: i16, y: i16) -> bool
    ensures { result ≡ turns_at DiagonalLines x y }
{
    let (x, y) = (i32::from(x), i32::from(y));
    (x + y) % 3 == 0
}

/// Returns whether `MaskPattern::LargeCheckerboard` reverses the module.
pub fn large_checkerboard(x: i16, y: i16) -> bool
    ensures { result ≡ turns_at LargeCheckerboard x y }
{
    let (x, y) = (size(x), size(y));
    (y / 2 + x / 3) % 2 == 0
}

/// Returns whether `MaskPattern::Fields` reverses the module.
pub fn fields(x: i16, y: i16) -> bool
    ensures { result ≡ turns_at Fields x y }
{
    let (x, y) = (size(x), size(y));
    (x * y) % 2 + (x * y) % 3 == 0
}

/// Returns whether `MaskPattern::Diamonds` reverses the module.
pub fn diamonds(x: i16, y: i16) -> bool
    ensures { result ≡ turns_at Diamonds x y }
{
    let (x, y) = (size(x), size(y));
    ((x * y) % 2 + (x * y) % 3) % 2 == 0
}

/// Returns whether `MaskPattern::Meadow` reverses the module.
pub fn meadow(x: i16, y: i16) -> bool
    ensures { result ≡ turns_at Meadow x y }
{
    let (x, y) = (size(x), size(y));
    ((x + y) % 2 + (x * y) % 3) % 2 == 0
}
