//! Reads the mask of a symbol from its format information.

ghost use Rattle.std.specs.Prelude.{◌≡◌, ◌<◌, ◌≤◌, IsTrue, if◌then◌else◌};
ghost use Rattle.qrcode_types.specs.Colors.{is_dark};
ghost use Rattle.qrcode_types.specs.Versions.{is_valid, has_level};
ghost use Rattle.qrcode_types.specs.declared.types.EcLevel.{EcLevel};
ghost use Rattle.qrcode_layout.specs.Masks.{exists_in};
ghost use Rattle.qrcode_layout.specs.Stream.{color_at};
ghost use Rattle.qrcode_layout.specs.declared.masks.MaskPattern.{MaskPattern};
ghost use Rattle.qrcode_symbol.specs.Symbol.{HasPatterns};

use crate::canvas::MaskPattern;
use crate::types::{Color, Version};
use qrcode_layout::masks::nth_mask;

// Returns 1 if the module in column `x` of row 8 is dark, else 0.
fn bit_at(version: Version, modules: &[Color], x: usize) -> usize
    requires valid { IsTrue (is_valid version) }
    requires column { x < 8 }
    ensures value { result ≡ (if is_dark (color_at version modules.now x 8) then 1 else 0) }
    ensures at_most { result ≤ 1 }
{
    match modules.get(8 * (version.width() as usize) + x) {
        Some(Color::Dark) => 1,
        _ => 0,
    }
}

/// Returns the mask that the format information names. Its number is in three bits, the first and
/// last of which the format's own mask inverts; in Micro in two, of which it inverts the last.
pub(crate) fn mask_of(version: Version, modules: &[Color]) -> MaskPattern
    requires { IsTrue (is_valid version) }
    ensures { (ec_level : EcLevel) (mask : MaskPattern) → IsTrue (has_level version ec_level)
        → IsTrue (exists_in version mask) → HasPatterns version ec_level mask modules.now
        → result ≡ mask }
{
    match version {
        Version::Normal(_) => {
            let first = 1 - bit_at(version, modules, 2);
            let last = 1 - bit_at(version, modules, 4);
            nth_mask(version, 4 * first + 2 * bit_at(version, modules, 3) + last)
        }
        Version::Micro(_) => {
            let last = 1 - bit_at(version, modules, 5);
            nth_mask(version, 2 * bit_at(version, modules, 4) + last)
        }
    }
}
