//! Turns and mirrors squares.

ghost use Rattle.std.specs.Prelude.{◌≡◌, ◌*◌, length, false, IsTrue, IfOk};
ghost use Rattle.qrcode_types.specs.Versions.{is_valid, side};
ghost use Rattle.qrcode_reader.specs.Positions.{seen};
ghost use Rattle.qrcode_damage.specs.Laid.{opposite};

use qrcode_reader::{Position, seen};
use qrcode_types::types::{Color, Version};
use qrcode_types::versions::side;
use std::alloc::{AllocError, Global};

// Returns the position that leads back: if one square lies so in another, this one lies so in it.
fn opposite(position: Position) -> Position
    ensures { result ≡ opposite position }
{
    match position {
        Position::TurnedLeft => Position::TurnedRight,
        Position::TurnedRight => Position::TurnedLeft,
        position => position,
    }
}

/// Returns the square in which a symbol with these modules, row by row, lies in `position`:
/// `qrcode_reader::seen` gives the modules back. `version` must exist, and `modules` have its side.
///
/// Errors: only `AllocError`, if memory runs out.
pub fn laid(
    alloc: Global,
    version: Version,
    position: Position,
    modules: &[Color],
) -> Result<Vec<Color>, AllocError>
    requires valid { IsTrue (is_valid version) }
    requires square { length modules.now ≡ side version * side version }
    ensures square { IfOk result (λ colors. length colors.items ≡ length modules.now) }
    ensures seen { IfOk result (λ colors. seen (side version) position false colors.items
        ≡ modules.now) }
{
    seen(alloc, side(version), opposite(position), false, modules)
}
