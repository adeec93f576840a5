//! Which modes a version has, and their mode indicators.

ghost use Rattle.std.specs.Prelude.{◌≡◌, ◌<◌, ◌^◌, IsTrue};
ghost use Rattle.qrcode_types.specs.Versions.{is_valid};
ghost use Rattle.qrcode_types.specs.Modes as modes;

use crate::types::{Mode, Version};

/// Returns whether `version`, which must exist, has `mode`. Normal versions have all modes; Micro
/// versions have those whose number fits the mode indicator.
pub fn has_mode(version: Version, mode: Mode) -> bool
    requires { IsTrue (is_valid version) }
    ensures { result ≡ modes.has_mode version mode }
{
    match version {
        Version::Normal(_) => true,
        Version::Micro(_) => indicator(version, mode) < 1 << version.mode_bits_count(),
    }
}

/// Returns the value of the mode indicator for `mode` (ISO/IEC 18004:2006, table 2).
pub fn indicator(version: Version, mode: Mode) -> u32
    ensures { result ≡ modes.indicator version mode }
{
    match version {
        Version::Normal(_) => match mode {
            Mode::Numeric => 0b0001,
            Mode::Alphanumeric => 0b0010,
            Mode::Byte => 0b0100,
            Mode::Kanji => 0b1000,
        },
        Version::Micro(_) => match mode {
            Mode::Numeric => 0,
            Mode::Alphanumeric => 1,
            Mode::Byte => 2,
            Mode::Kanji => 3,
        },
    }
}
