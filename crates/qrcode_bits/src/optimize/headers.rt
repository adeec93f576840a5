//! Counts the bits of mode indicators and length fields.

ghost use Rattle.std.specs.Prelude.{◌≡◌, ◌≤◌, IsTrue};
ghost use Rattle.qrcode_types.specs.Versions.{is_valid};
ghost use Rattle.qrcode_bits.specs.ModeHeaders.{more_than_any, header};

use super::Modes;
use qrcode_types::modes::has_mode;
use qrcode_types::types::{Mode, Version};

// More bits than any data takes.
pub(super) const MORE_THAN_ANY: u32 = 1 << 30;

// Returns the bits of mode indicator and length field, or `MORE_THAN_ANY` if the version or the set
// lacks the mode.
pub(super) fn header(version: Version, modes: Modes, mode: Mode) -> u32
    requires { IsTrue (is_valid version) }
    ensures value { result ≡ header modes version mode }
    ensures at_most { result ≤ more_than_any }
{
    if has_mode(version, mode) && modes.has(mode) {
        (version.mode_bits_count() + mode.length_bits_count(version)) as u32
    } else {
        MORE_THAN_ANY
    }
}
