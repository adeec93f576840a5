//! The side of a version, its terminator, and the padding after that.

ghost use Rattle.std.specs.Prelude.{◌≡◌, ◌%◌, ◌≤◌, IsTrue};
ghost use Rattle.qrcode_types.specs.Versions as versions;

use crate::types::Version;

/// Returns the number of modules along a side, without the quiet zone. The version must exist.
pub fn side(version: Version) -> usize
    requires { IsTrue (versions.is_valid version) }
    ensures value { result ≡ versions.side version }
    ensures at_least { 11 ≤ result }
    ensures at_most { result ≤ 177 }
    ensures odd { result % 2 ≡ 1 }
{
    version.width() as usize
}

/// Returns how many zeros the terminator has, if there is room for all (ISO/IEC 18004:2006, 6.4.9).
/// The version must exist.
pub fn terminator_length(version: Version) -> usize
    requires { IsTrue (versions.is_valid version) }
    ensures value { result ≡ versions.terminator_length version }
    ensures at_most { result ≤ 9 }
{
    match version {
        Version::Normal(_) => 4,
        Version::Micro(v) => 2 * (v as usize) + 1,
    }
}

/// Returns the byte at `place` of the padding (ISO/IEC 18004:2006, 6.4.10).
pub fn padding_byte(place: usize) -> u8
    ensures { result ≡ versions.padding_byte place }
{
    if place % 2 == 0 { 0xEC } else { 0x11 }
}
