//! The version of a square, known from its size.

ghost use Rattle.std.specs.Prelude.{◌≡◌, ◌≢◌, ◌*◌, IsTrue, IfSome, IfNone};
ghost use Rattle.qrcode_types.specs.Versions.{is_valid, side};
ghost use Rattle.qrcode_types.specs.declared.types.Version.{Version};

use qrcode_types::types::Version;

/// Returns the version whose square has `count` modules in all, or `None` if no version has.
pub fn version_of(count: usize) -> Option<Version>
    ensures some { IfSome result (λ version.
        IsTrue (is_valid version) × (count ≡ side version * side version)) }
    ensures none { IfNone result ((version : Version) → IsTrue (is_valid version)
        → count ≢ side version * side version) }
{
    for number in 1..5_usize {
        let side = 2 * number + 9;
        if side * side == count {
            return Some(Version::Micro(number as i16));
        }
    }
    for number in 1..41_usize {
        let side = 4 * number + 17;
        if side * side == count {
            return Some(Version::Normal(number as i16));
        }
    }
    None
}
