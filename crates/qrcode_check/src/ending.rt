//! Checks the terminator and padding after the segments.

ghost use Rattle.std.specs.Prelude.{◌≡◌, ◌≤◌, ◌+◌, length, IsTrue};
ghost use Rattle.qrcode_types.specs.Bits.{bit_distance};
ghost use Rattle.qrcode_types.specs.Versions.{is_valid};
ghost use Rattle.qrcode_bits.specs.Written.{padding};
ghost use Rattle.qrcode_check.specs.Ending.{zeros, IsEnding};

use crate::modules::ones;
use qrcode_reader::formats::distance;
use qrcode_types::types::Version;
use qrcode_types::versions::{padding_byte, terminator_length};

/// How many bits after the segments are wrong.
#[derive(Debug, PartialEq, Eq, Copy, Clone)]
pub struct Ending {
    /// Wrong bits of the terminator, and of the zeros after it up to a whole byte.
    pub terminator: usize,
    /// Wrong bits of the padding after these.
    pub padding: usize,
}

// Returns how many zeros should follow the first `used` of `room` bits: the terminator, and more up
// to a whole byte.
fn zeros(version: Version, used: usize, room: usize) -> usize
    requires valid { IsTrue (is_valid version) }
    requires inside { used ≤ room }
    requires room { room ≤ 30000 }
    ensures value { result ≡ zeros version used room }
    ensures inside { used + result ≤ room }
{
    let whole = 8 * (((used + terminator_length(version)).min(room) + 7) / 8);
    whole.min(room) - used
}

// Counts the wrong bits of the padding.
fn wrong_padding(bits: &[bool]) -> usize
    requires { length bits.now ≤ 30000 }
    ensures { result ≡ bit_distance bits.now (padding (length bits.now)) }
{
    let mut rest = bits;
    let mut count = 0;
    for i in 0..bits.len() / 8 {
        let (byte, behind) = rest.split_at(8);
        count += distance(byte, padding_byte(i) as u16);
        rest = behind;
    }
    count + distance(rest, 0)
}

/// Counts the wrong bits of terminator and padding, after the first `used` data `bits` of a version
/// (ISO/IEC 18004:2006, 6.4.9 and 6.4.10).
pub fn ending_behind(version: Version, used: usize, bits: &[bool]) -> Ending
    requires valid { IsTrue (is_valid version) }
    requires inside { used ≤ length bits.now }
    requires room { length bits.now ≤ 30000 }
    ensures { IsEnding version used bits.now result }
{
    let behind = &bits[used..];
    let (zeros, rest) = behind.split_at(zeros(version, used, bits.len()));
    Ending {
        terminator: ones(zeros),
        padding: wrong_padding(rest),
    }
}
