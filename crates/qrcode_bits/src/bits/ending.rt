//! Writes the terminator and the padding after it.

ghost use Rattle.std.specs.Prelude.{◌≡◌, ◌+◌, ◌*◌, ◌≤◌, ◌++◌};
ghost use Rattle.qrcode_bits.specs.Written.{ending, padding};

use super::stream::Stream;
use qrcode_types::versions::padding_byte;

// Appends the terminator and the padding after `used` bits, up to `capacity` bits.
pub(super) fn push_ending(stream: &mut Stream, terminator: usize, used: usize, capacity: usize)
    requires terminator_at_most { terminator ≤ 9 }
    requires used_at_most { used ≤ capacity }
    requires capacity_at_most { capacity ≤ 23648 }
    requires room { capacity ≤ stream.old.room + used }
    ensures { stream.new.bits ≡ stream.old.bits ++ ending terminator used capacity }
{
    let whole = 8 * (((used + terminator).min(capacity) + 7) / 8);
    let zeros_end = whole.min(capacity);
    stream.push_number((zeros_end - used) as u32, 0);
    push_padding(stream, capacity - zeros_end);
}

// Appends `count` bits: the bytes 0xEC and 0x11 in turn, and zeros if less than a byte is left.
fn push_padding(stream: &mut Stream, count: usize)
    requires { count ≤ stream.old.room }
    ensures { stream.new.bits ≡ stream.old.bits ++ padding count }
{
    for i in 0..count / 8 {
        stream.push_number(8, padding_byte(i).into());
    }
    stream.push_number((count % 8) as u32, 0);
}
