//! The zigzag walk through the modules that hold data.

ghost use Rattle.std.specs.Prelude.{◌≡◌, ◌+◌, ◌*◌, ◌<◌, ◌≤◌};
ghost use Rattle.qrcode_types.specs.Versions.{side};
ghost use Rattle.qrcode_layout.specs.Stream.{right_column};

use qrcode_types::types::Version;

/// Returns the right column of a pair of columns of the walk. Pairs are numbered from the right,
/// from 0; `width` is the side of the version.
pub fn right_column(version: Version, width: usize, pair: usize) -> usize
    requires width { width ≡ side version }
    requires pair { 2 * pair + 3 ≤ width }
    ensures value { result ≡ right_column version pair }
    ensures at_least { 1 ≤ result }
    ensures at_most { result < width }
{
    let column = width - 1 - 2 * pair;
    if !version.is_micro() && column <= 6 {
        column - 1
    } else {
        column
    }
}
