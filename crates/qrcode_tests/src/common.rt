//! Shared helpers: rows of tables, segments.

ghost use Rattle.std.specs.Prelude.{◌≡◌};

use qrcode::optimize::Segment;
use qrcode::types::Mode;
use std::process::Abort;

/// Asserts that a row holds; a failure names its `number`.
pub fn check_row(rt: &impl Abort, number: usize, holds: bool) {
    assert!(rt; holds, "row {number}");
}

/// Makes a segment.
pub fn range(mode: Mode, begin: usize, end: usize) -> Segment
    ensures { result ≡ record { mode = mode; begin = begin; end = end } }
{
    Segment { mode, begin, end }
}
