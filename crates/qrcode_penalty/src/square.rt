//! Squares of packed rows.

ghost use Rattle.std.specs.Prelude.{◌≡◌, ℕ, ◌+◌, ◌<◌, ◌≤◌, length, map, slice_index_or};
ghost use Rattle.qrcode_penalty.specs.Rows.{IsSquare, FitsWidth};

use crate::row::PackedRow;
use std::marker::Model;

/// A square of packed rows, at least 7 by 7. A row has room for at least three bits more than there
/// are columns.
#[derive(Drop)]
pub struct PackedSquare<'a, R: PackedRow> {
    rows: &'a [R],
    width: u32,
}

impl<'a, R: PackedRow> Model for PackedSquare<'a, R> {
    ghost use Rattle.std.specs.Prelude.{map};
    ghost use Rattle.qrcode_penalty.specs.Rows.{PackedRows, IsSquare};

    ghost Value = { PackedRows };

    ghost view = { λ s. record { width = s.width; rows = map R.bits s.rows.now } };

    ghost invariant = { λ s. IsSquare R.room
        (record { width = s.width; rows = map R.bits s.rows.now }) };
}

impl<'a, R: PackedRow> PackedSquare<'a, R> {
    /// Makes a square of these rows, from the top. No row may have a bit at `width` or above.
    #[inline(always)]
    pub fn new(rows: &'a [R], width: u32) -> Self
        requires { IsSquare R.room (record { width = width; rows = map R.bits rows.now }) }
        ensures { result ≡ record { width = width; rows = map R.bits rows.now } }
    {
        PackedSquare { rows, width }
    }

    /// Returns the number of rows, which is also the number of columns.
    #[inline(always)]
    pub fn width(&self) -> u32
        ensures value { result ≡ self.now.width }
        ensures at_most { result ≤ 189 }
        ensures square { IsSquare R.room self.now }
    {
        self.width
    }

    /// Returns row `y`, which must be inside the square.
    #[inline(always)]
    pub fn row(&self, y: usize) -> R
        requires { y < self.now.width }
        ensures value { R.bits result ≡ slice_index_or self.now.rows y 0 }
        ensures fits { FitsWidth self.now.width (R.bits result) }
    {
        let rows = self.rows;
        rows[y]
    }
}
